//! The parameters of a header field (RFC 3261 section 25.1, generic-param).

ghost use Rattle.std.specs.Prelude.{◌≡◌, ◌∷◌, [], not, map, Some, IfOk, IfSome};
ghost use Rattle.std.specs.List.{list_all, position};
ghost use Rattle.std.specs.Option.{option_copied};
ghost use Rattle.text.specs.Class.{is_run_of, is_token_byte};
ghost use Rattle.sip_uri.specs.FieldParams.{is_bracket_byte, is_bracketed, is_field_value, field_param_read, field_params_read};

use crate::quotes::is_quoted;
use crate::uri::{Param, Params};
use std::alloc::{AllocError, Global};
use text::{Text, cut, cut_piece, is_run_of_token, is_token_byte, trim_blanks};

fn is_bracket_byte(b: u8) -> bool
    ensures { result ≡ is_bracket_byte b }
{
    b.is_ascii_hexdigit() || b":.".contains(&b)
}

fn all_bracket(text: &[u8]) -> bool
    ensures { result ≡ list_all is_bracket_byte text.now }
{
    text.iter().all(|b| is_bracket_byte(*b))
}

fn is_run_of_bracket(text: &[u8]) -> bool
    ensures { result ≡ is_run_of is_bracket_byte text.now }
{
    !text.is_empty() && all_bracket(text)
}

#[tactic(auto, unfolding(crate::specs::FieldParams::is_bracketed))]
fn is_bracketed(text: &[u8]) -> bool
    ensures { result ≡ is_bracketed text.now }
{
    let [b'[', rest @ ..] = text else {
        return false;
    };
    match cut(rest, b']') {
        (address, Some(after)) => is_run_of_bracket(address) && after.is_empty(),
        (_, None) => false,
    }
}

#[tactic(auto, unfolding(crate::specs::FieldParams::is_field_value))]
fn is_field_value(text: &[u8]) -> bool
    ensures { result ≡ is_field_value text.now }
{
    is_run_of_token(text) || is_quoted(text) || is_bracketed(text)
}

/// The parameter in a piece, if it is well formed.
#[tactic(auto, unfolding(crate::specs::FieldParams::is_field_param, crate::specs::FieldParams::field_param_read))]
fn field_param(piece: &[u8]) -> Option<Param<'_>>
    ensures { result ≡ field_param_read piece.now }
{
    let (name, value) = cut(piece, b'=');
    let name = trim_blanks(name);
    if !is_run_of_token(name) {
        return None;
    }
    let value = match value {
        Some(value) => {
            let value = trim_blanks(value);
            if !is_field_value(value) {
                return None;
            }
            Some(Text::lent(value))
        }
        None => None,
    };
    Some(Param {
        name: Text::lent(name),
        value,
    })
}

/// The place of the first byte that is in no token.
fn token_end(text: &[u8]) -> Option<usize>
    ensures { result ≡ position (λ b. not (is_token_byte b)) text.now }
{
    text.iter().position(|b| !is_token_byte(*b))
}

/// The parameter that is the whole text, if it is a token, `=` and a token, as most are. It then has no separator and
/// no blank, and is scanned once.
fn plain_param(text: &[u8]) -> Option<Param<'_>>
    ensures { IfSome result (λ p. field_params_read (Some text.now) ≡ Some (p ∷ [])) }
{
    let at = token_end(text)?;
    if at == 0 || text[at] != b'=' {
        return None;
    }
    let value = &text[at + 1..];
    if !is_run_of_token(value) {
        return None;
    }
    Some(Param {
        name: Text::lent(&text[..at]),
        value: Some(Text::lent(value)),
    })
}

/// The parameters of a text, if each piece of it is well formed.
fn field_params(alloc: Global, text: &[u8]) -> Result<Option<Params<'_>>, AllocError>
    ensures { IfOk result (λ o. o ≡ field_params_read (Some text.now)) }
{
    let mut params = Vec::new(alloc);
    let mut left = Some(text);
    while let Some(text) = left {
        params.reserve(1)?;
        if let Some(param) = plain_param(text) {
            params.push_reserved(param);
            return Ok(Some(Params::from_vec(params)));
        }
        let (piece, behind) = cut_piece(text, b';');
        let Some(param) = field_param(piece) else {
            return Ok(None);
        };
        params.push_reserved(param);
        left = behind;
    }
    Ok(Some(Params::from_vec(params)))
}

/// The parameters of a header field, each `name` or `name=value` with blanks around its parts and semicolons between
/// them. `None` if the text has another form. A value in quotation marks keeps them.
#[tactic(auto, unfolding(crate::specs::FieldParams::field_params_read))]
pub fn read_field_params(
    alloc: Global,
    text: Option<&[u8]>,
) -> Result<Option<Params<'_>>, AllocError>
    ensures { IfOk result (λ o. o ≡ field_params_read (option_copied text.entry)) }
{
    match text {
        Some(text) => field_params(alloc, text),
        None => Ok(Some(Params::from_vec(Vec::new(alloc)))),
    }
}
