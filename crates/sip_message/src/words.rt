//! Message vocabulary that the crates above share.

ghost use Rattle.std.specs.Prelude.{◌≡◌, ◌++◌, ◌∷◌, IfOk};
ghost use Rattle.std.specs.List.{list_all};
ghost use Rattle.std.specs.Option.{option_copied};
ghost use Rattle.sip_message.specs.Words.{param_value, top_branch, tag_value, tag_text, is_method, class_of, lower_case, is_range_byte, media_range, content_type_of};

use crate::message::Parts;
use crate::via::Vias;
use header_fields::{Header, first_value};
use sip_uri::{Param, param_named};
use std::alloc::{AllocError, Global};
use text::{Text, cut, trim_blanks};

/// The class of a response's status (RFC 3261 section 7.2).
#[derive(Clone, Copy)]
pub enum Class {
    /// Below 200.
    Provisional,
    /// 200 to 299.
    Success,
    /// 300 and above: a final response that is not a success.
    Failure,
}

/// The class of a status. Takes no memory.
pub fn class_of(status: u16) -> Class
    ensures class { result ≡ class_of status }
{
    if status < 200 {
        Class::Provisional
    } else if status < 300 {
        Class::Success
    } else {
        Class::Failure
    }
}

fn param_value<'m, 'a>(params: &'m [Param<'a>], name: &[u8]) -> Option<&'m Text<'a>>
    ensures { option_copied result ≡ param_value name.now params.now }
{
    match param_named(params, name) {
        Some(param) => param.value.as_ref(),
        None => None,
    }
}

/// The branch of the top Via, if it has one (RFC 3261 section 8.1.1.7). Takes no memory.
pub fn top_branch<'m, 'a>(vias: &'m Vias<'a>) -> Option<&'m Text<'a>>
    ensures branch { option_copied result ≡ top_branch vias.now }
{
    match vias.as_slice() {
        [] => None,
        [via, ..] => param_value(via.params.as_slice(), b"branch"),
    }
}

/// The tag of a From or To with these parameters, if it has one (RFC 3261 section 19.3). Takes no memory.
pub fn tag_value<'m, 'a>(params: &'m [Param<'a>]) -> Option<&'m Text<'a>>
    ensures tag { option_copied result ≡ tag_value params.now }
{
    param_value(params, b"tag")
}

/// The tag of a From or To with these parameters, as a text that is empty if there is none (RFC 3261 section 12.1.1).
/// Takes no memory.
pub fn tag_text<'m>(params: &'m [Param<'_>]) -> &'m [u8]
    ensures tag { result.now ≡ tag_text params.now }
{
    match tag_value(params) {
        Some(tag) => tag.as_bytes(),
        None => b"",
    }
}

/// Whether this is the method of CSeq. Takes no memory.
pub fn is_method(parts: &Parts<'_>, name: &[u8]) -> bool
    ensures method { result ≡ is_method name.now parts.now }
{
    parts.cseq.method.as_bytes() == name
}

/// A byte of a media range in lower case: neither a blank nor a capital letter.
fn is_range_byte(b: u8) -> bool
    ensures { result ≡ is_range_byte b }
{
    b > b'Z' || (b' ' < b && b < b'A')
}

/// Whether a media range is already in its final form, as most are.
fn is_lower_range(text: &[u8]) -> bool
    ensures { result ≡ list_all is_range_byte text.now }
{
    text.iter().all(|b| is_range_byte(*b))
}

fn lower_range(alloc: Global, kind: &[u8], subtype: &[u8]) -> Result<Text<'static>, AllocError>
    ensures { IfOk result (λ range. range ≡ lower_case kind.now ++ 47 ∷ lower_case subtype.now) }
{
    let mut out = Vec::with_capacity(alloc, kind.len() + 1 + subtype.len())?;
    out.extend_from_slice(kind)?;
    out.push(b'/')?;
    out.extend_from_slice(subtype)?;
    out.as_mut_slice().make_ascii_lowercase();
    Ok(Text::from_vec(out))
}

#[tactic(auto, using(crate::proofs::MediaLaws::range_kept))]
fn media_range(alloc: Global, text: &[u8]) -> Result<Text<'static>, AllocError>
    ensures { IfOk result (λ range. range ≡ media_range text.now) }
{
    let (kind, subtype) = cut(text, b'/');
    if subtype.is_some() && is_lower_range(text) {
        return Text::from_slice(alloc, text);
    }
    lower_range(
        alloc,
        trim_blanks(kind),
        trim_blanks(subtype.unwrap_or(b"")),
    )
}

/// What the body is according to Content-Type: `type/subtype` in lower case, without its parameters, if that header
/// field is present (RFC 3261 sections 7.4.1 and 20.15).
pub fn content_type(
    alloc: Global,
    headers: &[Header<'_>],
) -> Result<Option<Text<'static>>, AllocError>
    ensures content_type { IfOk result (λ kind. kind ≡ content_type_of headers.now) }
{
    let Some(value) = first_value(headers, b"Content-Type") else {
        return Ok(None);
    };
    let text = value.text(alloc)?;
    let (range, _) = cut(text.as_bytes(), b';');
    Ok(Some(media_range(alloc, range)?))
}
