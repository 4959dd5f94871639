//! A header field: a first line with its name and a colon, and the lines that continue it.

ghost use Rattle.std.specs.Prelude.{◌≡◌, not, Some, IfSome, option_map};
ghost use Rattle.std.specs.List.{position};
ghost use Rattle.text.specs.Class.{is_token_byte};
ghost use Rattle.text.specs.Trim.{trimmed};
ghost use Rattle.header_fields.specs.HeaderNames.{long_name};
ghost use Rattle.header_fields.specs.Fields.{begins_blank, name_and_value};

use crate::field_value::FieldValue;
use crate::header_names::long_name;
use crate::headers::Header;
use text::{Text, cut, is_blank, is_run_of_token, is_token_byte, trim_blanks};

/// Whether the line begins with a space or a tab, and so continues the field before it.
pub(crate) fn begins_blank(line: &[u8]) -> bool
    ensures { result ≡ begins_blank line.now }
{
    match line {
        [first, ..] => is_blank(*first),
        [] => false,
    }
}

/// The place of the first byte that is in no token.
fn token_end(line: &[u8]) -> Option<usize>
    ensures { result ≡ position (λ b. not (is_token_byte b)) line.now }
{
    line.iter().position(|b| !is_token_byte(*b))
}

/// The name of a field and what comes after the colon, if the colon comes right after the name.
fn name_at_colon(line: &[u8]) -> Option<(&[u8], &[u8])>
    ensures { IfSome result (λ x. name_and_value line.now ≡ Some (x.0.now, x.1.now)) }
{
    let at = token_end(line)?;
    if at == 0 || line[at] != b':' {
        return None;
    }
    Some((&line[..at], &line[at + 1..]))
}

/// The name of a field, and what its first line has after the colon.
pub(crate) fn name_and_value(line: &[u8]) -> Option<(&[u8], &[u8])>
    ensures { option_map (λ x. (x.0.now, x.1.now)) result ≡ name_and_value line.now }
{
    if let Some(parts) = name_at_colon(line) {
        return Some(parts);
    }
    let (before, after) = cut(line, b':');
    let begun = after?;
    let name = trim_blanks(before);
    if !is_run_of_token(name) {
        return None;
    }
    Some((name, begun))
}

/// The header of one line.
pub(crate) fn header<'a>(name: &'a [u8], begun: &'a [u8]) -> Header<'a>
    ensures { result ≡ record { name = long_name name.now; value = trimmed begun.now } }
{
    Header {
        name: Text::lent(long_name(name)),
        value: FieldValue::whole(Text::lent(trim_blanks(begun))),
    }
}
