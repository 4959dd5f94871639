//! What the body of a message is according to its header fields: its type and its codings (RFC 3261 sections 7.4,
//! 20.12 and 20.15).

ghost use Rattle.std.specs.Prelude.{◌≡◌, map, IfOk};
ghost use Rattle.std.specs.List.{list_all};
ghost use Rattle.sip_message.specs.Content.{has_description_type, is_identity, is_uncoded, is_uncoded_by};

use crate::words::content_type;
use header_fields::{FieldValue, Header, values_named};
use std::alloc::{AllocError, Global};
use text::{pieces, trim_blanks};

fn is_identity(coding: &[u8]) -> bool
    ensures { result ≡ is_identity coding.now }
{
    trim_blanks(coding).eq_ignore_ascii_case(b"identity")
}

fn are_identities(codings: &[&[u8]]) -> bool
    ensures { result ≡ list_all is_identity (map (λ c. c.now) codings.now) }
{
    for coding in codings {
        if !is_identity(coding) {
            return false;
        }
    }
    true
}

/// Whether a Content-Encoding with this value leaves the body as it is.
fn is_uncoded_by(alloc: Global, value: &FieldValue<'_>) -> Result<bool, AllocError>
    ensures { IfOk result (λ b. b ≡ is_uncoded_by value.now) }
{
    let text = value.text(alloc)?;
    let codings = pieces(alloc, text.as_bytes(), b',')?;
    Ok(are_identities(&codings))
}

fn is_uncoded_by_each(alloc: Global, values: &[&FieldValue<'_>]) -> Result<bool, AllocError>
    ensures { IfOk result (λ b. b ≡ list_all is_uncoded_by (map (λ v. v.now) values.now)) }
{
    for value in values {
        if !is_uncoded_by(alloc, value)? {
            return Ok(false);
        }
    }
    Ok(true)
}

/// Whether each element of Content-Encoding leaves the body as it is: `identity`, ignoring case. It does if that
/// header field is absent; an empty element is not a coding, so the body counts as coded.
pub fn is_uncoded(alloc: Global, headers: &[Header<'_>]) -> Result<bool, AllocError>
    ensures uncoded { IfOk result (λ b. b ≡ is_uncoded headers.now) }
{
    let values = values_named(alloc, headers, b"Content-Encoding")?;
    is_uncoded_by_each(alloc, &values)
}

/// Whether Content-Type is that of a description, `application/sdp`, or is absent.
pub fn has_description_type(alloc: Global, headers: &[Header<'_>]) -> Result<bool, AllocError>
    ensures description_type { IfOk result (λ b. b ≡ has_description_type headers.now) }
{
    match content_type(alloc, headers)? {
        Some(range) => Ok(range.as_bytes() == b"application/sdp".as_slice()),
        None => Ok(true),
    }
}
