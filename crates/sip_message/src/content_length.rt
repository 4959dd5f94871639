//! The body of a message, by its Content-Length (RFC 3261 sections 18.3 and 20.14).

ghost use Rattle.std.specs.Prelude.{◌≡◌};
ghost use Rattle.std.specs.Option.{option_copied};
ghost use Rattle.sip_message.specs.Faults.{Gives};
ghost use Rattle.sip_message.specs.Lookup.{IsFound};
ghost use Rattle.sip_message.specs.ContentLength.{body_by, body_of, long_enough, without_length};

use crate::error::MessageError;
use crate::header_names::HeaderName;
use crate::lookup::Found;
use header_fields::{FieldValue, Header, Headers, is_named};
use std::alloc::Global;
use text::{Text, is_run_of_digits, number_upto};

fn cut_body(length: Option<u32>, rest: &[u8]) -> Result<Text<'_>, MessageError>
    ensures { Gives result (long_enough length rest.now) }
{
    let Some(length) = length else {
        return Err(MessageError::Short);
    };
    let length = length as usize;
    if rest.len() < length {
        return Err(MessageError::Short);
    }
    Ok(Text::lent(&rest[..length]))
}

fn body_by<'a>(
    alloc: Global,
    value: Option<&FieldValue<'_>>,
    rest: &'a [u8],
) -> Result<Text<'a>, MessageError>
    ensures { Gives result (body_by rest.now (option_copied value.entry)) }
{
    let Some(value) = value else {
        return Ok(Text::lent(rest));
    };
    let text = value.text(alloc)?;
    if !is_run_of_digits(text.as_bytes()) {
        return Err(MessageError::Unreadable(HeaderName::ContentLength));
    }
    cut_body(number_upto(u32::MAX, text.as_bytes()), rest)
}

/// The body: of what follows the header fields, as many bytes as Content-Length says, or all.
#[tactic(auto, unfolding(crate::specs::ContentLength::body_of), using(crate::proofs::FaultLaws::fails_itself))]
pub(crate) fn read_body<'a>(
    alloc: Global,
    found: &Found<'_, '_>,
    rest: &'a [u8],
) -> Result<Text<'a>, MessageError>
    requires { IsFound found.now }
    ensures { Gives result (body_of found.now.headers.now rest.now) }
{
    let length = found.content_length()?;
    body_by(alloc, length, rest)
}

fn drop_length(headers: &mut Vec<Header<'_>>)
    ensures { headers.new.items ≡ without_length headers.old.items }
{
    headers.retain(|header| !is_named(header, b"Content-Length"));
}

/// Every header field except Content-Length.
pub(crate) fn without_length(headers: Headers<'_>) -> Headers<'_>
    ensures { result ≡ without_length headers.entry }
{
    let mut kept = headers.into_vec();
    drop_length(&mut kept);
    Headers::from_vec(kept)
}
