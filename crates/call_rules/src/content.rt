//! What the body of a message is by its header fields, and what it describes.

ghost use Rattle.std.specs.Prelude.{◌≡◌, List, None, Some, IfOk};
ghost use Rattle.sdp.specs.Reading.{description_of};
ghost use Rattle.sip_message.specs.declared.headers.Header.{Header};
ghost use Rattle.call_rules.specs.Content.{coding_rule, content_rule, described, described_by, if_read};

use sdp::{Description, DescriptionError, read_description};
use sip_message::{Header, has_description_type, is_uncoded};
use std::alloc::{AllocError, Global};

/// Why a body is not taken (RFC 3261 section 8.2.3).
#[derive(Clone, Copy)]
pub enum ContentRule {
    /// Its type is not that of a description (section 20.15).
    Type,
    /// It is coded (section 20.12).
    Encoding,
}

fn coding_rule(alloc: Global, headers: &[Header<'_>]) -> Result<Option<ContentRule>, AllocError>
    ensures { IfOk result (λ rule. rule ≡ coding_rule headers.now) }
{
    if is_uncoded(alloc, headers)? {
        return Ok(None);
    }
    Ok(Some(ContentRule::Encoding))
}

/// Why the body of a message with these header fields is not taken, if it is not: its type is checked first. A body
/// whose type is not named counts as a description.
#[tactic(auto, unfolding(crate::specs::Content::content_rule))]
pub fn content_rule(
    alloc: Global,
    headers: &[Header<'_>],
) -> Result<Option<ContentRule>, AllocError>
    ensures { IfOk result (λ rule. rule ≡ content_rule headers.now) }
{
    if !has_description_type(alloc, headers)? {
        return Ok(Some(ContentRule::Type));
    }
    coding_rule(alloc, headers)
}

/// The body as a description; none where it is not one.
fn description_read(alloc: Global, body: &[u8]) -> Result<Option<Description<'_>>, AllocError>
    ensures { IfOk result (λ d. d ≡ if_read (description_of body.now)) }
{
    match read_description(alloc, body) {
        Ok(description) => Ok(Some(description)),
        Err(DescriptionError::OutOfMemory) => Err(AllocError),
        Err(_) => Ok(None),
    }
}

/// What a body describes, whose type and coding are known to be taken; none where it can't be read.
pub fn taken_description(alloc: Global, body: &[u8]) -> Result<Option<Description<'_>>, AllocError>
    ensures { (headers : List Header) → content_rule headers ≡ None → IfOk result (λ d. d ≡ described headers body.now) }
{
    description_read(alloc, body)
}

fn described_by(
    alloc: Global,
    rule: Option<ContentRule>,
    body: &[u8],
) -> Result<Option<Description<'_>>, AllocError>
    ensures { IfOk result (λ d. d ≡ described_by rule body.now) }
{
    match rule {
        None => description_read(alloc, body),
        Some(_) => Ok(None),
    }
}

/// What the body of a message with these header fields describes; none where there is no body, where it is not taken,
/// and where it can't be read.
#[tactic(auto, unfolding(crate::specs::Content::described))]
pub fn body_description<'d>(
    alloc: Global,
    headers: &[Header<'_>],
    body: &'d [u8],
) -> Result<Option<Description<'d>>, AllocError>
    ensures { IfOk result (λ d. d ≡ described headers.now body.now) }
{
    let rule = content_rule(alloc, headers)?;
    described_by(alloc, rule, body)
}
