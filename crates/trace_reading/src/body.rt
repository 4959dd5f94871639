//! Bodies that are descriptions (RFC 3261 sections 7.4, 20.12 and 20.15).

ghost use Rattle.std.specs.Prelude.{◌≡◌, Some, IfOk};
ghost use Rattle.sdp.specs.Reading.{description_of};
ghost use Rattle.trace_reading.specs.Body.{may_describe, if_read, description_in};

use sdp::{Description, DescriptionError, read_description};
use sip_message::{Header, has_description_type, is_uncoded};
use std::alloc::{AllocError, Global};

#[tactic(auto, unfolding(crate::specs::Body::may_describe))]
fn may_describe(alloc: Global, headers: &[Header<'_>]) -> Result<bool, AllocError>
    ensures { IfOk result (λ b. b ≡ may_describe headers.now) }
{
    if !has_description_type(alloc, headers)? {
        return Ok(false);
    }
    is_uncoded(alloc, headers)
}

fn kept(
    alloc: Global,
    description: &Description<'_>,
) -> Result<Option<Description<'static>>, AllocError>
    ensures { IfOk result (λ d. d ≡ Some description.now) }
{
    Ok(Some(description.keep(alloc)?))
}

/// The body as a description, kept; none where it is not one.
fn description_read(alloc: Global, body: &[u8]) -> Result<Option<Description<'static>>, AllocError>
    ensures { IfOk result (λ d. d ≡ if_read (description_of body.now)) }
{
    match read_description(alloc, body) {
        Ok(description) => kept(alloc, &description),
        Err(DescriptionError::OutOfMemory) => Err(AllocError),
        Err(_) => Ok(None),
    }
}

/// What the body of a message with these header fields describes.
#[tactic(auto, unfolding(crate::specs::Body::description_in))]
pub(crate) fn description_in(
    alloc: Global,
    headers: &[Header<'_>],
    body: &[u8],
) -> Result<Option<Description<'static>>, AllocError>
    ensures { IfOk result (λ d. d ≡ description_in headers.now body.now) }
{
    if !may_describe(alloc, headers)? {
        return Ok(None);
    }
    description_read(alloc, body)
}
