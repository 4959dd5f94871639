//! Reading descriptions.

ghost use Rattle.std.specs.Prelude.{◌≡◌, Ok, Err, IfOk, IfErr, IsTrue};
ghost use Rattle.sdp.specs.declared.description.Description.{Description};
ghost use Rattle.sdp.specs.declared.error.DescriptionError.TheVariants as DescriptionError;
ghost use Rattle.sdp.specs.Faults.{Gives};
ghost use Rattle.sdp.specs.Grammar.{ReadsDescription, Refuses};
ghost use Rattle.sdp.specs.Lines.{texts};
ghost use Rattle.sdp.specs.Reading.{is_sound, said_by, description_of};

use crate::description::Description;
use crate::error::DescriptionError;
use crate::judge::{are_connections, are_formed, are_media, has_origin, is_version, judgment};
use crate::order::is_ordered;
use crate::split::lines_of;
use crate::value::value_of;
use std::alloc::Global;

#[tactic(auto, unfolding(crate::specs::Reading::said_by))]
fn read_lines<'a>(alloc: Global, lines: &[&'a [u8]]) -> Result<Description<'a>, DescriptionError>
    ensures description { Gives result (said_by (texts lines.now)) }
    // No memory is allocated until each line has passed.
    ensures memory { result ≡ Err DescriptionError.OutOfMemory → IsTrue (is_sound (texts lines.now)) }
{
    if !is_version(lines) {
        return Err(DescriptionError::Version);
    }
    if !has_origin(lines) {
        return Err(DescriptionError::Origin);
    }
    if !are_connections(lines) {
        return Err(DescriptionError::Connection);
    }
    if !are_media(lines) {
        return Err(DescriptionError::Medium);
    }
    judgment(value_of(alloc, lines)?)
}

#[tactic(auto, unfolding(crate::specs::Reading::description_of))]
fn read(alloc: Global, bytes: &[u8]) -> Result<Description<'_>, DescriptionError>
    ensures { Gives result (description_of bytes.now) }
{
    let (lines, clean) = lines_of(alloc, bytes)?;
    if !is_ordered(&lines) {
        return Err(DescriptionError::Order);
    }
    if !are_formed(&lines, clean) {
        return Err(DescriptionError::LineForm);
    }
    read_lines(alloc, &lines)
}

/// The description in the bytes (RFC 4566). Of several faults, the first in the order of `DescriptionError` is
/// returned.
pub fn read_description(alloc: Global, bytes: &[u8]) -> Result<Description<'_>, DescriptionError>
    // What is read is the description that the bytes are.
    ensures found { IfOk result (λ d. ReadsDescription bytes.now d) }
    // A description is read, unless memory runs out.
    ensures only { (d : Description) → ReadsDescription bytes.now d → Gives result (Ok d) }
    // Each refusal has its reason.
    ensures refused { IfErr result (λ e. Refuses bytes.now e) }
    // All of this at once, as a function of the bytes.
    ensures exact { Gives result (description_of bytes.now) }
{
    read(alloc, bytes)
}
