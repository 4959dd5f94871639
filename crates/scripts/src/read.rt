//! Reading scripts.

ghost use Rattle.std.specs.Prelude.{◌≡◌, List, IfOk, IfErr, IfNone, IfSome, MatchResult};
ghost use Rattle.events.specs.declared.event.Event.{Event};
ghost use Rattle.scripts.specs.declared.error.ScriptError.TheVariants.{OutOfMemory};
ghost use Rattle.scripts.specs.Grammar.{IsMalformedAt, ReadsScript, Refuses};

use crate::entry::next_of;
use crate::error::ScriptError;
use events::Event;
use std::alloc::Global;

fn read(alloc: Global, text: &[u8]) -> Result<Vec<Event>, ScriptError>
    ensures found { IfOk result (λ events. ReadsScript text.now events.items) }
    ensures only { (es : List Event) → ReadsScript text.now es → MatchResult result (λ events. events.items ≡ es) (λ e. e ≡ OutOfMemory) }
    ensures refused { IfErr result (λ e. Refuses text.now e) }
{
    let mut events = Vec::new(alloc);
    let mut rest = text;
    while !rest.is_empty() {
        let Some(entry) = next_of(rest) else {
            return Err(ScriptError::Malformed);
        };
        events.push(entry.event(alloc)?)?;
        rest = entry.rest();
    }
    Ok(events)
}

/// The events of a script, in order. An empty text is a script without events.
pub fn read_script(alloc: Global, text: &[u8]) -> Result<Vec<Event>, ScriptError>
    // What is read is the events that the text contains.
    ensures found { IfOk result (λ events. ReadsScript text.now events.items) }
    // A script is read, unless memory runs out, and as no other events.
    ensures only { (es : List Event) → ReadsScript text.now es → MatchResult result (λ events. events.items ≡ es) (λ e. e ≡ OutOfMemory) }
    // Each refusal has its reason.
    ensures refused { IfErr result (λ e. Refuses text.now e) }
{
    read(alloc, text)
}

/// The place of the first line that begins no event, as a count of the bytes before it; none if the text is a script.
/// Takes no memory.
pub fn malformed_at(text: &[u8]) -> Option<usize>
    // Events come before it, and none begins there.
    ensures some { IfSome result (IsMalformedAt text.now) }
    // The text is a script.
    ensures none { IfNone result ((es : List Event) × ReadsScript text.now es) }
{
    let mut rest = text;
    while !rest.is_empty() {
        let Some(entry) = next_of(rest) else {
            return Some(text.len() - rest.len());
        };
        rest = entry.rest();
    }
    None
}
