//! The first event of a text to which more may be added.

ghost use Rattle.std.specs.Prelude.{◌≡◌, ◌≤◌, ◌-◌, List, ℕ, drop, length, Some, IfErr, IfOk, IfNone, IfSome, MatchResult, option_map};
ghost use Rattle.events.specs.declared.event.Event.{Event};
ghost use Rattle.scripts.specs.declared.error.ScriptError.TheVariants.{OutOfMemory};
ghost use Rattle.scripts.specs.Grammar.{Begins, NeedsMore, RefusesFirst};
ghost use Rattle.scripts.specs.Reading.{is_cut_behind, is_cut_off, lacks_bytes, lacks_datagram};

use crate::entry::{is_same, next_of};
use crate::error::ScriptError;
use crate::head::{Head, head_of};
use events::Event;
use std::alloc::Global;
use text::cut;

/// Whether there are fewer bytes than a datagram's and their line feed.
fn lacks_bytes(head: Option<Head>, behind: &[u8]) -> bool
    ensures { result ≡ lacks_bytes head behind.now }
{
    match head {
        Some(head) => behind.len() <= head.count,
        None => false,
    }
}

fn lacks_datagram(kind: &[u8], fields: Option<&[u8]>, behind: &[u8]) -> bool
    ensures { result ≡ lacks_datagram kind.now (option_map (λ t. t.now) fields.entry) behind.now }
{
    match fields {
        Some(fields) => is_same(kind, b"D") && lacks_bytes(head_of(fields), behind),
        None => false,
    }
}

/// Whether the first line has no end, or its datagram is not yet whole.
#[tactic(auto, unfolding(crate::specs::Reading::is_cut_off))]
fn is_cut_off(text: &[u8]) -> bool
    ensures { result ≡ is_cut_off text.now }
{
    let (line, behind) = cut(text, b'\n');
    let Some(behind) = behind else {
        return true;
    };
    let (kind, fields) = cut(line, b' ');
    lacks_datagram(kind, fields, behind)
}

/// The event at the head of a text to which more may be added, and how many bytes of the text it takes. None if the
/// text is too short for one.
pub fn first_event(alloc: Global, text: &[u8]) -> Result<Option<(Event, usize)>, ScriptError>
    // The event is at the head, and takes this many bytes.
    ensures found { IfOk result (λ first. IfSome first (λ f. Begins text.now f.0 (drop f.1 text.now))) }
    ensures bound { IfOk result (λ first. IfSome first (λ f. f.1 ≤ length text.now)) }
    // No event is whole, and its line, or its datagram, has no end.
    ensures more { IfOk result (λ first. IfNone first (NeedsMore text.now)) }
    // An event at the head is read, unless memory runs out, and no other.
    ensures only { (e : Event) (rest : List ℕ) → Begins text.now e rest → MatchResult result (λ first. first ≡ Some (e, length text.now - length rest)) (λ x. x ≡ OutOfMemory) }
    // Each refusal has its reason: whatever follows, no event begins.
    ensures refused { IfErr result (RefusesFirst text.now) }
{
    let Some(entry) = next_of(text) else {
        if is_cut_off(text) {
            return Ok(None);
        }
        return Err(ScriptError::Malformed);
    };
    let length = text.len() - entry.rest().len();
    Ok(Some((entry.event(alloc)?, length)))
}
