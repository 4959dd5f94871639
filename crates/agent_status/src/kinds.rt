//! How many events of a kind there were.

ghost use Rattle.std.specs.Prelude.{◌≡◌, map, IfOk};
ghost use Rattle.agent_status.specs.Events.{event_counts, shown_count};

use agent::Tally;
use status::EventCount;
use std::alloc::{AllocError, Global};

fn event_count(kind: &'static str, count: u64) -> EventCount
    ensures kind { result.kind.now ≡ kind.now }
    ensures count { result.count ≡ count }
{
    EventCount { kind, count }
}

/// The counts, in the order of the line of counts.
pub(crate) fn event_counts(alloc: Global, tally: Tally) -> Result<Vec<EventCount>, AllocError>
    ensures { IfOk result (λ counts. map shown_count counts.items ≡ event_counts tally) }
{
    let counts = Vec::from_array(
        alloc,
        [
            event_count("done", tally.done),
            event_count("unread", tally.unread),
            event_count("stray", tally.stray),
            event_count("ack", tally.ack),
            event_count("no_branch", tally.no_branch),
            event_count("clock", tally.clock),
            event_count("spent", tally.spent),
            event_count("shed", tally.shed),
            event_count("idle", tally.idle),
        ],
    )?;
    Ok(counts)
}
