//! How events were answered, as a line.

ghost use Rattle.std.specs.Prelude.{◌≡◌, string_bytes, IfOk};
ghost use Rattle.operator.specs.DueLines.{tally_first, tally_last, tally_second, tally_text};

use agent::Tally;
use std::alloc::{AllocError, Global};

fn first_counts(alloc: Global, tally: Tally) -> Result<String, AllocError>
    ensures { IfOk result (λ text. string_bytes text ≡ tally_first tally) }
{
    let (done, unread, stray) = (tally.done, tally.unread, tally.stray);
    format!(in alloc; "office: done {done} unread {unread} stray {stray}")
}

fn second_counts(alloc: Global, tally: Tally) -> Result<String, AllocError>
    ensures { IfOk result (λ text. string_bytes text ≡ tally_second tally) }
{
    let (ack, no_branch, clock) = (tally.ack, tally.no_branch, tally.clock);
    format!(in alloc; " ack {ack} no_branch {no_branch} clock {clock}")
}

fn last_counts(alloc: Global, tally: Tally) -> Result<String, AllocError>
    ensures { IfOk result (λ text. string_bytes text ≡ tally_last tally) }
{
    let (spent, shed, idle) = (tally.spent, tally.shed, tally.idle);
    format!(in alloc; " spent {spent} shed {shed} idle {idle}\n")
}

/// The line that says how many events were answered how, with its end.
pub fn tally_line(alloc: Global, tally: Tally) -> Result<String, AllocError>
    ensures { IfOk result (λ line. string_bytes line ≡ tally_text tally) }
{
    let mut line = first_counts(alloc, tally)?;
    line.push_str(&second_counts(alloc, tally)?)?;
    line.push_str(&last_counts(alloc, tally)?)?;
    Ok(line)
}
