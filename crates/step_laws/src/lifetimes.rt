//! What a step does for a call whose lifetime ends, or whose media have stopped.

ghost use Rattle.std.specs.Prelude.{◌≡◌, ℕ, List, Some};
ghost use Rattle.timers.specs.Queue.{moment};
ghost use Rattle.call_core.specs.declared.action.CallTimer.TheVariants.{Lifetime};
ghost use Rattle.call_core.specs.declared.stage.Stage.TheVariants as stages;
ghost use Rattle.call_core.specs.declared.stage.Standing.{Standing};
ghost use Rattle.call_media.specs.declared.end.End.TheVariants.{Caller};
ghost use Rattle.call_trace.specs.declared.datagram.Datagram.{Datagram};
ghost use Rattle.calls.specs.declared.standing_call.StandingCall.{StandingCall};
ghost use Rattle.calls.specs.Timing.{id, same_timer};
ghost use Rattle.calls.specs.Timing as timing;
ghost use Rattle.event_rows.specs.Lifetimes.{lifetime_begun};
ghost use Rattle.event_rows.specs.Rows.{after, moment_after, row};
ghost use Rattle.event_rows.specs.State.{Contents};
ghost use Rattle.events.specs.declared.event.Event.{Event};
ghost use Rattle.media_laws.specs.Standing.{AgentStands};
ghost use Rattle.step_laws.specs.Acks.{LeavesOffererFirst};
ghost use Rattle.step_laws.specs.Leaving.{StandsAt};
ghost use Rattle.step_laws.specs.Lifetimes.{FallsSilent, LifetimeIsOver};

use offer_answer::sent_is_read;
use sip_writing::written_is_read;
use trace_reading::{bodies_describe, bytes_say_all};

/// Where the office limits how long a call may last, the event with its first answer sets its timer, to that many
/// milliseconds after the event (`begins`). A call is settled: where its lifetime ends (`over`), and where its media
/// have stopped (`silent`), both ends get a BYE, first the caller (RFC 3261 section 15), and nothing else is sent.
/// This holds after any events.
pub fn calls_end_with_their_lifetimes()
    ensures begins { (s : Contents) (event : Event) (number longest : ℕ) → lifetime_begun (row s event).plan.note ≡ Some number → s.lifetime ≡ Some longest →
        moment same_timer (after s event).calls.timers (id number Lifetime) ≡ Some (timing.moment_after (moment_after s event) longest) }
    ensures over { (s : Contents) (event : Event) (t : List Datagram) (k : ℕ) → AgentStands s t k → (place : ℕ) (c : StandingCall) (n : Standing) → StandsAt s place c n →
        n.stage ≡ stages.Settled → LifetimeIsOver s event place → LeavesOffererFirst c Caller (row s event) }
    ensures silent { (s : Contents) (event : Event) (t : List Datagram) (k : ℕ) → AgentStands s t k → (place : ℕ) (c : StandingCall) (n : Standing) → StandsAt s place c n →
        n.stage ≡ stages.Settled → FallsSilent s event place → LeavesOffererFirst c Caller (row s event) }
{
    bytes_say_all();
    written_is_read();
    bodies_describe();
    sent_is_read();
}
