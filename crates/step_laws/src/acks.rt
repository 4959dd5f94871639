//! What a step does for a 200 with an answer, until its ACK comes.

ghost use Rattle.std.specs.Prelude.{◌≡◌, true, ℕ, List, [], ◌∷◌};
ghost use Rattle.sip_message.specs.declared.message.Request.{Request};
ghost use Rattle.sip_uri.specs.declared.uri.Addr.{Addr};
ghost use Rattle.call_core.specs.Calls.{has_session};
ghost use Rattle.call_core.specs.declared.action.CallTimer.TheVariants as timers;
ghost use Rattle.call_core.specs.declared.stage.Stage.TheVariants as stages;
ghost use Rattle.call_core.specs.declared.stage.Standing.{Standing};
ghost use Rattle.call_media.specs.declared.end.End.{End};
ghost use Rattle.call_trace.specs.declared.datagram.Datagram.{Datagram};
ghost use Rattle.calls.specs.Finding.{awaits_ack};
ghost use Rattle.calls.specs.declared.standing_call.StandingCall.{StandingCall};
ghost use Rattle.event_rows.specs.Rows.{row};
ghost use Rattle.event_rows.specs.State.{Contents};
ghost use Rattle.events.specs.declared.event.Event.{Event};
ghost use Rattle.media_laws.specs.Standing.{AgentStands};
ghost use Rattle.message_laws.specs.Addresses.{IsSource};
ghost use Rattle.step_laws.specs.Acks.{IsAwaitedAck, LeavesOfferer, LeavesOffererFirst, answer_again};
ghost use Rattle.step_laws.specs.Coming.{BeginsTransaction};
ghost use Rattle.step_laws.specs.Expiring.{CallTimerIsDue};
ghost use Rattle.step_laws.specs.Leaving.{IsBye, StandsAt, okay};
ghost use Rattle.step_laws.specs.Sending.{Sends};

use offer_answer::sent_is_read;
use sip_writing::written_is_read;
use trace_reading::{bodies_describe, bytes_say_all};

/// A call sent its offerer a 200 to an INVITE. Until its ACK comes, each timer sends the 200 again, byte by byte, to
/// where it went (`repeated`). The ACK has nothing sent (`settled`), but where the other end has left, the offerer
/// gets a BYE (`left`). Where no ACK comes in time, both ends get a BYE, first the offerer (`unacknowledged`). Where
/// the other end has left, only the offerer gets one (`left_unacknowledged`), and where the offerer leaves too, its
/// BYE gets 200 (`both_left`). Nothing else is sent. This holds after any events.
pub fn answers_wait_for_their_acks()
    ensures settled { (s : Contents) (event : Event) (t : List Datagram) (k : ℕ) → AgentStands s t k → (source : Addr) (bytes : List ℕ) (r : Request) (place : ℕ) →
        IsAwaitedAck s event source bytes r place → (c : StandingCall) (n : Standing) → StandsAt s place c n → awaits_ack n.stage ≡ true → has_session n.stage ≡ true → Sends [] (row s event) }
    ensures left { (s : Contents) (event : Event) (t : List Datagram) (k : ℕ) → AgentStands s t k → (source : Addr) (bytes : List ℕ) (r : Request) (place : ℕ) →
        IsAwaitedAck s event source bytes r place → (c : StandingCall) (n : Standing) → StandsAt s place c n → (interval : ℕ) → n.stage ≡ stages.Ending interval →
        LeavesOfferer c n.offerer (row s event) }
    ensures repeated { (s : Contents) (event : Event) (t : List Datagram) (k : ℕ) → AgentStands s t k → (place : ℕ) (c : StandingCall) (n : Standing) → StandsAt s place c n →
        CallTimerIsDue s event place timers.Repeat → awaits_ack n.stage ≡ true → Sends (answer_again c.answer) (row s event) }
    ensures unacknowledged { (s : Contents) (event : Event) (t : List Datagram) (k : ℕ) → AgentStands s t k → (place : ℕ) (c : StandingCall) (n : Standing) → StandsAt s place c n →
        CallTimerIsDue s event place timers.Wait → awaits_ack n.stage ≡ true → has_session n.stage ≡ true → LeavesOffererFirst c n.offerer (row s event) }
    ensures left_unacknowledged { (s : Contents) (event : Event) (t : List Datagram) (k : ℕ) → AgentStands s t k → (place : ℕ) (c : StandingCall) (n : Standing) → StandsAt s place c n →
        CallTimerIsDue s event place timers.Wait → (interval : ℕ) → n.stage ≡ stages.Ending interval → LeavesOfferer c n.offerer (row s event) }
    ensures both_left { (s : Contents) (event : Event) (t : List Datagram) (k : ℕ) → AgentStands s t k → (source : Addr) (bytes : List ℕ) (r : Request) (id : ℕ) →
        IsSource source → BeginsTransaction s event source bytes r id → (place : ℕ) (c : StandingCall) (n : Standing) → StandsAt s place c n → (end : End) → IsBye s event r place end →
        end ≡ n.offerer → (interval : ℕ) → n.stage ≡ stages.Ending interval → Sends (okay r source ∷ []) (row s event) }
{
    bytes_say_all();
    written_is_read();
    bodies_describe();
    sent_is_read();
}
