//! What a step does for an end that leaves a call.

ghost use Rattle.std.specs.Prelude.{◌≡◌, Bool, true, false, ℕ, List, [], ◌∷◌};
ghost use Rattle.sip_message.specs.declared.message.Request.{Request};
ghost use Rattle.sip_uri.specs.declared.uri.Addr.{Addr};
ghost use Rattle.call_core.specs.Calls.{awaits_answer, has_session};
ghost use Rattle.call_core.specs.declared.stage.Standing.{Standing};
ghost use Rattle.call_media.specs.Ends.{other};
ghost use Rattle.call_media.specs.declared.end.End.{End};
ghost use Rattle.call_trace.specs.declared.datagram.Datagram.{Datagram};
ghost use Rattle.calls.specs.Finding.{awaits_ack};
ghost use Rattle.calls.specs.declared.standing_call.StandingCall.{StandingCall};
ghost use Rattle.event_rows.specs.Rows.{row};
ghost use Rattle.event_rows.specs.State.{Contents};
ghost use Rattle.events.specs.declared.event.Event.{Event};
ghost use Rattle.media_laws.specs.Standing.{AgentStands};
ghost use Rattle.message_laws.specs.Addresses.{IsSource};
ghost use Rattle.step_laws.specs.Coming.{BeginsTransaction};
ghost use Rattle.call_core.specs.declared.stage.Cancelled.TheVariants.{Never, PassedOn, Waits};
ghost use Rattle.call_core.specs.declared.stage.Stage.TheVariants as stages;
ghost use Rattle.transactions.specs.declared.transaction.Transaction.{Transaction};
ghost use Rattle.step_laws.specs.Leaving.{IsBye, IsCancel, IsGoingOn, PassesBye, StandsAt, WithOffer, okay, to_offerer};
ghost use Rattle.step_laws.specs.Sending.{Sends, cancels};

use offer_answer::sent_is_read;
use sip_writing::written_is_read;
use trace_reading::{bodies_describe, bytes_say_all};

/// A BYE of an end of an answered call that no end has left: in that step it gets 200, and the other end, in its own
/// dialog and at its target's address, a BYE (`settled`). Where an offer is open, its request gets 487 between them
/// (`offering`). Where the other end was sent a 200 whose ACK has not come, only the 200 to the BYE is sent
/// (`unacknowledged`). Of a caller whose first INVITE has no final response, that INVITE gets 487 after the 200.
/// CANCEL goes where the INVITE was passed on to (`early`), but not before a provisional response came from there
/// (`silent`). Nothing else is sent. This holds after any events, where the BYE came from an address, is not a
/// repeat, and no rule refuses it.
pub fn byes_are_passed_on()
    ensures settled { (s : Contents) (event : Event) (t : List Datagram) (k : ℕ) → AgentStands s t k → (source : Addr) (bytes : List ℕ) (r : Request) (id : ℕ) →
        IsSource source → BeginsTransaction s event source bytes r id → (place : ℕ) (c : StandingCall) (n : Standing) → StandsAt s place c n → (end : End) → IsBye s event r place end →
        has_session n.stage ≡ true → awaits_answer n.stage ≡ false → (awaits_ack n.stage ≡ true → end ≡ n.offerer) → PassesBye (okay r source ∷ []) r c end (row s event) }
    ensures offering { (s : Contents) (event : Event) (t : List Datagram) (k : ℕ) → AgentStands s t k → (source : Addr) (bytes : List ℕ) (r : Request) (id : ℕ) →
        IsSource source → BeginsTransaction s event source bytes r id → (place : ℕ) (c : StandingCall) (n : Standing) → StandsAt s place c n → (end : End) → IsBye s event r place end →
        has_session n.stage ≡ true → awaits_answer n.stage ≡ true → WithOffer s c (λ offered. PassesBye (okay r source ∷ to_offerer c offered 487 ∷ []) r c end (row s event)) }
    ensures unacknowledged { (s : Contents) (event : Event) (t : List Datagram) (k : ℕ) → AgentStands s t k → (source : Addr) (bytes : List ℕ) (r : Request) (id : ℕ) →
        IsSource source → BeginsTransaction s event source bytes r id → (place : ℕ) (c : StandingCall) (n : Standing) → StandsAt s place c n → (end : End) → IsBye s event r place end →
        has_session n.stage ≡ true → awaits_ack n.stage ≡ true → end ≡ other n.offerer → Sends (okay r source ∷ []) (row s event) }
    ensures early { (s : Contents) (event : Event) (t : List Datagram) (k : ℕ) → AgentStands s t k → (source : Addr) (bytes : List ℕ) (r : Request) (id : ℕ) →
        IsSource source → BeginsTransaction s event source bytes r id → (place : ℕ) (c : StandingCall) (n : Standing) → StandsAt s place c n → (end : End) → IsBye s event r place end →
        end ≡ n.offerer → n.stage ≡ stages.Asked true → (went : Transaction) → IsGoingOn s c went →
        WithOffer s c (λ offered. Sends (okay r source ∷ to_offerer c offered 487 ∷ cancels went ∷ []) (row s event)) }
    ensures silent { (s : Contents) (event : Event) (t : List Datagram) (k : ℕ) → AgentStands s t k → (source : Addr) (bytes : List ℕ) (r : Request) (id : ℕ) →
        IsSource source → BeginsTransaction s event source bytes r id → (place : ℕ) (c : StandingCall) (n : Standing) → StandsAt s place c n → (end : End) → IsBye s event r place end →
        end ≡ n.offerer → n.stage ≡ stages.Asked false → WithOffer s c (λ offered. Sends (okay r source ∷ to_offerer c offered 487 ∷ []) (row s event)) }
{
    bytes_say_all();
    written_is_read();
    bodies_describe();
    sent_is_read();
}

/// A CANCEL of a first INVITE without a final response: in that step it gets 200, and the INVITE 487. CANCEL goes to
/// where the INVITE was passed on (`rung`), but not before a provisional response came from there (`silent`). One of
/// an INVITE inside a call gets 200, and CANCEL goes to the other end likewise (`inside`, `inside_silent`): the
/// INVITE waits for that end's final response. Nothing else is sent. This holds after any events, where the CANCEL
/// came from an address and is not a repeat.
pub fn cancels_are_passed_on()
    ensures rung { (s : Contents) (event : Event) (t : List Datagram) (k : ℕ) → AgentStands s t k → (source : Addr) (bytes : List ℕ) (r : Request) (id : ℕ) →
        IsSource source → BeginsTransaction s event source bytes r id → (place : ℕ) (c : StandingCall) (n : Standing) → StandsAt s place c n → IsCancel s event r place →
        n.stage ≡ stages.Asked true → (went : Transaction) → IsGoingOn s c went →
        WithOffer s c (λ offered. Sends (okay r source ∷ to_offerer c offered 487 ∷ cancels went ∷ []) (row s event)) }
    ensures silent { (s : Contents) (event : Event) (t : List Datagram) (k : ℕ) → AgentStands s t k → (source : Addr) (bytes : List ℕ) (r : Request) (id : ℕ) →
        IsSource source → BeginsTransaction s event source bytes r id → (place : ℕ) (c : StandingCall) (n : Standing) → StandsAt s place c n → IsCancel s event r place →
        n.stage ≡ stages.Asked false → WithOffer s c (λ offered. Sends (okay r source ∷ to_offerer c offered 487 ∷ []) (row s event)) }
    ensures inside { (s : Contents) (event : Event) (t : List Datagram) (k : ℕ) → AgentStands s t k → (source : Addr) (bytes : List ℕ) (r : Request) (id : ℕ) →
        IsSource source → BeginsTransaction s event source bytes r id → (place : ℕ) (c : StandingCall) (n : Standing) → StandsAt s place c n → IsCancel s event r place →
        n.stage ≡ stages.Reasked true Never → (went : Transaction) → IsGoingOn s c went → Sends (okay r source ∷ cancels went ∷ []) (row s event) }
    ensures inside_silent { (s : Contents) (event : Event) (t : List Datagram) (k : ℕ) → AgentStands s t k → (source : Addr) (bytes : List ℕ) (r : Request) (id : ℕ) →
        IsSource source → BeginsTransaction s event source bytes r id → (place : ℕ) (c : StandingCall) (n : Standing) → StandsAt s place c n → IsCancel s event r place →
        n.stage ≡ stages.Reasked false Never → Sends (okay r source ∷ []) (row s event) }
{
    bytes_say_all();
    written_is_read();
    bodies_describe();
    sent_is_read();
}

/// A second CANCEL of an INVITE inside a call gets 200, and nothing else is sent, because the first one waits for a
/// provisional response (`waiting`), or was passed on (`passed`). This holds after any events, where the CANCEL came
/// from an address and is not a repeat.
pub fn second_cancels_go_no_further()
    ensures waiting { (s : Contents) (event : Event) (t : List Datagram) (k : ℕ) → AgentStands s t k → (source : Addr) (bytes : List ℕ) (r : Request) (id : ℕ) →
        IsSource source → BeginsTransaction s event source bytes r id → (place : ℕ) (c : StandingCall) (n : Standing) → StandsAt s place c n → IsCancel s event r place →
        (rung : Bool) → n.stage ≡ stages.Reasked rung Waits → Sends (okay r source ∷ []) (row s event) }
    ensures passed { (s : Contents) (event : Event) (t : List Datagram) (k : ℕ) → AgentStands s t k → (source : Addr) (bytes : List ℕ) (r : Request) (id : ℕ) →
        IsSource source → BeginsTransaction s event source bytes r id → (place : ℕ) (c : StandingCall) (n : Standing) → StandsAt s place c n → IsCancel s event r place →
        (rung : Bool) → n.stage ≡ stages.Reasked rung PassedOn → Sends (okay r source ∷ []) (row s event) }
{
    bytes_say_all();
    written_is_read();
    bodies_describe();
    sent_is_read();
}
