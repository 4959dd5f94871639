//! What the calls that an event leaves as they were show afterwards.

ghost use Rattle.std.specs.Prelude.{◌++◌, ◌≡◌, ◌∷◌, ℕ, false, remove, slice_get, slice_set, true, List, [], Option, Some};
ghost use Rattle.std.specs.List.{All};
ghost use Rattle.call_core.specs.Calls.{awaits_answer};
ghost use Rattle.call_core.specs.declared.stage.Standing.{Standing};
ghost use Rattle.call_trace.specs.declared.call.Call.{Call};
ghost use Rattle.call_trace.specs.declared.call.Offer.{Offer};
ghost use Rattle.call_trace.specs.declared.datagram.Datagram.{Datagram};
ghost use Rattle.call_trace.specs.declared.datagram.Message.{Message};
ghost use Rattle.call_trace.specs.Events.{passed};
ghost use Rattle.call_trace.specs.Messages.{offering};
ghost use Rattle.call_trace.specs.Moves.{Move};
ghost use Rattle.call_trace.specs.Stands.{AllApart, IsTagOf};
ghost use Rattle.calls.specs.declared.standing_call.StandingCall.{StandingCall};
ghost use Rattle.plans.specs.Office.{Office};
ghost use Rattle.message_laws.specs.Numbers.{KnowsNumbers};
ghost use Rattle.message_laws.specs.OpenRequests.{HasAsked};
ghost use Rattle.media_laws.specs.Afterwards.{HasSpot, IsLeft, IsLeftOr};
ghost use Rattle.media_laws.specs.Listing.{Listed, is_listed};
ghost use Rattle.media_laws.specs.Shows.{IsUnanswered, ShowsCall};
ghost use Rattle.message_laws.specs.Askers.{KeepsAsked, KeepsRequest};
ghost use Rattle.transactions.specs.declared.transaction.Transaction.{Transaction};

/// A move answers no offer that is open afterwards: what it sends with an answer is sent again, or settles the offer
/// of a call, which has none then.
pub fn open_offers_stay_unanswered()
    ensures { (n : ℕ) (t : List Datagram) (old : List Call) (taken : Option Message) (sent : List Message) (new : List Call) →
        Move offering t old taken sent new → AllApart new → (j : ℕ) (d : Call) (p : Offer) → slice_get new j ≡ Some d → d.offer ≡ Some p →
        (tag : List ℕ) (number : ℕ) → IsTagOf d tag → IsUnanswered t tag number → IsUnanswered (t ++ passed n taken sent) tag number }
{}

/// A call that an event leaves as it was is shown by the longer trace as it was by the shorter one, where the trace
/// lists it after the move of the event as before: the requests that begin have greater numbers than that of its open
/// offer, and nothing answers that. The same holds for a list of calls of which the event changed none, and for one
/// of which it changed one, which shows itself.
pub fn calls_left_stay_shown()
    ensures call { (slots : List (Option Transaction)) (s : Office) (begun more : List Transaction) (n : ℕ) (t : List Datagram) (old : List Call)
        (taken : Option Message) (sent : List Message) (new : List Call) → Move offering t old taken sent new → AllApart new →
        KnowsNumbers s (begun ++ more) → (place : ℕ) (c : StandingCall) → slice_get s.calls.calls place ≡ Some c → HasAsked begun c →
        ((m : Standing) → c.call.standing ≡ Some m → awaits_answer m.stage ≡ true → KeepsRequest slots s.table.slots c.asked.id) →
        (j : ℕ) (d : Call) → slice_get new j ≡ Some d → ShowsCall slots begun t c d →
        ShowsCall s.table.slots (begun ++ more) (t ++ passed n taken sent) c d }
    ensures none_changed { (slots : List (Option Transaction)) (s : Office) (begun more : List Transaction) (n : ℕ) (t : List Datagram) (old : List Call)
        (taken : Option Message) (sent : List Message) (new : List Call) → Move offering t old taken sent new → AllApart new →
        KnowsNumbers s (begun ++ more) → All (KeepsAsked slots s.table.slots) s.calls.calls → Listed (IsLeft slots begun t) s.calls.calls new →
        Listed (ShowsCall s.table.slots (begun ++ more) (t ++ passed n taken sent)) s.calls.calls new }
    ensures one_changed { (slots : List (Option Transaction)) (s : Office) (begun more : List Transaction) (n : ℕ) (t : List Datagram) (old : List Call)
        (taken : Option Message) (sent : List Message) (new : List Call) → Move offering t old taken sent new → AllApart new →
        KnowsNumbers s (begun ++ more) → All (KeepsAsked slots s.table.slots) s.calls.calls → (c : StandingCall) (d : Call) →
        ShowsCall s.table.slots (begun ++ more) (t ++ passed n taken sent) c d → Listed (IsLeftOr slots begun t c d) s.calls.calls new →
        Listed (ShowsCall s.table.slots (begun ++ more) (t ++ passed n taken sent)) s.calls.calls new }
{}

/// The trace has each call that it lists at a place of its own, and both lists change together: as the call goes on, as
/// it is hidden, and as it goes. A call that is hidden changes the trace's list neither as it goes on so nor as it
/// goes; and one that begins is the last of both.
pub fn listed_calls_have_spots()
    ensures spot { (slots : List (Option Transaction)) (begun : List Transaction) (t : List Datagram) (cs : List StandingCall) (old : List Call) (place : ℕ)
        (c : StandingCall) → Listed (ShowsCall slots begun t) cs old → All (HasAsked begun) cs → slice_get cs place ≡ Some c → is_listed c ≡ true →
        HasSpot slots begun t cs old place c }
    ensures none { (slots : List (Option Transaction)) (begun : List Transaction) (t : List Datagram) (cs : List StandingCall) (old : List Call) →
        Listed (ShowsCall slots begun t) cs old → All (HasAsked begun) cs → Listed (IsLeft slots begun t) cs old }
    ensures hidden { (slots : List (Option Transaction)) (begun : List Transaction) (t : List Datagram) (cs : List StandingCall) (old : List Call) (place : ℕ)
        (c new : StandingCall) → Listed (ShowsCall slots begun t) cs old → All (HasAsked begun) cs → slice_get cs place ≡ Some c → is_listed c ≡ false →
        is_listed new ≡ false → Listed (IsLeft slots begun t) (slice_set cs place new) old }
    ensures hidden_goes { (slots : List (Option Transaction)) (begun : List Transaction) (t : List Datagram) (cs : List StandingCall) (old : List Call)
        (place : ℕ) (c : StandingCall) → Listed (ShowsCall slots begun t) cs old → All (HasAsked begun) cs → slice_get cs place ≡ Some c →
        is_listed c ≡ false → Listed (IsLeft slots begun t) (remove cs place) old }
    ensures begins { (slots : List (Option Transaction)) (begun : List Transaction) (t : List Datagram) (cs : List StandingCall) (old : List Call)
        (new : StandingCall) (d : Call) → Listed (ShowsCall slots begun t) cs old → All (HasAsked begun) cs → is_listed new ≡ true →
        Listed (IsLeftOr slots begun t new d) (cs ++ new ∷ []) (old ++ d ∷ []) }
{}
