//! What the relation of calls and trace says to whoever makes the moves.

ghost use Rattle.std.specs.Prelude.{◌≡◌, ℕ, suc, Bool, List, [], ◌++◌, Option, Some, slice_get, remove, IsTrue};
ghost use Rattle.call_trace.specs.declared.datagram.Message.{Message};
ghost use Rattle.call_trace.specs.declared.datagram.Datagram.{Datagram};
ghost use Rattle.call_trace.specs.declared.datagram.Dialog.{Dialog};
ghost use Rattle.call_trace.specs.declared.call.Stage.TheVariants.{Asked};
ghost use Rattle.call_trace.specs.declared.call.Call.{Call};
ghost use Rattle.call_trace.specs.Messages.{bye, accepts, is_request_of, Replies};
ghost use Rattle.call_trace.specs.Dialogs.{dialog_of};
ghost use Rattle.call_trace.specs.Calls.{CallOf, Ended};
ghost use Rattle.call_trace.specs.Listed.{AllOf};
ghost use Rattle.call_trace.specs.Stands.{leg, IsTagOf, AllApart};
ghost use Rattle.call_trace.specs.Lives.{IsEnding, SparesCall, Stands};
ghost use Rattle.call_trace.specs.Events.{taken_at, sent_at, passed, dialog_sent, AreNewBytes, EndsNow};
ghost use Rattle.call_trace.specs.Runs.{AreRead};

/// A dialog of a call that is no longer listed has ended, and so has one that ends by an event, after it. The legs of
/// a call that no end has left have not. The first 2xx of a call has bytes that were not sent before. An event of
/// which nothing is in the trace counts, and changes nothing.
pub fn dialogs_are_known()
    ensures gone { (methods : List (List ℕ)) (calls : List Call) (n : ℕ) (t : List Datagram) (d e : Dialog) →
        Stands methods calls n t → CallOf methods t d e → AllOf (λ c. ¬ IsTagOf c d.ours) calls → Ended t d }
    ensures ends { (n : ℕ) (t : List Datagram) (taken : Option Message) (sent : List Message) (d : Dialog) →
        EndsNow t taken sent d → Ended (t ++ passed n taken sent) d }
    ensures lasts { (methods : List (List ℕ)) (calls : List Call) (n : ℕ) (t : List Datagram) (k : ℕ) (c : Call) (b : Bool) →
        Stands methods calls n t → slice_get calls k ≡ Some c → ¬ IsEnding c.stage → ¬ Ended t (leg c b) }
    ensures first_bytes { (methods : List (List ℕ)) (seen : List ℕ → Message) (calls : List Call) (n : ℕ) (t : List Datagram) (k : ℕ) (c : Call) (went : Message) →
        Stands methods calls n t → AreRead seen t → went ≡ seen went.bytes → slice_get calls k ≡ Some c → c.stage ≡ Asked →
        IsTrue (accepts went) → dialog_sent went ≡ c.caller → AreNewBytes t went.bytes }
    ensures later { (methods : List (List ℕ)) (calls : List Call) (n : ℕ) (t : List Datagram) →
        Stands methods calls n t → Stands methods calls (suc n) t }
{}

/// What is said in a dialog of one call leaves the others alone: they have none of its tags, a BYE that is sent in it
/// is in none of them, and the 200 to one that was taken in it has no tag of theirs.
pub fn calls_are_spared()
    ensures tags { (calls : List Call) (k : ℕ) (c : Call) (tag : List ℕ) →
        AllApart calls → slice_get calls k ≡ Some c → IsTagOf c tag → AllOf (λ d. ¬ IsTagOf d tag) (remove calls k) }
    ensures bye_sent { (calls : List Call) (k : ℕ) (c : Call) (m : Message) →
        AllApart calls → slice_get calls k ≡ Some c → IsTrue (is_request_of bye m) → IsTagOf c (dialog_sent m).ours →
        AllOf (SparesCall (sent_at 0 m)) (remove calls k) }
    ensures bye_answered { (calls : List Call) (k : ℕ) (c : Call) (came ok : Message) (d : Dialog) →
        AllApart calls → slice_get calls k ≡ Some c → IsTrue (is_request_of bye came) → dialog_of (taken_at 0 came) ≡ d →
        IsTagOf c d.ours → ¬ (d.ours ≡ []) → Replies ok came →
        AllOf (λ e. ¬ IsEnding e.stage → ¬ IsTagOf e ok.to_tag) (remove calls k) }
{}
