//! Laws of the moves: what each event does to the calls and to the trace, for all traces.

ghost use Rattle.std.specs.Prelude.{◌≡◌, ℕ, suc, ◌+◌, List, [], ◌∷◌, ◌++◌, length, Option};
ghost use Rattle.sip_uri.specs.declared.uri.Addr.{Addr};
ghost use Rattle.call_trace.specs.declared.datagram.Message.{Message};
ghost use Rattle.call_trace.specs.declared.datagram.Datagram.{Datagram};
ghost use Rattle.call_trace.specs.declared.datagram.Dialog.{Dialog};
ghost use Rattle.call_trace.specs.declared.call.Session.{Session};
ghost use Rattle.call_trace.specs.declared.call.Call.{Call};
ghost use Rattle.call_trace.specs.Messages.{offering};
ghost use Rattle.call_trace.specs.Worked.{plain_call, left_before_ack, cancelled_call};
ghost use Rattle.call_trace.specs.WorkedOffers.{offers_again};
ghost use Rattle.call_trace.specs.WorkedUpdates.{updates};
ghost use Rattle.call_trace.specs.WorkedEnds.{refused_cancelling, given_up, left_asking, answered_late, caller_leaves};
ghost use Rattle.call_trace.specs.Serving.{Hop};
ghost use Rattle.call_trace.specs.Stands.{AreOffering};
ghost use Rattle.call_trace.specs.Lives.{Stands, LivesExactly};
ghost use Rattle.call_trace.specs.Events.{passed};
ghost use Rattle.call_trace.specs.Moves.{Move};
ghost use Rattle.call_trace.specs.Runs.{Event, trace_from, Moves};
ghost use Rattle.call_trace.specs.Promised.{AreRelayed, AreServed, Promised, AllMeet};

use crate::laws::relayed_is_promised;
use offer_answer::joined_is_direct;

/// INVITE and UPDATE are methods that may carry an offer. No calls stand after the empty trace. Where calls stand
/// after a trace and an event is a move, the calls after the move stand after the trace with the event's datagrams;
/// and the same holds for lists of moves.
pub fn moves_keep()
    ensures offering { AreOffering offering }
    ensures none { (methods : List (List ℕ)) → AreOffering methods → Stands methods [] 0 [] }
    ensures one { (methods : List (List ℕ)) (n : ℕ) (t : List Datagram) (old new : List Call) (taken : Option Message) (sent : List Message) →
        Move methods t old taken sent new → Stands methods old n t → Stands methods new (suc n) (t ++ passed n taken sent) }
    ensures many { (methods : List (List ℕ)) (n : ℕ) (t : List Datagram) (old new : List Call) (events : List Event) →
        Moves methods n t old events new → Stands methods old n t → Stands methods new (n + length events) (t ++ trace_from n events) }
{}

/// Calls that stand after a trace, whose sessions are relayed and served, give the whole promise. That the calls
/// listed as answered are exactly the live ones needs no table; and for each of them the media promise says which end
/// offered last.
pub fn standing_is_promised()
    ensures promised { (methods : List (List ℕ)) (server : List ℕ) (table : ℕ → Option Hop) (holder : ℕ → Option Dialog) (calls : List Call) (n : ℕ) (t : List Datagram) →
        Stands methods calls n t → AreServed server table holder calls → Promised methods server table holder calls t }
    ensures calls { (methods : List (List ℕ)) (server : List ℕ) (table : ℕ → Option Addr) (calls : List Call) (n : ℕ) (t : List Datagram) →
        Stands methods calls n t → AreRelayed server table calls → AllMeet methods server table t calls }
    ensures lives { (methods : List (List ℕ)) (calls : List Call) (n : ℕ) (t : List Datagram) →
        Stands methods calls n t → LivesExactly methods calls t }
{
    joined_is_direct();
    relayed_is_promised()
}

/// Calls are lists of moves, whatever their descriptions: one that its caller ends, one that the callee leaves before
/// the caller's ACK has come, one that is cancelled while the callee accepts it, one whose callee offers again, is
/// refused, and offers again, while a second telephone answers, and one whose caller offers by UPDATE, is refused, and
/// offers again. And calls that end less simply: cancelled and then refused, given up, left by BYE before the answer,
/// left while an offer is open that is answered too late, and left by the caller before the callee has acknowledged.
pub fn calls_are_moves()
    ensures plain { (s : Session) → Moves offering 0 [] [] (plain_call s) [] }
    ensures left { (s : Session) → Moves offering 0 [] [] (left_before_ack s) [] }
    ensures cancelled { (s : Session) → Moves offering 0 [] [] (cancelled_call s) [] }
    ensures offers { (s r : Session) → Moves offering 0 [] [] (offers_again s r) [] }
    ensures updates { (s r : Session) → Moves offering 0 [] [] (updates s r) [] }
    ensures refused { (s : Session) → Moves offering 0 [] [] (refused_cancelling s) [] }
    ensures given_up { (s : Session) → Moves offering 0 [] [] (given_up s) [] }
    ensures left_asking { (s : Session) → Moves offering 0 [] [] (left_asking s) [] }
    ensures late { (s r : Session) → Moves offering 0 [] [] (answered_late s r) [] }
    ensures caller_leaves { (s r : Session) → Moves offering 0 [] [] (caller_leaves s r) [] }
{}

/// After any list of moves from no calls: the whole promise, where the calls' sessions are relayed and served; and
/// which dialogs are live.
pub fn moves_are_promised()
    ensures promised { (methods : List (List ℕ)) (server : List ℕ) (table : ℕ → Option Hop) (holder : ℕ → Option Dialog) (calls : List Call) (events : List Event) →
        AreOffering methods → Moves methods 0 [] [] events calls → AreServed server table holder calls → Promised methods server table holder calls (trace_from 0 events) }
    ensures lives { (methods : List (List ℕ)) (calls : List Call) (events : List Event) →
        AreOffering methods → Moves methods 0 [] [] events calls → LivesExactly methods calls (trace_from 0 events) }
{
    standing_is_promised()
}
