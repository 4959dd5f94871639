//! Laws of the definitions, for all traces.

ghost use Rattle.std.specs.Prelude.{◌≡◌, ℕ, ◌<◌, List, ◌++◌, length, Option};
ghost use Rattle.sip_uri.specs.declared.uri.Addr.{Addr};
ghost use Rattle.call_trace.specs.declared.datagram.Datagram.{Datagram};
ghost use Rattle.call_trace.specs.declared.datagram.Dialog.{Dialog};
ghost use Rattle.call_trace.specs.Exchanges.{Exchange, IsExchange};
ghost use Rattle.call_trace.specs.Calls.{CallOf, Ended};
ghost use Rattle.call_trace.specs.Promise.{MediaPromise, AllRelayed};

use offer_answer::joined_is_direct;

/// An exchange stays one when the trace grows, and one whose response was in the shorter trace was one there: each of
/// its conditions looks only to the left of its response.
pub fn exchanges_stay()
    ensures longer { (methods : List (List ℕ)) (t s : List Datagram) (d : Dialog) (e : Exchange) →
        IsExchange methods t d e → IsExchange methods (t ++ s) d e }
    ensures shorter { (methods : List (List ℕ)) (t s : List Datagram) (d : Dialog) (e : Exchange) →
        e.answered_at < length t → IsExchange methods (t ++ s) d e → IsExchange methods t d e }
{}

/// Two dialogs that are a call stay one, in either order; and a dialog that has ended stays ended.
pub fn calls_stay()
    ensures call { (methods : List (List ℕ)) (t s : List Datagram) (dx dy : Dialog) →
        CallOf methods t dx dy → CallOf methods (t ++ s) dx dy }
    ensures either_order { (methods : List (List ℕ)) (t : List Datagram) (dx dy : Dialog) →
        CallOf methods t dx dy → CallOf methods t dy dx }
    ensures ended { (t s : List Datagram) (d : Dialog) → Ended t d → Ended (t ++ s) d }
{}

/// The media promise is kept where, for each live call with no offer open, the last exchanges were passed on, what
/// each end was sent matches what the other said, at the server's address, and the table has the session's rows.
pub fn relayed_is_promised()
    ensures { (methods : List (List ℕ)) (server : List ℕ) (table : ℕ → Option Addr) (t : List Datagram) →
        AllRelayed methods server table t → MediaPromise methods server table t }
{
    joined_is_direct()
}
