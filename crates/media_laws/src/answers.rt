//! The answers that a call passes on.

ghost use Rattle.std.specs.Prelude.{◌≡◌, ◌≤◌, ◌<◌, ◌+◌, ◌^◌, ℕ, Bool, List, Option, Some, not, slice_get, slice_set, IsTrue};
ghost use Rattle.std.specs.Option.{option_copied};
ghost use Rattle.call_core.specs.Asked.{asked_row};
ghost use Rattle.call_core.specs.Reasked.{reasked_row};
ghost use Rattle.call_core.specs.Updating.{updating_row};
ghost use Rattle.call_core.specs.declared.signal.Signal.TheVariants as signals;
ghost use Rattle.call_core.specs.declared.stage.Cancelled.{Cancelled};
ghost use Rattle.call_media.specs.Ends.{other};
ghost use Rattle.call_media.specs.declared.end.End.{End};
ghost use Rattle.call_trace.specs.Messages.{invite, is_listed, offering, update};
ghost use Rattle.call_trace.specs.Moves.{Move, settled_first, settled_later, tagged};
ghost use Rattle.call_trace.specs.Stands.{leg};
ghost use Rattle.call_trace.specs.declared.call.Call.{Call};
ghost use Rattle.call_trace.specs.declared.call.Offer.{Offer};
ghost use Rattle.call_trace.specs.declared.call.Session.{Session};
ghost use Rattle.call_trace.specs.declared.call.Settled.{Settled};
ghost use Rattle.call_trace.specs.declared.call.Stage.TheVariants.{Answered, Asked};
ghost use Rattle.call_trace.specs.declared.datagram.Datagram.{Datagram};
ghost use Rattle.call_trace.specs.declared.datagram.Message.{Message};
ghost use Rattle.call_messages.specs.declared.scene.Scene.{Scene};
ghost use Rattle.media_laws.specs.Heard.{HearsActions};
ghost use Rattle.media_laws.specs.Lines.{actions_in};
ghost use Rattle.media_laws.specs.Said.{Accepts};
ghost use Rattle.media_laws.specs.Scenes.{AreAllRead, AreOwn, AskerIn, LegIn};
ghost use Rattle.media_laws.specs.Shows.{IsUnanswered};

/// A fit answer that a call passes on settles its offer in the trace: the first one, which gives the callee's leg its
/// tag, and later ones to an INVITE or to an UPDATE. What a trace reads of its bytes, and the tokens in it, are the
/// server's; no 2xx answered the offer before.
pub fn answers_are_moves()
    ensures first { (made : ℕ) (t : List Datagram) → AreOwn made t → AreAllRead t → (ds : List Call) (k : ℕ) (d : Call) → slice_get ds k ≡ Some d →
        (s : Scene) (tokens : ℕ) → made ≤ tokens → tokens + 1 < 2 ^ 64 → (p : Offer) → d.offer ≡ Some p → (z : Session) (came : Message) → Accepts p z came →
        option_copied s.description ≡ Some z.answer_sent → IsTrue (is_listed offering p.came.method) → p.came.description ≡ Some z.offer_taken →
        p.went.description ≡ Some z.offer_sent → (rung : Bool) (x : End) → d.stage ≡ Asked → AskerIn s d.caller p → IsUnanswered t d.caller.ours p.came.number →
        LegIn s (other x) (tagged d.callee came.to_tag) → (ms : List Message) → HearsActions s tokens (actions_in (asked_row rung x signals.FitAnswer)) ms →
        Move offering t ds (Some came) ms (slice_set ds k (settled_first d came.to_tag z)) }
    ensures invite { (made : ℕ) (t : List Datagram) → AreOwn made t → AreAllRead t → (ds : List Call) (k : ℕ) (d : Call) → slice_get ds k ≡ Some d →
        (s : Scene) (tokens : ℕ) → made ≤ tokens → tokens + 1 < 2 ^ 64 → (p : Offer) → d.offer ≡ Some p → (z : Session) (came : Message) → Accepts p z came →
        option_copied s.description ≡ Some z.answer_sent → IsTrue (is_listed offering p.came.method) → p.came.description ≡ Some z.offer_taken →
        p.went.description ≡ Some z.offer_sent → (y : Settled) → d.stage ≡ Answered y → AskerIn s (leg d p.by_caller) p →
        IsUnanswered t (leg d p.by_caller).ours p.came.number → (rung : Bool) (cancelled : Cancelled) (x : End) → p.went.method ≡ invite →
        LegIn s (other x) (leg d (not p.by_caller)) → (ms : List Message) → HearsActions s tokens (actions_in (reasked_row rung cancelled x signals.FitAnswer)) ms →
        Move offering t ds (Some came) ms (slice_set ds k (settled_later d p.by_caller z)) }
    ensures update { (made : ℕ) (t : List Datagram) → AreOwn made t → AreAllRead t → (ds : List Call) (k : ℕ) (d : Call) → slice_get ds k ≡ Some d →
        (s : Scene) (tokens : ℕ) → made ≤ tokens → tokens + 1 < 2 ^ 64 → (p : Offer) → d.offer ≡ Some p → (z : Session) (came : Message) → Accepts p z came →
        option_copied s.description ≡ Some z.answer_sent → IsTrue (is_listed offering p.came.method) → p.came.description ≡ Some z.offer_taken →
        p.went.description ≡ Some z.offer_sent → (y : Settled) → d.stage ≡ Answered y → AskerIn s (leg d p.by_caller) p →
        IsUnanswered t (leg d p.by_caller).ours p.came.number → (x : End) → p.went.method ≡ update →
        (ms : List Message) → HearsActions s tokens (actions_in (updating_row x signals.FitAnswer)) ms →
        Move offering t ds (Some came) ms (slice_set ds k (settled_later d p.by_caller z)) }
{
    trace_reading::bytes_say_all();
    sip_writing::written_is_read();
}
