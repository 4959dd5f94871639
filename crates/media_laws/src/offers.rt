//! The offers that a call passes on.

ghost use Rattle.std.specs.Prelude.{◌≡◌, ◌≤◌, ◌<◌, ◌+◌, ◌^◌, ◌++◌, ◌∷◌, [], ℕ, Bool, List, None, Option, Some, not, slice_get, slice_set, IsTrue};
ghost use Rattle.std.specs.Option.{option_copied};
ghost use Rattle.call_core.specs.Settled.{settled_row};
ghost use Rattle.call_core.specs.declared.signal.OfferMethod.TheVariants.{Invite, Update};
ghost use Rattle.call_core.specs.declared.signal.Signal.TheVariants as signals;
ghost use Rattle.call_media.specs.Ends.{other};
ghost use Rattle.call_media.specs.declared.end.End.{End};
ghost use Rattle.call_trace.specs.Events.{is_plain};
ghost use Rattle.call_trace.specs.Listed.{AllOf};
ghost use Rattle.call_trace.specs.Messages.{invite, offering, update};
ghost use Rattle.call_trace.specs.Moves.{IsNewCall, Move, new_call, reoffered};
ghost use Rattle.call_trace.specs.Stands.{leg};
ghost use Rattle.call_trace.specs.declared.call.Call.{Call};
ghost use Rattle.call_trace.specs.declared.call.Settled.{Settled};
ghost use Rattle.call_trace.specs.declared.call.Stage.TheVariants.{Answered};
ghost use Rattle.call_trace.specs.declared.datagram.Datagram.{Datagram};
ghost use Rattle.call_trace.specs.declared.datagram.Dialog.{Dialog};
ghost use Rattle.call_trace.specs.declared.datagram.Message.{Message};
ghost use Rattle.call_messages.specs.declared.scene.Scene.{Scene};
ghost use Rattle.sdp.specs.declared.description.Description.{Description};
ghost use Rattle.media_laws.specs.Heard.{HearsActions};
ghost use Rattle.media_laws.specs.Lines.{actions_in};
ghost use Rattle.media_laws.specs.Said.{Asks, OfferHeard, Offers};
ghost use Rattle.media_laws.specs.Scenes.{AreOwn, AskedLeg};

/// An offer that a call passes on is open in the trace: that of a new call, whose tags are made now, and those of
/// either end of a call that was answered, by INVITE or by UPDATE.
pub fn offers_are_moves()
    ensures first { (t : List Datagram) (old : List Call) (caller callee : Dialog) (taken sent : Description) (came : Message) (before : List Message) (went : Message) →
        Offers caller taken came → Asks t callee came.method sent went → AllOf (λ m. IsTrue (is_plain offering m)) before → IsNewCall t old came (new_call caller callee came went) →
        Move offering t old (Some came) (before ++ went ∷ []) (old ++ new_call caller callee came went ∷ []) }
    ensures invite { (made : ℕ) (t : List Datagram) → AreOwn made t → (ds : List Call) (k : ℕ) (d : Call) → slice_get ds k ≡ Some d → (s : Scene) (tokens : ℕ) →
        made ≤ tokens → tokens + 2 < 2 ^ 64 → (y : Settled) → d.stage ≡ Answered y → d.offer ≡ None → (b : Bool) (taken sent : Description) (came : Message) →
        Offers (leg d b) taken came → came.to_tag ≡ (leg d b).ours → option_copied s.description ≡ Some sent → (x : End) → came.method ≡ invite →
        AskedLeg s (other x) Invite (leg d (not b)) → (ms : List Message) → HearsActions s tokens (actions_in (settled_row (signals.Offer x Invite))) ms →
        (h : OfferHeard t (leg d (not b)) invite sent ms) × Move offering t ds (Some came) ms (slice_set ds k (reoffered d b came h.went)) }
    ensures update { (made : ℕ) (t : List Datagram) → AreOwn made t → (ds : List Call) (k : ℕ) (d : Call) → slice_get ds k ≡ Some d → (s : Scene) (tokens : ℕ) →
        made ≤ tokens → tokens + 2 < 2 ^ 64 → (y : Settled) → d.stage ≡ Answered y → d.offer ≡ None → (b : Bool) (taken sent : Description) (came : Message) →
        Offers (leg d b) taken came → came.to_tag ≡ (leg d b).ours → option_copied s.description ≡ Some sent → (x : End) → came.method ≡ update →
        AskedLeg s (other x) Update (leg d (not b)) → (ms : List Message) → HearsActions s tokens (actions_in (settled_row (signals.Offer x Update))) ms →
        (h : OfferHeard t (leg d (not b)) update sent ms) × Move offering t ds (Some came) ms (slice_set ds k (reoffered d b came h.went)) }
{}
