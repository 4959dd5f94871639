//! The legs of a scene.

ghost use Rattle.std.specs.Prelude.{◌≡◌, ℕ, List, None, Option, Some, true};
ghost use Rattle.call_core.specs.Calls.{dialog_of, has_number_left};
ghost use Rattle.call_core.specs.declared.signal.OfferMethod.{OfferMethod};
ghost use Rattle.call_core.specs.declared.signal.OfferMethod.TheVariants.{Invite};
ghost use Rattle.call_media.specs.declared.end.End.{End};
ghost use Rattle.call_media.specs.declared.end.End.TheVariants.{Callee, Caller};
ghost use Rattle.call_steps.specs.Rows.{first_leg};
ghost use Rattle.call_steps.specs.Scenes.{first_scene};
ghost use Rattle.call_steps.specs.Values.{AskerValue, ComingValue, lent_scene};
ghost use Rattle.call_steps.specs.declared.occasion.Occasion.{Occasion};
ghost use Rattle.call_trace.specs.Moves.{tagged};
ghost use Rattle.call_trace.specs.Stands.{leg};
ghost use Rattle.call_trace.specs.declared.call.Call.{Call};
ghost use Rattle.call_trace.specs.declared.call.Offer.{Offer};
ghost use Rattle.calls.specs.declared.standing_call.StandingCall.{StandingCall};
ghost use Rattle.dialogs.specs.declared.state.Dialog.{Dialog};
ghost use Rattle.plans.specs.Office.{Office};
ghost use Rattle.plans.specs.declared.setting.Setting.{Setting};
ghost use Rattle.message_laws.specs.Sound.{HasSoundLegs, IsTarget};
ghost use Rattle.message_laws.specs.Waiting.{IsCounted};
ghost use Rattle.media_laws.specs.Coming.{FitsComing, HasNumbersLeft, first_dialog, scene_at};
ghost use Rattle.sdp.specs.declared.description.Description.{Description};
ghost use Rattle.sip_message.specs.declared.message.Message.TheVariants as Kinds;
ghost use Rattle.sip_message.specs.declared.message.Parts.{Parts};
ghost use Rattle.sip_message.specs.declared.message.Request.{Request};
ghost use Rattle.sip_message.specs.declared.message.Response.{Response};
ghost use Rattle.sip_uri.specs.declared.uri.Uri.{Uri};
ghost use Rattle.media_laws.specs.Scenes.{AskedLeg, LegIn};
ghost use Rattle.media_laws.specs.Shows.{ShowsLegs, is_caller};
ghost use Rattle.trace_reading.specs.Message.{dialog_named, trace_message};
ghost use Rattle.message_laws.specs.Messages.{IsRequestOf};

/// The scene of a current call has each dialog of the call, as the trace names it, with an address and a number that
/// is left. Where an offer is passed on, it also has a number for that. Where the first 2xx of the callee comes, it
/// has the dialog that this makes, which is the leg of the INVITE with the response's tag. The leg of a first INVITE
/// is one to which that can be sent.
pub fn scenes_have_their_legs()
    ensures leg { (s : Office) (e : Setting) (w : ComingValue) (c : StandingCall) (description : Option Description) (d : Call) (end : End) (old : Dialog) →
        HasSoundLegs c → HasNumbersLeft c → ShowsLegs c d → FitsComing c w.leg → dialog_of end c.call ≡ Some old →
        LegIn (scene_at s e w c description) end (leg d (is_caller end)) }
    ensures first { (s : Office) (e : Setting) (w : ComingValue) (c : StandingCall) (description : Option Description) (d : Call) (p : Offer) (asked : Parts)
        (bytes : List ℕ) (r : Response) (target : Uri) → c.call.callee ≡ None → w.leg ≡ Some (first_dialog asked r target) → IsTarget target →
        IsCounted asked.cseq.number c.call.callee → IsRequestOf asked p.went → p.went.call_id ≡ d.callee.call_id → p.went.from_tag ≡ d.callee.ours →
        LegIn (scene_at s e w c description) Callee (tagged d.callee (trace_message bytes (Kinds.Response r)).to_tag) }
    ensures across { (s : Office) (e : Setting) (w : ComingValue) (c : StandingCall) (description : Option Description) (d : Call) (asked : Parts)
        (r : Response) (target : Uri) → HasSoundLegs c → HasNumbersLeft c → ShowsLegs c d → w.leg ≡ Some (first_dialog asked r target) →
        LegIn (scene_at s e w c description) Caller d.caller }
    ensures asked { (s : Office) (e : Setting) (w : ComingValue) (c : StandingCall) (description : Option Description) (d : Call) (end : End) (method : OfferMethod)
        (old : Dialog) → HasSoundLegs c → ShowsLegs c d → FitsComing c w.leg → dialog_of end c.call ≡ Some old →
        has_number_left (dialog_of end c.call) ≡ true → AskedLeg (scene_at s e w c description) end method (leg d (is_caller end)) }
    ensures begins { (o : Occasion) (asker : AskerValue) (hops : ℕ) (description : Option Description) (r : Request) (target : Uri) → IsTarget target →
        AskedLeg (lent_scene (first_scene o asker hops (first_leg o r target) description)) Callee Invite (dialog_named (first_leg o r target).id) }
{}
