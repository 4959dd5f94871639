//! The requests that a scene has.

ghost use Rattle.std.specs.Prelude.{◌≡◌, ℕ, List, None, Ok, Option, Some, codes, slice_get, true};
ghost use Rattle.call_core.specs.Calls.{awaits_answer};
ghost use Rattle.call_core.specs.declared.stage.Standing.{Standing};
ghost use Rattle.call_media.specs.declared.end.End.{End};
ghost use Rattle.call_media.specs.declared.session.OpenOffer.{OpenOffer};
ghost use Rattle.call_rules.specs.Requests.{dialog_rule};
ghost use Rattle.call_rules.specs.DialogRule.{Leaves};
ghost use Rattle.call_steps.specs.Values.{ComingValue};
ghost use Rattle.call_trace.specs.Messages.{offering};
ghost use Rattle.call_trace.specs.Stands.{CallStands, HasTags, leg};
ghost use Rattle.call_trace.specs.declared.call.Call.{Call};
ghost use Rattle.call_trace.specs.declared.call.Offer.{Offer};
ghost use Rattle.call_trace.specs.declared.datagram.Datagram.{Datagram};
ghost use Rattle.calls.specs.declared.standing_call.StandingCall.{StandingCall};
ghost use Rattle.plans.specs.CallRows.{asker};
ghost use Rattle.plans.specs.Office.{Office};
ghost use Rattle.plans.specs.declared.setting.Setting.{Setting};
ghost use Rattle.message_laws.specs.Askers.{KnowsAskers};
ghost use Rattle.responses.specs.Words.{is_method};
ghost use Rattle.media_laws.specs.Asking.{CancelIn, NamesDialog};
ghost use Rattle.media_laws.specs.Coming.{scene_at};
ghost use Rattle.sdp.specs.declared.description.Description.{Description};
ghost use Rattle.sip_message.specs.Read.{message_of};
ghost use Rattle.sip_message.specs.declared.message.Message.TheVariants as Kinds;
ghost use Rattle.sip_message.specs.declared.message.Request.{Request};
ghost use Rattle.media_laws.specs.Scenes.{AskerIn, ByeIn};
ghost use Rattle.media_laws.specs.Shows.{ShowsLegs, ShowsOffer, ShowsStage, is_caller};
ghost use Rattle.trace_reading.specs.Message.{trace_message};
ghost use Rattle.transactions.specs.declared.transaction.Transaction.{Transaction};

/// The scene of a call that waits for an answer has the request of the offer that the trace shows, and its responses
/// have the tag of the offerer's dialog: where the trace lists the call, that request is the caller's first, or names
/// the dialog. Where a BYE comes, the scene has it, in the dialog of the end that sent it; or the CANCEL.
pub fn scenes_have_their_requests()
    ensures offer { (s : Office) (e : Setting) (w : ComingValue) (place : ℕ) (c : StandingCall) (description : Option Description) (begun : List Transaction)
        (t : List Datagram) (name : List ℕ) (n : Standing) (o : OpenOffer) (d : Call) (p : Offer) → KnowsAskers s → slice_get s.calls.calls place ≡ Some c →
        c.call.standing ≡ Some n → awaits_answer n.stage ≡ true → w.offer ≡ None → ShowsLegs c d → ShowsOffer s.table.slots begun t name c n.offerer o d p →
        NamesDialog d p → AskerIn (scene_at s e w c description) (leg d p.by_caller) p }
    ensures names { (slots : List (Option Transaction)) (begun : List Transaction) (t : List Datagram) (c : StandingCall) (n : Standing) (d : Call) (p : Offer) →
        awaits_answer n.stage ≡ true → CallStands offering t d → HasTags d → d.offer ≡ Some p → ShowsStage slots begun t c n n.stage d → NamesDialog d p }
    ensures bye { (s : Office) (e : Setting) (w : ComingValue) (c : StandingCall) (description : Option Description) (d : Call) (r : Request) (id place : ℕ)
        (end : End) (tag bytes : List ℕ) → dialog_rule s.calls.calls r ≡ Leaves place end → slice_get s.calls.calls place ≡ Some c → ShowsLegs c d →
        w.request ≡ Some (asker r e id tag) → ByeIn (scene_at s e w c description) (leg d (is_caller end)) (trace_message bytes (Kinds.Request r)) }
    ensures cancel { (s : Office) (e : Setting) (w : ComingValue) (c : StandingCall) (description : Option Description) (r : Request) (id : ℕ) (tag text : List ℕ) →
        message_of text ≡ Ok (Kinds.Request r) → is_method (codes "CANCEL") r ≡ true → w.request ≡ Some (asker r e id tag) →
        CancelIn (scene_at s e w c description) }
{}
