//! The dialog that comes with an event.

ghost use Rattle.std.specs.Prelude.{◌≡◌, ℕ, List, None, Some, slice_get};
ghost use Rattle.call_core.specs.Calls.{dialog_of};
ghost use Rattle.call_media.specs.Ends.{other};
ghost use Rattle.call_media.specs.declared.end.End.{End};
ghost use Rattle.call_media.specs.declared.end.End.TheVariants.{Caller};
ghost use Rattle.call_steps.specs.Rows.{answers_leg, counts, refreshes};
ghost use Rattle.calls.specs.Carrying.{offerer_of};
ghost use Rattle.calls.specs.declared.standing_call.StandingCall.{StandingCall};
ghost use Rattle.dialogs.specs.Making.{reached_at};
ghost use Rattle.dialogs.specs.declared.state.Dialog.{Dialog};
ghost use Rattle.message_laws.specs.Sound.{HasSoundLegs, IsTargetIf};
ghost use Rattle.media_laws.specs.Coming.{FitsComing, first_dialog};
ghost use Rattle.sip_message.specs.Contact.{contacts_of};
ghost use Rattle.sip_message.specs.declared.message.Parts.{Parts};
ghost use Rattle.sip_message.specs.declared.message.Request.{Request};
ghost use Rattle.sip_message.specs.declared.message.Response.{Response};
ghost use Rattle.sip_uri.specs.declared.uri.Uri.{Uri};

/// A request in a dialog counts its number in that dialog, which has the same identifiers afterwards, also where it
/// says another target. So does a 2xx from an end with which the call has a dialog. The first 2xx of the callee makes
/// one.
pub fn dialogs_that_come_fit()
    ensures counted { (calls : List StandingCall) (place : ℕ) (end : End) (number : ℕ) (c : StandingCall) → slice_get calls place ≡ Some c →
        HasSoundLegs c → FitsComing c (counts calls place end number) }
    ensures refreshed { (calls : List StandingCall) (place : ℕ) (end : End) (r : Request) (c : StandingCall) → slice_get calls place ≡ Some c →
        HasSoundLegs c → IsTargetIf (reached_at (contacts_of r.headers)) → FitsComing c (refreshes calls place end r) }
    ensures answered { (calls : List StandingCall) (place : ℕ) (asked : Parts) (r : Response) (c : StandingCall) (old : Dialog) →
        slice_get calls place ≡ Some c → HasSoundLegs c → IsTargetIf (reached_at (contacts_of r.headers)) →
        dialog_of (other (offerer_of c.call.standing)) c.call ≡ Some old → FitsComing c (answers_leg calls place asked r) }
    ensures first { (calls : List StandingCall) (place : ℕ) (asked : Parts) (r : Response) (c : StandingCall) (target : Uri) →
        slice_get calls place ≡ Some c → reached_at (contacts_of r.headers) ≡ Some target → offerer_of c.call.standing ≡ Caller →
        c.call.callee ≡ None → answers_leg calls place asked r ≡ Some (first_dialog asked r target) }
{}
