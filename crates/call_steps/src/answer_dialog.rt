//! The dialog after a 2xx.

ghost use Rattle.std.specs.Prelude.{◌≡◌, IfOk, Some, option_map};
ghost use Rattle.sip_message.specs.Contact.{contacts_of};
ghost use Rattle.dialogs.specs.Making.{callers_dialog, reached_at};
ghost use Rattle.std.specs.Option.{option_copied};
ghost use Rattle.call_core.specs.Calls.{to_target};
ghost use Rattle.call_steps.specs.Rows.{answers_leg, dialog_after, leg_after};

use boxed::Boxed;
use call_core::{Call, End};
use calls::{Calls, LegDialog, offerer_of};
use dialogs::{Dialog, contact_uri};
use sip_message::Response;
use sip_uri::Uri;
use std::alloc::{AllocError, Global};
use transactions::Transaction;

/// The dialog with the callee that a 2xx makes, where its Contact says where the callee is reached.
pub(crate) fn callee_dialog(
    alloc: Global,
    asked: &Transaction,
    response: &Response<'_>,
) -> Result<Option<Dialog>, AllocError>
    ensures { IfOk result (λ d. d ≡ option_map (callers_dialog asked.now.parts response.now) (reached_at (contacts_of response.now.headers))) }
{
    let Some(target) = contact_uri(alloc, response.headers.as_slice())? else {
        return Ok(None);
    };
    let dialog = Dialog::as_caller(alloc, &asked.parts, response, target)?;
    Ok(Some(dialog))
}

/// This dialog, whose other side is reached at this target.
fn to_target(dialog: Dialog, target: Uri<'static>) -> Dialog
    ensures { result ≡ to_target target.entry dialog }
{
    let Dialog {
        id,
        ours,
        theirs,
        target: former,
        local_number,
        remote_number,
    } = dialog;
    drop(former);
    Dialog {
        id,
        ours,
        theirs,
        target,
        local_number,
        remote_number,
    }
}

/// The existing dialog, whose other side is reached where a 2xx says.
fn reached_dialog(
    alloc: Global,
    response: &Response<'_>,
    dialog: &Dialog,
) -> Result<Option<Dialog>, AllocError>
    ensures { IfOk result (λ d. d ≡ option_map (λ target. to_target target dialog.now) (reached_at (contacts_of response.now.headers))) }
{
    let Some(target) = contact_uri(alloc, response.headers.as_slice())? else {
        return Ok(None);
    };
    let dialog = dialog.copy(alloc)?;
    Ok(Some(to_target(dialog, target)))
}

/// The dialog after a 2xx: the one that it makes, or the existing one.
fn dialog_after(
    alloc: Global,
    asked: &Transaction,
    response: &Response<'_>,
    dialog: Option<&Dialog>,
) -> Result<Option<Dialog>, AllocError>
    ensures { IfOk result (λ d. d ≡ option_map (λ target. dialog_after asked.now.parts response.now target (option_copied dialog.entry)) (reached_at (contacts_of response.now.headers))) }
{
    match dialog {
        None => callee_dialog(alloc, asked, response),
        Some(dialog) => reached_dialog(alloc, response, dialog),
    }
}

fn leg_after(
    alloc: Global,
    asked: &Transaction,
    response: &Response<'_>,
    end: End,
    call: &Call,
) -> Result<Option<LegDialog>, AllocError>
    ensures { IfOk result (λ leg. leg ≡ option_map (λ target. leg_after asked.now.parts response.now target end call.now) (reached_at (contacts_of response.now.headers))) }
{
    let Some(dialog) = dialog_after(alloc, asked, response, call.dialog(end))? else {
        return Ok(None);
    };
    let dialog = Boxed::new(alloc, dialog)?;
    Ok(Some(LegDialog { end, dialog }))
}

/// The dialog of the call at this place with the end opposite the offerer, after a 2xx to the offer: the one that the
/// 2xx makes, or the existing one, whose other side is reached where the 2xx says (RFC 3261 sections 12.1.2 and
/// 12.2.1.2); none where its Contact doesn't say where that is, and where there is no call.
#[tactic(auto, unfolding(crate::specs::Rows::answers_leg), using(crate::proofs::ContactLaws::leg_of_none, crate::proofs::ContactLaws::leg_of_some))]
pub fn answers_leg(
    alloc: Global,
    calls: &Calls,
    place: usize,
    asked: &Transaction,
    response: &Response<'_>,
) -> Result<Option<LegDialog>, AllocError>
    ensures { IfOk result (λ leg. leg ≡ answers_leg calls.now.calls place asked.now.parts response.now) }
{
    match calls.get(place) {
        None => Ok(None),
        Some(call) => {
            let end = offerer_of(call.call.standing()).other();
            leg_after(alloc, asked, response, end, &call.call)
        }
    }
}
