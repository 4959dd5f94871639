//! A request in a dialog counts its number there (RFC 3261 section 12.2.2).

ghost use Rattle.std.specs.Prelude.{◌≡◌, ℕ, IfOk, List, Some, slice_get};
ghost use Rattle.std.specs.Option.{option_copied};
ghost use Rattle.calls.specs.declared.standing_call.StandingCall.{StandingCall};
ghost use Rattle.call_steps.specs.Rows.{counts, counts_in, leg_at, refreshes};

use boxed::Boxed;
use call_core::End;
use calls::{Calls, LegDialog, StandingCall};
use dialogs::{Dialog, contact_uri};
use sip_message::Request;
use sip_uri::Uri;
use std::alloc::{AllocError, Global};

fn counts_in(
    alloc: Global,
    end: End,
    number: u32,
    dialog: Option<&Dialog>,
) -> Result<Option<LegDialog>, AllocError>
    ensures { IfOk result (λ leg. leg ≡ counts_in end number (option_copied dialog.entry)) }
{
    let Some(dialog) = dialog else {
        return Ok(None);
    };
    let mut dialog = dialog.copy(alloc)?;
    dialog.remote_number = Some(number);
    let dialog = Boxed::new(alloc, dialog)?;
    Ok(Some(LegDialog { end, dialog }))
}

/// The dialog of this call with this end, once a request with this number was taken in it, whatever the answer to it;
/// none where the call has no such dialog. Nothing changes.
pub fn counts_in_call(
    alloc: Global,
    call: &StandingCall,
    end: End,
    number: u32,
) -> Result<Option<LegDialog>, AllocError>
    // Whatever the call's standing.
    ensures { (calls : List StandingCall) (place : ℕ) → slice_get calls place ≡ Some call.now → IfOk result (λ leg. leg ≡ counts calls place end number) }
{
    counts_in(alloc, end, number, call.call.dialog(end))
}

/// The same, of the call at this place; none where there is no call.
pub fn counts(
    alloc: Global,
    calls: &Calls,
    place: usize,
    end: End,
    number: u32,
) -> Result<Option<LegDialog>, AllocError>
    ensures { IfOk result (λ leg. leg ≡ counts calls.now.calls place end number) }
{
    match calls.get(place) {
        None => Ok(None),
        Some(call) => counts_in_call(alloc, call, end, number),
    }
}

/// The other side of this dialog is reached at this target.
fn leg_at(target: Option<Uri<'static>>, leg: Option<LegDialog>) -> Option<LegDialog>
    ensures { result ≡ leg_at target.entry leg }
{
    let Some(target) = target else {
        return leg;
    };
    let mut leg = leg?;
    leg.dialog.get_mut().target = target;
    Some(leg)
}

/// The dialog of this call with this end, once an UPDATE without an offer was taken in it: it counts the number, and
/// its other side is reached from then on where the UPDATE says, if it says so (RFC 3311 section 5.1); none where the
/// call has no such dialog. Nothing changes.
pub fn refreshes(
    alloc: Global,
    call: &StandingCall,
    end: End,
    request: &Request<'_>,
) -> Result<Option<LegDialog>, AllocError>
    // Whatever the call's standing.
    ensures { (calls : List StandingCall) (place : ℕ) → slice_get calls place ≡ Some call.now → IfOk result (λ leg. leg ≡ refreshes calls place end request.now) }
{
    let target = contact_uri(alloc, request.headers.as_slice())?;
    let leg = counts_in_call(alloc, call, end, request.parts.cseq.number)?;
    Ok(leg_at(target, leg))
}
