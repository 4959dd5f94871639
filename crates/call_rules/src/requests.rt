//! Which rule a request inside a call falls under.

ghost use Rattle.std.specs.Prelude.{◌≡◌, IfOk, List, Some, slice_get};
ghost use Rattle.std.specs.Option.{option_copied};
ghost use Rattle.call_media.specs.declared.end.End.TheVariants.{Callee};
ghost use Rattle.calls.specs.Finding.{place_by_end};
ghost use Rattle.calls.specs.declared.standing_call.StandingCall.{StandingCall};
ghost use Rattle.call_rules.specs.DialogRule.{NamesCall, dialog_rule_of};
ghost use Rattle.call_rules.specs.Requests.{counted_rule, dialog_rule, has_left, in_call, in_dialog, left_in, of_callee, with_remote_number};

use crate::methods::{is_bye, is_offer};
use call_core::{End, Stage, Standing};
use calls::{Calls, StandingCall};
use dialogs::{Dialog, is_above};
use sip_message::Request;
use std::alloc::{AllocError, Global};

/// What a request with a tag in To, or one that is not an INVITE, is to the live calls. The place is that of the
/// call, which is borrowed where more of it is needed, and the end is the one that sent the request.
#[derive(Clone, Copy)]
pub enum DialogRule<'c> {
    /// It is in no dialog, or its end has left the call (RFC 3261 section 12.2.2).
    NoDialog,
    /// Its number is not above that of the last request (section 12.2.2).
    OldNumber {
        place: usize,
        end: End,
    },
    /// A BYE (section 15.1.2).
    Leaves {
        place: usize,
        end: End,
    },
    /// An INVITE, or an UPDATE with a body (section 14.2, RFC 3311 section 5.2).
    Offers {
        place: usize,
        end: End,
        call: &'c StandingCall,
    },
    /// Any other request.
    Plain {
        place: usize,
        end: End,
        call: &'c StandingCall,
    },
}

fn left_in(stage: Stage, offerer: End, end: End) -> bool
    ensures { result ≡ left_in stage offerer end }
{
    match stage {
        Stage::Asked(_) => false,
        Stage::Cancelling(_) => true,
        Stage::Answered(_) => false,
        Stage::Settled => false,
        Stage::Reasked(..) => false,
        Stage::Reanswered(_) => false,
        Stage::Updating => false,
        Stage::Ending(_) => end != offerer,
    }
}

/// Whether the dialog with this end is over.
fn has_left(standing: Option<Standing>, end: End) -> bool
    ensures { result ≡ has_left standing end }
{
    match standing {
        None => true,
        Some(standing) => left_in(standing.stage, standing.offerer, end),
    }
}

fn counted_rule<'c>(
    request: &Request<'_>,
    place: usize,
    end: End,
    call: &'c StandingCall,
) -> DialogRule<'c>
    ensures rule { dialog_rule_of result ≡ counted_rule request.now place end }
    ensures there { (standing : List StandingCall) → slice_get standing place ≡ Some call.now → NamesCall standing result }
{
    if is_bye(&request.parts) {
        DialogRule::Leaves { place, end }
    } else if is_offer(request) {
        DialogRule::Offers { place, end, call }
    } else {
        DialogRule::Plain { place, end, call }
    }
}

fn in_dialog<'c>(
    request: &Request<'_>,
    place: usize,
    end: End,
    call: &'c StandingCall,
    dialog: Option<&Dialog>,
) -> DialogRule<'c>
    ensures rule { dialog_rule_of result ≡ in_dialog request.now place end (option_copied dialog.entry) }
    ensures there { (standing : List StandingCall) → slice_get standing place ≡ Some call.now → NamesCall standing result }
{
    match dialog {
        None => DialogRule::NoDialog,
        Some(dialog) if is_above(dialog.remote_number, request.parts.cseq.number) => {
            counted_rule(request, place, end, call)
        }
        Some(_) => DialogRule::OldNumber { place, end },
    }
}

/// The rule of a request of this end of the call at this place.
fn at_place<'c>(calls: &'c Calls, request: &Request<'_>, place: usize, end: End) -> DialogRule<'c>
    ensures rule { dialog_rule_of result ≡ in_call request.now place end (slice_get calls.now.calls place) }
    ensures there { NamesCall calls.now.calls result }
{
    match calls.get(place) {
        None => DialogRule::NoDialog,
        Some(call) if has_left(call.call.standing(), end) => DialogRule::NoDialog,
        Some(call) => in_dialog(request, place, end, call, call.call.dialog(end)),
    }
}

fn of_callee<'c>(calls: &'c Calls, request: &Request<'_>) -> DialogRule<'c>
    ensures rule { dialog_rule_of result ≡ of_callee calls.now.calls request.now (place_by_end Callee request.now.parts calls.now.calls) }
    ensures there { NamesCall calls.now.calls result }
{
    match calls.place_by_end(End::Callee, request) {
        None => DialogRule::NoDialog,
        Some(place) => at_place(calls, request, place, End::Callee),
    }
}

/// Which rule a request in a dialog falls under, or one that ought to be in a dialog. Takes no memory.
#[tactic(auto, unfolding(crate::specs::Requests::dialog_rule))]
pub fn dialog_rule<'c>(calls: &'c Calls, request: &Request<'_>) -> DialogRule<'c>
    ensures rule { dialog_rule_of result ≡ dialog_rule calls.now.calls request.now }
    // A call is at the place that it names, and is the one that it borrows.
    ensures there { NamesCall calls.now.calls result }
{
    match calls.place_by_end(End::Caller, request) {
        None => of_callee(calls, request),
        Some(place) => at_place(calls, request, place, End::Caller),
    }
}

/// A copy of this dialog that took a request of this number last (RFC 3261 section 12.2.2).
pub fn with_remote_number(alloc: Global, dialog: &Dialog, number: u32) -> Result<Dialog, AllocError>
    ensures { IfOk result (λ d. d ≡ with_remote_number number dialog.now) }
{
    let mut copy = dialog.copy(alloc)?;
    copy.remote_number = Some(number);
    Ok(copy)
}
