//! Which rule a response to a request of the server's own falls under, and the end of its time.

ghost use Rattle.std.specs.Prelude.{◌≡◌, slice_get};
ghost use Rattle.std.specs.Option.{option_copied};
ghost use Rattle.sip_message.specs.Words.{class_of, tag_text};
ghost use Rattle.call_core.specs.Calls.{awaits_answer};
ghost use Rattle.call_media.specs.Ends.{is_same};
ghost use Rattle.calls.specs.Finding.{is_text, place_by_tag};
ghost use Rattle.call_rules.specs.Places.{StandsIfAny};
ghost use Rattle.call_rules.specs.Responses.{NamesCall, asked_end, asked_place, at_place, awaits_final, callless_rule, further_rule, gone_rule, has_their_tag, in_call, is_cancelling, is_first, is_first_to, is_last_in, is_of_known_dialog, is_open, is_open_at, is_open_in, late_rule, open_at, open_rule, place_if_open, response_rule, timeout_rule};

use crate::methods::{is_acknowledged, may_offer};
use call_core::{End, Stage, Standing};
use calls::{Calls, StandingCall};
use dialogs::Dialog;
use sip_message::{Class, Parts, Response, class_of, tag_text};
use transactions::Transaction;

/// What a response to a request of the server's is to the live calls. The place is that of the call that sent it.
#[derive(Clone, Copy)]
pub enum ResponseRule {
    /// It changes no call.
    Silent,
    /// 100 to 199, while the call waits.
    Provisional { place: usize, status: u16 },
    /// The first 2xx.
    Answer { place: usize },
    /// A 2xx to an INVITE that comes again: its ACK is sent again (RFC 3261 section 13.2.2.4).
    Again { place: usize },
    /// A 2xx to the first INVITE of a call, of a dialog other than the call's, or whose call is gone: its dialog is
    /// ended (section 13.2.2.4).
    Fork,
    /// A 2xx to a later INVITE, whose call is gone: the dialog has ended, and its ACK goes (section 13.2.2.4).
    AckAlone,
    /// 300 to 699, while the call waits.
    Refusal { place: usize, status: u16 },
}

fn is_cancelling(stage: Stage) -> bool
    ensures { result ≡ is_cancelling stage }
{
    match stage {
        Stage::Asked(_) => false,
        Stage::Cancelling(_) => true,
        Stage::Answered(_) => false,
        Stage::Settled => false,
        Stage::Reasked(..) => false,
        Stage::Reanswered(_) => false,
        Stage::Updating => false,
        Stage::Ending(_) => false,
    }
}

fn awaits_answer(stage: Stage) -> bool
    ensures { result ≡ awaits_answer stage }
{
    match stage {
        Stage::Asked(_) => true,
        Stage::Cancelling(_) => false,
        Stage::Answered(_) => false,
        Stage::Settled => false,
        Stage::Reasked(..) => true,
        Stage::Reanswered(_) => false,
        Stage::Updating => true,
        Stage::Ending(_) => false,
    }
}

fn awaits_final(stage: Stage) -> bool
    ensures { result ≡ awaits_final stage }
{
    awaits_answer(stage) || is_cancelling(stage)
}

/// The end to which a request with these parts went.
fn asked_end(asked: &Parts<'_>, call: &StandingCall) -> End
    ensures { result ≡ asked_end asked.now call.now }
{
    if call.callee_tag.as_bytes() == tag_text(asked.from.params.as_slice()) {
        End::Callee
    } else {
        End::Caller
    }
}

fn is_last_in(number: u32, dialog: Option<&Dialog>) -> bool
    ensures { result ≡ is_last_in number (option_copied dialog.entry) }
{
    match dialog {
        None => true,
        Some(dialog) => dialog.local_number.unwrap_or(0) == number,
    }
}

fn is_open_at(asked: &Parts<'_>, call: &StandingCall, standing: Standing) -> bool
    ensures { result ≡ is_open_at asked.now call.now standing }
{
    let end = asked_end(asked, call);
    awaits_final(standing.stage)
        && end == standing.offerer.other()
        && is_last_in(asked.cseq.number, call.call.dialog(end))
}

/// Whether the call waits for the final response to the request with these parts.
fn is_open(asked: &Parts<'_>, call: &StandingCall) -> bool
    ensures { result ≡ is_open asked.now call.now }
{
    match call.call.standing() {
        None => false,
        Some(standing) => is_open_at(asked, call, standing),
    }
}

fn open_rule(place: usize, status: u16) -> ResponseRule
    ensures { result ≡ open_rule place status (class_of status) }
{
    match class_of(status) {
        Class::Provisional => ResponseRule::Provisional { place, status },
        Class::Success => ResponseRule::Answer { place },
        Class::Failure => ResponseRule::Refusal { place, status },
    }
}

fn is_first_to(end: End, number: u32) -> bool
    ensures { result ≡ is_first_to end number }
{
    match end {
        End::Caller => false,
        End::Callee => number == 1,
    }
}

fn has_their_tag(response: &Response<'_>, dialog: Option<&Dialog>) -> bool
    ensures { result ≡ has_their_tag response.now (option_copied dialog.entry) }
{
    match dialog {
        None => false,
        Some(dialog) => {
            dialog.id.theirs.as_bytes() == tag_text(response.parts.to.params.as_slice())
        }
    }
}

fn is_of_known_dialog(
    asked: &Parts<'_>,
    response: &Response<'_>,
    call: &StandingCall,
    end: End,
) -> bool
    ensures { result ≡ is_of_known_dialog asked.now response.now call.now end }
{
    if !is_first_to(end, asked.cseq.number) {
        return true;
    }
    has_their_tag(response, call.call.dialog(end))
}

fn further_rule(
    asked: &Parts<'_>,
    response: &Response<'_>,
    place: usize,
    call: &StandingCall,
) -> ResponseRule
    ensures { result ≡ further_rule asked.now response.now place call.now }
{
    if is_of_known_dialog(asked, response, call, asked_end(asked, call)) {
        ResponseRule::Again { place }
    } else {
        ResponseRule::Fork
    }
}

fn late_rule(
    asked: &Parts<'_>,
    response: &Response<'_>,
    place: usize,
    call: &StandingCall,
) -> ResponseRule
    ensures { result ≡ late_rule asked.now response.now place call.now }
{
    if is_acknowledged(asked, response) {
        further_rule(asked, response, place, call)
    } else {
        ResponseRule::Silent
    }
}

fn is_first(asked: &Parts<'_>) -> bool
    ensures { result ≡ is_first asked.now }
{
    tag_text(asked.to.params.as_slice()).is_empty() && asked.cseq.number == 1
}

fn gone_rule(asked: &Parts<'_>) -> ResponseRule
    ensures { result ≡ gone_rule asked.now }
{
    if is_first(asked) {
        ResponseRule::Fork
    } else {
        ResponseRule::AckAlone
    }
}

fn callless_rule(asked: &Parts<'_>, response: &Response<'_>) -> ResponseRule
    ensures { result ≡ callless_rule asked.now response.now }
{
    if is_acknowledged(asked, response) {
        gone_rule(asked)
    } else {
        ResponseRule::Silent
    }
}

fn in_call(
    asked: &Parts<'_>,
    response: &Response<'_>,
    place: usize,
    call: Option<&StandingCall>,
) -> ResponseRule
    ensures { result ≡ in_call asked.now response.now place (option_copied call.entry) }
{
    match call {
        None => callless_rule(asked, response),
        Some(call) if is_open(asked, call) => open_rule(place, response.status),
        Some(call) => late_rule(asked, response, place, call),
    }
}

#[tactic(auto, unfolding(crate::specs::Responses::at_place))]
fn at_place(
    calls: &Calls,
    asked: &Parts<'_>,
    response: &Response<'_>,
    place: Option<usize>,
) -> ResponseRule
    ensures { result ≡ at_place calls.now.calls asked.now response.now place }
{
    match place {
        None => callless_rule(asked, response),
        Some(place) => in_call(asked, response, place, calls.get(place)),
    }
}

#[tactic(auto, unfolding(crate::specs::Responses::asked_place))]
fn asked_place(calls: &Calls, asked: &Parts<'_>) -> Option<usize>
    ensures { result ≡ asked_place calls.now.calls asked.now }
{
    calls.place_by_tag(tag_text(asked.from.params.as_slice()))
}

#[tactic(auto, unfolding(crate::specs::Responses::response_rule))]
fn rule_of(calls: &Calls, asked: &Parts<'_>, response: &Response<'_>) -> ResponseRule
    ensures { result ≡ response_rule calls.now.calls asked.now response.now }
{
    if !may_offer(asked) {
        return ResponseRule::Silent;
    }
    at_place(calls, asked, response, asked_place(calls, asked))
}

/// Which rule a response falls under, to the request with which a transaction of the server's own began. Takes no
/// memory.
pub fn response_rule(calls: &Calls, asked: &Transaction, response: &Response<'_>) -> ResponseRule
    ensures rule { result ≡ response_rule calls.now.calls asked.now.parts response.now }
    // A call is at the place that it names.
    ensures there { NamesCall calls.now.calls result }
{
    rule_of(calls, &asked.parts, response)
}

fn place_if_open(asked: &Parts<'_>, place: usize, call: Option<&StandingCall>) -> Option<usize>
    ensures { result ≡ place_if_open asked.now place (option_copied call.entry) }
{
    match call {
        None => None,
        Some(call) if is_open(asked, call) => Some(place),
        Some(_) => None,
    }
}

#[tactic(auto, unfolding(crate::specs::Responses::open_at))]
fn open_at(calls: &Calls, asked: &Parts<'_>, place: Option<usize>) -> Option<usize>
    ensures { result ≡ open_at calls.now.calls asked.now place }
{
    match place {
        None => None,
        Some(place) => place_if_open(asked, place, calls.get(place)),
    }
}

#[tactic(auto, unfolding(crate::specs::Responses::timeout_rule))]
fn open_place(calls: &Calls, asked: &Parts<'_>) -> Option<usize>
    ensures { result ≡ timeout_rule calls.now.calls asked.now }
{
    if !may_offer(asked) {
        return None;
    }
    open_at(calls, asked, asked_place(calls, asked))
}

/// The place of the call that waits for the final response to the request with which a transaction of the server's own
/// began, and which did not come in time: none where the request was a BYE or a CANCEL. Takes no memory.
pub fn timeout_rule(calls: &Calls, asked: &Transaction) -> Option<usize>
    ensures rule { result ≡ timeout_rule calls.now.calls asked.now.parts }
    // A call is there.
    ensures there { StandsIfAny calls.now.calls result }
{
    open_place(calls, &asked.parts)
}
