//! What a line of the table is about, for observers of the calls.

ghost use Rattle.std.specs.Prelude.{◌≡◌, find};
ghost use Rattle.std.specs.Option.{option_copied};
ghost use Rattle.call_core.specs.Notes.{is_asked, is_bye, is_ending, is_okay, is_said, is_settled, call_note, may_give_up, note_by, note_of, offer_note, okay_note, provisional_note, answer_note, bye_note, refusal_note, telling, waits_for_ack};
ghost use Rattle.call_core.specs.Calls.{holds_in};

use crate::action::{Action, Actions};
use crate::call::Call;
use crate::plan::Plan;
use crate::signal::OfferMethod;
use crate::stage::{Cancelled, Stage, Standing};
use call_media::End;

/// What happened to a call.
#[derive(Clone, Copy, Debug)]
pub enum CallNote {
    /// The first INVITE was passed on.
    Begun,
    /// The callee's provisional response of this status was passed on: 101 to 199.
    Ringing(u16),
    /// The callee's answer was passed on.
    Answered,
    /// The first INVITE got this final response, and the call is over, or waits only for its CANCEL.
    Refused(u16),
    /// The caller gave its first INVITE up, by CANCEL or BYE.
    GivenUp,
    /// This end made an offer inside the call, by this method.
    Offered(End, OfferMethod),
    /// The answer to it was passed on.
    Reanswered,
    /// It got this final response, and the call goes on.
    OfferRefused(u16),
    /// Its sender gave it up, by CANCEL.
    OfferGivenUp,
    /// This end left, by BYE.
    Left(End),
    /// An offer inside the call got this final response, and the call is over.
    Failed(u16),
    /// No ACK came in time, and the call is over (RFC 3261 section 13.3.1.4).
    Unacknowledged,
    /// The call lasted long enough, or its media had stopped, and it is over.
    Expired,
}

/// What happened to the call of this number.
#[derive(Clone, Copy, Debug)]
pub struct NoteOfCall {
    pub number: u64,
    pub note: CallNote,
}

fn is_asked(standing: Option<Standing>) -> bool
    ensures { result ≡ holds_in is_asked standing }
{
    match standing {
        Some(standing) => matches!(standing.stage, Stage::Asked(_)),
        None => false,
    }
}

/// The offerer of an offer inside the call may still give it up.
fn may_give_up(standing: Option<Standing>) -> bool
    ensures { result ≡ holds_in may_give_up standing }
{
    match standing {
        Some(standing) => matches!(standing.stage, Stage::Reasked(_, Cancelled::Never)),
        None => false,
    }
}

fn waits_for_ack(standing: Option<Standing>) -> bool
    ensures { result ≡ holds_in waits_for_ack standing }
{
    match standing {
        Some(standing) => matches!(standing.stage, Stage::Answered(_) | Stage::Reanswered(_)),
        None => false,
    }
}

fn is_settled(standing: Option<Standing>) -> bool
    ensures { result ≡ holds_in is_settled standing }
{
    match standing {
        Some(standing) => matches!(standing.stage, Stage::Settled),
        None => false,
    }
}

fn is_ending(standing: Option<Standing>) -> bool
    ensures { result ≡ holds_in is_ending standing }
{
    match standing {
        Some(standing) => matches!(standing.stage, Stage::Ending(_)),
        None => false,
    }
}

fn is_okay(action: Action) -> bool
    ensures { result ≡ is_okay action }
{
    matches!(action, Action::Okay(_))
}

/// An offer, or a response to one, that is passed on or given.
fn is_said(action: Action) -> bool
    ensures { result ≡ is_said action }
{
    matches!(
        action,
        Action::Offer(..) | Action::Provisional(..) | Action::Answer(_) | Action::Refusal(..)
    )
}

fn is_bye(action: Action) -> bool
    ensures { result ≡ is_bye action }
{
    matches!(action, Action::Bye(_))
}

fn okay_among(actions: &[Action]) -> Option<&Action>
    ensures { option_copied result ≡ find is_okay actions.now }
{
    actions.iter().find(|action| is_okay(**action))
}

fn said_among(actions: &[Action]) -> Option<&Action>
    ensures { option_copied result ≡ find is_said actions.now }
{
    actions.iter().find(|action| is_said(**action))
}

fn bye_among(actions: &[Action]) -> Option<&Action>
    ensures { option_copied result ≡ find is_bye actions.now }
{
    actions.iter().find(|action| is_bye(**action))
}

/// The action that says what a line is about, if any does.
fn telling(actions: &[Action]) -> Option<&Action>
    ensures { option_copied result ≡ telling actions.now }
{
    match (okay_among(actions), said_among(actions)) {
        (Some(okay), _) => Some(okay),
        (None, Some(said)) => Some(said),
        (None, None) => bye_among(actions),
    }
}

fn offer_note(before: Option<Standing>, end: End, method: OfferMethod) -> CallNote
    ensures { result ≡ offer_note before end method }
{
    match before {
        None => CallNote::Begun,
        Some(_) => CallNote::Offered(end.other(), method),
    }
}

/// An end leaves the call, or the offerer gives its offer up.
fn okay_note(before: Option<Standing>, next: Option<Standing>, end: End) -> Option<CallNote>
    ensures { result ≡ okay_note before next end }
{
    if is_asked(before) {
        Some(CallNote::GivenUp)
    } else if is_ending(before) {
        None
    } else if next.is_none() || is_ending(next) {
        Some(CallNote::Left(end))
    } else if may_give_up(before) {
        Some(CallNote::OfferGivenUp)
    } else {
        None
    }
}

fn refusal_note(before: Option<Standing>, next: Option<Standing>, status: u16) -> CallNote
    ensures { result ≡ refusal_note before next status }
{
    if is_asked(before) {
        CallNote::Refused(status)
    } else if next.is_some() {
        CallNote::OfferRefused(status)
    } else {
        CallNote::Failed(status)
    }
}

fn provisional_note(before: Option<Standing>, status: u16) -> Option<CallNote>
    ensures { result ≡ provisional_note before status }
{
    if is_asked(before) {
        Some(CallNote::Ringing(status))
    } else {
        None
    }
}

fn answer_note(before: Option<Standing>) -> CallNote
    ensures { result ≡ answer_note before }
{
    if is_asked(before) {
        CallNote::Answered
    } else {
        CallNote::Reanswered
    }
}

fn bye_note(before: Option<Standing>) -> Option<CallNote>
    ensures { result ≡ bye_note before }
{
    if waits_for_ack(before) {
        Some(CallNote::Unacknowledged)
    } else if is_settled(before) {
        Some(CallNote::Expired)
    } else {
        None
    }
}

fn note_by(before: Option<Standing>, next: Option<Standing>, action: Action) -> Option<CallNote>
    ensures { result ≡ note_by before next action }
{
    match action {
        Action::Okay(end) => okay_note(before, next, end),
        Action::Offer(end, method) => Some(offer_note(before, end, method)),
        Action::Provisional(_, status) => provisional_note(before, status),
        Action::Answer(_) => Some(answer_note(before)),
        Action::Refusal(_, status) => Some(refusal_note(before, next, status)),
        Action::Bye(_) => bye_note(before),
        _ => None,
    }
}

/// What it is about when a call with this standing before does this and has that standing next.
#[tactic(auto, unfolding(crate::specs::Notes::note_of))]
fn note_of(before: Option<Standing>, actions: &Actions, next: Option<Standing>) -> Option<CallNote>
    ensures { result ≡ note_of before actions.now next }
{
    match telling(actions.as_slice()) {
        None => None,
        Some(action) => note_by(before, next, *action),
    }
}

impl Call {
    /// What happens to the call by what was planned for it, if that is reported. Takes no memory.
    pub fn note(&self, plan: &Plan) -> Option<NoteOfCall>
        ensures { result ≡ call_note self.now plan.now.actions plan.now.next }
    {
        match note_of(self.standing, &plan.actions, plan.next) {
            None => None,
            Some(note) => Some(NoteOfCall {
                number: self.number,
                note,
            }),
        }
    }
}
