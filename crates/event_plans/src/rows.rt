//! What a datagram results in, up to the rules: whether it can be read, its branch, and what the transactions say
//! about it.

ghost use Rattle.std.specs.Prelude.{◌≡◌, ◌<◌, ◌^◌, ◌∷◌, [], IfOk};
ghost use Rattle.event_rows.specs.Rule.{HandsOn};
ghost use Rattle.event_rows.specs.Rules.{request_rule};
ghost use Rattle.plans.specs.Plan.{moves, nothing};
ghost use Rattle.plans.specs.Effect.{Fits, effect};
ghost use Rattle.plans.specs.CallRows.{of_plan};
ghost use Rattle.event_plans.specs.RuleValue.{rule_value};
ghost use Rattle.event_rows.specs.Rows.{datagram_row, fit_row, is_unreachable_message, parts_of, read_row, received, received_by, request_by, response_by, rule_row, what_row};

use crate::due::{due_row, silent_row, timed_setting};
use crate::rule::Rule;
use crate::rules::request_rule;
use crate::unread::{unfit_branch, unread_row};
use call_rules::is_unreachable;
use events::What;
use plans::{Doing, Office, Setting, Taken, Why, one_change};
use responses::has_fit_branch;
use sip_message::{Message, Parts, Request, Response, read_message};
use std::alloc::{AllocError, Global};
use transactions::{Change, Foreseen, Outgoing, Reception, TableError, Verdict};

fn is_unreachable_message(alloc: Global, message: &Message<'_>) -> Result<bool, AllocError>
    ensures { IfOk result (λ is. is ≡ is_unreachable_message message.now) }
{
    match message {
        Message::Request(_) => Ok(false),
        Message::Response(response) => is_unreachable(alloc, response),
    }
}

fn parts_of<'m, 'a>(message: &'m Message<'a>) -> &'m Parts<'a>
    ensures { result.now ≡ parts_of message.now }
{
    match message {
        Message::Request(request) => &request.parts,
        Message::Response(response) => &response.parts,
    }
}

/// What is done for a request that began transaction `id`, by its rule.
fn rule_row(
    office: &Office<'_>,
    setting: Setting,
    request: &Request<'_>,
    begun: Vec<Change>,
    id: usize,
    rule: Rule<'_>,
) -> Result<Doing, AllocError>
    requires early { setting.now < 2 ^ 60 }
    requires few { office.now.tokens < 2 ^ 63 }
    requires found { HandsOn office.now.calls.calls request.now (rule_value rule) }
    ensures row { IfOk result (λ d. effect office.now.calls office.now.acks setting.now d ≡ rule_row office.now setting request.now begun.items id (rule_value rule.entry)) }
    ensures fits { IfOk result (Fits office.now.calls setting.now) }
{
    match rule {
        Rule::Alone(reply) => Ok(Doing::alone(office.reply_row(
            setting, request, begun, id, reply,
        )?)),
        Rule::Call(rule) => office.call_row(setting, request, begun, id, rule),
    }
}

fn ruled_row(
    office: &Office<'_>,
    setting: Setting,
    request: &Request<'_>,
    begun: Vec<Change>,
    id: usize,
) -> Result<Doing, AllocError>
    requires early { setting.now < 2 ^ 60 }
    requires few { office.now.tokens < 2 ^ 63 }
    ensures row { IfOk result (λ d. effect office.now.calls office.now.acks setting.now d ≡ rule_row office.now setting request.now begun.items id (request_rule office.now request.now setting.now)) }
    ensures fits { IfOk result (Fits office.now.calls setting.now) }
{
    let rule = request_rule(office, request, setting.now)?;
    rule_row(office, setting, request, begun, id, rule)
}

/// What a request results in, by what the transactions say about it.
#[tactic(auto, unfolding(event_rows::specs::Rows::request_by))]
fn request_by(
    office: &Office<'_>,
    setting: Setting,
    request: &Request<'_>,
    begun: Vec<Change>,
    verdict: Verdict,
    send: Option<Outgoing>,
) -> Result<Doing, AllocError>
    requires early { setting.now < 2 ^ 60 }
    requires few { office.now.tokens < 2 ^ 63 }
    ensures row { IfOk result (λ d. effect office.now.calls office.now.acks setting.now d ≡ request_by office.now setting request.now begun.items verdict send) }
    ensures fits { IfOk result (Fits office.now.calls setting.now) }
{
    match verdict {
        Verdict::New(id) => ruled_row(office, setting, request, begun, id),
        Verdict::Repeat => office.moves_row(begun, send),
        Verdict::Swallowed => office.moves_row(begun, send),
        Verdict::Up(_) => office.ack_row(setting, request, begun),
        Verdict::Stray => office.ack_row(setting, request, begun),
    }
}

/// What a response results in, by what the transactions say about it.
#[tactic(auto, unfolding(event_rows::specs::Rows::response_by))]
fn response_by(
    office: &Office<'_>,
    setting: Setting,
    response: &Response<'_>,
    begun: Vec<Change>,
    verdict: Verdict,
    send: Option<Outgoing>,
) -> Result<Doing, AllocError>
    requires early { setting.now < 2 ^ 60 }
    requires few { office.now.tokens < 2 ^ 63 }
    ensures row { IfOk result (λ d. effect office.now.calls office.now.acks setting.now d ≡ response_by office.now setting response.now begun.items verdict send) }
    ensures fits { IfOk result (Fits office.now.calls setting.now) }
{
    match verdict {
        Verdict::New(_) => Ok(office.drops_row(Taken::Dropped(Why::Stray))),
        Verdict::Repeat => office.moves_row(begun, send),
        Verdict::Swallowed => office.moves_row(begun, send),
        Verdict::Up(id) => office.response_row(setting, response, begun, send, id),
        Verdict::Stray => Ok(office.drops_row(Taken::Dropped(Why::Stray))),
    }
}

fn received_by(
    office: &Office<'_>,
    setting: Setting,
    message: &Message<'_>,
    begun: Vec<Change>,
    verdict: Verdict,
    send: Option<Outgoing>,
) -> Result<Doing, AllocError>
    requires early { setting.now < 2 ^ 60 }
    requires few { office.now.tokens < 2 ^ 63 }
    ensures row { IfOk result (λ d. effect office.now.calls office.now.acks setting.now d ≡ received_by office.now setting message.now begun.items verdict send) }
    ensures fits { IfOk result (Fits office.now.calls setting.now) }
{
    match message {
        Message::Request(request) => request_by(office, setting, request, begun, verdict, send),
        Message::Response(response) => response_by(office, setting, response, begun, verdict, send),
    }
}

fn foreseen_row(
    office: &Office<'_>,
    setting: Setting,
    message: &Message<'_>,
    foreseen: Foreseen,
) -> Result<Doing, AllocError>
    requires early { setting.now < 2 ^ 60 }
    requires few { office.now.tokens < 2 ^ 63 }
    ensures row { IfOk result (λ d. effect office.now.calls office.now.acks setting.now d ≡ received_by office.now setting message.now (foreseen.change ∷ []) foreseen.reception.verdict foreseen.reception.send) }
    ensures fits { IfOk result (Fits office.now.calls setting.now) }
{
    let Foreseen { reception, change } = foreseen;
    let Reception { verdict, send, .. } = reception;
    let begun = one_change(office.alloc, change)?;
    received_by(office, setting, message, begun, verdict, send)
}

#[tactic(auto, unfolding(event_rows::specs::Rows::received), using(crate::proofs::RoomLaws::has_room, crate::proofs::RoomLaws::has_none))]
fn message_row(
    office: &Office<'_>,
    setting: Setting,
    message: &Message<'_>,
) -> Result<Doing, AllocError>
    requires early { setting.now < 2 ^ 60 }
    requires few { office.now.tokens < 2 ^ 63 }
    ensures row { IfOk result (λ d. effect office.now.calls office.now.acks setting.now d ≡ received office.now setting message.now) }
    ensures fits { IfOk result (Fits office.now.calls setting.now) }
{
    match office.table.foresee(message, setting.source) {
        Ok(foreseen) => foreseen_row(office, setting, message, foreseen),
        Err(TableError::Full) => Ok(office.drops_row(Taken::Shed)),
        Err(TableError::OutOfMemory) => Err(AllocError),
        Err(TableError::Unknown | TableError::AfterFinal) => unreachable!(),
    }
}

fn fit_row(
    office: &Office<'_>,
    setting: Setting,
    message: &Message<'_>,
) -> Result<Doing, AllocError>
    requires early { setting.now < 2 ^ 60 }
    requires few { office.now.tokens < 2 ^ 63 }
    ensures row { IfOk result (λ d. effect office.now.calls office.now.acks setting.now d ≡ fit_row office.now setting message.now) }
    ensures fits { IfOk result (Fits office.now.calls setting.now) }
{
    if is_unreachable_message(office.alloc, message)? {
        return Ok(office.drops_row(Taken::Dropped(Why::Stray)));
    }
    message_row(office, setting, message)
}

#[tactic(auto, unfolding(event_rows::specs::Rows::read_row))]
fn read_row(
    office: &Office<'_>,
    setting: Setting,
    message: &Message<'_>,
) -> Result<Doing, AllocError>
    requires early { setting.now < 2 ^ 60 }
    requires few { office.now.tokens < 2 ^ 63 }
    ensures row { IfOk result (λ d. effect office.now.calls office.now.acks setting.now d ≡ read_row office.now setting message.now) }
    ensures fits { IfOk result (Fits office.now.calls setting.now) }
{
    if !has_fit_branch(&parts_of(message).vias) {
        return Ok(Doing::alone(unfit_branch(office.alloc, setting, message)?));
    }
    fit_row(office, setting, message)
}

/// What a datagram results in.
#[tactic(auto, unfolding(event_rows::specs::Rows::datagram_row))]
fn datagram_row(office: &Office<'_>, setting: Setting, bytes: &[u8]) -> Result<Doing, AllocError>
    requires early { setting.now < 2 ^ 60 }
    requires few { office.now.tokens < 2 ^ 63 }
    ensures row { IfOk result (λ d. effect office.now.calls office.now.acks setting.now d ≡ datagram_row office.now setting bytes.now) }
    ensures fits { IfOk result (Fits office.now.calls setting.now) }
{
    match read_message(office.alloc, bytes) {
        Ok(message) => {
            let doing = read_row(office, setting, &message);
            drop(message);
            doing
        }
        Err(fault) => Ok(Doing::alone(unread_row(office.alloc, setting, bytes, fault)?)),
    }
}

/// What an event at the moment `now`, in milliseconds, results in.
#[tactic(auto, unfolding(event_rows::specs::Rows::what_row))]
pub fn plan_event(
    office: &Office<'_>,
    now: u64,
    salt: u64,
    what: &What,
) -> Result<Doing, AllocError>
    requires early { now < 2 ^ 60 }
    requires few { office.now.tokens < 2 ^ 63 }
    ensures row { IfOk result (λ d. effect office.now.calls office.now.acks now d ≡ what_row office.now now salt what.now) }
    ensures fits { IfOk result (Fits office.now.calls now) }
{
    match what {
        What::Datagram { source, bytes } => {
            let source = *source;
            datagram_row(office, Setting { now, salt, source }, bytes.as_bytes())
        }
        What::Due => due_row(office, timed_setting(now, salt)),
        What::Silent(number) => silent_row(office, timed_setting(now, salt), *number),
        What::Users(users) => office.users_row(users.as_slice()),
    }
}
