//! Which rule a request that begins a transaction falls under: the order of checks.

ghost use Rattle.std.specs.Prelude.{◌≡◌, ◌||◌, IfOk, codes, is_some, not, option_map};
ghost use Rattle.std.specs.Option.{option_copied};
ghost use Rattle.sip_message.specs.Words.{tag_value};
ghost use Rattle.responses.specs.Words.{is_method};
ghost use Rattle.event_rows.specs.Rule.{Alone};
ghost use Rattle.event_rows.specs.Rules.{bound_rule, callee_by, cancel_rule, cancels, contact_line, declined_line, extension_line, first_call_rule, invite_rule, merged_line, of_dialog, offered_rule, options_line, refused, register_line, request_rule, route_line, taken_rule, unknown_line};
ghost use Rattle.transactions.specs.Slots.{named};
ghost use Rattle.calls.specs.Finding.{place_by_offer};
ghost use Rattle.call_rules.specs.Requests.{dialog_rule};
ghost use Rattle.event_plans.specs.RuleValue.{rule_value};

use crate::rule::Rule;
use call_rules::{ContentRule, DialogRule, contact_address, content_rule, dialog_rule};
use plans::{CallRule, Office, Reason, Reply, reason_of_content};
use responses::{has_header, is_declined_method, is_method, is_offered_method};
use sip_message::{Request, contact_values, tag_value};
use sip_uri::Uri;
use std::alloc::{AllocError, Global};
use text::Text;

fn refuse(reason: Reason) -> Rule<'static>
    ensures { rule_value result ≡ refused reason }
{
    Rule::Alone(Reply::Refusal(reason))
}

fn merged_line(office: &Office<'_>, request: &Request<'_>) -> Option<Reply>
    ensures { option_map Alone result ≡ merged_line office.now request.now }
{
    if office.table.is_merged_request(request) {
        Some(Reply::Refusal(Reason::Merged))
    } else {
        None
    }
}

fn declined_line(request: &Request<'_>) -> Option<Reply>
    ensures { option_map Alone result ≡ declined_line request.now }
{
    if is_declined_method(request) {
        Some(Reply::Refusal(Reason::MethodNotOffered))
    } else {
        None
    }
}

fn unknown_line(request: &Request<'_>) -> Option<Reply>
    ensures { option_map Alone result ≡ unknown_line request.now }
{
    if is_offered_method(request) {
        None
    } else {
        Some(Reply::Refusal(Reason::UnknownMethod))
    }
}

fn extension_line(request: &Request<'_>) -> Option<Reply>
    ensures { option_map Alone result ≡ extension_line request.now }
{
    if has_header(b"Require", request.headers.as_slice()) {
        Some(Reply::Refusal(Reason::ExtensionRequired))
    } else {
        None
    }
}

fn route_line(request: &Request<'_>) -> Option<Reply>
    ensures { option_map Alone result ≡ route_line request.now }
{
    if has_header(b"Record-Route", request.headers.as_slice()) {
        Some(Reply::Refusal(Reason::ProxyBetween))
    } else {
        None
    }
}

fn options_line(request: &Request<'_>) -> Option<Reply>
    ensures { option_map Alone result ≡ options_line request.now }
{
    if is_method(b"OPTIONS", request) {
        Some(Reply::MethodsListed)
    } else {
        None
    }
}

fn register_line(request: &Request<'_>) -> Option<Reply>
    ensures { option_map Alone result ≡ register_line request.now }
{
    if is_method(b"REGISTER", request) {
        Some(Reply::Registration)
    } else {
        None
    }
}

// ---- CANCEL

fn cancel_rule(office: &Office<'_>, request: &Request<'_>) -> Rule<'static>
    ensures { rule_value result ≡ cancel_rule office.now.calls.calls (named office.now.table.slots request.now.parts) }
{
    match office.table.cancels(request) {
        None => refuse(Reason::NothingToCancel),
        Some(id) => cancels_rule(office, id),
    }
}

fn cancels_rule(office: &Office<'_>, id: usize) -> Rule<'static>
    ensures { rule_value result ≡ cancels id (place_by_offer id office.now.calls.calls) }
{
    match office.calls.place_by_offer(id) {
        None => Rule::Alone(Reply::CancelOf(id)),
        Some(place) => Rule::Call(CallRule::Cancels(place)),
    }
}

// ---- dialogs

/// The rule of a request that is in a dialog, or ought to be.
fn in_dialog_rule<'r>(office: &'r Office<'_>, request: &Request<'_>) -> Rule<'r>
    ensures { rule_value result ≡ of_dialog office.now.calls.calls (dialog_rule office.now.calls.calls request.now) }
{
    match dialog_rule(office.calls, request) {
        DialogRule::NoDialog => refuse(Reason::NoDialog),
        DialogRule::OldNumber { .. } => refuse(Reason::OldNumber),
        DialogRule::Leaves { place, end } => Rule::Call(CallRule::Leaves(place, end)),
        DialogRule::Offers { place, end, call } => Rule::Call(CallRule::Offers(place, end, call)),
        DialogRule::Plain { place, end, call } => Rule::Call(CallRule::Refreshes(place, end, call)),
    }
}

fn is_of_dialog(request: &Request<'_>) -> bool
    ensures { result ≡ (not (is_method (codes "INVITE") request.now) || is_some (tag_value request.now.parts.to.params)) }
{
    !is_method(b"INVITE", request) || tag_value(request.parts.to.params.as_slice()).is_some()
}

// ---- a first call

fn contact_line(alloc: Global, request: &Request<'_>) -> Result<Option<Reply>, AllocError>
    ensures { IfOk result (λ reply. option_map Alone reply ≡ contact_line request.now) }
{
    let values = contact_values(alloc, request.headers.as_slice())?;
    if contact_address(&values).is_some() {
        return Ok(None);
    }
    Ok(Some(Reply::Refusal(Reason::Unreached)))
}

/// The rule of an offer to the callee, who is bound at this target.
fn taken_rule<'r>(target: &'r Uri<'static>, rule: Option<ContentRule>) -> Rule<'r>
    ensures { rule_value result ≡ taken_rule target.now rule }
{
    match rule {
        Some(rule) => refuse(reason_of_content(rule)),
        None => Rule::Call(CallRule::Begins(target)),
    }
}

fn bound_rule<'r>(
    alloc: Global,
    request: &Request<'_>,
    target: Option<&'r Uri<'static>>,
) -> Result<Rule<'r>, AllocError>
    ensures { IfOk result (λ rule. rule_value rule ≡ bound_rule request.now (option_copied target.entry)) }
{
    let Some(target) = target else {
        return Ok(refuse(Reason::Unbound));
    };
    let rule = content_rule(alloc, request.headers.as_slice())?;
    Ok(taken_rule(target, rule))
}

/// The rule of a first INVITE to the user whom its Request-URI names.
fn callee_rule<'r>(
    office: &'r Office<'_>,
    request: &Request<'_>,
    user: Option<&Text<'_>>,
    now: u64,
) -> Result<Rule<'r>, AllocError>
    ensures { IfOk result (λ rule. rule_value rule ≡ callee_by office.now request.now now (option_copied user.entry)) }
{
    match user {
        Some(user) if office.registrar.knows(user) => {
            bound_rule(office.alloc, request, office.registrar.target(user, now))
        }
        _ => Ok(refuse(Reason::UnknownUser)),
    }
}

fn first_call_rule<'r>(
    office: &'r Office<'_>,
    request: &Request<'_>,
    now: u64,
) -> Result<Rule<'r>, AllocError>
    ensures { IfOk result (λ rule. rule_value rule ≡ first_call_rule office.now request.now now) }
{
    if request.max_forwards == 0 {
        return Ok(refuse(Reason::NoHops));
    }
    if let Some(reply) = contact_line(office.alloc, request)? {
        return Ok(Rule::Alone(reply));
    }
    let user = office.registrar.user_of(&request.uri);
    callee_rule(office, request, user, now)
}

#[tactic(auto, unfolding(event_rows::specs::Rules::invite_rule))]
fn invite_rule<'r>(
    office: &'r Office<'_>,
    request: &Request<'_>,
    now: u64,
) -> Result<Rule<'r>, AllocError>
    ensures { IfOk result (λ rule. rule_value rule ≡ invite_rule office.now request.now now) }
{
    if is_of_dialog(request) {
        return Ok(in_dialog_rule(office, request));
    }
    first_call_rule(office, request, now)
}

#[tactic(auto, unfolding(event_rows::specs::Rules::offered_rule))]
fn offered_rule<'r>(
    office: &'r Office<'_>,
    request: &Request<'_>,
    now: u64,
) -> Result<Rule<'r>, AllocError>
    ensures { IfOk result (λ rule. rule_value rule ≡ offered_rule office.now request.now now) }
{
    if let Some(reply) = extension_line(request) {
        return Ok(Rule::Alone(reply));
    }
    if let Some(reply) = route_line(request) {
        return Ok(Rule::Alone(reply));
    }
    if let Some(reply) = options_line(request) {
        return Ok(Rule::Alone(reply));
    }
    if let Some(reply) = register_line(request) {
        return Ok(Rule::Alone(reply));
    }
    invite_rule(office, request, now)
}

/// The first line of the order of checks that applies to a request that begins a transaction.
#[tactic(auto, unfolding(event_rows::specs::Rules::request_rule))]
pub(crate) fn request_rule<'r>(
    office: &'r Office<'_>,
    request: &Request<'_>,
    now: u64,
) -> Result<Rule<'r>, AllocError>
    ensures rule { IfOk result (λ rule. rule_value rule ≡ request_rule office.now request.now now) }
{
    if is_method(b"CANCEL", request) {
        return Ok(cancel_rule(office, request));
    }
    if let Some(reply) = merged_line(office, request) {
        return Ok(Rule::Alone(reply));
    }
    if let Some(reply) = declined_line(request) {
        return Ok(Rule::Alone(reply));
    }
    if let Some(reply) = unknown_line(request) {
        return Ok(Rule::Alone(reply));
    }
    offered_rule(office, request, now)
}
