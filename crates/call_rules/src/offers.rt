//! What an offer inside a call meets, and an UPDATE without one, before the call takes it.

ghost use Rattle.std.specs.Prelude.{◌≡◌, IfOk};
ghost use Rattle.call_core.specs.Calls.{holds_in};
ghost use Rattle.call_rules.specs.Offers.{clash_by, clash_line, content_line, hops_line, is_settled, offer_rule, plain_clash_line, plain_rule, reach_line};

use crate::content::{ContentRule, content_rule};
use crate::reach::leaves_unreached;
use call_core::{Call, Clash, End, Stage};
use sip_message::{Request, contact_values};
use std::alloc::{AllocError, Global};

/// What an offer inside a call meets, or an UPDATE without one: the first of these that applies.
#[derive(Clone, Copy)]
pub enum OfferRule {
    /// The call has no place for it.
    NoDialog,
    /// It crosses another offer: K2 or K1 (RFC 3261 section 14.2, RFC 3311 section 5.2).
    Crosses(Clash),
    /// No further hop is left (section 16.3).
    NoHops,
    /// Its Contact doesn't say where its sender is reached.
    Unreached,
    /// Its body is not taken (section 8.2.3).
    Content(ContentRule),
    /// The call takes it.
    Passes,
}

fn is_settled(stage: Stage) -> bool
    ensures { result ≡ is_settled stage }
{
    match stage {
        Stage::Asked(_) => false,
        Stage::Cancelling(_) => false,
        Stage::Answered(_) => false,
        Stage::Settled => true,
        Stage::Reasked(..) => false,
        Stage::Reanswered(_) => false,
        Stage::Updating => false,
        Stage::Ending(_) => false,
    }
}

fn is_call_settled(call: &Call) -> bool
    ensures { result ≡ holds_in is_settled call.now.standing }
{
    match call.standing() {
        None => false,
        Some(standing) => is_settled(standing.stage),
    }
}

fn clash_by(call: &Call, clash: Option<Clash>) -> Option<OfferRule>
    ensures { result ≡ clash_by call.now clash }
{
    match clash {
        Some(clash) => Some(OfferRule::Crosses(clash)),
        None if is_call_settled(call) => None,
        None => Some(OfferRule::NoDialog),
    }
}

fn clash_line(call: &Call, end: End) -> Option<OfferRule>
    ensures { result ≡ clash_line call.now end }
{
    clash_by(call, call.clash(end))
}

fn plain_clash_line(call: &Call, end: End) -> Option<OfferRule>
    ensures { result ≡ plain_clash_line call.now end }
{
    match call.clash_without_offer(end) {
        None => None,
        Some(clash) => Some(OfferRule::Crosses(clash)),
    }
}

fn hops_line(request: &Request<'_>) -> Option<OfferRule>
    ensures { result ≡ hops_line request.now }
{
    if request.max_forwards == 0 {
        Some(OfferRule::NoHops)
    } else {
        None
    }
}

fn reach_line(alloc: Global, request: &Request<'_>) -> Result<Option<OfferRule>, AllocError>
    ensures { IfOk result (λ rule. rule ≡ reach_line request.now) }
{
    let values = contact_values(alloc, request.headers.as_slice())?;
    if leaves_unreached(&request.parts, &values) {
        return Ok(Some(OfferRule::Unreached));
    }
    Ok(None)
}

fn content_line(alloc: Global, request: &Request<'_>) -> Result<Option<OfferRule>, AllocError>
    ensures { IfOk result (λ rule. rule ≡ content_line request.now) }
{
    match content_rule(alloc, request.headers.as_slice())? {
        None => Ok(None),
        Some(rule) => Ok(Some(OfferRule::Content(rule))),
    }
}

// ---- an offer

/// What an offer of this end of the call meets, in the order K2 and K1, hops, Contact, body.
#[tactic(auto, unfolding(crate::specs::Offers::offer_rule))]
pub fn offer_rule(
    alloc: Global,
    request: &Request<'_>,
    end: End,
    call: &Call,
) -> Result<OfferRule, AllocError>
    ensures { IfOk result (λ rule. rule ≡ offer_rule request.now end call.now) }
{
    if let Some(rule) = clash_line(call, end) {
        return Ok(rule);
    }
    if let Some(rule) = hops_line(request) {
        return Ok(rule);
    }
    if let Some(rule) = reach_line(alloc, request)? {
        return Ok(rule);
    }
    match content_line(alloc, request)? {
        Some(rule) => Ok(rule),
        None => Ok(OfferRule::Passes),
    }
}

// ---- an UPDATE without an offer

/// What an UPDATE without an offer meets, which this end of the call sent: K2, hops, Contact.
#[tactic(auto, unfolding(crate::specs::Offers::plain_rule))]
pub fn plain_rule(
    alloc: Global,
    request: &Request<'_>,
    end: End,
    call: &Call,
) -> Result<OfferRule, AllocError>
    ensures { IfOk result (λ rule. rule ≡ plain_rule request.now end call.now) }
{
    if let Some(rule) = plain_clash_line(call, end) {
        return Ok(rule);
    }
    if let Some(rule) = hops_line(request) {
        return Ok(rule);
    }
    match reach_line(alloc, request)? {
        Some(rule) => Ok(rule),
        None => Ok(OfferRule::Passes),
    }
}
