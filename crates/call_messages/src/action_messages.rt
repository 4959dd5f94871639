//! The actions of a call as messages.

ghost use Rattle.std.specs.Prelude.{◌≡◌, ◌≤◌, ◌<◌, ◌+◌, ◌^◌, IfOk, Option, option_map};
ghost use Rattle.std.specs.Option.{option_copied};
ghost use Rattle.sip_message.specs.declared.message.Request.{Request};
ghost use Rattle.transactions.specs.OwnRequests.{own_of};
ghost use Rattle.transactions.specs.SameBranch.{cancel_of};
ghost use Rattle.call_messages.specs.Dressing.{says_ack, says_answer, asks_if, branch, says_bye, says_cancel, dialog_with, dress_one, says_again, method_of, says_offer, says_okay, says_provisional, says_refusal, says_trying};

use crate::end_responses::{answer, okay, provisional, refusal, trying};
use crate::one_action::Saying;
use crate::requests::{ack, bye, offer};
use crate::scene::{Asker, Scene};
use call_core::{Action, End, OfferMethod};
use dialogs::{Dialog, Method};
use events::Sent;
use responses::token;
use sdp::Description;
use sip_uri::Addr;
use std::alloc::{AllocError, Global};
use text::Text;
use transactions::{OwnRequest, Transaction, cancel_of};

fn method_of(method: OfferMethod) -> Method
    ensures { result ≡ method_of method }
{
    match method {
        OfferMethod::Invite => Method::Invite,
        OfferMethod::Update => Method::Update,
    }
}

#[tactic(auto, unfolding(responses::specs::Responding::responds, sip_writing::specs::Reply::reply_of))]
fn says_trying(alloc: Global, asker: Option<Asker<'_, '_>>) -> Result<Saying, AllocError>
    ensures { IfOk result (λ d. d ≡ says_trying asker.entry) }
{
    let Some(asker) = asker else {
        return Ok(Saying::nothing());
    };
    let bytes = trying(alloc, &asker)?;
    Saying::responds_through(alloc, &asker, 100, bytes)
}

#[tactic(auto, unfolding(responses::specs::Responding::responds, sip_writing::specs::Reply::reply_of))]
fn says_provisional(
    alloc: Global,
    server: Addr,
    asker: Option<Asker<'_, '_>>,
    status: u16,
) -> Result<Saying, AllocError>
    ensures { IfOk result (λ d. d ≡ says_provisional server asker.entry status) }
{
    let Some(asker) = asker else {
        return Ok(Saying::nothing());
    };
    let bytes = provisional(alloc, server, &asker, status)?;
    Saying::responds_through(alloc, &asker, status, bytes)
}

#[tactic(auto, unfolding(responses::specs::Responding::responds, sip_writing::specs::Reply::reply_of))]
fn says_answer(
    alloc: Global,
    server: Addr,
    asker: Option<Asker<'_, '_>>,
    description: Option<&Description<'_>>,
) -> Result<Saying, AllocError>
    ensures { IfOk result (λ d. d ≡ says_answer server asker.entry (option_copied description.entry)) }
{
    let Some(asker) = asker else {
        return Ok(Saying::nothing());
    };
    let Some(description) = description else {
        return Ok(Saying::nothing());
    };
    let bytes = answer(alloc, server, &asker, description)?;
    Saying::responds_through(alloc, &asker, 200, bytes)
}

#[tactic(auto, unfolding(responses::specs::Responding::responds, sip_writing::specs::Reply::reply_of))]
fn says_refusal(
    alloc: Global,
    asker: Option<Asker<'_, '_>>,
    status: u16,
) -> Result<Saying, AllocError>
    ensures { IfOk result (λ d. d ≡ says_refusal asker.entry status) }
{
    let Some(asker) = asker else {
        return Ok(Saying::nothing());
    };
    let bytes = refusal(alloc, &asker, status)?;
    Saying::responds_through(alloc, &asker, status, bytes)
}

#[tactic(auto, unfolding(responses::specs::Responding::responds, sip_writing::specs::Reply::reply_of))]
fn says_okay(
    alloc: Global,
    server: Addr,
    asker: Option<Asker<'_, '_>>,
) -> Result<Saying, AllocError>
    ensures { IfOk result (λ d. d ≡ says_okay server asker.entry) }
{
    let Some(asker) = asker else {
        return Ok(Saying::nothing());
    };
    let bytes = okay(alloc, server, &asker)?;
    Saying::responds_through(alloc, &asker, 200, bytes)
}

fn says_again(alloc: Global, sent: Option<&Sent>) -> Result<Saying, AllocError>
    ensures { IfOk result (λ d. d ≡ says_again (option_copied sent.entry)) }
{
    match sent {
        None => Ok(Saying::nothing()),
        Some(sent) => Saying::again(alloc, sent),
    }
}

fn asks_if(alloc: Global, request: Option<OwnRequest>, made: u64) -> Result<Saying, AllocError>
    ensures { (r : Option Request) → request ≡ option_map own_of r → IfOk result (λ d. d ≡ asks_if r made) }
{
    match request {
        None => Ok(Saying::nothing()),
        Some(request) => Saying::asks(alloc, request, made),
    }
}

fn cancel(alloc: Global, invite: &Transaction) -> Result<Option<OwnRequest>, AllocError>
    ensures { IfOk result (λ own. own ≡ option_map own_of (cancel_of invite.now)) }
{
    match cancel_of(alloc, invite)? {
        None => Ok(None),
        Some(request) => Ok(Some(OwnRequest::of(alloc, &request)?)),
    }
}

fn says_cancel(alloc: Global, invite: Option<&Transaction>) -> Result<Saying, AllocError>
    ensures { IfOk result (λ d. d ≡ says_cancel (option_copied invite.entry)) }
{
    let Some(invite) = invite else {
        return Ok(Saying::nothing());
    };
    asks_if(alloc, cancel(alloc, invite)?, 0)
}

impl Scene<'_, '_> {
    fn dialog_with(&self, end: End) -> Option<&Dialog>
        ensures { option_copied result ≡ dialog_with end self.now }
    {
        match end {
            End::Caller => self.caller,
            End::Callee => self.callee,
        }
    }

    /// The token of a branch.
    fn branch(&self, alloc: Global, tokens: u64) -> Result<Text<'static>, AllocError>
        requires { tokens + 1 < 2 ^ 64 }
        ensures { IfOk result (λ t. t ≡ branch self.now tokens) }
    {
        token(alloc, self.salt, tokens + 1)
    }

    fn says_offer(
        &self,
        alloc: Global,
        tokens: u64,
        dialog: Option<&Dialog>,
        method: OfferMethod,
    ) -> Result<Saying, AllocError>
        requires { tokens + 1 < 2 ^ 64 }
        ensures { IfOk result (λ d. d ≡ says_offer self.now tokens (option_copied dialog.entry) method (option_copied self.now.description)) }
    {
        let Some(dialog) = dialog else {
            return Ok(Saying::nothing());
        };
        let Some(description) = self.description else {
            return Ok(Saying::nothing());
        };
        let branch = self.branch(alloc, tokens)?;
        let request = offer(
            alloc,
            self.server,
            dialog,
            method_of(method),
            self.hops,
            description,
            branch.as_bytes(),
        )?;
        asks_if(alloc, request, 1)
    }

    fn says_ack(
        &self,
        alloc: Global,
        tokens: u64,
        dialog: Option<&Dialog>,
    ) -> Result<Saying, AllocError>
        requires { tokens + 1 < 2 ^ 64 }
        ensures { IfOk result (λ d. d ≡ says_ack self.now tokens (option_copied dialog.entry)) }
    {
        let Some(dialog) = dialog else {
            return Ok(Saying::nothing());
        };
        let branch = self.branch(alloc, tokens)?;
        let bytes = ack(alloc, self.server, dialog, branch.as_bytes())?;
        Ok(Saying::acknowledges(&dialog.target, bytes))
    }

    fn says_bye(
        &self,
        alloc: Global,
        tokens: u64,
        dialog: Option<&Dialog>,
    ) -> Result<Saying, AllocError>
        requires { tokens + 1 < 2 ^ 64 }
        ensures { IfOk result (λ d. d ≡ says_bye self.now tokens (option_copied dialog.entry)) }
    {
        let Some(dialog) = dialog else {
            return Ok(Saying::nothing());
        };
        let branch = self.branch(alloc, tokens)?;
        let request = bye(alloc, self.server, dialog, branch.as_bytes())?;
        asks_if(alloc, request, 1)
    }

    /// What an action results in, where this many tokens were made before it. An offer, an ACK and a BYE make a token
    /// each, that of their branch. An action that sends nothing, or for which something is missing, results in
    /// nothing.
    #[tactic(auto, unfolding(crate::specs::Dressing::dress_one))]
    pub fn dress_one(
        &self,
        alloc: Global,
        tokens: u64,
        action: Action,
    ) -> Result<Saying, AllocError>
        requires { tokens + 1 < 2 ^ 64 }
        ensures dressed { IfOk result (λ d. d ≡ dress_one self.now tokens action) }
        ensures few { IfOk result (λ d. d.made ≤ 1) }
    {
        match action {
            Action::Trying(_) => says_trying(alloc, self.offer),
            Action::Offer(end, method) => {
                self.says_offer(alloc, tokens, self.dialog_with(end), method)
            }
            Action::Provisional(_, status) => says_provisional(
                alloc,
                self.server,
                self.offer,
                status,
            ),
            Action::Ack(end) => self.says_ack(alloc, tokens, self.dialog_with(end)),
            Action::Answer(_) => says_answer(alloc, self.server, self.offer, self.description),
            Action::AnswerAgain(_) => says_again(alloc, self.again),
            Action::Refusal(_, status) => says_refusal(alloc, self.offer, status),
            Action::Okay(_) => says_okay(alloc, self.server, self.request),
            Action::Cancel(_) => says_cancel(alloc, self.passed),
            Action::Bye(end) => self.says_bye(alloc, tokens, self.dialog_with(end)),
            Action::PutRows
            | Action::Release
            | Action::RemoveRows
            | Action::Set(_, _)
            | Action::Stop(_)
            | Action::Abandon(_) => Ok(Saying::nothing()),
        }
    }
}
