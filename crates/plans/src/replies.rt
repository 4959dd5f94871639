//! The answers to requests that concern no call. Each makes values and changes nothing.

ghost use Rattle.std.specs.Prelude.{◌≡◌, ◌<◌, ◌^◌, ◌∷◌, [], ℕ, List, Option, Result, IfOk, None, Some, Ok, unwrap_or};
ghost use Rattle.std.specs.Option.{option_copied};
ghost use Rattle.sip_message.specs.Read.{message_of};
ghost use Rattle.sip_writing.specs.Reply.{response_address};
ghost use Rattle.registrar.specs.declared.binding.Binding.{Binding};
ghost use Rattle.registrar.specs.Registering.{AllLast};
ghost use Rattle.registrar.specs.Registrar.{Fails};
ghost use Rattle.responses.specs.Responding.{allow, responds, stateless};
ghost use Rattle.sip_message.specs.Lookup.{named};
ghost use Rattle.plans.specs.Replies.{cancels, fresh_tag, headers_of, refuses_for, registers, registers_by, reply_row, responds_in, response_tag, response_tag_in, tag_in, tag_of, tags_made};
ghost use Rattle.plans.specs.Plan.{answers};

use crate::office::Office;
use crate::plan::Plan;
use crate::reason::Reason;
use crate::rule::Reply;
use crate::setting::Setting;
use call_messages::retry_alone;
use registrar::Refusal;
use responses::{
    STATELESS, allow_header, contact_headers, refusal_headers, register_of, response_with, token,
    unsupported_header,
};
use sip_message::{Header, Message, MessageError, Request, has_tag, read_message, tag_value};
use sip_writing::reply_address;
use std::alloc::{AllocError, Global};
use text::{Text, is_run_of_token};
use transactions::{Change, Transaction};

/// The tag of To in a response, as a text of its own.
fn tag_of(alloc: Global, message: &Message<'_>) -> Result<Option<Text<'static>>, AllocError>
    ensures { IfOk result (λ tag. tag ≡ tag_of (Ok message.now)) }
{
    match message {
        Message::Request(_) => Ok(None),
        Message::Response(response) => {
            kept_text(alloc, tag_value(response.parts.to.params.as_slice()))
        }
    }
}

fn kept_text(alloc: Global, text: Option<&Text<'_>>) -> Result<Option<Text<'static>>, AllocError>
    ensures { IfOk result (λ kept. kept ≡ option_copied text.entry) }
{
    match text {
        None => Ok(None),
        Some(text) => Ok(Some(text.keep(alloc)?)),
    }
}

/// The tag of To in bytes that a transaction sent.
fn tag_in_bytes(alloc: Global, bytes: &[u8]) -> Result<Option<Text<'static>>, AllocError>
    ensures { IfOk result (λ tag. tag ≡ tag_of (message_of bytes.now)) }
{
    match read_message(alloc, bytes) {
        Ok(message) => {
            let tag = tag_of(alloc, &message);
            drop(message);
            tag
        }
        Err(MessageError::OutOfMemory) => Err(AllocError),
        Err(MessageError::TooLong) => Ok(None),
        Err(MessageError::Version) => Ok(None),
        Err(MessageError::StartLine) => Ok(None),
        Err(MessageError::HeaderLine) => Ok(None),
        Err(MessageError::Missing(_)) => Ok(None),
        Err(MessageError::Unreadable(_)) => Ok(None),
        Err(MessageError::Short) => Ok(None),
    }
}

fn tag_in(alloc: Global, transaction: &Transaction) -> Result<Option<Text<'static>>, AllocError>
    ensures { IfOk result (λ tag. tag ≡ tag_in transaction.now.last) }
{
    match &transaction.last {
        None => Ok(None),
        Some(bytes) => tag_in_bytes(alloc, bytes.as_bytes()),
    }
}

/// The tag of the responses to a transaction's request: that of its To, or, where its To has none, the one in what was
/// sent last.
fn response_tag(
    alloc: Global,
    transaction: &Transaction,
) -> Result<Option<Text<'static>>, AllocError>
    ensures { IfOk result (λ tag. tag ≡ response_tag transaction.now) }
{
    match tag_value(transaction.parts.to.params.as_slice()) {
        Some(tag) if is_run_of_token(tag.as_bytes()) => Ok(Some(tag.keep(alloc)?)),
        _ => tag_in(alloc, transaction),
    }
}

fn or_stateless(alloc: Global, tag: Option<Text<'static>>) -> Result<Text<'static>, AllocError>
    ensures { IfOk result (λ t. t ≡ unwrap_or tag.entry stateless) }
{
    match tag {
        None => Text::from_slice(alloc, STATELESS),
        Some(tag) => Ok(tag),
    }
}

/// How many tokens a response to this request makes.
fn tags_made(request: &Request<'_>) -> u8
    ensures { result ≡ tags_made request.now }
{
    if has_tag(request.parts.to.params.as_slice()) {
        0
    } else {
        1
    }
}

/// The list of one header field.
fn one_header(alloc: Global, header: Header<'static>) -> Result<Vec<Header<'static>>, AllocError>
    ensures { IfOk result (λ headers. headers.items ≡ header.entry ∷ []) }
{
    let mut headers = Vec::new(alloc);
    headers.push(header)?;
    Ok(headers)
}

/// The list of one header field of this name and value.
fn one_named(alloc: Global, name: &[u8], value: &[u8]) -> Result<Vec<Header<'static>>, AllocError>
    ensures { IfOk result (λ headers. headers.items ≡ named name.now value.now ∷ []) }
{
    one_header(alloc, Header::of(alloc, name, value)?)
}

/// The plan of a response to a request that began transaction `id`: its status, the tag that To is given where it has
/// none, and further header fields.
#[tactic(auto, unfolding(responses::specs::Responding::responds, sip_writing::specs::Reply::reply_of))]
fn answers(
    alloc: Global,
    setting: Setting,
    request: &Request<'_>,
    begun: Vec<Change>,
    id: usize,
    status: u16,
    tag: &[u8],
    further: &[Header<'_>],
    made: u8,
) -> Result<Plan, AllocError>
    ensures { IfOk result (λ p. p ≡ answers begun.items id (response_address request.now.parts.vias setting.source)
        (responds request.now.parts setting.source status tag.now further.now) None made) }
{
    let parts = &request.parts;
    let to = reply_address(parts, setting.source);
    let bytes = response_with(alloc, parts, setting.source, status, tag, further)?;
    Plan::answers(alloc, begun, id, to, status, bytes, made)
}

impl<'o> Office<'o> {
    /// The first token of an event.
    fn fresh_tag(&self, setting: Setting) -> Result<Text<'static>, AllocError>
        ensures { IfOk result (λ t. t ≡ fresh_tag self.now setting) }
    {
        token(self.alloc, setting.salt, self.tokens + 1)
    }

    /// The tag of the responses to the request of this transaction.
    fn response_tag_in(&self, id: usize) -> Result<Text<'static>, AllocError>
        ensures { IfOk result (λ t. t ≡ response_tag_in self.now id) }
    {
        match self.table.transaction(id) {
            None => or_stateless(self.alloc, None),
            Some(transaction) => or_stateless(self.alloc, response_tag(self.alloc, transaction)?),
        }
    }

    /// A response with a tag of its own.
    pub(crate) fn responds_in(
        &self,
        setting: Setting,
        request: &Request<'_>,
        begun: Vec<Change>,
        id: usize,
        status: u16,
        further: &[Header<'_>],
    ) -> Result<Plan, AllocError>
        ensures { IfOk result (λ p. p ≡ responds_in self.now setting request.now begun.items id status further.now None) }
    {
        let tag = self.fresh_tag(setting)?;
        answers(
            self.alloc,
            setting,
            request,
            begun,
            id,
            status,
            tag.as_bytes(),
            further,
            tags_made(request),
        )
    }

    fn cancels(
        &self,
        setting: Setting,
        request: &Request<'_>,
        begun: Vec<Change>,
        id: usize,
        other: usize,
    ) -> Result<Plan, AllocError>
        ensures { IfOk result (λ p. p ≡ cancels self.now setting request.now begun.items id other) }
    {
        let tag = self.response_tag_in(other)?;
        let tag = tag.as_bytes();
        answers(self.alloc, setting, request, begun, id, 200, tag, &[], 0)
    }

    fn registration_plan(
        &self,
        setting: Setting,
        request: &Request<'_>,
        begun: Vec<Change>,
        id: usize,
        plan: registrar::Plan,
    ) -> Result<Plan, AllocError>
        requires { AllLast setting.now plan.bindings }
        ensures { IfOk result (λ p. p ≡ registers_by self.now setting request.now begun.items id (Some plan.user) (Ok plan.bindings)) }
    {
        let further = contact_headers(self.alloc, plan.bindings(), setting.now)?;
        let planned = self.responds_in(setting, request, begun, id, 200, &further)?;
        Ok(planned.with_registration(plan))
    }

    /// The header fields that say more of a reason.
    #[tactic(auto, unfolding(crate::specs::Replies::headers_of))]
    fn headers_of(
        &self,
        request: &Request<'_>,
        reason: Reason,
    ) -> Result<Vec<Header<'static>>, AllocError>
        ensures { IfOk result (λ headers. headers.items ≡ headers_of self.now request.now reason) }
    {
        match reason {
            Reason::SecondOffer => retry_alone(self.alloc),
            Reason::MethodNotOffered => one_header(self.alloc, allow_header()),
            Reason::ExtensionRequired => {
                unsupported_header(self.alloc, request.headers.as_slice())
            }
            Reason::BodyType => one_named(self.alloc, b"Accept", b"application/sdp"),
            Reason::BodyEncoding => one_named(self.alloc, b"Accept-Encoding", b"identity"),
            Reason::Register(refusal) => refusal_headers(self.alloc, self.least, refusal),
            _ => Ok(Vec::new(self.alloc)),
        }
    }

    /// A refusal of a request that began transaction `id`.
    pub(crate) fn refuses_for(
        &self,
        setting: Setting,
        request: &Request<'_>,
        begun: Vec<Change>,
        id: usize,
        reason: Reason,
    ) -> Result<Plan, AllocError>
        ensures { IfOk result (λ p. p ≡ refuses_for self.now setting request.now begun.items id reason) }
    {
        let further = self.headers_of(request, reason)?;
        let planned = self.responds_in(setting, request, begun, id, reason.status(), &further)?;
        Ok(planned.as_refusal(reason))
    }

    /// A REGISTER for which this is the registrar's answer, or for which memory ran out.
    fn refusal_plan(
        &self,
        setting: Setting,
        request: &Request<'_>,
        begun: Vec<Change>,
        id: usize,
        refusal: Refusal,
    ) -> Result<Plan, AllocError>
        ensures { (user : Option (List ℕ)) (answer : Result (List Binding) Refusal) → Fails refusal answer →
            IfOk result (λ p. p ≡ registers_by self.now setting request.now begun.items id user answer) }
    {
        match refusal {
            Refusal::OutOfMemory => Err(AllocError),
            Refusal::UnknownUser
            | Refusal::StarMisused
            | Refusal::TooBrief
            | Refusal::OutOfOrder
            | Refusal::TooManyBindings
            | Refusal::BadContact => {
                let reason = Reason::Register(refusal);
                self.refuses_for(setting, request, begun, id, reason)
            }
        }
    }

    #[tactic(auto, unfolding(crate::specs::Replies::registers))]
    fn registers(
        &self,
        setting: Setting,
        request: &Request<'_>,
        begun: Vec<Change>,
        id: usize,
    ) -> Result<Plan, AllocError>
        requires { setting.now < 2 ^ 60 }
        ensures { IfOk result (λ p. p ≡ registers self.now setting request.now begun.items id) }
    {
        let register = register_of(self.alloc, self.registrar, request)?;
        match self.registrar.plan(&register, setting.now) {
            Ok(plan) => self.registration_plan(setting, request, begun, id, plan),
            Err(refusal) => self.refusal_plan(setting, request, begun, id, refusal),
        }
    }

    fn lists_methods(
        &self,
        setting: Setting,
        request: &Request<'_>,
        begun: Vec<Change>,
        id: usize,
    ) -> Result<Plan, AllocError>
        ensures { IfOk result (λ p. p ≡ responds_in self.now setting request.now begun.items id 200 (allow ∷ []) None) }
    {
        let further = [allow_header()];
        self.responds_in(setting, request, begun, id, 200, &further)
    }

    /// What a reply to a request that began transaction `id` results in.
    #[tactic(auto, unfolding(crate::specs::Replies::reply_row))]
    pub fn reply_row(
        &self,
        setting: Setting,
        request: &Request<'_>,
        begun: Vec<Change>,
        id: usize,
        reply: Reply,
    ) -> Result<Plan, AllocError>
        requires { setting.now < 2 ^ 60 }
        ensures { IfOk result (λ p. p ≡ reply_row self.now setting request.now begun.items id reply) }
    {
        match reply {
            Reply::CancelOf(other) => self.cancels(setting, request, begun, id, other),
            Reply::Refusal(reason) => self.refuses_for(setting, request, begun, id, reason),
            Reply::MethodsListed => self.lists_methods(setting, request, begun, id),
            Reply::Registration => self.registers(setting, request, begun, id),
        }
    }
}
