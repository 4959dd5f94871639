//! Datagrams that can't be read, and branches that don't begin as they have to: no transaction sends the answers to
//! these.

ghost use Rattle.std.specs.Prelude.{◌≡◌, [], IfOk};
ghost use Rattle.std.specs.Option.{option_copied};
ghost use Rattle.sip_message.specs.AnswerableParts.{answerable_of};
ghost use Rattle.sip_message.specs.Faults.{Fails};
ghost use Rattle.sip_message.specs.Read.{message_of};
ghost use Rattle.plans.specs.CallRows.{of_plan};
ghost use Rattle.responses.specs.Responding.{stateless};
ghost use Rattle.event_rows.specs.Rows.{datagram_row, refuses_alone, unfit_branch, unfit_request, unread_by};
ghost use Rattle.plans.specs.Office.{Office};

use plans::{Plan, Reason, Setting, Taken, Why};
use responses::{STATELESS, is_method, response_with};
use sip_message::{Message, MessageError, Parts, Request, answerable};
use sip_writing::reply_address;
use std::alloc::{AllocError, Global};

/// The tag of To in a response that no transaction sends.
fn stateless() -> &'static [u8]
    ensures { result.now ≡ stateless }
{
    STATELESS
}

fn refuses_alone(
    alloc: Global,
    setting: Setting,
    parts: &Parts<'_>,
    reason: Reason,
) -> Result<Plan, AllocError>
    ensures { IfOk result (λ p. p ≡ refuses_alone setting parts.now reason) }
{
    let (source, status) = (setting.source, reason.status());
    let bytes = response_with(alloc, parts, source, status, stateless(), &[])?;
    Plan::replies(alloc, reply_address(parts, source), reason, bytes)
}

fn unread_by(
    alloc: Global,
    setting: Setting,
    fault: MessageError,
    parts: Option<&Parts<'_>>,
) -> Result<Plan, AllocError>
    ensures { IfOk result (λ p. p ≡ unread_by setting fault (option_copied parts.entry)) }
{
    match parts {
        None => Ok(Plan::nothing(alloc, Taken::Dropped(Why::Unread(fault)))),
        Some(parts) => refuses_alone(alloc, setting, parts, Reason::Unread(fault)),
    }
}

/// A datagram with this fault: where something can be answered, it is.
fn unread_with(
    alloc: Global,
    setting: Setting,
    datagram: &[u8],
    fault: MessageError,
) -> Result<Plan, AllocError>
    ensures { IfOk result (λ p. p ≡ unread_by setting fault (answerable_of datagram.now)) }
{
    let parts = answerable(alloc, datagram)?;
    unread_by(alloc, setting, fault, parts.as_ref())
}

/// What a datagram that can't be read results in.
#[tactic(auto, unfolding(event_rows::specs::Rows::unread_row, event_rows::specs::Rows::datagram_row))]
pub(crate) fn unread_row(
    alloc: Global,
    setting: Setting,
    datagram: &[u8],
    fault: MessageError,
) -> Result<Plan, AllocError>
    requires { Fails fault (message_of datagram.now) }
    ensures { (s : Office) → IfOk result (λ p. of_plan s p ≡ datagram_row s setting datagram.now) }
{
    match fault {
        MessageError::OutOfMemory => Err(AllocError),
        MessageError::TooLong => Ok(Plan::nothing(alloc, Taken::Dropped(Why::Unread(fault)))),
        MessageError::Version => unread_with(alloc, setting, datagram, fault),
        MessageError::StartLine => unread_with(alloc, setting, datagram, fault),
        MessageError::HeaderLine => unread_with(alloc, setting, datagram, fault),
        MessageError::Missing(_) => unread_with(alloc, setting, datagram, fault),
        MessageError::Unreadable(_) => unread_with(alloc, setting, datagram, fault),
        MessageError::Short => unread_with(alloc, setting, datagram, fault),
    }
}

fn unfit_request(alloc: Global, setting: Setting, request: &Request<'_>) -> Result<Plan, AllocError>
    ensures { IfOk result (λ p. p ≡ unfit_request setting request.now) }
{
    if is_method(b"ACK", request) {
        return Ok(Plan::nothing(alloc, Taken::Dropped(Why::NoBranch)));
    }
    refuses_alone(alloc, setting, &request.parts, Reason::NoBranch)
}

/// What a message whose branch doesn't begin as it has to results in.
pub(crate) fn unfit_branch(
    alloc: Global,
    setting: Setting,
    message: &Message<'_>,
) -> Result<Plan, AllocError>
    ensures { IfOk result (λ p. p ≡ unfit_branch setting message.now) }
{
    match message {
        Message::Request(request) => unfit_request(alloc, setting, request),
        Message::Response(_) => Ok(Plan::nothing(alloc, Taken::Dropped(Why::NoBranch))),
    }
}
