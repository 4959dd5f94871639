//! The live calls.

ghost use Rattle.std.specs.Prelude.{◌≡◌, map, IfOk};
ghost use Rattle.std.specs.Option.{option_copied};
ghost use Rattle.agent_status.specs.Calls.{call_phase, call_status, media_in, traffic_of, user_text, users_of};

use crate::media::media_of;
use call_core::{Call, Phase};
use call_media::{End, Session};
use calls::StandingCall;
use dialogs::Dialog;
use status::{CallPhase, CallStatus, CallTraffic, Entries, MediumStatus};
use std::alloc::{AllocError, Global};
use text::Text;

/// How far a call in a phase is.
fn call_phase(phase: Option<Phase>) -> CallPhase
    ensures { result ≡ call_phase phase }
{
    match phase {
        Some(Phase::Asked) => CallPhase::Calling,
        Some(Phase::Cancelling) => CallPhase::Cancelling,
        Some(Phase::Answered) => CallPhase::Answered,
        Some(Phase::Settled) => CallPhase::Talking,
        Some(Phase::Reasked | Phase::Reanswered | Phase::Updating) => CallPhase::Changing,
        Some(Phase::Ending) | None => CallPhase::Ending,
    }
}

fn media_in(alloc: Global, session: Option<&Session>) -> Result<Vec<MediumStatus>, AllocError>
    ensures { IfOk result (λ media. media.items ≡ media_in (option_copied session.entry)) }
{
    match session {
        Some(session) => media_of(alloc, session),
        None => Ok(Vec::new(alloc)),
    }
}

fn traffic_of(traffic: &[CallTraffic], number: u64) -> Option<&CallTraffic>
    ensures { option_copied result ≡ traffic_of traffic.now number }
{
    traffic.iter().find(|call| call.number == number)
}

/// The user of a URI; empty if it has none.
fn user_text(alloc: Global, user: Option<&Text<'static>>) -> Result<Text<'static>, AllocError>
    ensures { IfOk result (λ text. text ≡ user_text (option_copied user.entry)) }
{
    match user {
        Some(user) => user.keep(alloc),
        None => Ok(Text::lent(&[])),
    }
}

/// The users at a call's ends, the caller first, as its dialog with the caller names them.
fn users_of(
    alloc: Global,
    dialog: Option<&Dialog>,
) -> Result<(Text<'static>, Text<'static>), AllocError>
    ensures { IfOk result (λ users. users ≡ users_of (option_copied dialog.entry)) }
{
    let Some(dialog) = dialog else {
        return Ok((Text::lent(&[]), Text::lent(&[])));
    };
    let caller = user_text(alloc, dialog.theirs.uri.user.as_ref())?;
    let callee = user_text(alloc, dialog.ours.uri.user.as_ref())?;
    Ok((caller, callee))
}

/// A call, with what was counted of it.
fn call_status(
    alloc: Global,
    call: &Call,
    traffic: &[CallTraffic],
) -> Result<CallStatus, AllocError>
    ensures { IfOk result (λ status. status ≡ call_status traffic.now call.now) }
{
    let (caller, callee) = users_of(alloc, call.dialog(End::Caller))?;
    let media = media_in(alloc, call.session())?;
    Ok(CallStatus {
        number: call.number(),
        caller,
        callee,
        phase: call_phase(call.phase()),
        media: Entries::from_vec(media),
        traffic: traffic_of(traffic, call.number()).copied(),
    })
}

/// Each call, in the order in which they began.
pub(crate) fn call_statuses(
    alloc: Global,
    calls: &[StandingCall],
    traffic: &[CallTraffic],
) -> Result<Vec<CallStatus>, AllocError>
    ensures { IfOk result (λ statuses. statuses.items ≡ map (λ c. call_status traffic.now c.call) calls.now) }
{
    let mut statuses = Vec::with_capacity(alloc, calls.len())?;
    for standing in calls {
        statuses.push(call_status(alloc, &standing.call, traffic)?)?;
    }
    Ok(statuses)
}
