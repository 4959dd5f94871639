//! The client transaction of an INVITE (RFC 3261 section 17.1.1 with RFC 6026 section 7.2).

ghost use Rattle.std.specs.Prelude.{◌≡◌, ◌*◌, IfSome};
ghost use Rattle.transaction_machines.specs.InviteClient.{invite_client_row};
ghost use Rattle.transaction_machines.specs.Machines.{KeepsSide};
ghost use Rattle.transaction_machines.specs.Steps.{line, timer, t1, d_after, IsShort};

use crate::input::{Input, TimerKind};
use crate::state::State;
use crate::step::{
    LIMIT, Sending, Start, Starts, Step, Stops, Told, ends, enters, sets, stays, twice_to_limit,
};
use sip_message::Class;

/// How long copies of a refusal are acknowledged, in milliseconds.
const D_AFTER: u64 = LIMIT;

/// The states. `Calling` has the interval of timer A in milliseconds, and whether the core no longer waits.
#[derive(Clone, Copy, Debug)]
pub enum InviteClient {
    Calling(u64, bool),
    Proceeding,
    Completed,
    Accepted,
}

// The INVITE again, and twice the interval from now on.
#[tactic(auto, unfolding(crate::specs::InviteClient::invite_client_row))]
fn sends_again(interval: u64, abandoned: bool) -> Option<Step>
    ensures row { result ≡ invite_client_row (InviteClient.Calling interval abandoned) (Input.Fires TimerKind.A) }
    ensures short { IfSome result (λ step. IsShort step.starts) }
    ensures side { IfSome result (λ step. KeepsSide (State.InviteClient InviteClient.Proceeding) step.next) }
{
    let interval = twice_to_limit(interval);
    sets(
        State::InviteClient(InviteClient::Calling(interval, abandoned)),
        Sending::Again,
        Start {
            kind: TimerKind::A,
            after: interval,
        },
    )
}

// A provisional response: A and B stop.
fn proceeds() -> Option<Step>
    ensures { result ≡ line (State.InviteClient InviteClient.Proceeding) Sending.Nothing Told.Up Stops.Retransmission Starts.NoTimer }
{
    Some(Step {
        next: Some(State::InviteClient(InviteClient::Proceeding)),
        send: Sending::Nothing,
        told: Told::Up,
        stops: Stops::Retransmission,
        starts: Starts::NoTimer,
    })
}

// A 2xx.
fn accepts() -> Option<Step>
    ensures { result ≡ line (State.InviteClient InviteClient.Accepted) Sending.Nothing Told.Up Stops.Every (Starts.One (timer TimerKind.M (64 * t1))) }
{
    enters(
        State::InviteClient(InviteClient::Accepted),
        Sending::Nothing,
        Told::Up,
        Start {
            kind: TimerKind::M,
            after: LIMIT,
        },
    )
}

// A refusal, which is acknowledged.
fn completes() -> Option<Step>
    ensures { result ≡ line (State.InviteClient InviteClient.Completed) Sending.Fresh Told.Up Stops.Every (Starts.One (timer TimerKind.D d_after)) }
{
    enters(
        State::InviteClient(InviteClient::Completed),
        Sending::Fresh,
        Told::Up,
        Start {
            kind: TimerKind::D,
            after: D_AFTER,
        },
    )
}

// The first response, or one after provisional ones.
#[tactic(auto, unfolding(crate::specs::InviteClient::invite_client_row))]
fn on_response(class: Class) -> Option<Step>
    ensures row { result ≡ invite_client_row InviteClient.Proceeding (Input.Response class) }
    ensures short { IfSome result (λ step. IsShort step.starts) }
    ensures side { IfSome result (λ step. KeepsSide (State.InviteClient InviteClient.Proceeding) step.next) }
{
    match class {
        Class::Provisional => proceeds(),
        Class::Success => accepts(),
        Class::Failure => completes(),
    }
}

// The core no longer waits: N ends the transaction at last.
fn waits(state: InviteClient) -> Option<Step>
    ensures { result ≡ line (State.InviteClient state) Sending.Nothing Told.Silent Stops.NoTimer (Starts.One (timer TimerKind.N (64 * t1))) }
{
    sets(
        State::InviteClient(state),
        Sending::Nothing,
        Start {
            kind: TimerKind::N,
            after: LIMIT,
        },
    )
}

/// What an input does.
#[tactic(auto, unfolding(crate::specs::InviteClient::invite_client_row))]
pub(crate) fn advance_invite_client(state: InviteClient, input: Input) -> Option<Step>
    ensures row { result ≡ invite_client_row state input }
    ensures short { IfSome result (λ step. IsShort step.starts) }
    ensures side { IfSome result (λ step. KeepsSide (State.InviteClient state) step.next) }
{
    match (state, input) {
        (InviteClient::Calling(interval, abandoned), Input::Fires(TimerKind::A)) => {
            sends_again(interval, abandoned)
        }
        (InviteClient::Calling(_, false), Input::Fires(TimerKind::B)) => ends(Told::TimedOut),
        (InviteClient::Calling(_, true), Input::Fires(TimerKind::B)) => ends(Told::Ended),
        (InviteClient::Calling(_, _), Input::Fires(TimerKind::N)) => ends(Told::Ended),
        (InviteClient::Calling(interval, _), Input::Abandon) => {
            waits(InviteClient::Calling(interval, true))
        }
        (InviteClient::Calling(_, _), Input::Response(class)) => on_response(class),
        (InviteClient::Proceeding, Input::Fires(TimerKind::N)) => ends(Told::Ended),
        (InviteClient::Proceeding, Input::Abandon) => waits(state),
        (InviteClient::Proceeding, Input::Response(class)) => on_response(class),
        (InviteClient::Completed, Input::Response(Class::Failure)) => {
            stays(State::InviteClient(state), Sending::Again, Told::Silent)
        }
        (InviteClient::Completed, Input::Fires(TimerKind::D)) => ends(Told::Ended),
        (InviteClient::Accepted, Input::Response(Class::Success)) => {
            stays(State::InviteClient(state), Sending::Nothing, Told::Up)
        }
        (InviteClient::Accepted, Input::Fires(TimerKind::M)) => ends(Told::Ended),
        _ => None,
    }
}
