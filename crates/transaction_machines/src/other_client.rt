//! The client transaction of a request other than an INVITE (RFC 3261 section 17.1.2).

ghost use Rattle.std.specs.Prelude.{◌≡◌, IfSome};
ghost use Rattle.transaction_machines.specs.OtherClient.{other_client_row, again_after};
ghost use Rattle.transaction_machines.specs.Machines.{KeepsSide};
ghost use Rattle.transaction_machines.specs.Steps.{IsShort};

use crate::input::{Input, TimerKind};
use crate::state::State;
use crate::step::{Sending, Start, Step, T2, T4, Told, doubled_to_t2, ends, enters, sets, stays};
use sip_message::Class;

/// The states. `Trying` has the interval of timer E in milliseconds.
#[derive(Clone, Copy, Debug)]
pub enum OtherClient {
    Trying(u64),
    Proceeding,
    Completed,
}

// The request again after this interval.
fn sends_after(state: OtherClient, interval: u64) -> Option<Step>
    ensures { result ≡ again_after state interval }
{
    sets(
        State::OtherClient(state),
        Sending::Again,
        Start {
            kind: TimerKind::E,
            after: interval,
        },
    )
}

// The request again, and twice the interval from now on.
#[tactic(auto, unfolding(crate::specs::OtherClient::other_client_row))]
fn sends_again(interval: u64) -> Option<Step>
    ensures row { result ≡ other_client_row (OtherClient.Trying interval) (Input.Fires TimerKind.E) }
    ensures short { IfSome result (λ step. IsShort step.starts) }
    ensures side { IfSome result (λ step. KeepsSide (State.OtherClient OtherClient.Proceeding) step.next) }
{
    let interval = doubled_to_t2(interval);
    sends_after(OtherClient::Trying(interval), interval)
}

// A final response.
#[tactic(auto, unfolding(crate::specs::OtherClient::other_client_row))]
fn completes() -> Option<Step>
    ensures row { result ≡ other_client_row OtherClient.Proceeding (Input.Response Class.Success) }
    ensures short { IfSome result (λ step. IsShort step.starts) }
    ensures side { IfSome result (λ step. KeepsSide (State.OtherClient OtherClient.Proceeding) step.next) }
{
    enters(
        State::OtherClient(OtherClient::Completed),
        Sending::Nothing,
        Told::Up,
        Start {
            kind: TimerKind::K,
            after: T4,
        },
    )
}

// The first response, or one after provisional ones.
#[tactic(auto, unfolding(crate::specs::OtherClient::other_client_row))]
fn on_response(class: Class) -> Option<Step>
    ensures row { result ≡ other_client_row OtherClient.Proceeding (Input.Response class) }
    ensures short { IfSome result (λ step. IsShort step.starts) }
    ensures side { IfSome result (λ step. KeepsSide (State.OtherClient OtherClient.Proceeding) step.next) }
{
    match class {
        Class::Provisional => stays(
            State::OtherClient(OtherClient::Proceeding),
            Sending::Nothing,
            Told::Up,
        ),
        Class::Success | Class::Failure => completes(),
    }
}

/// What an input does.
#[tactic(auto, unfolding(crate::specs::OtherClient::other_client_row))]
pub(crate) fn advance_other_client(state: OtherClient, input: Input) -> Option<Step>
    ensures row { result ≡ other_client_row state input }
    ensures short { IfSome result (λ step. IsShort step.starts) }
    ensures side { IfSome result (λ step. KeepsSide (State.OtherClient state) step.next) }
{
    match (state, input) {
        (OtherClient::Trying(interval), Input::Fires(TimerKind::E)) => sends_again(interval),
        (OtherClient::Trying(_), Input::Fires(TimerKind::F)) => ends(Told::TimedOut),
        (OtherClient::Trying(_), Input::Response(class)) => on_response(class),
        (OtherClient::Proceeding, Input::Fires(TimerKind::E)) => sends_after(state, T2),
        (OtherClient::Proceeding, Input::Fires(TimerKind::F)) => ends(Told::TimedOut),
        (OtherClient::Proceeding, Input::Response(class)) => on_response(class),
        (OtherClient::Completed, Input::Fires(TimerKind::K)) => ends(Told::Ended),
        _ => None,
    }
}
