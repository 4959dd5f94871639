//! The server transaction of an INVITE (RFC 3261 section 17.2.1 with RFC 6026 section 7.1).

ghost use Rattle.std.specs.Prelude.{◌≡◌, IfSome};
ghost use Rattle.transaction_machines.specs.InviteServer.{invite_server_row};
ghost use Rattle.transaction_machines.specs.Machines.{KeepsSide};
ghost use Rattle.transaction_machines.specs.Steps.{IsShort};

use crate::input::{Input, TimerKind};
use crate::state::State;
use crate::step::{
    LIMIT, Sending, Start, Starts, Step, Stops, T1, T4, Told, doubled_to_t2, ends, enters, sets,
    stays,
};
use sip_message::Class;

/// The states. `Completed` has the interval of timer G in milliseconds.
#[derive(Clone, Copy, Debug)]
pub enum InviteServer {
    Proceeding,
    Completed(u64),
    Confirmed,
    Accepted,
}

// A 2xx.
#[tactic(auto, unfolding(crate::specs::InviteServer::invite_server_row))]
fn accepts() -> Option<Step>
    ensures row { result ≡ invite_server_row InviteServer.Proceeding (Input.Answer Class.Success) }
    ensures short { IfSome result (λ step. IsShort step.starts) }
    ensures side { IfSome result (λ step. KeepsSide (State.InviteServer InviteServer.Proceeding) step.next) }
{
    enters(
        State::InviteServer(InviteServer::Accepted),
        Sending::Fresh,
        Told::Silent,
        Start {
            kind: TimerKind::L,
            after: LIMIT,
        },
    )
}

// A refusal, which is sent again until its ACK comes.
#[tactic(auto, unfolding(crate::specs::InviteServer::invite_server_row))]
fn refuses() -> Option<Step>
    ensures row { result ≡ invite_server_row InviteServer.Proceeding (Input.Answer Class.Failure) }
    ensures short { IfSome result (λ step. IsShort step.starts) }
    ensures side { IfSome result (λ step. KeepsSide (State.InviteServer InviteServer.Proceeding) step.next) }
{
    Some(Step {
        next: Some(State::InviteServer(InviteServer::Completed(T1))),
        send: Sending::Fresh,
        told: Told::Silent,
        stops: Stops::Every,
        starts: Starts::Two(
            Start {
                kind: TimerKind::G,
                after: T1,
            },
            Start {
                kind: TimerKind::H,
                after: LIMIT,
            },
        ),
    })
}

// The responses of the core before a final one.
#[tactic(auto, unfolding(crate::specs::InviteServer::invite_server_row))]
fn on_response(class: Class) -> Option<Step>
    ensures row { result ≡ invite_server_row InviteServer.Proceeding (Input.Answer class) }
    ensures short { IfSome result (λ step. IsShort step.starts) }
    ensures side { IfSome result (λ step. KeepsSide (State.InviteServer InviteServer.Proceeding) step.next) }
{
    match class {
        Class::Provisional => stays(
            State::InviteServer(InviteServer::Proceeding),
            Sending::Fresh,
            Told::Silent,
        ),
        Class::Success => accepts(),
        Class::Failure => refuses(),
    }
}

// The refusal again, and twice the interval from now on.
#[tactic(auto, unfolding(crate::specs::InviteServer::invite_server_row))]
fn sends_again(interval: u64) -> Option<Step>
    ensures row { result ≡ invite_server_row (InviteServer.Completed interval) (Input.Fires TimerKind.G) }
    ensures short { IfSome result (λ step. IsShort step.starts) }
    ensures side { IfSome result (λ step. KeepsSide (State.InviteServer InviteServer.Proceeding) step.next) }
{
    let interval = doubled_to_t2(interval);
    sets(
        State::InviteServer(InviteServer::Completed(interval)),
        Sending::Again,
        Start {
            kind: TimerKind::G,
            after: interval,
        },
    )
}

// The ACK to a refusal.
#[tactic(auto, unfolding(crate::specs::InviteServer::invite_server_row))]
fn confirms(interval: u64) -> Option<Step>
    ensures row { result ≡ invite_server_row (InviteServer.Completed interval) Input.Ack }
    ensures short { IfSome result (λ step. IsShort step.starts) }
    ensures side { IfSome result (λ step. KeepsSide (State.InviteServer InviteServer.Proceeding) step.next) }
{
    enters(
        State::InviteServer(InviteServer::Confirmed),
        Sending::Nothing,
        Told::Silent,
        Start {
            kind: TimerKind::I,
            after: T4,
        },
    )
}

/// What an input does.
#[tactic(auto, unfolding(crate::specs::InviteServer::invite_server_row))]
pub(crate) fn advance_invite_server(state: InviteServer, input: Input) -> Option<Step>
    ensures row { result ≡ invite_server_row state input }
    ensures short { IfSome result (λ step. IsShort step.starts) }
    ensures side { IfSome result (λ step. KeepsSide (State.InviteServer state) step.next) }
{
    let same = State::InviteServer(state);
    match (state, input) {
        (InviteServer::Proceeding, Input::Repeat) => stays(same, Sending::Again, Told::Silent),
        (InviteServer::Proceeding, Input::Answer(class)) => on_response(class),
        (InviteServer::Completed(_), Input::Repeat) => stays(same, Sending::Again, Told::Silent),
        (InviteServer::Completed(interval), Input::Fires(TimerKind::G)) => sends_again(interval),
        (InviteServer::Completed(interval), Input::Ack) => confirms(interval),
        (InviteServer::Completed(_), Input::Fires(TimerKind::H)) => ends(Told::TimedOut),
        (InviteServer::Confirmed, Input::Fires(TimerKind::I)) => ends(Told::Ended),
        (InviteServer::Accepted, Input::Answer(Class::Success)) => {
            stays(same, Sending::Fresh, Told::Silent)
        }
        (InviteServer::Accepted, Input::Ack) => stays(same, Sending::Nothing, Told::Up),
        (InviteServer::Accepted, Input::Fires(TimerKind::L)) => ends(Told::Ended),
        _ => None,
    }
}
