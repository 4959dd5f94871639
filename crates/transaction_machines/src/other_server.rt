//! The server transaction of a request other than an INVITE (RFC 3261 section 17.2.2).

ghost use Rattle.std.specs.Prelude.{◌≡◌, IfSome};
ghost use Rattle.transaction_machines.specs.OtherServer.{other_server_row};
ghost use Rattle.transaction_machines.specs.Machines.{KeepsSide};
ghost use Rattle.transaction_machines.specs.Steps.{IsShort};

use crate::input::{Input, TimerKind};
use crate::state::State;
use crate::step::{LIMIT, Sending, Start, Step, Told, ends, enters, stays};
use sip_message::Class;

/// The states.
#[derive(Clone, Copy, Debug)]
pub enum OtherServer {
    Trying,
    Proceeding,
    Completed,
}

// A final response.
#[tactic(auto, unfolding(crate::specs::OtherServer::other_server_row))]
fn completes() -> Option<Step>
    ensures row { result ≡ other_server_row OtherServer.Proceeding (Input.Answer Class.Success) }
    ensures short { IfSome result (λ step. IsShort step.starts) }
    ensures side { IfSome result (λ step. KeepsSide (State.OtherServer OtherServer.Proceeding) step.next) }
{
    enters(
        State::OtherServer(OtherServer::Completed),
        Sending::Fresh,
        Told::Silent,
        Start {
            kind: TimerKind::J,
            after: LIMIT,
        },
    )
}

// The responses of the core before a final one.
#[tactic(auto, unfolding(crate::specs::OtherServer::other_server_row))]
fn on_response(class: Class) -> Option<Step>
    ensures row { result ≡ other_server_row OtherServer.Proceeding (Input.Answer class) }
    ensures short { IfSome result (λ step. IsShort step.starts) }
    ensures side { IfSome result (λ step. KeepsSide (State.OtherServer OtherServer.Proceeding) step.next) }
{
    match class {
        Class::Provisional => stays(
            State::OtherServer(OtherServer::Proceeding),
            Sending::Fresh,
            Told::Silent,
        ),
        Class::Success | Class::Failure => completes(),
    }
}

/// What an input does.
#[tactic(auto, unfolding(crate::specs::OtherServer::other_server_row))]
pub(crate) fn advance_other_server(state: OtherServer, input: Input) -> Option<Step>
    ensures row { result ≡ other_server_row state input }
    ensures short { IfSome result (λ step. IsShort step.starts) }
    ensures side { IfSome result (λ step. KeepsSide (State.OtherServer state) step.next) }
{
    let same = State::OtherServer(state);
    match (state, input) {
        (OtherServer::Trying, Input::Answer(class)) => on_response(class),
        (OtherServer::Proceeding, Input::Answer(class)) => on_response(class),
        (OtherServer::Proceeding, Input::Repeat) => stays(same, Sending::Again, Told::Silent),
        (OtherServer::Completed, Input::Repeat) => stays(same, Sending::Again, Told::Silent),
        (OtherServer::Completed, Input::Fires(TimerKind::J)) => ends(Told::Ended),
        _ => None,
    }
}
