//! The state of a transaction, of any machine.

ghost use Rattle.std.specs.Prelude.{◌≡◌, IfSome, IsTrue};
ghost use Rattle.transaction_machines.specs.Lines.{follows, is_answer};
ghost use Rattle.transaction_machines.specs.Machines.{row_of, is_server, KeepsSide};
ghost use Rattle.transaction_machines.specs.Steps.{IsShort};

use crate::input::Input;
use crate::invite_client::{InviteClient, advance_invite_client};
use crate::invite_server::{InviteServer, advance_invite_server};
use crate::other_client::{OtherClient, advance_other_client};
use crate::other_server::{OtherServer, advance_other_server};
use crate::step::Step;

/// A state of one of the four machines of RFC 3261 section 17.
#[derive(Clone, Copy, Debug)]
pub enum State {
    /// Of a client transaction of an INVITE (section 17.1.1, RFC 6026).
    InviteClient(InviteClient),
    /// Of a server transaction of an INVITE (section 17.2.1, RFC 6026).
    InviteServer(InviteServer),
    /// Of a client transaction of another request (section 17.1.2).
    OtherClient(OtherClient),
    /// Of a server transaction of another request (section 17.2.2).
    OtherServer(OtherServer),
}

/// What an input does in a state. None where it has no line: then a message is swallowed.
#[tactic(auto, unfolding(crate::specs::Machines::row_of))]
pub fn advance(state: State, input: Input) -> Option<Step>
    ensures row { result ≡ row_of state input }
    // No timer runs for more than 32 seconds.
    ensures short { IfSome result (λ step. IsShort step.starts) }
    // A server transaction stays one, and a client transaction too.
    ensures side { IfSome result (λ step. KeepsSide state step.next) }
    // Each timer that runs on or starts has a line in the next state.
    ensures follows { IfSome result (λ step. IsTrue (follows state (is_answer input) step)) }
{
    match state {
        State::InviteClient(state) => advance_invite_client(state, input),
        State::InviteServer(state) => advance_invite_server(state, input),
        State::OtherClient(state) => advance_other_client(state, input),
        State::OtherServer(state) => advance_other_server(state, input),
    }
}

/// Whether the state is one of a server transaction. Takes no memory.
pub fn is_server(state: State) -> bool
    ensures { result ≡ is_server state }
{
    matches!(state, State::InviteServer(_) | State::OtherServer(_))
}
