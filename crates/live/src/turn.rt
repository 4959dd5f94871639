//! One event of the signalling: the agent's step, then the board, then the wire.

ghost use Rattle.std.specs.Prelude.{◌≡◌, ◌≤◌, ◌∷◌, ◌++◌, [], IfOk, OnOk, OnErr, length};
ghost use Rattle.event_rows.specs.Rows.{after, row};
ghost use Rattle.live.specs.Sending.{Sends};
ghost use Rattle.live.specs.States.{OnlySends};
ghost use Rattle.live.specs.Turns.{HasTable, published, Turns};

use crate::wire::Wire;
use agent::{Agent, Taken};
use events::{Event, Sent};
use message_laws::event_comes_from_source;
use port_pool::Change;
use relay::{Board, Refused};
use std::alloc::Global;
use std::sync::Wait;

/// What became of an event.
#[derive(Clone, Copy)]
pub enum Turned {
    /// What the agent answered, and how many datagrams could not be sent.
    Done(Taken, usize),
    /// Memory was refused: the event counts as not come.
    Lost,
    /// The changes of the relay table could not be published. Nothing was sent.
    Behind,
}

// Sends a datagram, and returns how many failed.
#[tactic(auto, using(crate::proofs::SendLaws::sends_one, crate::proofs::SendLaws::fails_one))]
fn send_one<W: Wire>(wire: &mut W, datagram: &Sent) -> usize
    ensures sends { Sends (W.seen wire.old).tried (W.seen wire.new).tried (datagram.now ∷ []) result }
    ensures bound { result ≤ 1 }
    ensures only_sends { OnlySends (W.seen wire.old) (W.seen wire.new) }
{
    match wire.send(datagram.to, datagram.bytes.as_bytes()) {
        Ok(()) => 0,
        Err(_) => 1,
    }
}

// Sends all of them in order, and returns how many failed.
fn send_all<W: Wire>(wire: &mut W, datagrams: &[Sent]) -> usize
    ensures sends { Sends (W.seen wire.old).tried (W.seen wire.new).tried datagrams.now result }
    ensures only_sends { OnlySends (W.seen wire.old) (W.seen wire.new) }
{
    let mut failed: usize = 0;
    for datagram in datagrams {
        failed += send_one(wire, datagram);
    }
    failed
}

// Publishes changes as one list, if there are any.
fn publish<R: Wait>(
    rt: &R,
    alloc: Global,
    board: &mut Board,
    changes: &[Change],
) -> Result<(), Refused>
    ensures ok { OnOk result (board.new ≡ published board.old changes.now) }
    ensures err { OnErr result (board.new ≡ board.old) }
{
    if changes.is_empty() {
        return Ok(());
    }
    board.publish(rt, alloc, changes)
}

/// The agent takes an event; then the changes of its relay table are published as one list; then what it sends goes
/// out in order. A send that fails loses only that datagram. The call waits for look-ups in the table to end.
pub fn live_turn<W: Wire, R: Wait>(
    rt: &R,
    alloc: Global,
    agent: &mut Agent,
    board: &mut Board,
    wire: &mut W,
    event: &Event,
) -> Turned
    requires { HasTable board.old agent.old }
    ensures turns { Turns event.entry.now
        (record { agent = agent.old; lists = board.old; wire = W.seen wire.old })
        (record { agent = agent.new; lists = board.new; wire = W.seen wire.new }) result }
    ensures only_sends { OnlySends (W.seen wire.old) (W.seen wire.new) }
{
    event_comes_from_source(event);
    let mut sends = Vec::new(alloc);
    let Ok(taken) = agent.step(event, &mut sends) else {
        drop(sends);
        return Turned::Lost;
    };
    if publish(rt, alloc, board, agent.changes()).is_err() {
        drop(sends);
        return Turned::Behind;
    }
    let failed = send_all(wire, &sends);
    drop(sends);
    Turned::Done(taken, failed)
}
