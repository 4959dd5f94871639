//! What is written at the end of a day: the live calls, and the rows of the relay table.

ghost use Rattle.std.specs.Prelude.{◌≡◌, ◌++◌, OnOk};
ghost use Rattle.server.specs.State.{call_line, calls_text, hop_line, hops_text, phase_name, phase_word, state_text};

use agent::Agent;
use call_core::Phase;
use calls::StandingCall;
use port_pool::RelayTable;
use scripts::{put_call, put_hop};
use std::alloc::AllocError;

fn phase_name(phase: Phase) -> &'static [u8]
    ensures { result.now ≡ phase_name phase }
{
    match phase {
        Phase::Asked => b"asked",
        Phase::Cancelling => b"cancelling",
        Phase::Answered => b"answered",
        Phase::Settled => b"settled",
        Phase::Reasked => b"reasked",
        Phase::Reanswered => b"reanswered",
        Phase::Updating => b"updating",
        Phase::Ending => b"ending",
    }
}

fn phase_word(phase: Option<Phase>) -> &'static [u8]
    ensures { result.now ≡ phase_word phase }
{
    match phase {
        None => b"",
        Some(phase) => phase_name(phase),
    }
}

fn put_call_line(out: &mut Vec<u8>, call: &StandingCall) -> Result<(), AllocError>
    ensures ok { OnOk result (out.new.items ≡ out.old.items ++ call_line call.now) }
{
    put_call(out, call.call.number(), phase_word(call.call.phase()))
}

fn put_calls(out: &mut Vec<u8>, calls: &[StandingCall]) -> Result<(), AllocError>
    ensures ok { OnOk result (out.new.items ≡ out.old.items ++ calls_text calls.now) }
{
    for call in calls {
        put_call_line(out, call)?;
    }
    Ok(())
}

fn put_hop_line(out: &mut Vec<u8>, relay: &RelayTable, port: u16) -> Result<(), AllocError>
    ensures ok { OnOk result (out.new.items ≡ out.old.items ++ hop_line relay.now port) }
{
    match relay.hop(port) {
        None => Ok(()),
        Some(hop) => put_hop(out, port, hop),
    }
}

fn put_hops(out: &mut Vec<u8>, relay: &RelayTable) -> Result<(), AllocError>
    ensures ok { OnOk result (out.new.items ≡ out.old.items ++ hops_text relay.now) }
{
    for port in 0..u16::MAX {
        put_hop_line(out, relay, port)?;
    }
    put_hop_line(out, relay, u16::MAX)
}

/// The lines of the live calls, in the order in which they began, followed by those of the relay table's rows, by
/// rising port.
pub(crate) fn put_state(out: &mut Vec<u8>, agent: &Agent) -> Result<(), AllocError>
    ensures ok { OnOk result (out.new.items ≡ out.old.items ++ state_text agent.now) }
{
    put_calls(out, agent.calls())?;
    put_hops(out, agent.relay())
}
