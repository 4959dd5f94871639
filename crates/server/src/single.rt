//! `once`: one datagram from a reader, and what is sent for it to a writer.

ghost use Rattle.std.specs.Prelude.{◌≡◌, ◌++◌, IfErr, IfOk, OnOk};
ghost use Rattle.std.specs.Io.KnownBytes.{Appends};
ghost use Rattle.configuration.specs.Example.{example};
ghost use Rattle.event_rows.specs.Rows.{row};
ghost use Rattle.event_rows.specs.State.{IsNew};
ghost use Rattle.server.specs.Once.{Answers, SendsFor, bytes_of, single};
ghost use Rattle.server.specs.Leaves.{Leaves};

use crate::agents::agent_of;
use crate::fault::Fault;
use crate::input::read_datagram;
use crate::output::write_out;
use agent::Agent;
use configuration::example_config;
use events::{Event, Sent, What};
use sip_uri::Addr;
use std::alloc::{AllocError, Global};
use std::io::{Read, Write};
use text::Text;

/// The address that the datagram counts as sent from.
const SOURCE: Addr = Addr {
    ip: [192, 0, 2, 11],
    port: 6000,
};

/// The agent of the example office, before anything has happened to it.
fn example_agent(alloc: Global) -> Result<Agent, Fault>
    ensures made { IfOk result (IsNew example) }
    ensures refused { IfErr result (λ e. e ≡ Fault.OutOfMemory) }
{
    let config = example_config(alloc)?;
    agent_of(alloc, &config)
}

/// The datagram as an event.
fn single(datagram: Vec<u8>) -> Event
    ensures { result ≡ single datagram.items }
{
    Event {
        now: 0,
        salt: 1,
        what: What::Datagram {
            source: SOURCE,
            bytes: Text::from_vec(datagram),
        },
    }
}

/// What an agent sends at an event.
fn sends_at(alloc: Global, agent: &mut Agent, event: &Event) -> Result<Vec<Sent>, AllocError>
    ensures { IfOk result (λ sent. sent.items ≡ (row agent.old event.entry.now).plan.sends) }
{
    let mut sent = Vec::new(alloc);
    agent.step(event, &mut sent)?;
    Ok(sent)
}

/// What the example office sends for a datagram.
fn sent_for(alloc: Global, datagram: Vec<u8>) -> Result<Vec<Sent>, Fault>
    ensures sent { IfOk result (λ sent. SendsFor datagram.items sent.items) }
    ensures refused { IfErr result (λ e. e ≡ Fault.OutOfMemory) }
{
    let mut agent = example_agent(alloc)?;
    let event = single(datagram);
    let sent = sends_at(alloc, &mut agent, &event);
    drop(event);
    drop(agent);
    Ok(sent?)
}

/// The bytes of what is sent, one after the other.
fn bytes_of(alloc: Global, sent: &[Sent]) -> Result<Vec<u8>, AllocError>
    ensures { IfOk result (λ bytes. bytes.items ≡ bytes_of sent.now) }
{
    let mut bytes = Vec::new(alloc);
    for datagram in sent {
        bytes.extend_from_slice(datagram.bytes.as_bytes())?;
    }
    Ok(bytes)
}

/// Reads one datagram to its end, and writes the bytes of all that the example office sends for it.
pub fn once<R: Read, W: Write>(alloc: Global, reader: &mut R, writer: &mut W) -> Result<(), Fault>
    ensures written { OnOk result (Answers (R.remaining reader.old) (R.remaining reader.new) (W.contents writer.old) (W.contents writer.new)) }
    // Nothing is written unless the output itself failed.
    ensures refused { IfErr result (λ e. Leaves e (W.contents writer.old) (W.contents writer.new)) }
{
    let datagram = read_datagram(alloc, reader)?;
    let sent = sent_for(alloc, datagram)?;
    let bytes = bytes_of(alloc, &sent)?;
    write_out(writer, bytes.as_slice())
}
