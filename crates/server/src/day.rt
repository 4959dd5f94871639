//! `replay`: the events of a script, which an office takes one after the other, starting with nothing having
//! happened.

ghost use Rattle.std.specs.Prelude.{◌≡◌, ◌++◌, None, Some, IfErr, IfOk, OnOk, option_map};
ghost use Rattle.std.specs.Io.KnownBytes.{Appends};
ghost use Rattle.configuration.specs.Rules.{first_broken};
ghost use Rattle.event_rows.specs.Rows.{after, row};
ghost use Rattle.note_lines.specs.NoteLines.{noted};
ghost use Rattle.server.specs.Faults.{unread_config};
ghost use Rattle.server.specs.Leaves.{IsOfConfig, IsOfOffice, IsOfScript, IsRefusalOf, IsScriptFault};
ghost use Rattle.server.specs.State.{state_text};
ghost use Rattle.server.specs.Told.{note_text, noted_of, source_of};
ghost use Rattle.server.specs.Replay.{after_all, text_of, EventLeaves, IsOffice, IsScript, Replays, ReplayLeaves, RunLeaves, TellsIf, WritesDay, WritesEvent, WritesRun};

use crate::agents::agent_of;
use crate::fault::Fault;
use crate::input::read_whole;
use crate::output::write_out;
use crate::state::put_state;
use agent::Agent;
use configuration::{Config, ConfigError, example_config, fault_of, read_config};
use events::{Event, Sent, What};
use note_lines::{Ledger, NotedEvent, put_note};
use scripts::{ScriptError, malformed_at, put_sent, read_script};
use sip_uri::Addr;
use std::alloc::{AllocError, Global};
use std::io::{Read, Write};

/// What a reading fault becomes when the file was a configuration.
fn unread_config(fault: Fault) -> Fault
    ensures { result ≡ unread_config fault }
{
    match fault {
        Fault::OutOfMemory => Fault::OutOfMemory,
        _ => Fault::Config(None),
    }
}

/// Why a text is refused as a configuration.
fn refusal(alloc: Global, text: &[u8]) -> Fault
    ensures { IsRefusalOf text.now result }
{
    match fault_of(alloc, text) {
        Ok(fault) => Fault::Config(fault),
        Err(_) => Fault::OutOfMemory,
    }
}

/// The configuration that a file describes.
pub(crate) fn config_of<C: Read + Drop>(alloc: Global, mut file: C) -> Result<Config, Fault>
    ensures read { IfOk result (λ config. IsOffice (Some (C.remaining file)) config) }
    ensures kept { IfOk result (λ config. first_broken config ≡ None) }
    ensures refused { IfErr result (IsOfConfig (C.remaining file)) }
{
    let text = match read_whole(alloc, &mut file) {
        Ok(text) => text,
        Err(fault) => return Err(unread_config(fault)),
    };
    match read_config(alloc, &text) {
        Ok(config) => Ok(config),
        Err(ConfigError::OutOfMemory) => Err(Fault::OutOfMemory),
        Err(_) => Err(refusal(alloc, &text)),
    }
}

/// The configuration of a file, or the example office.
pub(crate) fn office_of<C: Read + Drop>(alloc: Global, file: Option<C>) -> Result<Config, Fault>
    ensures read { IfOk result (λ config. IsOffice (option_map (λ f. C.remaining f) file) config) }
    ensures kept { IfOk result (λ config. first_broken config ≡ None) }
    ensures refused { IfErr result (IsOfOffice (option_map (λ f. C.remaining f) file)) }
{
    match file {
        Some(file) => config_of(alloc, file),
        None => Ok(example_config(alloc)?),
    }
}

/// Why a text is refused as a script.
fn script_fault(error: ScriptError, text: &[u8]) -> Fault
    ensures { IsScriptFault text.now error result }
{
    match (error, malformed_at(text)) {
        (ScriptError::Malformed, Some(at)) => Fault::Script(at),
        (ScriptError::Malformed, None) => Fault::Input,
        (ScriptError::OutOfMemory, _) => Fault::OutOfMemory,
    }
}

/// The events of a script, all of them.
fn events_of<S: Read + Drop>(alloc: Global, mut file: S) -> Result<Vec<Event>, Fault>
    ensures read { IfOk result (λ events. IsScript (S.remaining file) events.items) }
    ensures refused { IfErr result (IsOfScript (S.remaining file)) }
{
    let text = read_whole(alloc, &mut file)?;
    match read_script(alloc, &text) {
        Ok(events) => Ok(events),
        Err(error) => Err(script_fault(error, &text)),
    }
}

/// The text of what is sent.
fn text_of(alloc: Global, sent: &[Sent]) -> Result<Vec<u8>, AllocError>
    ensures { IfOk result (λ text. text.items ≡ text_of sent.now) }
{
    let mut text = Vec::new(alloc);
    for datagram in sent {
        put_sent(&mut text, datagram)?;
    }
    Ok(text)
}

/// Where an event came from; none for a timer, silence or users.
fn source_of(event: &Event) -> Option<Addr>
    ensures { result ≡ source_of event.entry.now.what }
{
    match &event.what {
        What::Datagram { source, .. } => Some(*source),
        What::Due | What::Silent(_) | What::Users(_) => None,
    }
}

/// The event that the agent took last, as its line needs it. Nobody counts media.
fn noted<'a>(agent: &'a Agent, event: &Event) -> NotedEvent<'a>
    ensures { noted result ≡ noted_of agent.now event.entry.now.what }
{
    NotedEvent {
        note: agent.note(),
        calls: agent.calls(),
        registrar: agent.registrar(),
        user: agent.registered_user(),
        moment: agent.moment(),
        source: source_of(event),
        media: None,
    }
}

/// Appends what the last event was about, if notes are asked for.
#[tactic(auto, using(crate::proofs::ReplayLaws::not_told, crate::proofs::ReplayLaws::told, crate::proofs::ReplayLaws::not_noted, crate::proofs::ReplayLaws::noted_so))]
fn put_told(
    out: &mut Vec<u8>,
    alloc: Global,
    notes: bool,
    ledger: &mut Ledger,
    agent: &Agent,
    event: &Event,
) -> Result<(), AllocError>
    ensures tells { OnOk result (TellsIf notes out.old.items out.new.items) }
    ensures line { OnOk result (out.new.items ≡ out.old.items ++ note_text notes ledger.old agent.now event.entry.now.what) }
{
    if !notes {
        return Ok(());
    }
    put_note(out, alloc, ledger, noted(agent, event))
}

/// Takes an event, and writes the text of what is sent. If notes are asked for, writes what it was about as well.
pub(crate) fn play_event<W: Write>(
    alloc: Global,
    agent: &mut Agent,
    event: &Event,
    notes: bool,
    ledger: &mut Ledger,
    writer: &mut W,
) -> Result<(), Fault>
    ensures agent { OnOk result (agent.new ≡ after agent.old event.entry.now) }
    ensures written { OnOk result (WritesEvent notes agent.old event.entry.now (W.contents writer.old) (W.contents writer.new)) }
    ensures refused { IfErr result (λ e. EventLeaves e (W.contents writer.old) (W.contents writer.new)) }
{
    let mut sent = Vec::new(alloc);
    agent.step(event, &mut sent)?;
    let mut text = text_of(alloc, &sent)?;
    put_told(&mut text, alloc, notes, ledger, agent, event)?;
    write_out(writer, text.as_slice())
}

/// Takes the events in order, and writes the text of each before the next is taken.
fn play<W: Write>(
    alloc: Global,
    agent: &mut Agent,
    events: &[Event],
    notes: bool,
    writer: &mut W,
) -> Result<(), Fault>
    ensures agent { OnOk result (agent.new ≡ after_all agent.old events.now) }
    ensures written { OnOk result (WritesRun notes agent.old events.now (W.contents writer.old) (W.contents writer.new)) }
    ensures refused { IfErr result (λ e. RunLeaves notes agent.old events.now e (W.contents writer.old) (W.contents writer.new)) }
{
    let mut ledger = Ledger::new(alloc);
    for event in events {
        play_event(alloc, agent, event, notes, &mut ledger, writer)?;
    }
    Ok(())
}

/// Writes the live calls and the rows of the relay table.
pub(crate) fn write_state<W: Write>(
    alloc: Global,
    agent: &Agent,
    writer: &mut W,
) -> Result<(), Fault>
    ensures written { OnOk result (Appends (W.contents writer.old) (W.contents writer.new) (state_text agent.now)) }
    ensures refused { IfErr result (λ e. EventLeaves e (W.contents writer.old) (W.contents writer.new)) }
{
    let mut text = Vec::new(alloc);
    put_state(&mut text, agent)?;
    write_out(writer, text.as_slice())
}

/// Takes the events in order, writes the text of each, and then the state at the end.
fn play_day<W: Write>(
    alloc: Global,
    agent: &mut Agent,
    events: &[Event],
    notes: bool,
    writer: &mut W,
) -> Result<(), Fault>
    ensures written { OnOk result (WritesDay notes agent.old events.now (W.contents writer.old) (W.contents writer.new)) }
    ensures refused { IfErr result (λ e. RunLeaves notes agent.old events.now e (W.contents writer.old) (W.contents writer.new)) }
{
    play(alloc, agent, events, notes, writer)?;
    write_state(alloc, agent, writer)
}

/// Reads a configuration, if there is a file of one, then a whole script, and writes the text of all that the office
/// sends, one event after the other. After that come the live calls and the rows of the relay table. If notes are
/// asked for, the text of each event is followed by what it was about. If memory runs out for an event, the run ends
/// after what was sent before it.
pub fn replay<C: Read + Drop, S: Read + Drop, W: Write>(
    alloc: Global,
    config: Option<C>,
    script: S,
    notes: bool,
    writer: &mut W,
) -> Result<(), Fault>
    ensures written { OnOk result (Replays notes (option_map (λ f. C.remaining f) config) (S.remaining script) (W.contents writer.old) (W.contents writer.new)) }
    ensures refused { IfErr result (λ e. ReplayLeaves notes (option_map (λ f. C.remaining f) config) (S.remaining script) e (W.contents writer.old) (W.contents writer.new)) }
{
    let office = office_of(alloc, config)?;
    let events = events_of(alloc, script)?;
    let mut agent = agent_of(alloc, &office)?;
    play_day(alloc, &mut agent, &events, notes, writer)
}
