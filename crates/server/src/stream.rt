//! `follow`: the events of a script that comes bit by bit, of which an office takes each as soon as it is whole.

ghost use Rattle.std.specs.Prelude.{◌≡◌, ◌≤◌, ◌+◌, [], drop, length, vec_len, IfErr, IfNone, IfOk, IfSome, OnOk, option_map};
ghost use Rattle.scripts.specs.Grammar.{Begins, NeedsMore};
ghost use Rattle.server.specs.Faults.{event_fault};
ghost use Rattle.server.specs.Leaves.{IsOfReading};
ghost use Rattle.server.specs.Stream.{FollowLeaves, Follows, FollowsDay, FollowsRun, Grows, InputLeaves, IsLeftOver, IsOfEvent};

use crate::agents::agent_of;
use crate::day::{office_of, play_event, write_state};
use crate::fault::Fault;
use crate::input::read_some;
use agent::Agent;
use events::Event;
use note_lines::Ledger;
use scripts::{ScriptError, first_event};
use std::alloc::Global;
use std::io::{Read, Write};

/// What was read after the last event, and how many bytes come before it.
#[derive(Drop)]
pub(crate) struct Tail {
    pub bytes: Vec<u8>,
    pub at: usize,
}

/// Why no event begins `at` bytes from the head.
fn event_fault(error: ScriptError, at: usize) -> Fault
    ensures { result ≡ event_fault error at }
{
    match error {
        ScriptError::Malformed => Fault::Script(at),
        ScriptError::OutOfMemory => Fault::OutOfMemory,
    }
}

/// The event that begins a text `at` bytes from the head, and how many bytes it is; none if the text is too short.
#[tactic(auto, using(crate::proofs::StreamLaws::of_event))]
fn event_of(alloc: Global, text: &[u8], at: usize) -> Result<Option<(Event, usize)>, Fault>
    ensures found { IfOk result (λ first. IfSome first (λ f. Begins text.now f.0 (drop f.1 text.now))) }
    ensures bound { IfOk result (λ first. IfSome first (λ f. f.1 ≤ length text.now)) }
    ensures more { IfOk result (λ first. IfNone first (NeedsMore text.now)) }
    ensures refused { IfErr result (IsOfEvent text.now at) }
{
    match first_event(alloc, text) {
        Ok(first) => Ok(first),
        Err(error) => Err(event_fault(error, at)),
    }
}

impl Tail {
    ghost use Rattle.std.specs.Prelude.{◌≡◌, ◌≤◌, ◌+◌, [], drop, vec_len, IfErr, IfOk, OnOk};
    ghost use Rattle.server.specs.Leaves.{IsOfReading};
    ghost use Rattle.server.specs.Stream.{Grows};

    /// A tail with nothing read. Takes no memory.
    fn new(alloc: Global) -> Tail
        ensures bytes { result.bytes.items ≡ [] }
        ensures at { result.at ≡ 0 }
    {
        Tail {
            bytes: Vec::new(alloc),
            at: 0,
        }
    }

    /// Drops an event of `length` bytes. An input is too long if its places can't be counted.
    fn forget(&mut self, length: usize) -> Result<(), Fault>
        requires { length ≤ vec_len self.old.bytes }
        ensures bytes { OnOk result (self.new.bytes.items ≡ drop length self.old.bytes.items) }
        ensures at { OnOk result (self.new.at ≡ self.old.at + length) }
        ensures refused { IfErr result IsOfReading }
    {
        let Some(at) = self.at.checked_add(length) else {
            return Err(Fault::Input);
        };
        let rest = self.bytes.split_off(length)?;
        self.bytes = rest;
        self.at = at;
        Ok(())
    }

    /// Waits for more bytes, and returns how many came: zero only at the end.
    fn read_more<R: Read>(&mut self, reader: &mut R) -> Result<usize, Fault>
        ensures grows { IfOk result (Grows self.old.bytes.items self.new.bytes.items (R.remaining reader.old) (R.remaining reader.new)) }
        ensures at { OnOk result (self.new.at ≡ self.old.at) }
        ensures refused { IfErr result IsOfReading }
    {
        let mut chunk = [0u8; 4096];
        let count = read_some(reader, &mut chunk)?;
        self.bytes.extend_from_slice(&chunk[..count])?;
        Ok(count)
    }
}

/// At the end of the input, nothing may be left over that is no event.
fn end_of(text: &[u8], at: usize) -> Result<(), Fault>
    ensures done { OnOk result (text.now ≡ []) }
    ensures refused { IfErr result (IsLeftOver text.now at) }
{
    if text.is_empty() {
        Ok(())
    } else {
        Err(Fault::Script(at))
    }
}

/// Takes each event of the input as soon as it is whole, and writes its text before more is read.
fn play_input<R: Read, W: Write>(
    alloc: Global,
    agent: &mut Agent,
    reader: &mut R,
    notes: bool,
    writer: &mut W,
) -> Result<(), Fault>
    ensures written { OnOk result (FollowsRun notes agent.old agent.new (R.remaining reader.old) (R.remaining reader.new) (W.contents writer.old) (W.contents writer.new)) }
    ensures refused { IfErr result (λ e. InputLeaves notes agent.old (R.remaining reader.old) e (W.contents writer.old) (W.contents writer.new)) }
{
    let mut ledger = Ledger::new(alloc);
    let mut tail = Tail::new(alloc);
    for _ in 0..u64::MAX {
        let first = event_of(alloc, tail.bytes.as_slice(), tail.at)?;
        if let Some((event, length)) = first {
            play_event(alloc, agent, &event, notes, &mut ledger, writer)?;
            tail.forget(length)?;
        } else if tail.read_more(reader)? == 0 {
            return end_of(tail.bytes.as_slice(), tail.at);
        }
    }
    Err(Fault::Input)
}

/// Takes the events of the input, writes the text of each, and then the state at the end.
fn follow_day<R: Read, W: Write>(
    alloc: Global,
    agent: &mut Agent,
    reader: &mut R,
    notes: bool,
    writer: &mut W,
) -> Result<(), Fault>
    ensures written { OnOk result (FollowsDay notes agent.old (R.remaining reader.old) (R.remaining reader.new) (W.contents writer.old) (W.contents writer.new)) }
    ensures refused { IfErr result (λ e. InputLeaves notes agent.old (R.remaining reader.old) e (W.contents writer.old) (W.contents writer.new)) }
{
    play_input(alloc, agent, reader, notes, writer)?;
    write_state(alloc, agent, writer)
}

/// Reads a configuration, if there is a file of one, and then a script bit by bit. The text of all that the office
/// sends at an event is written as soon as the event is whole. The live calls and the rows of the relay table are
/// written at the end of the script: in all, what `replay` writes. A line that begins no event ends the run after
/// what was sent before. Nothing is kept of events already taken except what the office knows.
pub fn follow<C: Read + Drop, R: Read, W: Write>(
    alloc: Global,
    config: Option<C>,
    reader: &mut R,
    notes: bool,
    writer: &mut W,
) -> Result<(), Fault>
    ensures written { OnOk result (Follows notes (option_map (λ f. C.remaining f) config) (R.remaining reader.old) (R.remaining reader.new) (W.contents writer.old) (W.contents writer.new)) }
    ensures refused { IfErr result (λ e. FollowLeaves notes (option_map (λ f. C.remaining f) config) (R.remaining reader.old) e (W.contents writer.old) (W.contents writer.new)) }
{
    let office = office_of(alloc, config)?;
    let mut agent = agent_of(alloc, &office)?;
    follow_day(alloc, &mut agent, reader, notes, writer)
}
