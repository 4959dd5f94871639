//! Events one after another.

ghost use Rattle.std.specs.Prelude.{◌≡◌, ◌<◌, ◌∷◌, ◌++◌, [], IfOk, IsOk, OnErr, OnOk, vec_len};
ghost use Rattle.std.specs.Vec.{vec_capacity};
ghost use Rattle.event_rows.specs.Trace.{IsEntry, Ran, RanFirst, after_entry};
ghost use Rattle.media_laws.specs.Standing.{PutsFromSource, StandsThrough};

use crate::agent::Agent;
use crate::new_agent::kept_texts;
use events::{Event, Sent, What};
use media_laws::agents_stand;
use message_laws::event_comes_from_source;
use plans::Taken;
use std::alloc::{AllocError, Global};
use std::marker::Model;

/// An event, with its answer and what was sent.
#[derive(Drop)]
pub struct Entry {
    pub event: Event,
    /// None where memory was refused: the event counts as if it had not come.
    pub answer: Option<Taken>,
    pub sends: Vec<Sent>,
}

impl Model for Entry {
    ghost use Rattle.event_rows.specs.Trace as traces;

    ghost Value = { traces.Entry };

    ghost view = { λ x. record { event = x.event; answer = x.answer; sends = x.sends.items } };
}

/// Events that were entered, the earliest first.
#[derive(Drop)]
pub struct Trace {
    entries: Vec<Entry>,
}

impl Model for Trace {
    ghost use Rattle.std.specs.Prelude.{List};
    ghost use Rattle.event_rows.specs.Trace as traces;

    ghost Value = { List traces.Entry };

    ghost view = { λ t. t.entries.items };
}

impl Trace {
    /// No event. Takes no memory.
    pub fn new(alloc: Global) -> Trace
        ensures { result ≡ [] }
    {
        Trace {
            entries: Vec::new(alloc),
        }
    }

    /// The entries, borrowed. Takes no memory.
    pub fn as_slice(&self) -> &[Entry]
        ensures { result.now ≡ self.now }
    {
        &self.entries
    }
}

fn copy_of_what(alloc: Global, what: &What) -> Result<What, AllocError>
    ensures { IfOk result (λ w. w ≡ what.now) }
{
    match what {
        What::Datagram { source, bytes } => Ok(What::Datagram {
            source: *source,
            bytes: bytes.keep(alloc)?,
        }),
        What::Due => Ok(What::Due),
        What::Silent(number) => Ok(What::Silent(*number)),
        What::Users(users) => Ok(What::Users(kept_texts(alloc, users.as_slice())?)),
    }
}

fn copy_of(alloc: Global, event: &Event) -> Result<Event, AllocError>
    ensures { IfOk result (λ e. e ≡ event.entry.now) }
{
    let what = copy_of_what(alloc, &event.what)?;
    Ok(Event {
        now: event.now,
        salt: event.salt,
        what,
    })
}

/// Puts an entry after the others, for which there is room. Takes no memory.
fn put(entries: &mut Vec<Entry>, entry: Entry)
    requires { vec_len entries.old < vec_capacity entries.old }
    ensures { entries.new.items ≡ entries.old.items ++ entry ∷ [] }
{
    let pushed = entries.push(entry);
    prove!(pushed.is_ok());
    drop(pushed);
}

impl Agent {
    /// Takes an event, and returns its entry.
    fn entry_of(&mut self, event: Event) -> Entry
        ensures event { result.event ≡ event }
        ensures entry { IsEntry self.old result }
        ensures agent { self.new ≡ after_entry self.old result }
    {
        let mut sends = Vec::new(self.alloc);
        let answer = self.step(&event, &mut sends).ok();
        Entry {
            event,
            answer,
            sends,
        }
    }

    fn enter(&mut self, event: &Event, entries: &mut Vec<Entry>) -> Result<(), AllocError>
        ensures ran { OnOk result (Ran self.old entries.old.items (event.entry.now ∷ []) self.new entries.new.items) }
        ensures sources { OnOk result (PutsFromSource entries.old.items entries.new.items) }
        ensures err_agent { OnErr result (self.new ≡ self.old) }
        ensures err_trace { OnErr result (entries.new.items ≡ entries.old.items) }
    {
        event_comes_from_source(event);
        let event = copy_of(self.alloc, event)?;
        entries.reserve(1)?;
        let entry = self.entry_of(event);
        put(entries, entry);
        Ok(())
    }

    fn run_in(&mut self, events: &[Event], entries: &mut Vec<Entry>) -> Result<(), AllocError>
        ensures ran { OnOk result (Ran self.old entries.old.items events.now self.new entries.new.items) }
        ensures front { OnErr result (RanFirst self.old entries.old.items events.now self.new entries.new.items) }
        ensures sources { PutsFromSource entries.old.items entries.new.items }
    {
        for event in events {
            self.enter(event, entries)?;
        }
        Ok(())
    }

    /// Takes events in order, and enters each with its answer and its sends; one that is lost counts as if it had not
    /// come, and is entered too. Where the trace can't grow, agent and trace are as after the events that were
    /// entered. These entries have a trace; and an agent that stood after an earlier trace stands after it with any
    /// trace of theirs.
    pub fn run(&mut self, events: &[Event], trace: &mut Trace) -> Result<(), AllocError>
        ensures ran { OnOk result (Ran self.old trace.old events.now self.new trace.new) }
        ensures front { OnErr result (RanFirst self.old trace.old events.now self.new trace.new) }
        ensures stands { OnOk result (StandsThrough self.old trace.old trace.new self.new) }
        ensures front_stands { OnErr result (StandsThrough self.old trace.old trace.new self.new) }
    {
        agents_stand();
        self.run_in(events, &mut trace.entries)
    }
}
