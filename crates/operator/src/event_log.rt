//! What events were about, as lines of the log.

ghost use Rattle.std.specs.Prelude.{◌≡◌, ◌++◌, ◌-◌, ℕ, List, [], OnOk, OnErr};
ghost use Rattle.std.specs.List.{flat_map};
ghost use Rattle.log_rules.specs.Counts.{between_counts};
ghost use Rattle.event_rows.specs.Tally.{none_counted};
ghost use Rattle.note_lines.specs.NoteLines.{noted};
ghost use Rattle.operator.specs.DueLines.{Tells, TellsCounts, TellsDue, left_out_at, left_out_text, silent_text};
ghost use Rattle.operator.specs.EventLines.{event_text, is_logged, ledger_then, limit_after};

use crate::tally::tally_line;
use agent::Tally;
use call_traffic::SilentWay;
use configuration::LogLevel;
use log_rules::{CountSchedule, NoteLimit, is_of_strangers, logs_calls, logs_note, logs_trouble};
use note_lines::{Ledger, NotedEvent, put_count, put_note, put_silent_way};
use plans::Note;
use std::alloc::{AllocError, Global};

/// Which events are logged, and how.
#[derive(Drop)]
pub struct EventLog {
    alloc: Global,
    level: LogLevel,
    ledger: Ledger,
    limit: NoteLimit,
    counts: CountSchedule,
}

impl EventLog {
    /// The log of this level, to which nothing was written. Takes no memory.
    pub fn new(alloc: Global, level: LogLevel) -> EventLog
        ensures level { result.level ≡ level }
        ensures ledger { result.ledger ≡ [] }
        ensures limit { result.limit.left_out ≡ 0 }
        ensures counts { result.counts ≡ record { logged = none_counted; next = between_counts } }
    {
        EventLog {
            alloc,
            level,
            ledger: Ledger::new(alloc),
            limit: NoteLimit::new(),
            counts: CountSchedule::new(),
        }
    }

    /// Appends a line with how many events were left out, if any were.
    fn put_left_out(&mut self, out: &mut Vec<u8>, now: u64) -> Result<(), AllocError>
        ensures ok { OnOk result (out.new.items ≡ out.old.items ++ left_out_text (left_out_at now self.old.limit)) }
        ensures limit { self.new ≡ record self.old { limit = record self.old.limit { left_out = self.old.limit.left_out - left_out_at now self.old.limit } } }
    {
        let left_out = self.limit.take_left_out(now);
        if left_out == 0 {
            return Ok(());
        }
        put_count(out, b"lines-left-out", left_out)
    }

    /// Appends the counts, if it is time for them and they changed.
    fn put_counts(&mut self, out: &mut Vec<u8>, tally: Tally, now: u64) -> Result<(), AllocError>
        ensures ok { OnOk result ((text : List ℕ) × TellsCounts tally now self.old.counts self.new.counts text × (out.new.items ≡ out.old.items ++ text)) }
        ensures err { OnErr result (self.new.counts ≡ self.old.counts) }
        ensures others { self.new ≡ record self.old { counts = self.new.counts } }
    {
        if !self.counts.is_due(tally, now) {
            return Ok(());
        }
        let line = tally_line(self.alloc, tally)?;
        out.extend_from_slice(line.as_bytes())?;
        self.counts.note(tally, now);
        Ok(())
    }

    /// Appends a line for each silent end.
    fn put_silent_ways(&self, out: &mut Vec<u8>, ways: &[SilentWay]) -> Result<(), AllocError>
        ensures { OnOk result (out.new.items ≡ out.old.items ++ flat_map (silent_text self.now.ledger) ways.now) }
    {
        for way in ways {
            put_silent_way(
                out,
                self.alloc,
                &self.ledger,
                way.call,
                way.end,
                way.expected,
            )?;
        }
        Ok(())
    }

    /// Appends all that is due where trouble is logged.
    fn put_all_due(
        &mut self,
        out: &mut Vec<u8>,
        tally: Tally,
        ways: &[SilentWay],
        now: u64,
    ) -> Result<(), AllocError>
        ensures ok { OnOk result ((text : List ℕ) × TellsDue tally ways.now now self.old self.new text × (out.new.items ≡ out.old.items ++ text)) }
    {
        self.put_left_out(out, now)?;
        self.put_counts(out, tally, now)?;
        if !logs_calls(self.level) {
            return Ok(());
        }
        self.put_silent_ways(out, ways)
    }

    /// Appends the lines that are due at this moment, in milliseconds: how many were left out, how events were
    /// answered, and which ends of calls are silent. If memory is refused, what is due may be lost.
    pub fn put_due(
        &mut self,
        out: &mut Vec<u8>,
        tally: Tally,
        ways: &[SilentWay],
        now: u64,
    ) -> Result<(), AllocError>
        ensures ok { OnOk result ((text : List ℕ) × Tells tally ways.now now self.old self.new text × (out.new.items ≡ out.old.items ++ text)) }
    {
        if !logs_trouble(self.level) {
            return Ok(());
        }
        self.put_all_due(out, tally, ways, now)
    }

    /// Whether what an event was about is logged at this moment, in milliseconds. One that strangers caused and that is
    /// left out is counted.
    fn logs(&mut self, note: Note, now: u64) -> bool
        ensures logged { result ≡ is_logged self.old note now }
        ensures limit { self.new ≡ record self.old { limit = limit_after self.old note now } }
    {
        if !logs_note(self.level, note) {
            return false;
        }
        if !is_of_strangers(note) {
            return true;
        }
        self.limit.admits(now)
    }

    /// Appends the line of an event that the agent took then, in milliseconds, if it is logged. If memory is refused, a
    /// part of the line may be written.
    pub fn put_event(
        &mut self,
        out: &mut Vec<u8>,
        event: NotedEvent<'_>,
        now: u64,
    ) -> Result<(), AllocError>
        ensures ok { OnOk result (out.new.items ≡ out.old.items ++ event_text (is_logged self.old event.entry.note now) self.old.ledger (noted event.entry)) }
        ensures ledger { OnOk result (self.new.ledger ≡ ledger_then (is_logged self.old event.entry.note now) self.old.ledger (noted event.entry)) }
        ensures limit { self.new.limit ≡ limit_after self.old event.entry.note now }
        ensures level { self.new.level ≡ self.old.level }
        ensures counts { self.new.counts ≡ self.old.counts }
    {
        if !self.logs(event.note, now) {
            return Ok(());
        }
        put_note(out, self.alloc, &mut self.ledger, event)
    }
}
