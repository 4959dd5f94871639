//! The media of the live calls.

ghost use Rattle.std.specs.Prelude.{◌≡◌, ◌≤◌, ◌+◌, ◌^◌, ◌-◌, ◌||◌, ◌++◌, ◌↔◌, [], false, true, find, is_some, map, min, IfOk, IsTrue, None, OnErr, OnOk};
ghost use Rattle.std.specs.List.{AllZip};
ghost use Rattle.std.specs.Option.{option_copied};
ghost use Rattle.call_traffic.specs.Calls.{IsSeen, traffic};
ghost use Rattle.call_traffic.specs.Following.{is_call, is_over};
ghost use Rattle.call_traffic.specs.Limits.{second};
ghost use Rattle.call_traffic.specs.MediaLogs.{Begins, Ends, Follows, FollowsCall, IsRefused, Looks, Misses, MissesCall, ReadsCall, after_finding, found_silent};
ghost use Rattle.call_traffic.specs.Readings.{IsCallRead, all_readings};
ghost use Rattle.call_traffic.specs.SilentWays.{TellsAll};
ghost use Rattle.call_traffic.specs.Totals.{datagrams};

use crate::call_traffic::{CallTraffic, CarriedMedia};
use crate::following::{is_begin, is_over};
use crate::port_counter::PortCounter;
use crate::silent_way::{SilentWay, silent_ways};
use crate::traffic_log::{TrafficLog, place_of};
use call_core::{Call, NoteOfCall};
use calls::StandingCall;
use status::DatagramCounts;
use std::alloc::{AllocError, Global};

/// The media of the live calls, which a counter counts.
#[derive(Drop)]
pub struct MediaLog<C> {
    /// What counts for it.
    pub counter: C,
    log: TrafficLog,
    /// Whether the last look may have found a silent call.
    may_find: bool,
}

fn is_call(standing: &StandingCall, number: u64) -> bool
    ensures { result ≡ is_call number standing.now }
{
    standing.call.number() == number
}

/// The call of this number.
fn call_of(calls: &[StandingCall], number: u64) -> Option<&StandingCall>
    ensures { option_copied result ≡ find (is_call number) calls.now }
{
    calls.iter().find(|standing| is_call(standing, number))
}

/// Reads the counts of all ports of these calls.
fn read_all<C: PortCounter>(calls: &mut [CallTraffic], counter: &mut C)
    ensures calls { AllZip IsCallRead calls.old calls.new }
    ensures told { C.readings counter.new ≡ C.readings counter.old ++ all_readings calls.new }
{
    for call in calls.iter_mut() {
        call.read(counter);
    }
}

/// Looks at each of these calls.
fn look_at_all(calls: &mut [CallTraffic], now: u64)
    ensures { AllZip (IsSeen now) calls.old calls.new }
{
    for call in calls.iter_mut() {
        call.look(now);
    }
}

/// What the page shows of these calls.
fn traffic_of(alloc: Global, calls: &[CallTraffic]) -> Result<Vec<status::CallTraffic>, AllocError>
    ensures { IfOk result (λ shown. shown.items ≡ map traffic calls.now) }
{
    let mut shown = Vec::with_capacity(alloc, calls.len())?;
    for call in calls {
        shown.push(call.traffic())?;
    }
    Ok(shown)
}

impl<C: PortCounter> MediaLog<C> {
    /// A log in which no call began yet. Takes no memory.
    pub fn new(alloc: Global, counter: C) -> MediaLog<C>
        ensures counter { result.counter ≡ counter }
        ensures calls { result.log.calls.items ≡ [] }
        ensures datagrams { datagrams result.log.past result.log.calls.items ≡ record { from_callers = 0; from_callees = 0 } }
        ensures next_look { result.log.next_look ≡ 0 }
        ensures found { result.may_find ≡ false }
    {
        MediaLog {
            counter,
            log: TrafficLog::new(alloc),
            may_find: false,
        }
    }

    /// The call begins, if this says so.
    fn begin(&mut self, note: NoteOfCall, now: u64) -> Result<(), AllocError>
        ensures ok { OnOk result (Begins note now self.old.log self.new.log) }
        ensures err { OnErr result (IsRefused note self.old.log self.new.log) }
        ensures others { self.new ≡ record self.old { log = self.new.log } }
    {
        if !is_begin(note.note) {
            return Ok(());
        }
        self.log.begin(note.number, now)?;
        Ok(())
    }

    /// Follows what happened to this call, if it is known.
    fn follow_call(&mut self, call: &Call, note: NoteOfCall, now: u64) -> Result<(), AllocError>
        ensures ok { OnOk result (FollowsCall call.now note now (C.readings self.old.counter) (C.readings self.new.counter)
            self.old.log.calls.items self.new.log.calls.items) }
        ensures err { OnErr result (MissesCall note.number self.old.log.calls.items self.new.log.calls.items) }
        ensures others { self.new ≡ record self.old { counter = self.new.counter; log = record self.old.log { calls = self.new.log.calls } } }
    {
        let alloc = self.log.alloc;
        match place_of(&self.log.calls, note.number) {
            Some(at) => {
                self.log.calls[at].follow(alloc, &mut self.counter, call, note.note, now)?;
                Ok(())
            }
            None => Ok(()),
        }
    }

    /// Follows what happened to a call, which is over or is among these: it begins, its ports are those that it has
    /// now, and after an answer RTP should come from the places that its session names. If memory is refused, some of
    /// its media are not counted, and it isn't silent.
    pub fn follow(
        &mut self,
        calls: &[StandingCall],
        note: NoteOfCall,
        now: u64,
    ) -> Result<(), AllocError>
        ensures ok { OnOk result (Follows calls.now note now (C.readings self.old.counter) (C.readings self.new.counter) self.old.log self.new.log) }
        ensures err { OnErr result (Misses note now self.old.log self.new.log) }
        ensures others { self.new ≡ record self.old { counter = self.new.counter; log = self.new.log } }
    {
        self.begin(note, now)?;
        match call_of(calls, note.number) {
            Some(standing) => {
                self.follow_call(&standing.call, note, now)?;
                Ok(())
            }
            None => Ok(()),
        }
    }

    /// Reads the counts of the ports of the call of this number, if it is known.
    fn read_call(&mut self, number: u64)
        ensures calls { ReadsCall number (C.readings self.old.counter) (C.readings self.new.counter)
            self.old.log.calls.items self.new.log.calls.items }
        ensures others { self.new ≡ record self.old { counter = self.new.counter; log = record self.old.log { calls = self.new.log.calls } } }
    {
        match place_of(&self.log.calls, number) {
            Some(at) => self.log.calls[at].read(&mut self.counter),
            None => (),
        }
    }

    /// What `call-ended` says of the media of a call that is over by this: how many RTP datagrams came from each end
    /// since the call got its ports. None if it is not over, or isn't known. Takes no memory.
    pub fn end(&mut self, note: NoteOfCall) -> Option<CarriedMedia>
        ensures goes_on { is_over note.note ≡ false → (result ≡ None) × (self.new ≡ self.old) }
        ensures over { is_over note.note ≡ true →
            Ends note.number (C.readings self.old.counter) (C.readings self.new.counter) self.old.log self.new.log result }
        ensures others { self.new ≡ record self.old { counter = self.new.counter; log = self.new.log } }
    {
        if !is_over(note.note) {
            return None;
        }
        self.read_call(note.number);
        self.log.end(note.number)
    }

    /// Looks at the calls, if a second has passed since it did. Returns whether it looked. Takes no memory.
    pub fn look(&mut self, now: u64) -> bool
        ensures due { IsTrue result ↔ self.old.log.next_look ≤ now }
        ensures early { result ≡ false → self.new ≡ self.old }
        ensures looks { result ≡ true → Looks now (C.readings self.old.counter) (C.readings self.new.counter)
            self.old.log.calls.items self.new.log.calls.items }
        ensures next { result ≡ true → self.new.log.next_look ≡ min (now + second) (2 ^ 64 - 1) }
        ensures found { self.new.may_find ≡ (self.old.may_find || result) }
        ensures past { self.new.log.past ≡ self.old.log.past }
    {
        if !self.log.is_due(now) {
            return false;
        }
        read_all(&mut self.log.calls, &mut self.counter);
        look_at_all(&mut self.log.calls, now);
        self.may_find = true;
        true
    }

    /// The number of the first answered call in which neither RTP nor RTCP came from either end for `minutes`
    /// minutes, by the looks at it. It is not reported again for a minute, in case it could not be ended. After each
    /// look this is asked until it returns None. Takes no memory.
    pub fn silent_call(&mut self, now: u64, minutes: u32) -> Option<u64>
        ensures silent { result ≡ found_silent self.old.may_find now minutes self.old.log.calls.items }
        ensures told { self.new.log.calls.items ≡ after_finding self.old.may_find now minutes self.old.log.calls.items }
        ensures found { self.new.may_find ≡ is_some result }
        ensures others { self.new ≡ record self.old { log = record self.old.log { calls = self.new.log.calls }; may_find = self.new.may_find } }
    {
        if !self.may_find {
            return None;
        }
        let found = self.log.silent_call(now, minutes);
        self.may_find = found.is_some();
        found
    }

    /// What was counted for each call so far, in the order in which the calls began. All ports are read, even if
    /// memory is refused then.
    pub fn traffic(&mut self) -> Result<Vec<status::CallTraffic>, AllocError>
        ensures shown { IfOk result (λ shown. shown.items ≡ map traffic self.new.log.calls.items) }
        ensures read { AllZip IsCallRead self.old.log.calls.items self.new.log.calls.items }
        ensures told { C.readings self.new.counter ≡ C.readings self.old.counter ++ all_readings self.new.log.calls.items }
        ensures others { self.new ≡ record self.old { counter = self.new.counter; log = record self.old.log { calls = self.new.log.calls } } }
    {
        read_all(&mut self.log.calls, &mut self.counter);
        traffic_of(self.log.alloc, &self.log.calls)
    }

    /// How many RTP datagrams came in all calls since the start, by the last reading of each. Takes no memory.
    pub fn datagrams(&self) -> DatagramCounts
        ensures { result ≡ datagrams self.now.log.past self.now.log.calls.items }
    {
        self.log.datagrams()
    }

    /// The ends of calls that are silent, unless that was reported. It is asked after each look, once a second. After
    /// an error they are yet to be reported.
    pub fn silent_ways(&mut self, now: u64) -> Result<Vec<SilentWay>, AllocError>
        ensures ok { IfOk result (λ ways. TellsAll now self.old.log.calls.items self.new.log.calls.items ways.items) }
        ensures err { OnErr result (self.new.log.calls.items ≡ self.old.log.calls.items) }
        ensures others { self.new ≡ record self.old { log = record self.old.log { calls = self.new.log.calls } } }
    {
        silent_ways(self.log.alloc, &mut self.log.calls, now)
    }
}
