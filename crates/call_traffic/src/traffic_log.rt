//! The traffic of the live calls, and what came in all calls since the server's start.

ghost use Rattle.std.specs.Prelude.{◌≡◌, ◌<◌, ◌≤◌, ◌+◌, ◌-◌, ◌*◌, ◌^◌, ◌↔◌, [], ◌∷◌, IsTrue, OnOk, OnErr, find, if◌then◌else◌, min, option_map, position, remove, slice_index_or, vec_len};
ghost use Rattle.call_traffic.specs.Calls.{IsBegun, carried, has_number, is_silent, number_of, with_first_told, with_room, without_first};
ghost use Rattle.call_traffic.specs.Limits.{minute, second};
ghost use Rattle.call_traffic.specs.Totals.{datagrams};

use crate::call_traffic::{CallTraffic, CarriedMedia};
use status::DatagramCounts;
use std::alloc::{AllocError, Global};

/// How many calls are remembered: at most this many are live at a time.
const MAX_CALLS: usize = 256;

/// How often the calls are looked at, in milliseconds.
const BETWEEN_LOOKS: u64 = 1_000;

/// The minimum time between two reports that a call is silent, in milliseconds.
const BETWEEN_TELLINGS: u64 = 60_000;

/// A minute, in milliseconds.
const MINUTE: u64 = 60_000;

/// The traffic of the live calls, in the order in which they began, and of those that are over.
#[derive(Drop)]
pub(crate) struct TrafficLog {
    pub(crate) alloc: Global,
    pub(crate) calls: Vec<CallTraffic>,
    /// How many RTP datagrams came in calls that are over.
    pub(crate) past: DatagramCounts,
    pub(crate) next_look: u64,
}

fn has_number(call: &CallTraffic, number: u64) -> bool
    ensures { result ≡ has_number number call.now }
{
    call.number == number
}

/// How many RTP datagrams came in a call, added to those of others.
fn add(others: DatagramCounts, call: &CallTraffic) -> DatagramCounts
    ensures { result ≡ datagrams others (call.now ∷ []) }
{
    let CarriedMedia {
        from_caller,
        from_callee,
    } = call.carried();
    DatagramCounts {
        from_callers: others.from_callers.wrapping_add(from_caller),
        from_callees: others.from_callees.wrapping_add(from_callee),
    }
}

/// The place of the call of this number.
pub(crate) fn place_of(calls: &[CallTraffic], number: u64) -> Option<usize>
    ensures { result ≡ position (has_number number) calls.now }
{
    calls.iter().position(|call| has_number(call, number))
}

/// The place of the first silent call.
fn place_of_silent(calls: &[CallTraffic], now: u64, limit: u64) -> Option<usize>
    ensures { result ≡ position (is_silent now limit) calls.now }
{
    calls.iter().position(|call| call.is_silent(now, limit))
}

impl TrafficLog {
    /// A log in which no call began yet.
    pub(crate) fn new(alloc: Global) -> TrafficLog
        ensures calls { result.calls.items ≡ [] }
        ensures past { result.past ≡ record { from_callers = 0; from_callees = 0 } }
        ensures next_look { result.next_look ≡ 0 }
    {
        TrafficLog {
            alloc,
            calls: Vec::new(alloc),
            past: DatagramCounts {
                from_callers: 0,
                from_callees: 0,
            },
            next_look: 0,
        }
    }

    /// How many RTP datagrams came in all calls since the server's start.
    pub(crate) fn datagrams(&self) -> DatagramCounts
        ensures { result ≡ datagrams self.now.past self.now.calls.items }
    {
        let mut standing = DatagramCounts {
            from_callers: 0,
            from_callees: 0,
        };
        for call in &self.calls {
            standing = add(standing, call);
        }
        DatagramCounts {
            from_callers: self.past.from_callers.wrapping_add(standing.from_callers),
            from_callees: self.past.from_callees.wrapping_add(standing.from_callees),
        }
    }

    /// Removes the call at a place, which is over or forgotten. What came in it stays in the totals.
    fn take_out(&mut self, at: usize) -> CallTraffic
        requires { at < vec_len self.old.calls }
        ensures call { result ≡ slice_index_or self.old.calls.items at result }
        ensures calls { self.new.calls.items ≡ remove self.old.calls.items at }
        ensures datagrams { datagrams self.new.past self.new.calls.items ≡ datagrams self.old.past self.old.calls.items }
        ensures next_look { self.new.next_look ≡ self.old.next_look }
    {
        let call = self.calls.remove(at);
        self.past = add(self.past, &call);
        call
    }

    /// If there are too many calls, the earliest is forgotten, so that there is room for one more.
    fn make_room(&mut self)
        ensures calls { self.new.calls.items ≡ with_room self.old.calls.items }
        ensures datagrams { datagrams self.new.past self.new.calls.items ≡ datagrams self.old.past self.old.calls.items }
        ensures next_look { self.new.next_look ≡ self.old.next_look }
    {
        if self.calls.len() >= MAX_CALLS {
            drop(self.take_out(0));
        }
    }

    /// A call begins at this moment, without ports. If there are too many, the earliest is forgotten, even if an
    /// error follows.
    pub(crate) fn begin(&mut self, number: u64, now: u64) -> Result<(), AllocError>
        ensures ok { OnOk result (IsBegun number now self.old.calls.items self.new.calls.items) }
        ensures err { OnErr result (self.new.calls.items ≡ with_room self.old.calls.items) }
        ensures datagrams { datagrams self.new.past self.new.calls.items ≡ datagrams self.old.past self.old.calls.items }
        ensures next_look { self.new.next_look ≡ self.old.next_look }
    {
        self.make_room();
        self.calls.push(CallTraffic::new(self.alloc, number, now))?;
        Ok(())
    }

    /// The call of this number is over: returns what `call-ended` says of its media. None if it isn't known. Takes no
    /// memory.
    pub(crate) fn end(&mut self, number: u64) -> Option<CarriedMedia>
        ensures carried { result ≡ option_map carried (find (has_number number) self.old.calls.items) }
        ensures calls { self.new.calls.items ≡ without_first (has_number number) self.old.calls.items }
        ensures datagrams { datagrams self.new.past self.new.calls.items ≡ datagrams self.old.past self.old.calls.items }
        ensures next_look { self.new.next_look ≡ self.old.next_look }
    {
        let at = place_of(&self.calls, number)?;
        let call = self.take_out(at);
        Some(call.carried())
    }

    /// The number of the first answered call in which neither RTP nor RTCP came from either end for `minutes`
    /// minutes, by the looks at it, if one may be reported. It is not reported again for a minute.
    pub(crate) fn silent_call(&mut self, now: u64, minutes: u32) -> Option<u64>
        ensures silent { result ≡ option_map number_of (find (is_silent now (minutes * minute)) self.old.calls.items) }
        ensures told { self.new.calls.items ≡ with_first_told (is_silent now (minutes * minute)) (min (now + minute) (2 ^ 64 - 1)) self.old.calls.items }
        ensures others { self.new ≡ record self.old { calls = self.new.calls } }
    {
        let at = place_of_silent(&self.calls, now, u64::from(minutes) * MINUTE)?;
        let number = self.calls[at].number;
        self.calls[at].next_telling = now.saturating_add(BETWEEN_TELLINGS);
        Some(number)
    }

    /// Whether it is time to look at the calls. After that it is not time again for a second.
    pub(crate) fn is_due(&mut self, now: u64) -> bool
        ensures due { IsTrue result ↔ self.old.next_look ≤ now }
        ensures next { self.new.next_look ≡ (if result then min (now + second) (2 ^ 64 - 1) else self.old.next_look) }
        ensures others { self.new ≡ record self.old { next_look = self.new.next_look } }
    {
        if now < self.next_look {
            return false;
        }
        self.next_look = now.saturating_add(BETWEEN_LOOKS);
        true
    }
}
