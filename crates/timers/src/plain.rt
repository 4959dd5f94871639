//! Timers in a plain list, the first due first. Finding a key searches all of it.

ghost use Rattle.std.specs.Prelude.{ℕ, List, ◌≡◌, ◌+◌, ◌<◌, ◌≤◌, [], true, OnOk, OnErr, IsOk, option_map, length, if◌then◌else◌};
ghost use Rattle.std.specs.VecDeque.{deque_len, deque_capacity};
ghost use Rattle.timers.specs.declared.timers.Timer.{Timer};
ghost use Rattle.timers.specs.Queue.{EachKeyOnce, set, stands, moment, without, first, first_due, after_due};
ghost use Rattle.timers.specs.Settings.{IsDue, IsNext, taken};

use crate::by_moment::{first_due, least_moment, put};
use crate::{DueTimers, Timer};
use std::alloc::{AllocError, Global};
use std::collections::VecDeque;
use std::marker::Model;

/// The timers that are set, each key once. A timer stays until it is taken or cancelled, or its key is set again. It
/// fires once, and never before its moment (RFC 3261 section 17 says which timers a transaction has).
///
/// They are seen in the order in which they are due: by moment, and at equal moments in the order of setting.
#[derive(Drop)]
pub struct Timers<K: Ord> {
    timers: VecDeque<Timer<K>>,
}

impl<K: Ord> Model for Timers<K> {
    ghost use Rattle.std.specs.Prelude.{◌-◌};
    ghost use Rattle.std.specs.VecDeque.{deque_len, deque_capacity};
    ghost use Rattle.timers.specs.Queue.{Queue, IsQueue};

    ghost Value = { Queue K };

    ghost view = { λ t. record { timers = t.timers.items; room = deque_capacity t.timers - deque_len t.timers } };

    // Moments rise, and each key occurs once.
    ghost invariant = { λ t. IsQueue K.eq t.timers.items };
}

impl<K: Ord + Copy> Timers<K> {
    /// No timers. Takes no memory.
    pub fn new(alloc: Global) -> Self
        ensures { result.timers ≡ [] }
    {
        Timers {
            timers: VecDeque::new(alloc),
        }
    }

    /// How many keys are set. Takes no memory.
    pub fn len(&self) -> usize
        ensures len { result ≡ length self.now.timers }
        ensures once { EachKeyOnce K.eq self.now.timers }
    {
        self.timers.len()
    }

    /// The least moment that is set, in milliseconds. Takes no memory.
    pub fn next(&self) -> Option<u64>
        ensures first { result ≡ option_map (λ t. t.at) (first self.now.timers) }
        ensures least { IsNext self.now.timers result }
    {
        least_moment(&self.timers)
    }

    /// The moment of a key in milliseconds, if it is set. Takes no memory.
    pub fn moment(&self, key: K) -> Option<u64>
        ensures { result ≡ moment K.eq self.now.timers key }
    {
        self.timers
            .iter()
            .find(|timer| timer.key == key)
            .map(|timer| timer.at)
    }

    /// The timer that is due first, among those whose moment is not after `now`, in milliseconds: the one with the
    /// least moment, and at equal moments the one set first. Takes no memory.
    pub fn first_due(&self, now: u64) -> Option<Timer<K>>
        ensures first { result ≡ first_due self.now.timers now }
        ensures due { IsDue self.now.timers now result }
    {
        first_due(&self.timers, now)
    }

    /// Takes the timer that is due first, among those whose moment is not after `now`, in milliseconds: its key is
    /// cancelled. Takes no memory.
    pub fn take_due(&mut self, now: u64) -> Option<Timer<K>>
        ensures taken { result ≡ first_due self.old.timers now }
        ensures due { IsDue self.old.timers now result }
        ensures cancelled { self.new.timers ≡ taken K.eq self.old.timers result }
        ensures rest { self.new.timers ≡ after_due self.old.timers now }
        ensures room { self.old.room ≤ self.new.room }
    {
        let timer = self.first_due(now)?;
        self.timers.pop_front();
        Some(timer)
    }

    /// Cancels the timer of a key, if it is set. Takes no memory, so it can't be refused.
    pub fn cancel(&mut self, key: K)
        ensures timers { self.new.timers ≡ without K.eq self.old.timers key }
        ensures room { self.old.room ≤ self.new.room }
    {
        remove_key(&mut self.timers, key)
    }

    /// Sets the moment of a key, in milliseconds. If a key is already set, its old moment is replaced, and at equal
    /// moments it is due last. Only a key that is not set yet takes room. A refusal (no memory) leaves the timers as
    /// they were.
    pub fn set(&mut self, key: K, at: u64) -> Result<(), AllocError>
        ensures ok { OnOk result (self.new.timers ≡ set K.eq self.old.timers key at) }
        ensures err { OnErr result (self.new.timers ≡ self.old.timers) }

        // Setting a key that is already set, or for which there is room, takes no memory.
        ensures standing { stands K.eq self.old.timers key ≡ true → IsOk result }
        ensures room { 0 < self.old.room → IsOk result }
        ensures room_left { self.old.room
            ≤ self.new.room + (if stands K.eq self.old.timers key then 0 else 1) }
        ensures room_kept { OnErr result (self.old.room ≤ self.new.room) }
    {
        make_room(&mut self.timers, key)?;
        remove_key(&mut self.timers, key);
        put(&mut self.timers, Timer { key, at });
        Ok(())
    }

    /// Makes room for `n` more keys, or fails because memory ran out. It changes no timer.
    pub fn reserve(&mut self, n: usize) -> Result<(), AllocError>
        ensures timers { self.new.timers ≡ self.old.timers }
        ensures ok { OnOk result (n ≤ self.new.room) }
        ensures enough { n ≤ self.old.room → IsOk result }
        ensures room { self.old.room ≤ self.new.room }
    {
        self.timers.reserve(n)
    }

    /// How many more keys can be set without memory. Takes no memory.
    pub fn room(&self) -> usize
        ensures { result ≡ self.now.room }
    {
        self.timers.capacity() - self.timers.len()
    }
}

// Whether a key is set.
fn stands<K: Ord + Copy>(timers: &VecDeque<Timer<K>>, key: K) -> bool
    ensures { result ≡ stands K.eq timers.now.items key }
{
    timers.iter().any(|timer| timer.key == key)
}

// Makes room for a key, if it isn't set.
fn make_room<K: Ord + Copy>(timers: &mut VecDeque<Timer<K>>, key: K) -> Result<(), AllocError>
    ensures items { timers.new.items ≡ timers.old.items }
    ensures ok { OnOk result (deque_len timers.new
        < deque_capacity timers.new + (if stands K.eq timers.old.items key then 1 else 0)) }
    ensures capacity { deque_capacity timers.old ≤ deque_capacity timers.new }
    ensures standing { stands K.eq timers.old.items key ≡ true → IsOk result }
    ensures room { deque_len timers.old < deque_capacity timers.old → IsOk result }
{
    if stands(timers, key) {
        Ok(())
    } else {
        timers.reserve(1)
    }
}

// Removes the timer of a key.
fn remove_key<K: Ord + Copy>(timers: &mut VecDeque<Timer<K>>, key: K)
    ensures others { timers.new.items ≡ without K.eq timers.old.items key }
    ensures len { deque_len timers.new + (if stands K.eq timers.old.items key then 1 else 0) ≤ deque_len timers.old }
    ensures capacity { deque_capacity timers.new ≡ deque_capacity timers.old }
{
    timers.retain(|timer| timer.key != key);
}

impl<K: Ord + Copy> DueTimers<K> for Timers<K> {
    ghost timers = { λ t. t.timers };

    ghost spare = { λ t. t.room };

    fn set(&mut self, key: K, at: u64) -> Result<(), AllocError> {
        Timers::set(self, key, at)
    }

    fn cancel(&mut self, key: K) {
        Timers::cancel(self, key);
    }

    fn take_due(&mut self, now: u64) -> Option<Timer<K>> {
        Timers::take_due(self, now)
    }

    fn reserve(&mut self, n: usize) -> Result<(), AllocError> {
        Timers::reserve(self, n)
    }

    fn first_due(&self, now: u64) -> Option<Timer<K>> {
        Timers::first_due(self, now)
    }

    fn moment(&self, key: K) -> Option<u64> {
        Timers::moment(self, key)
    }

    fn next(&self) -> Option<u64> {
        Timers::next(self)
    }

    fn len(&self) -> usize {
        Timers::len(self)
    }

    fn room(&self) -> usize {
        Timers::room(self)
    }
}
