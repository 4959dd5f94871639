//! Timers in the order in which they are due: a moment is found by binary search.

ghost use Rattle.std.specs.Prelude.{◌≡◌, ◌+◌, ◌<◌, ◌≤◌, Some, option_map, position, nat_le, nat_lt, drop};
ghost use Rattle.std.specs.List.{position_or_len, prefix_len};
ghost use Rattle.std.specs.VecDeque.{deque_len, deque_capacity};
ghost use Rattle.timers.specs.Queue.{MomentsRise, IsQueue, put, moment, without, first, first_due};

use crate::Timer;
use crate::partition::ring_partition_point;
use std::collections::VecDeque;

// The moment of the first timer.
pub(crate) fn least_moment<K: Copy>(timers: &VecDeque<Timer<K>>) -> Option<u64>
    ensures { result ≡ option_map (λ t. t.at) (first timers.now.items) }
{
    timers.front().map(|timer| timer.at)
}

// The first timer, if its moment is not after `now`.
pub(crate) fn first_due<K: Copy>(timers: &VecDeque<Timer<K>>, now: u64) -> Option<Timer<K>>
    ensures { result ≡ first_due timers.now.items now }
{
    match timers.front() {
        Some(timer) if timer.at <= now => Some(*timer),
        _ => None,
    }
}

// How many timers are due no later than a moment.
fn first_after<K: Copy>(timers: &VecDeque<Timer<K>>, at: u64) -> usize
    requires { MomentsRise timers.now.items }
    ensures bound { result ≤ deque_len timers.now }
    ensures place { result ≡ prefix_len (λ t. nat_le t.at at) timers.now.items }
{
    ring_partition_point(timers, |timer| timer.at <= at)
}

// How many timers are due before a moment.
fn first_at<K: Copy>(timers: &VecDeque<Timer<K>>, at: u64) -> usize
    requires { MomentsRise timers.now.items }
    ensures bound { result ≤ deque_len timers.now }
    ensures place { result ≡ prefix_len (λ t. nat_lt t.at at) timers.now.items }
{
    ring_partition_point(timers, |timer| timer.at < at)
}

// Puts a timer after all that are due no later.
pub(crate) fn put<K: Copy>(timers: &mut VecDeque<Timer<K>>, timer: Timer<K>)
    requires rise { MomentsRise timers.old.items }
    requires room { deque_len timers.old < deque_capacity timers.old }
    ensures put { timers.new.items ≡ put timers.old.items timer }
    ensures len { deque_len timers.new ≡ deque_len timers.old + 1 }
    ensures capacity { deque_capacity timers.old ≤ deque_capacity timers.new }
{
    let place = first_after(timers, timer.at);
    let _ = timers.insert(place, timer);
}

// The place of the first timer of a key among those from a place on, counted from there.
fn first_from<K: Ord + Copy>(timers: &VecDeque<Timer<K>>, start: usize, key: K) -> Option<usize>
    requires { start ≤ deque_len timers.now }
    ensures { result ≡ position (λ t. K.eq t.key key) (drop start timers.now.items) }
{
    timers.range(start..).position(|timer| timer.key == key)
}

// How many timers, from a place on, come before the first of a key.
fn steps_to<K: Ord + Copy>(timers: &VecDeque<Timer<K>>, start: usize, key: K) -> usize
    requires { start ≤ deque_len timers.now }
    ensures { result ≡ position_or_len (λ t. K.eq t.key key) (drop start timers.now.items) }
{
    first_from(timers, start, key).unwrap_or(timers.len() - start)
}

// The place of the timer of a key, which is due at a moment: only those of that moment are searched.
fn place_of<K: Ord + Copy>(timers: &VecDeque<Timer<K>>, key: K, at: u64) -> usize
    requires rise { MomentsRise timers.now.items }
    requires moment { moment K.eq timers.now.items key ≡ Some at }
    ensures bound { result < deque_len timers.now }
    ensures place { result ≡ position_or_len (λ t. K.eq t.key key) timers.now.items }
{
    let start = first_at(timers, at);
    start + steps_to(timers, start, key)
}

// Removes the timer of a key, which is due at a moment.
pub(crate) fn remove<K: Ord + Copy>(timers: &mut VecDeque<Timer<K>>, key: K, at: u64)
    requires queue { IsQueue K.eq timers.old.items }
    requires moment { moment K.eq timers.old.items key ≡ Some at }
    ensures others { timers.new.items ≡ without K.eq timers.old.items key }
    ensures len { deque_len timers.new + 1 ≡ deque_len timers.old }
    ensures capacity { deque_capacity timers.new ≡ deque_capacity timers.old }
{
    let place = place_of(timers, key, at);
    timers.remove(place);
}
