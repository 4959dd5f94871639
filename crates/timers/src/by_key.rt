//! Timers in the order of their keys: a key is found by binary search.

ghost use Rattle.std.specs.Prelude.{◌≡◌, ◌+◌, ◌<◌, ◌≤◌, true, false, slice_get};
ghost use Rattle.std.specs.VecDeque.{deque_len, deque_capacity};
ghost use Rattle.timers.specs.Queue.{stands, moment, without};
ghost use Rattle.timers.specs.ByKey.{KeysRise, place_by_key, moment_of, put_key};

use crate::Timer;
use crate::partition::ring_partition_point;
use std::collections::VecDeque;

// How many keys are below a key.
pub(crate) fn place_of<K: Ord + Copy>(keys: &VecDeque<Timer<K>>, key: K) -> usize
    requires { KeysRise K.cmp keys.now.items }
    ensures bound { result ≤ deque_len keys.now }
    ensures place { result ≡ place_by_key K.cmp keys.now.items key }
{
    ring_partition_point(keys, |timer| timer.key < key)
}

// The moment of the timer at a place, if it is the key's.
pub(crate) fn moment_at<K: Ord + Copy>(
    keys: &VecDeque<Timer<K>>,
    place: usize,
    key: K,
) -> Option<u64>
    ensures { result ≡ moment_of K.eq (slice_get keys.now.items place) key }
{
    match keys.get(place) {
        Some(timer) if timer.key == key => Some(timer.at),
        _ => None,
    }
}

// The moment of a key.
pub(crate) fn moment<K: Ord + Copy>(keys: &VecDeque<Timer<K>>, key: K) -> Option<u64>
    requires { KeysRise K.cmp keys.now.items }
    ensures { result ≡ moment K.eq keys.now.items key }
{
    moment_at(keys, place_of(keys, key), key)
}

// Replaces a key's old timer, whose place this is.
pub(crate) fn replace<K: Ord + Copy>(keys: &mut VecDeque<Timer<K>>, place: usize, timer: Timer<K>)
    requires rise { KeysRise K.cmp keys.old.items }
    requires place { place ≡ place_by_key K.cmp keys.old.items timer.key }
    requires stands { stands K.eq keys.old.items timer.key ≡ true }
    ensures put { keys.new.items ≡ put_key K.cmp keys.old.items timer }
    ensures len { deque_len keys.new ≡ deque_len keys.old }
    ensures capacity { deque_capacity keys.old ≤ deque_capacity keys.new }
{
    keys[place] = timer;
}

// Inserts a timer of a key that isn't set at the key's place.
pub(crate) fn insert<K: Ord + Copy>(keys: &mut VecDeque<Timer<K>>, place: usize, timer: Timer<K>)
    requires bound { place ≤ deque_len keys.old }
    requires place { place ≡ place_by_key K.cmp keys.old.items timer.key }
    requires none { stands K.eq keys.old.items timer.key ≡ false }
    requires room { deque_len keys.old < deque_capacity keys.old }
    ensures put { keys.new.items ≡ put_key K.cmp keys.old.items timer }
    ensures len { deque_len keys.new ≡ deque_len keys.old + 1 }
    ensures capacity { deque_capacity keys.old ≤ deque_capacity keys.new }
{
    let _ = keys.insert(place, timer);
}

// Removes the timer of a key, and returns its moment, if it was set.
pub(crate) fn take<K: Ord + Copy>(keys: &mut VecDeque<Timer<K>>, key: K) -> Option<u64>
    requires { KeysRise K.cmp keys.old.items }
    ensures moment { result ≡ moment K.eq keys.old.items key }
    ensures others { keys.new.items ≡ without K.eq keys.old.items key }
    ensures len { deque_len keys.new ≤ deque_len keys.old }
    ensures capacity { deque_capacity keys.new ≡ deque_capacity keys.old }
{
    let place = place_of(keys, key);
    let at = moment_at(keys, place, key)?;
    keys.remove(place);
    Some(at)
}
