//! The places of the pool: all pairs by rising port, and an index of those that each call holds.

ghost use Rattle.std.specs.Prelude.{◌≡◌, ◌+◌, ◌*◌, ◌%◌, ◌<◌, ◌≤◌, [], ◌∷◌, IfOk, length, map, slice_index_or, true};
ghost use Rattle.port_pool.specs.Limits.{min_port, last_port};
ghost use Rattle.port_pool.specs.Holdings.{unheld_pairs, held_by, freed_at, taken, released, dropped, others_freed, PairsRise};
ghost use Rattle.port_pool.specs.Places.{no_holding, places_of, kept_from, at_place, vacated, resting_from};

use crate::holdings::{Holding, is_among, place_of, unheld_pairs};
use crate::pair::Pair;
use index::{Entry, Index};
use std::alloc::{AllocError, Global};
use std::marker::Model;

/// The pairs of a pool.
#[derive(Drop)]
pub(crate) struct Places {
    holdings: Vec<Holding>,
    /// Under each call, the places of the pairs that it holds.
    calls: Index,
}

impl Model for Places {
    ghost use Rattle.std.specs.Prelude.{List};
    ghost use Rattle.port_pool.specs.declared.holdings.Holding.{Holding};
    ghost use Rattle.port_pool.specs.Places.{coded_holdings, IsIndexed};

    ghost Value = { List Holding };

    ghost coded = { coded_holdings };

    ghost view = { λ p. p.holdings.items };

    ghost invariant = { λ p. IsIndexed p.holdings.items p.calls };
}

impl Places {
    /// Pairs from a port on, none of which is held. It makes all room that any call of them needs.
    pub(crate) fn new(alloc: Global, first: u16, pairs: u16) -> Result<Places, AllocError>
        requires even { first % 2 ≡ 0 }
        requires least { min_port ≤ first }
        requires last { first + 2 * pairs ≤ last_port + 1 }
        ensures { IfOk result (λ p. p ≡ unheld_pairs first pairs) }
    {
        let holdings = unheld_pairs(alloc, first, pairs)?;
        let mut calls = Index::new(alloc);
        calls.reserve(usize::from(pairs))?;
        Ok(Places { holdings, calls })
    }

    pub(crate) fn holdings(&self) -> &[Holding]
        ensures same { result.now ≡ self.now }
        ensures rise { PairsRise result.now }
    {
        &self.holdings
    }

    /// The places of the pairs that a call holds, the least first.
    pub(crate) fn of_call(&self, call: u64) -> &[Entry]
        ensures { map (λ e. e.number) result.now ≡ places_of call 0 self.now }
    {
        self.calls.numbers(call)
    }

    /// The even port of the pair at a place.
    pub(crate) fn even_at(&self, place: usize) -> u16
        requires { place < length self.now }
        ensures even { result ≡ (slice_index_or self.now place no_holding).even }
        ensures odd { result + 1 ≤ last_port }
    {
        self.holdings[place].even
    }

    // Nobody holds the pair at a place.
    fn vacate(&mut self, place: usize)
        requires { place < length self.old }
        ensures { self.new ≡ at_place place vacated self.old }
    {
        if let Some(call) = self.holdings[place].holder {
            self.holdings[place].holder = None;
            self.calls.remove(call, place);
        }
    }

    // A call holds the pair at a place, which nobody holds yet.
    fn occupy(&mut self, place: usize, call: u64)
        requires bound { place < length self.old }
        requires unheld { (slice_index_or self.old place no_holding).holder ≡ None }
        ensures { self.new ≡ at_place place (held_by call) self.old }
    {
        self.holdings[place].holder = Some(call);
        self.calls.put(call, place);
    }

    // The pair at a place rests from a moment on.
    fn rest(&mut self, place: usize, now: u64)
        requires { place < length self.old }
        ensures { self.new ≡ at_place place (resting_from now) self.old }
    {
        self.holdings[place].freed = Some(now);
    }

    // Gives the pair at a place to a call.
    fn give(&mut self, place: usize, call: u64)
        requires { place < length self.old }
        ensures { self.new ≡ at_place place (held_by call) self.old }
    {
        self.vacate(place);
        self.occupy(place, call);
    }

    // Frees the pair at a place.
    fn free(&mut self, place: usize, now: u64)
        requires { place < length self.old }
        ensures { self.new ≡ at_place place (freed_at now) self.old }
    {
        self.vacate(place);
        self.rest(place, now);
    }

    // Gives a pair to a call.
    fn take_one(&mut self, call: u64, pair: Pair)
        ensures { self.new ≡ taken call (pair ∷ []) self.old }
    {
        if let Some(place) = place_of(&self.holdings, pair.even) {
            self.give(place, call);
        }
    }

    /// Gives pairs to a call.
    pub(crate) fn take(&mut self, call: u64, pairs: &[Pair])
        ensures { self.new ≡ taken call pairs.now self.old }
    {
        for pair in pairs {
            self.take_one(call, *pair);
        }
    }

    /// Frees a pair.
    pub(crate) fn release(&mut self, pair: Pair, now: u64)
        ensures { self.new ≡ released pair now self.old }
    {
        if let Some(place) = place_of(&self.holdings, pair.even) {
            self.free(place, now);
        }
    }

    // Frees the kth of the pairs of a call, unless it is one of these.
    fn free_unkept(&mut self, call: u64, k: usize, kept: &[Pair], now: u64)
        requires { k < length (places_of call 0 self.old) }
        // Freeing the others first or last gives the same; if all pairs after the kth are kept, all from the kth on
        // are kept afterwards.
        ensures same { others_freed call kept.now now self.new ≡ others_freed call kept.now now self.old }
        ensures before { k ≤ length (places_of call 0 self.new) }
        ensures behind { kept_from call kept.now (k + 1) self.old ≡ true → kept_from call kept.now k self.new ≡ true }
    {
        let place = self.of_call(call)[k].number;
        let even = self.even_at(place);
        if !is_among(kept, even) {
            self.free(place, now);
        }
    }

    /// Frees the pairs of a call except these.
    pub(crate) fn free_others(&mut self, call: u64, kept: &[Pair], now: u64)
        ensures { self.new ≡ others_freed call kept.now now self.old }
    {
        // From the last one on, since freed pairs leave the list.
        let mut left = self.of_call(call).len();
        while left > 0 {
            left -= 1;
            self.free_unkept(call, left, kept, now);
        }
    }

    /// Frees all pairs of a call.
    pub(crate) fn drop_all(&mut self, call: u64, now: u64)
        ensures { self.new ≡ dropped call now self.old }
    {
        self.free_others(call, &[], now);
    }
}
