//! The pool of pairs.

ghost use Rattle.std.specs.Prelude.{ℕ, ◌≡◌, ◌==◌, ◌≤◌, ◌+◌, ◌*◌, ◌%◌, ◌&&◌, not, [], All, true, false, None, Some, IfErr, IfOk, OnOk, OnErr, is_some, length, if◌then◌else◌};
ghost use Rattle.std.specs.FinMap as map;
ghost use Rattle.port_pool.specs.Limits.{min_port, last_port, max_pairs};
ghost use Rattle.port_pool.specs.Changes.{LeadFrom};
ghost use Rattle.port_pool.specs.Holdings.{even_of, is_among, holder_of, holder_at, LeadsPair, AreRising, PairsRise};
ghost use Rattle.port_pool.specs.PairCounts.{pair_counts};
ghost use Rattle.port_pool.specs.Pool.{new_pool, lowest_free, AreLowestFree, AreFree, with_pairs, reserved, freed, RestsFrom, RefusesReserve, RefusesRelease, is_port_of, HasNoRow, AreOwn, StandOnce, row_after, changes_of, AreHeld, AreBareBut, with_changes, without_others, committed, without_call, RowsAreHeld, NeverMeet};

use crate::changes::{Change, changes_of};
use crate::error::PoolError;
use crate::holdings::{holder_of, is_held_by, lowest_free, pair_counts};
use crate::hop::Hop;
use crate::pair::Pair;
use crate::pair_counts::PairCounts;
use crate::places::Places;
use crate::relay_line::RelayLine;
use crate::relay_table::RelayTable;
use std::alloc::{AllocError, Global};
use std::marker::Model;

/// Pairs of ports, each of which one call may hold, and the rows of these calls.
pub struct Pool {
    alloc: Global,
    places: Places,
    table: RelayTable,
}

impl Drop for Pool {
    fn drop(self) {
        let Pool {
            alloc: _,
            places: _,
            table: _,
        } = self;
    }
}

impl Model for Pool {
    ghost use Rattle.port_pool.specs.Pool.{Contents, coded_contents, IsPool};

    ghost Value = { Contents };

    ghost coded = { coded_contents };

    ghost view = { λ p. record { holdings = p.places; rows = p.table } };

    ghost invariant = { λ p. IsPool (record { holdings = p.places; rows = p.table }) };
}

impl Pool {
    /// A pool of this many pairs, the first of which begins at this even port. It makes all room that `release` needs.
    pub fn new(alloc: Global, first: u16, pairs: u16) -> Result<Pool, AllocError>
        requires even { first % 2 ≡ 0 }
        requires least { min_port ≤ first }
        requires some { 1 ≤ pairs }
        requires most { pairs ≤ max_pairs }
        requires last { first + 2 * pairs ≤ last_port + 1 }
        ensures { IfOk result (λ pool. pool ≡ new_pool first pairs) }
    {
        let places = Places::new(alloc, first, pairs)?;
        let table = RelayTable::new(alloc)?;
        Ok(Pool {
            alloc,
            places,
            table,
        })
    }

    /// The `n` lowest pairs that are free at the moment `now`, in milliseconds: nobody holds them, and they do not
    /// rest. They are what `reserve` gives. P1 comes only if fewer are free.
    pub fn plan_reserve(&self, n: usize, now: u64) -> Result<Vec<Pair>, PoolError>
        ensures pairs { IfOk result (λ pairs. pairs.items ≡ lowest_free self.now now n) }
        ensures count { IfOk result (λ pairs. length pairs.items ≡ n) }
        ensures lowest { IfOk result (λ pairs. AreLowestFree self.now now pairs.items) }
        ensures free { IfOk result (λ pairs. AreFree self.now now pairs.items) }
        ensures unheld { IfOk result (λ pairs. (port : ℕ) → is_among pairs.items (even_of port) ≡ true →
            holder_at self.now.holdings port ≡ None) }
        ensures ports { IfOk result (λ pairs. All (λ p. LeadsPair p.even) pairs.items) }
        ensures rising { IfOk result (λ pairs. AreRising pairs.items) }
        ensures refused { IfErr result (RefusesReserve self.now n now) }
    {
        let pairs = lowest_free(self.alloc, self.places.holdings(), n, now)?;
        if pairs.len() < n {
            return Err(PoolError::TooFew);
        }
        Ok(pairs)
    }

    /// Gives a call pairs that are free at the moment `now`, as those of `plan_reserve` are. Takes no memory.
    pub fn hold(&mut self, call: u64, pairs: &[Pair], now: u64)
        requires { AreFree self.old now pairs.now }
        ensures pool { self.new ≡ with_pairs self.old call pairs.now }

        // The pairs are the call's then. No other pair changes hands.
        ensures holder { (port : ℕ) → holder_at self.new.holdings port
            ≡ (if is_among pairs.now (even_of port) then Some call else holder_at self.old.holdings port) }
    {
        // Only the condition refers to the moment, and nothing is written at it.
        let _ = now;
        self.places.take(call, pairs);
    }

    /// Gives a call the `n` lowest pairs that are free at the moment `now`, in milliseconds: nobody holds them, and
    /// they do not rest. P1 comes only if fewer are free, and every refusal leaves the pool as it was.
    pub fn reserve(&mut self, call: u64, n: usize, now: u64) -> Result<Vec<Pair>, PoolError>
        ensures pairs { IfOk result (λ pairs. pairs.items ≡ lowest_free self.old now n) }
        ensures count { IfOk result (λ pairs. length pairs.items ≡ n) }
        ensures lowest { IfOk result (λ pairs. AreLowestFree self.old now pairs.items) }
        ensures pool { OnOk result (self.new ≡ reserved self.old call n now) }

        // The pairs were nobody's, and then are the call's. No other pair changes hands.
        ensures unheld { IfOk result (λ pairs. (port : ℕ) → is_among pairs.items (even_of port) ≡ true →
            holder_at self.old.holdings port ≡ None) }
        ensures holder { IfOk result (λ pairs. (port : ℕ) → holder_at self.new.holdings port
            ≡ (if is_among pairs.items (even_of port) then Some call else holder_at self.old.holdings port)) }

        ensures ports { IfOk result (λ pairs. All (λ p. LeadsPair p.even) pairs.items) }
        ensures rising { IfOk result (λ pairs. AreRising pairs.items) }
        ensures rows { self.new.rows ≡ self.old.rows }
        ensures refused { IfErr result (RefusesReserve self.old n now) }
        ensures err { OnErr result (self.new ≡ self.old) }
    {
        let pairs = self.plan_reserve(n, now)?;
        self.hold(call, &pairs, now);
        Ok(pairs)
    }

    /// Frees a pair that a call holds and whose ports have no row; from the moment `now` the pair rests. Takes no
    /// memory.
    pub fn free(&mut self, pair: Pair, now: u64)
        requires held { is_some (holder_of self.old.holdings pair.even) ≡ true }
        requires bare { HasNoRow self.old pair }
        ensures pool { self.new ≡ freed self.old pair now }
        ensures holder { (port : ℕ) → holder_at self.new.holdings port
            ≡ (if even_of port == pair.even then None else holder_at self.old.holdings port) }
        ensures rests { RestsFrom self.new pair.even now }
    {
        self.places.release(pair, now);
    }

    /// Frees a pair of a call, at whose ports the call has no row; from the moment `now` the pair rests. P2 comes if
    /// the pair is not the call's, and leaves the pool as it was. Takes no memory.
    pub fn release(&mut self, call: u64, pair: Pair, now: u64) -> Result<(), PoolError>
        requires { holder_of self.old.holdings pair.even ≡ Some call → HasNoRow self.old pair }
        ensures held { OnOk result (holder_of self.old.holdings pair.even ≡ Some call) }
        ensures pool { OnOk result (self.new ≡ freed self.old pair now) }
        ensures holder { OnOk result ((port : ℕ) → holder_at self.new.holdings port
            ≡ (if even_of port == pair.even then None else holder_at self.old.holdings port)) }
        ensures rests { OnOk result (RestsFrom self.new pair.even now) }
        ensures rows { self.new.rows ≡ self.old.rows }
        ensures refused { IfErr result (RefusesRelease self.old call pair) }
        ensures err { OnErr result (self.new ≡ self.old) }
    {
        if !is_held_by(self.places.holdings(), call, pair.even) {
            return Err(PoolError::NotHeld);
        }
        self.free(pair, now);
        Ok(())
    }

    /// Frees the pairs of a call except these, which are the only ones at whose ports the call has rows. From the
    /// moment `now` the freed pairs rest. Takes no memory.
    pub fn free_others(&mut self, call: u64, kept: &[Pair], now: u64)
        requires { AreBareBut self.old call kept.now }
        ensures pool { self.new ≡ without_others self.old call kept.now now }
        ensures holder { (port : ℕ) → holder_at self.new.holdings port
            ≡ (if is_port_of self.old call port && not (is_among kept.now (even_of port)) then None
            else holder_at self.old.holdings port) }
        ensures rests { (port : ℕ) → is_port_of self.old call port ≡ true → is_among kept.now (even_of port) ≡ false →
            RestsFrom self.new (even_of port) now }
    {
        self.places.free_others(call, kept, now);
    }

    /// The changes that replace a call's former rows with these, by rising port: what `commit` returns.
    pub fn plan_commit(&self, call: u64, lines: &[RelayLine]) -> Result<Vec<Change>, AllocError>
        requires own { AreOwn self.now call lines.now }
        requires once { StandOnce lines.now }
        ensures changes { IfOk result (λ changes. changes.items ≡ changes_of self.now call lines.now) }
        ensures held { IfOk result (λ changes. AreHeld self.now changes.items) }
        ensures leads { IfOk result (λ changes.
            LeadFrom self.now.rows (with_changes self.now changes.items).rows changes.items) }
        ensures rows { IfOk result (λ changes. (port : ℕ) →
            map.get (with_changes self.now changes.items).rows port ≡ row_after self.now call lines.now port) }
        ensures lines { IfOk result (λ changes.
            All (λ l. map.get (with_changes self.now changes.items).rows l.port ≡ l.hop) lines.now) }
    {
        let changes = changes_of(self.alloc, &self.places, &self.table, call, lines)?;
        Ok(changes)
    }

    /// Makes these changes, all at ports whose pairs calls hold, as those of `plan_commit` are. Takes no memory.
    pub fn put(&mut self, changes: &[Change])
        requires { AreHeld self.old changes.now }
        ensures { self.new ≡ with_changes self.old changes.now }
    {
        self.table.change_all(changes);
    }

    /// Replaces a call's former rows with these, and returns what changed, by rising port: Put for each port whose
    /// row is new or different, Remove for each whose row is gone. A line without a hop, or no line, leaves its port
    /// without a row. No pair is freed, so the moment changes nothing. A refusal (no memory) leaves the pool as it
    /// was.
    pub fn commit(
        &mut self,
        call: u64,
        lines: &[RelayLine],
        _now: u64,
    ) -> Result<Vec<Change>, AllocError>
        requires own { AreOwn self.old call lines.now }
        requires once { StandOnce lines.now }
        ensures changes { IfOk result (λ changes. changes.items ≡ changes_of self.old call lines.now) }
        ensures pool { OnOk result (self.new ≡ committed self.old call lines.now) }

        // These changes and no others lead from the table before to the table after.
        ensures leads { IfOk result (λ changes. LeadFrom self.old.rows self.new.rows changes.items) }
        ensures rows { OnOk result ((port : ℕ) →
            map.get self.new.rows port ≡ row_after self.old call lines.now port) }
        ensures lines { OnOk result (All (λ l. map.get self.new.rows l.port ≡ l.hop) lines.now) }
        ensures holdings { self.new.holdings ≡ self.old.holdings }

        ensures err { OnErr result (self.new ≡ self.old) }
    {
        let changes = self.plan_commit(call, lines)?;
        self.put(&changes);
        Ok(changes)
    }

    /// The removals of all rows of a call, by rising port: what `drop_call` returns.
    pub fn plan_drop(&self, call: u64) -> Result<Vec<Change>, AllocError>
        ensures changes { IfOk result (λ changes. changes.items ≡ changes_of self.now call []) }
        ensures leads { IfOk result (λ changes.
            LeadFrom self.now.rows (with_changes self.now changes.items).rows changes.items) }
    {
        let removals = changes_of(self.alloc, &self.places, &self.table, call, &[])?;
        Ok(removals)
    }

    /// Frees all pairs of a call, which rest from the moment `now`, and removes its rows with the removals of
    /// `plan_drop`. Takes no memory.
    pub fn end_call(&mut self, call: u64, removals: &[Change], now: u64)
        requires { removals.now ≡ changes_of self.old call [] }
        ensures pool { self.new ≡ without_call self.old call now }
        ensures leads { LeadFrom self.old.rows self.new.rows removals.now }
        ensures rows { (port : ℕ) → map.get self.new.rows port
            ≡ (if is_port_of self.old call port then None else map.get self.old.rows port) }
        ensures holder { (port : ℕ) → holder_at self.new.holdings port
            ≡ (if is_port_of self.old call port then None else holder_at self.old.holdings port) }
        ensures rests { (port : ℕ) → is_port_of self.old call port ≡ true → RestsFrom self.new (even_of port) now }
    {
        self.table.change_all(removals);
        self.places.drop_all(call, now);
    }

    /// Frees all pairs of a call, which rest from the moment `now`, removes all its rows, and returns these removals,
    /// by rising port. A refusal (no memory) leaves the pool as it was.
    pub fn drop_call(&mut self, call: u64, now: u64) -> Result<Vec<Change>, AllocError>
        ensures changes { IfOk result (λ changes. changes.items ≡ changes_of self.old call []) }
        ensures pool { OnOk result (self.new ≡ without_call self.old call now) }
        ensures leads { IfOk result (λ changes. LeadFrom self.old.rows self.new.rows changes.items) }
        ensures rows { OnOk result ((port : ℕ) → map.get self.new.rows port
            ≡ (if is_port_of self.old call port then None else map.get self.old.rows port)) }
        ensures holder { OnOk result ((port : ℕ) → holder_at self.new.holdings port
            ≡ (if is_port_of self.old call port then None else holder_at self.old.holdings port)) }
        ensures rests { OnOk result ((port : ℕ) → is_port_of self.old call port ≡ true →
            RestsFrom self.new (even_of port) now) }
        ensures err { OnErr result (self.new ≡ self.old) }
    {
        let removals = self.plan_drop(call)?;
        self.end_call(call, &removals, now);
        Ok(removals)
    }

    /// What holds of every pool. Two pairs that meet in a port have one holder, so no port serves two calls; a pair
    /// that a call holds is led by an even port, not below 1024, that has one above it; pairs rise; and a port that has
    /// a row belongs to a pair that a call holds.
    pub fn pairs_never_meet(&self)
        ensures apart { NeverMeet self.now }
        ensures ports { (even call : ℕ) → holder_of self.now.holdings even ≡ Some call → LeadsPair even }
        ensures rising { PairsRise self.now.holdings }
        ensures rows { RowsAreHeld self.now }
    {
        let _ = &self.places;
    }

    /// The call that holds the pair of a port, whether even or odd. Takes no memory.
    pub fn holder(&self, port: u16) -> Option<u64>
        ensures { result ≡ holder_at self.now.holdings port }
    {
        holder_of(self.places.holdings(), port - port % 2)
    }

    /// How many pairs calls hold at the moment `now`, in milliseconds, how many rest, and how many are free. Takes no
    /// memory.
    pub fn pair_counts(&self, now: u64) -> PairCounts
        ensures { result ≡ pair_counts now self.now.holdings }
    {
        pair_counts(self.places.holdings(), now)
    }

    /// The relay table. Takes no memory.
    pub fn table(&self) -> &RelayTable
        ensures { result.now ≡ self.now.rows }
    {
        &self.table
    }

    /// Where the datagrams of a port go, if it has a row. Takes no memory.
    pub fn hop(&self, port: u16) -> Option<Hop>
        ensures { result ≡ map.get self.now.rows port }
    {
        self.table.hop(port)
    }
}
