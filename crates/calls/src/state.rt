//! The live calls, with their pool.

ghost use Rattle.std.specs.Prelude.{◌≡◌, ◌+◌, ◌<◌, ◌≤◌, ◌*◌, ◌%◌, ℕ, [], IfOk, IfSome, false, slice_get};
ghost use Rattle.std.specs.Option.{option_copied};
ghost use Rattle.port_pool.specs.Limits.{min_port, last_port, max_pairs};
ghost use Rattle.port_pool.specs.Pool.{is_port_of, new_pool};
ghost use Rattle.call_core.specs.Calls.{IsServed};

use crate::standing_call::StandingCall;
use crate::tags::TagPrints;
use crate::timer_id::CallTimerId;
use index::PrintKey;
use port_pool::Pool;
use std::alloc::{AllocError, Global};
use std::marker::Model;
use timers::Timers;

/// The live calls, in the order in which they began, and the pool that serves them.
pub struct Calls {
    pub(crate) calls: Vec<StandingCall>,
    /// The key of the prints.
    pub(crate) key: PrintKey,
    /// The prints of the tags of each, in the same order.
    pub(crate) tags: Vec<TagPrints>,
    pub(crate) pool: Pool,
    /// How many calls began.
    pub(crate) begun: u64,
    pub(crate) timers: Timers<CallTimerId>,
}

impl Drop for Calls {
    fn drop(self) {
        let Calls {
            calls: _,
            key: _,
            tags: _,
            pool: _,
            begun: _,
            timers: _,
        } = self;
    }
}

impl Model for Calls {
    ghost use Rattle.std.specs.Prelude.{◌≡◌, ◌-◌, map, min, vec_len};
    ghost use Rattle.std.specs.Coded.{codes};
    ghost use Rattle.std.specs.Vec.{vec_capacity};
    ghost use Rattle.port_pool.specs.Pool.{coded_contents};
    ghost use Rattle.calls.specs.State.{AreKept, Contents};
    ghost use Rattle.calls.specs.Tags.{prints_of};

    ghost Value = { Contents };

    ghost coded = { Prim.hlevel (codes, coded_contents) };

    ghost view = { λ c. record { calls = c.calls.items; pool = c.pool; begun = c.begun; timers = c.timers.timers; room = min (vec_capacity c.calls - vec_len c.calls) (vec_capacity c.tags - vec_len c.tags); timer_room = c.timers.room; key = c.key } };

    ghost invariant = { λ c. AreKept c.calls.items c.pool c.begun × (c.tags.items ≡ map (prints_of c.key) c.calls.items) };
}

fn call_at(calls: &[StandingCall], place: usize) -> Option<&StandingCall>
    ensures { option_copied result ≡ slice_get calls.now place }
{
    calls.get(place)
}

impl Calls {
    /// No call, over a pool of this many pairs, the first of which begins at this even port. Calls are looked up by
    /// prints under this key, and no other, for good. No other result depends on the key.
    pub fn new(alloc: Global, key: PrintKey, first: u16, pairs: u16) -> Result<Calls, AllocError>
        requires even { first % 2 ≡ 0 }
        requires least { min_port ≤ first }
        requires some { 1 ≤ pairs }
        requires most { pairs ≤ max_pairs }
        requires last { first + 2 * pairs ≤ last_port + 1 }
        ensures calls { IfOk result (λ c. c.calls ≡ []) }
        ensures pool { IfOk result (λ c. c.pool ≡ new_pool first pairs) }
        ensures begun { IfOk result (λ c. c.begun ≡ 0) }
        ensures timers { IfOk result (λ c. c.timers ≡ []) }
        ensures key { IfOk result (λ c. c.key ≡ key) }
    {
        let pool = Pool::new(alloc, first, pairs)?;
        Ok(Calls {
            calls: Vec::new(alloc),
            key,
            tags: Vec::new(alloc),
            pool,
            begun: 0,
            timers: Timers::new(alloc),
        })
    }

    /// The calls, borrowed, in the order in which they began. Takes no memory.
    pub fn as_slice(&self) -> &[StandingCall]
        ensures { result.now ≡ self.now.calls }
    {
        &self.calls
    }

    /// The pool that serves them. Takes no memory.
    pub fn pool(&self) -> &Pool
        ensures { result.now ≡ self.now.pool }
    {
        &self.pool
    }

    /// How many calls began. Takes no memory.
    pub fn begun(&self) -> u64
        ensures begun { result ≡ self.now.begun }
        // The pool holds nothing for a call that has not begun.
        ensures none { (number port : ℕ) → result < number → is_port_of self.now.pool number port ≡ false }
    {
        self.begun
    }

    /// The call at this place, which the pool serves. Takes no memory.
    pub fn get(&self, place: usize) -> Option<&StandingCall>
        ensures call { option_copied result ≡ slice_get self.now.calls place }
        ensures served { IfSome result (λ c. IsServed c.now.call self.now.pool) }
    {
        call_at(self.calls.as_slice(), place)
    }
}
