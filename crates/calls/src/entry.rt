//! Changes among the calls: room for one, and its entry.

ghost use Rattle.std.specs.Prelude.{◌≡◌, ◌+◌, ◌<◌, ◌≤◌, ◌^◌, OnOk, length};
ghost use Rattle.port_pool.specs.Changes.{LeadFrom};
ghost use Rattle.calls.specs.Changes.{FitsChange, HasRoom, entered, timers_set};
ghost use Rattle.calls.specs.State.{standing};

use crate::change::CallChange;
use crate::state::Calls;
use call_core::Plan;
use port_pool::Change;
use std::alloc::{AllocError, Global};

impl Calls {
    /// Makes room for the timers that a plan sets, and for one more.
    fn reserve_timers(&mut self, plan: &Plan) -> Result<(), AllocError>
        ensures standing { standing self.new ≡ standing self.old }
        ensures key { self.new.key ≡ self.old.key }
        ensures ok { OnOk result (length plan.now.actions < self.new.timer_room) }
        ensures room { self.old.room ≤ self.new.room }
        ensures timer_room { self.old.timer_room ≤ self.new.timer_room }
    {
        self.timers.reserve(plan.actions.as_slice().len() + 1)
    }

    /// Makes the room that this change takes, and for one timer more. A refusal (no memory) leaves the calls as they
    /// were.
    pub fn reserve_for(&mut self, change: &CallChange) -> Result<(), AllocError>
        ensures standing { standing self.new ≡ standing self.old }
        ensures key { self.new.key ≡ self.old.key }
        ensures ok { OnOk result (HasRoom self.new change.now) }
        ensures room { self.old.room ≤ self.new.room }
        ensures timer_room { self.old.timer_room ≤ self.new.timer_room }
        ensures timer_more { OnOk result (timers_set change.now < self.new.timer_room) }
    {
        match change {
            CallChange::Unchanged | CallChange::Puts { .. } => self.timers.reserve(1),
            CallChange::Begins(_, plan) => {
                self.calls.reserve(1)?;
                self.tags.reserve(1)?;
                self.reserve_timers(plan.get())
            }
            CallChange::Carries { plan, .. } => self.reserve_timers(plan.get()),
        }
    }

    /// Enters a change that was planned on these calls at this moment, and returns the changes of the relay table, by
    /// rising port. Takes no memory.
    pub fn enter(&mut self, alloc: Global, change: CallChange, now: u64) -> Vec<Change>
        requires room { HasRoom self.old change }
        requires fits { FitsChange (standing self.old) now change }
        requires few { self.old.begun + 1 < 2 ^ 64 }
        ensures standing { standing self.new ≡ (entered (standing self.old) now change).standing }
        ensures key { self.new.key ≡ self.old.key }
        ensures changes { result.items ≡ (entered (standing self.old) now change).changes }
        ensures leads { LeadFrom self.old.pool.rows self.new.pool.rows result.items }
        ensures timer_left { self.old.timer_room ≤ self.new.timer_room + timers_set change }
    {
        match change {
            CallChange::Unchanged => Vec::new(alloc),
            CallChange::Begins(call, plan) => self.begin(alloc, call, plan, now),
            CallChange::Carries {
                place,
                beside,
                plan,
            } => self.carry_out(alloc, place, beside, plan, now),
            CallChange::Puts { place, leg } => {
                self.put_leg(place, leg);
                Vec::new(alloc)
            }
        }
    }
}
