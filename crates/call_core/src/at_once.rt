//! Plans that are carried out at once.

ghost use Rattle.std.specs.Prelude.{◌≡◌, IfErr, IfOk, None, OnErr, OnOk, Some};
ghost use Rattle.port_pool.specs.Changes.{LeadFrom};
ghost use Rattle.call_media.specs.declared.end.End.TheVariants.{Caller};
ghost use Rattle.call_media.specs.Serving.{SparesOthers};
ghost use Rattle.call_core.specs.CallRows.{call_row, first_call_row};
ghost use Rattle.call_core.specs.Calls.{IsServed};
ghost use Rattle.call_core.specs.Refusals.{MayPass, MayTakeIn, RefusesFirst, RefusesInput};

use crate::call::Call;
use crate::input::Input;
use crate::plan::Done;
use crate::refusal::CallRefusal;
use port_pool::Pool;
use sdp::Description;
use std::alloc::Global;

impl Call {
    /// Takes the first offer, which the caller makes, at the moment `now` in milliseconds, where the call has no
    /// standing yet: what `plan_ask` returns, carried out. A refusal leaves the call and the pool as they were.
    pub fn ask(
        &mut self,
        alloc: Global,
        offer: &Description<'_>,
        pool: &mut Pool,
        now: u64,
    ) -> Result<Done, CallRefusal>
        requires serves { IsServed self.old pool.old }
        requires nowhere { self.old.standing ≡ None }
        ensures actions { IfOk result (λ d. d.actions ≡ (first_call_row self.old offer.now pool.old now).actions) }
        ensures call { OnOk result (self.new ≡ (first_call_row self.old offer.now pool.old now).call) }
        ensures pool { OnOk result (pool.new ≡ (first_call_row self.old offer.now pool.old now).pool) }
        ensures changes { IfOk result (λ d. d.changes.items ≡ (first_call_row self.old offer.now pool.old now).changes) }
        ensures leads { IfOk result (λ d. LeadFrom pool.old.rows pool.new.rows d.changes.items) }
        ensures serves { IsServed self.new pool.new }
        ensures spares { SparesOthers self.old.number pool.old pool.new }
        ensures may { OnOk result (MayPass self.old.media pool.old Caller offer.now now) }
        ensures refused { IfErr result (RefusesFirst self.old.media pool.old Caller (Some offer.now) now) }
        ensures err_call { OnErr result (self.new ≡ self.old) }
        ensures err_pool { OnErr result (pool.new ≡ pool.old) }
    {
        let plan = self.plan_ask(alloc, offer, pool, now)?;
        Ok(self.carry_out(alloc, plan, pool, now))
    }

    /// Takes an input at the moment `now` in milliseconds: what `plan_take` returns, carried out. A refusal leaves
    /// the call and the pool as they were.
    pub fn take(
        &mut self,
        alloc: Global,
        input: &Input<'_>,
        pool: &mut Pool,
        now: u64,
    ) -> Result<Done, CallRefusal>
        requires { IsServed self.old pool.old }
        ensures actions { IfOk result (λ d. d.actions ≡ (call_row self.old input.now pool.old now).actions) }
        ensures call { OnOk result (self.new ≡ (call_row self.old input.now pool.old now).call) }
        ensures pool { OnOk result (pool.new ≡ (call_row self.old input.now pool.old now).pool) }
        ensures changes { IfOk result (λ d. d.changes.items ≡ (call_row self.old input.now pool.old now).changes) }
        ensures leads { IfOk result (λ d. LeadFrom pool.old.rows pool.new.rows d.changes.items) }
        ensures serves { IsServed self.new pool.new }
        ensures spares { SparesOthers self.old.number pool.old pool.new }
        ensures may { OnOk result (MayTakeIn self.old self.old.standing pool.old input.now now) }
        ensures refused { IfErr result (RefusesInput self.old pool.old input.now now) }
        ensures err_call { OnErr result (self.new ≡ self.old) }
        ensures err_pool { OnErr result (pool.new ≡ pool.old) }
    {
        let plan = self.plan_take(alloc, input, pool, now)?;
        Ok(self.carry_out(alloc, plan, pool, now))
    }
}
