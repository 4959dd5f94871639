//! Plans that are carried out. Nothing here can fail.

ghost use Rattle.std.specs.Prelude.{◌≡◌, ◌≢◌, ℕ, [], false};
ghost use Rattle.port_pool.specs.Changes.{LeadFrom};
ghost use Rattle.port_pool.specs.Pool.{is_port_of};
ghost use Rattle.offer_answer.specs.Direct.{hold_address};
ghost use Rattle.call_media.specs.Serving.{Serves, SparesOthers};
ghost use Rattle.call_core.specs.Calls.{IsServed, new_call, with_number, with_number_if};
ghost use Rattle.call_core.specs.Plans.{FitsMedia, IsPlanned, carried, changes_made, media_after, pool_after};

use crate::call::Call;
use crate::plan::{Done, MediaPlan, Plan};
use call_media::CallMedia;
use dialogs::Dialog;
use offer_answer::OwnRange;
use port_pool::{Change, Pool};
use std::alloc::Global;

impl Call {
    /// Carries out what was planned for the call, on the values that it was planned with. Takes no memory.
    pub fn carry_out(&mut self, alloc: Global, plan: Plan, pool: &mut Pool, now: u64) -> Done
        requires serves { IsServed self.old pool.old }
        requires planned { IsPlanned self.old pool.old now plan }
        ensures actions { result.actions ≡ (carried self.old pool.old now plan).actions }
        ensures call { self.new ≡ (carried self.old pool.old now plan).call }
        ensures pool { pool.new ≡ (carried self.old pool.old now plan).pool }
        ensures changes { result.changes.items ≡ (carried self.old pool.old now plan).changes }
        ensures leads { LeadFrom pool.old.rows pool.new.rows result.changes.items }
        ensures serves { IsServed self.new pool.new }
        ensures spares { SparesOthers self.old.number pool.old pool.new }
    {
        let Plan {
            actions,
            next,
            numbers,
            media,
        } = plan;
        let changes = change_media(&mut self.media, alloc, media, pool, now);
        keep_number(&mut self.caller, numbers.to_caller);
        keep_number_if(&mut self.callee, numbers.to_callee);
        self.standing = next;
        Done { actions, changes }
    }
}

/// Changes the media as planned, and returns the changes of the relay table.
fn change_media(
    media: &mut CallMedia,
    alloc: Global,
    plan: MediaPlan,
    pool: &mut Pool,
    now: u64,
) -> Vec<Change>
    requires serves { Serves media.old pool.old }
    requires planned { FitsMedia media.old pool.old now plan }
    ensures media { media.new ≡ media_after media.old plan }
    ensures pool { pool.new ≡ pool_after media.old pool.old now plan }
    ensures changes { result.items ≡ changes_made plan }
    ensures leads { LeadFrom pool.old.rows pool.new.rows result.items }
    ensures serves { Serves media.new pool.new }
    ensures spares { SparesOthers media.old.number pool.old pool.new }
{
    match plan {
        MediaPlan::Keeps => Vec::new(alloc),
        MediaPlan::Holds(planned) => {
            media.hold_offer(pool, planned, now);
            Vec::new(alloc)
        }
        MediaPlan::Puts(planned) => media.put_answer(pool, planned, now),
        MediaPlan::Withdraws => {
            media.withdraw_offer(pool, now);
            Vec::new(alloc)
        }
        MediaPlan::Ends(removals) => {
            media.end(pool, &removals, now);
            removals
        }
    }
}

fn keep_number(dialog: &mut Dialog, number: Option<u32>)
    ensures { dialog.new ≡ with_number number dialog.old }
{
    if let Some(number) = number {
        dialog.keep_number(number);
    }
}

fn keep_number_if(dialog: &mut Option<Dialog>, number: Option<u32>)
    ensures { dialog.new ≡ with_number_if number dialog.old }
{
    if let Some(dialog) = dialog {
        keep_number(dialog, number);
    }
}
