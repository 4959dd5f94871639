//! Plans that are carried out. Nothing here takes memory.

ghost use Rattle.std.specs.Prelude.{◌≡◌, ◌+◌, ◌<◌, ◌≤◌, ◌^◌, ◌∷◌, ◌++◌, [], false, length, map, Some, slice_get, slice_set, true, vec_len};
ghost use Rattle.std.specs.Vec.{vec_capacity};
ghost use Rattle.port_pool.specs.Changes.{LeadFrom};
ghost use Rattle.call_core.specs.Calls.{IsServed};
ghost use Rattle.call_core.specs.Plans.{IsPlanned, carried};
ghost use Rattle.call_media.specs.Serving.{SparesOthers};
ghost use Rattle.calls.specs.Carrying.{Did, IsPlannedAt, pushed, with_step, without_gone};
ghost use Rattle.calls.specs.Changes.{after_first_step, beside, carries};
ghost use Rattle.calls.specs.State.{standing};
ghost use Rattle.calls.specs.Tags.{prints_of};

use crate::beside::put_beside;
use crate::call_timers::take_plan;
use crate::change::Beside;
use crate::standing_call::StandingCall;
use crate::state::Calls;
use crate::tags::{TagPrints, prints_of};
use boxed::Boxed;
use call_core::{Done, Plan, spared_call_is_served};
use index::PrintKey;
use port_pool::{Change, Pool};
use std::alloc::Global;

/// A plan carried out by a call.
fn carry_out_in(
    call: &mut StandingCall,
    alloc: Global,
    plan: Boxed<Plan>,
    pool: &mut Pool,
    now: u64,
) -> Vec<Change>
    requires serves { IsServed call.old.call pool.old }
    requires planned { IsPlanned call.old.call pool.old now plan }
    ensures call { call.new ≡ with_step call.old (carried call.old.call pool.old now plan) }
    ensures pool { pool.new ≡ (carried call.old.call pool.old now plan).pool }
    ensures changes { result.items ≡ (carried call.old.call pool.old now plan).changes }
    ensures leads { LeadFrom pool.old.rows pool.new.rows result.items }
    ensures serves { IsServed call.new.call pool.new }
    ensures spares { SparesOthers call.old.call.number pool.old pool.new }
{
    let Done { actions, changes } = call.call.carry_out(alloc, plan.into_inner(), pool, now);
    drop(actions);
    changes
}

/// A plan carried out by the call at this place, which is still there afterwards, with what comes with it.
fn carry_out_there(
    calls: &mut Vec<StandingCall>,
    pool: &mut Pool,
    alloc: Global,
    place: usize,
    kept: Boxed<Beside>,
    plan: Boxed<Plan>,
    now: u64,
) -> Vec<Change>
    requires there { place < vec_len calls.old }
    requires served { (c : StandingCall) → slice_get calls.old.items place ≡ Some c → IsServed c.call pool.old }
    requires planned { IsPlannedAt calls.old.items pool.old place now plan }
    ensures done { (c : StandingCall) → slice_get calls.old.items place ≡ Some c →
        Did calls.old.items pool.old place now plan c
        (beside kept (with_step c (carried c.call pool.old now plan)))
        calls.new.items pool.new result.items }
    ensures leads { LeadFrom pool.old.rows pool.new.rows result.items }
    ensures len { vec_len calls.new ≡ vec_len calls.old }
{
    let call = &mut calls[place];
    let changes = carry_out_in(call, alloc, plan, pool, now);
    put_beside(call, kept.into_inner());
    changes
}

/// Notes the tags of the call at this place anew, where a dialog was put: without one they are as they were.
fn note_tags(
    calls: &[StandingCall],
    tags: &mut Vec<TagPrints>,
    key: PrintKey,
    place: usize,
    puts_dialog: bool,
)
    requires there { place < length calls.now }
    requires noted { place < vec_len tags.old }
    ensures anew { puts_dialog ≡ true → (c : StandingCall) → slice_get calls.now place ≡ Some c → tags.new.items ≡ slice_set tags.old.items place (prints_of key c) }
    ensures as_before { puts_dialog ≡ false → tags.new.items ≡ tags.old.items }
{
    if puts_dialog {
        tags[place] = prints_of(key, &calls[place]);
    }
}

/// Takes the call at this place off the list, with its tags, where it no longer has a standing.
fn take_off(calls: &mut Vec<StandingCall>, tags: &mut Vec<TagPrints>, key: PrintKey, place: usize)
    requires there { place < vec_len calls.old }
    requires noted { tags.old.items ≡ map (prints_of key) calls.old.items }
    ensures calls { calls.new.items ≡ without_gone calls.old.items place (slice_get calls.old.items place) }
    ensures noted { tags.new.items ≡ map (prints_of key) calls.new.items }
{
    if calls[place].call.standing().is_none() {
        drop(calls.remove(place));
        tags.remove(place);
    }
}

/// Puts a call after the others, and its tags, for which there is room.
fn put_behind(
    calls: &mut Vec<StandingCall>,
    tags: &mut Vec<TagPrints>,
    key: PrintKey,
    call: StandingCall,
)
    requires room { vec_len calls.old < vec_capacity calls.old }
    requires tag_room { vec_len tags.old < vec_capacity tags.old }
    requires noted { tags.old.items ≡ map (prints_of key) calls.old.items }
    ensures calls { calls.new.items ≡ calls.old.items ++ call ∷ [] }
    ensures noted { tags.new.items ≡ map (prints_of key) calls.new.items }
{
    tags.push_reserved(prints_of(key, &call));
    calls.push_reserved(call);
}

/// A call that begins, with its plan carried out, after the others.
fn begin_in(
    calls: &mut Vec<StandingCall>,
    tags: &mut Vec<TagPrints>,
    key: PrintKey,
    pool: &mut Pool,
    alloc: Global,
    mut call: StandingCall,
    plan: Boxed<Plan>,
    now: u64,
) -> Vec<Change>
    requires room { vec_len calls.old < vec_capacity calls.old }
    requires tag_room { vec_len tags.old < vec_capacity tags.old }
    requires noted { tags.old.items ≡ map (prints_of key) calls.old.items }
    requires serves { IsServed call.call pool.old }
    requires planned { IsPlanned call.call pool.old now plan }
    ensures calls { calls.new.items ≡ pushed (with_step call (carried call.call pool.old now plan)) calls.old.items }
    ensures noted { tags.new.items ≡ map (prints_of key) calls.new.items }
    ensures pool { pool.new ≡ (carried call.call pool.old now plan).pool }
    ensures changes { result.items ≡ (carried call.call pool.old now plan).changes }
    ensures leads { LeadFrom pool.old.rows pool.new.rows result.items }
    ensures serves { IsServed (carried call.call pool.old now plan).call pool.new }
    ensures spares { SparesOthers call.call.number pool.old pool.new }
{
    let changes = carry_out_in(&mut call, alloc, plan, pool, now);
    if call.call.standing().is_none() {
        drop(call);
        return changes;
    }
    put_behind(calls, tags, key, call);
    changes
}

impl Calls {
    /// Carries out what was planned for the call at this place, with what comes with it, and returns the changes of
    /// the relay table, by rising port. A call that is gone then is taken off the list. Where there is no call at the
    /// place, nothing is done.
    pub(crate) fn carry_out(
        &mut self,
        alloc: Global,
        place: usize,
        kept: Boxed<Beside>,
        plan: Boxed<Plan>,
        now: u64,
    ) -> Vec<Change>
        requires planned { IsPlannedAt self.old.calls self.old.pool place now plan }
        requires room { length plan.actions ≤ self.old.timer_room }
        ensures key { self.new.key ≡ self.old.key }
        ensures standing { standing self.new
            ≡ (carries (standing self.old) now place kept plan (slice_get self.old.calls place)).standing }
        ensures changes { result.items
            ≡ (carries (standing self.old) now place kept plan (slice_get self.old.calls place)).changes }
        ensures leads { LeadFrom self.old.pool.rows self.new.pool.rows result.items }
        ensures timer_left { self.old.timer_room ≤ self.new.timer_room + length plan.actions }
    {
        spared_call_is_served();
        if place >= self.calls.len() {
            drop(kept);
            drop(plan);
            return Vec::new(alloc);
        }
        let number = self.calls[place].call.number();
        take_plan(&mut self.timers, now, number, plan.get());
        let puts_dialog = kept.get().puts_dialog();
        let changes = carry_out_there(
            &mut self.calls,
            &mut self.pool,
            alloc,
            place,
            kept,
            plan,
            now,
        );
        note_tags(&self.calls, &mut self.tags, self.key, place, puts_dialog);
        take_off(&mut self.calls, &mut self.tags, self.key, place);
        changes
    }

    /// Begins a call, of the number that comes next, with its first plan carried out; returns the changes of the
    /// relay table.
    pub(crate) fn begin(
        &mut self,
        alloc: Global,
        call: Boxed<StandingCall>,
        plan: Boxed<Plan>,
        now: u64,
    ) -> Vec<Change>
        requires room { 0 < self.old.room }
        requires timer_room { length plan.actions ≤ self.old.timer_room }
        requires number { call.call.number ≡ self.old.begun + 1 }
        requires few { self.old.begun + 1 < 2 ^ 64 }
        requires serves { IsServed call.call self.old.pool }
        requires planned { IsPlanned call.call self.old.pool now plan }
        ensures key { self.new.key ≡ self.old.key }
        ensures standing { standing self.new
            ≡ (after_first_step (standing self.old) now call (carried call.call self.old.pool now plan)).standing }
        ensures changes { result.items ≡ (carried call.call self.old.pool now plan).changes }
        ensures leads { LeadFrom self.old.pool.rows self.new.pool.rows result.items }
        ensures timer_left { self.old.timer_room ≤ self.new.timer_room + length plan.actions }
    {
        spared_call_is_served();
        take_plan(&mut self.timers, now, call.get().call.number(), plan.get());
        let changes = begin_in(
            &mut self.calls,
            &mut self.tags,
            self.key,
            &mut self.pool,
            alloc,
            call.into_inner(),
            plan,
            now,
        );
        self.begun += 1;
        changes
    }
}
