//! The timers of calls. Nothing here takes memory.

ghost use Rattle.std.specs.Prelude.{◌≡◌, ◌+◌, ◌<◌, ◌≤◌, length, option_map};
ghost use Rattle.timers.specs.Queue.{first, first_due, set, without};
ghost use Rattle.timers.specs.Settings.{IsDue, IsNext};
ghost use Rattle.calls.specs.Changes.{with_timer, without_timer};
ghost use Rattle.calls.specs.State.{standing};
ghost use Rattle.calls.specs.Timing.{id, moment_after, of_others, same_timer, timed, timed_by, timers_planned};

use crate::state::Calls;
use crate::timer_id::CallTimerId;
use call_core::{Action, CallTimer, Plan};
use timers::{Timer, Timers};

/// This many milliseconds later; a moment that can no longer be counted is the last.
fn moment_after(now: u64, after: u64) -> u64
    ensures { result ≡ moment_after now after }
{
    now.saturating_add(after)
}

fn timer_id(number: u64, timer: CallTimer) -> CallTimerId
    ensures { result ≡ id number timer }
{
    CallTimerId { number, timer }
}

fn set(timers: &mut Timers<CallTimerId>, id: CallTimerId, at: u64)
    requires { 0 < timers.old.room }
    ensures timers { timers.new.timers ≡ set same_timer timers.old.timers id at }
    ensures room { timers.old.room ≤ timers.new.room + 1 }
{
    timers.set(id, at).unwrap();
}

fn stop(timers: &mut Timers<CallTimerId>, id: CallTimerId)
    ensures timers { timers.new.timers ≡ without same_timer timers.old.timers id }
    ensures room { timers.old.room ≤ timers.new.room }
{
    timers.cancel(id);
}

/// What an action does to the timers of the call with this number.
fn take_action(timers: &mut Timers<CallTimerId>, now: u64, number: u64, action: Action)
    requires { 0 < timers.old.room }
    ensures timers { timers.new.timers ≡ timed_by now number timers.old.timers action }
    ensures room { timers.old.room ≤ timers.new.room + 1 }
{
    match action {
        Action::Set(timer, after) => {
            set(timers, timer_id(number, timer), moment_after(now, after))
        }
        Action::Stop(timer) => stop(timers, timer_id(number, timer)),
        _ => {}
    }
}

fn take_actions(timers: &mut Timers<CallTimerId>, now: u64, number: u64, actions: &[Action])
    requires { length actions.now ≤ timers.old.room }
    ensures timers { timers.new.timers ≡ timed now number timers.old.timers actions.now }
    ensures room { timers.old.room ≤ timers.new.room + length actions.now }
{
    for action in actions {
        take_action(timers, now, number, *action);
    }
}

/// Stops all timers of the call with this number.
fn stop_all(timers: &mut Timers<CallTimerId>, number: u64)
    ensures timers { timers.new.timers ≡ of_others number timers.old.timers }
    ensures room { timers.old.room ≤ timers.new.room }
{
    stop(timers, timer_id(number, CallTimer::Limit));
    stop(timers, timer_id(number, CallTimer::Repeat));
    stop(timers, timer_id(number, CallTimer::Wait));
    stop(timers, timer_id(number, CallTimer::Lifetime));
}

/// What a plan does to the timers of the call with this number: its actions set and stop them, and a call that is gone
/// has none.
pub(crate) fn take_plan(timers: &mut Timers<CallTimerId>, now: u64, number: u64, plan: &Plan)
    requires { length plan.now.actions ≤ timers.old.room }
    ensures timers { timers.new.timers ≡ timers_planned now number plan.now timers.old.timers }
    ensures room { timers.old.room ≤ timers.new.room + length plan.now.actions }
{
    if plan.next.is_some() {
        take_actions(timers, now, number, plan.actions.as_slice());
    } else {
        stop_all(timers, number);
    }
}

impl Calls {
    /// The timer that is due first, of those whose moment is not after `now`, in milliseconds: the one with the least
    /// moment, and at equal moments the one set first. Takes no memory.
    pub fn first_due(&self, now: u64) -> Option<Timer<CallTimerId>>
        ensures first { result ≡ first_due self.now.timers now }
        ensures least { IsDue self.now.timers now result }
    {
        self.timers.first_due(now)
    }

    /// The least moment that is set, in milliseconds. Takes no memory.
    pub fn next_due(&self) -> Option<u64>
        ensures first { result ≡ option_map (λ t. t.at) (first self.now.timers) }
        ensures least { IsNext self.now.timers result }
    {
        self.timers.next()
    }

    /// This timer is no longer set. Takes no memory.
    pub fn stop_timer(&mut self, timer: CallTimerId)
        ensures standing { standing self.new ≡ without_timer timer (standing self.old) }
        ensures room { self.old.room ≤ self.new.room }
        ensures timer_room { self.old.timer_room ≤ self.new.timer_room }
        ensures key { self.new.key ≡ self.old.key }
    {
        stop(&mut self.timers, timer);
    }

    /// This timer is set to this moment, in milliseconds: anew, if it was set. Takes no memory.
    pub fn set_timer(&mut self, timer: CallTimerId, at: u64)
        requires { 0 < self.old.timer_room }
        ensures standing { standing self.new ≡ with_timer timer at (standing self.old) }
        ensures key { self.new.key ≡ self.old.key }
    {
        set(&mut self.timers, timer, at);
    }
}
