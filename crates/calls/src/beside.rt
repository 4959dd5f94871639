//! What is put beside a live call. Nothing here takes memory, and where there is no call at the place, nothing
//! changes.

ghost use Rattle.std.specs.Prelude.{◌≡◌, slice_get};
ghost use Rattle.port_pool.specs.Pool.{Contents};
ghost use Rattle.call_core.specs.Calls.{IsServed};
ghost use Rattle.calls.specs.Carrying.{changed_at, with_answered, with_dialog_at};
ghost use Rattle.calls.specs.Changes.{beside, with_last, with_leg, with_taken_if};

use crate::change::{Beside, LegDialog};
use crate::standing_call::{StandingCall, TakenOffer, offerer_of};
use crate::state::Calls;
use crate::tags::prints_of;
use events::Sent;

fn put_leg_in(call: &mut StandingCall, leg: Option<LegDialog>)
    ensures call { call.new ≡ with_leg leg call.old }
    ensures serves { (pool : Contents) → IsServed call.old.call pool → IsServed call.new.call pool }
{
    match leg {
        None => {}
        Some(LegDialog { end, dialog }) => call.call.put_dialog(end, dialog.into_inner()),
    }
}

fn put_taken(call: &mut StandingCall, taken: Option<TakenOffer>)
    ensures call { call.new ≡ with_taken_if taken call.old }
    ensures serves { (pool : Contents) → IsServed call.old.call pool → IsServed call.new.call pool }
{
    match taken {
        None => {}
        Some(TakenOffer { asked, target }) => {
            call.asked = asked;
            call.target = target;
        }
    }
}

/// The offerer is reached where its offer said.
fn put_target(call: &mut StandingCall)
    ensures call { call.new ≡ with_answered call.old }
    ensures serves { (pool : Contents) → IsServed call.old.call pool → IsServed call.new.call pool }
{
    let end = offerer_of(call.call.standing());
    match call.target.take() {
        None => {}
        Some(target) => call.call.put_target(end, target),
    }
}

fn put_last(call: &mut StandingCall, answer: Option<Sent>)
    ensures call { call.new ≡ with_last answer call.old }
    ensures serves { (pool : Contents) → IsServed call.old.call pool → IsServed call.new.call pool }
{
    match answer {
        None => {}
        Some(answer) => {
            put_target(call);
            call.answer = Some(answer);
        }
    }
}

pub(crate) fn put_beside(call: &mut StandingCall, kept: Beside)
    ensures call { call.new ≡ beside kept call.old }
    ensures serves { (pool : Contents) → IsServed call.old.call pool → IsServed call.new.call pool }
{
    let Beside { leg, taken, answer } = kept;
    put_leg_in(call, leg);
    put_taken(call, taken);
    put_last(call, answer);
}

impl Calls {
    /// Puts this dialog in place of the one with its end: the callee's first, or one that took a request in its order
    /// or has another target (RFC 3261 section 12.2).
    pub(crate) fn put_leg(&mut self, place: usize, leg: LegDialog)
        ensures calls { self.new.calls ≡ changed_at (with_dialog_at leg.end leg.dialog) place self.old.calls (slice_get self.old.calls place) }
        ensures pool { self.new.pool ≡ self.old.pool }
        ensures begun { self.new.begun ≡ self.old.begun }
        ensures timers { self.new.timers ≡ self.old.timers }
        ensures timer_left { self.new.timer_room ≡ self.old.timer_room }
        ensures key { self.new.key ≡ self.old.key }
    {
        if place >= self.calls.len() {
            return drop(leg);
        }
        let LegDialog { end, dialog } = leg;
        self.calls[place].call.put_dialog(end, dialog.into_inner());
        self.tags[place] = prints_of(self.key, &self.calls[place]);
    }
}
