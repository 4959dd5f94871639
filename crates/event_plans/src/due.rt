//! What a timer that fires results in, and what a call whose media have stopped results in.

ghost use Rattle.std.specs.Prelude.{◌≡◌, ◌<◌, ◌^◌, ◌∷◌, [], IfOk, IsTrue, Some};
ghost use Rattle.timers.specs.Queue.{first_due};
ghost use Rattle.transactions.specs.Changes.{fire_of};
ghost use Rattle.transactions.specs.Contents.{is_due};
ghost use Rattle.call_core.specs.declared.action.CallTimer.TheVariants.{Lifetime};
ghost use Rattle.calls.specs.Timing.{id};
ghost use Rattle.plans.specs.CallRows.{call_timer_row};
ghost use Rattle.plans.specs.Effect.{Fits, effect};
ghost use Rattle.event_rows.specs.Rows.{due_row, fires_by, no_source, setting, timer_row};

use call_core::CallTimer;
use calls::CallTimerId;
use plans::{Doing, Office, Plan, Setting, Taken, one_change};
use sip_uri::Addr;
use std::alloc::AllocError;
use transactions::{Change, Fired, ForeseenFire, TableError, TimerId};

/// A timer has no source.
const NO_SOURCE: Addr = Addr {
    ip: [0, 0, 0, 0],
    port: 0,
};

pub(crate) fn timed_setting(now: u64, salt: u64) -> Setting
    ensures { result ≡ setting now salt no_source }
{
    Setting {
        now,
        salt,
        source: NO_SOURCE,
    }
}

/// The media of this call have stopped: its lifetime ends now.
pub(crate) fn silent_row(
    office: &Office<'_>,
    setting: Setting,
    number: u64,
) -> Result<Doing, AllocError>
    requires few { office.now.tokens < 2 ^ 63 }
    ensures row { IfOk result (λ d. effect office.now.calls office.now.acks setting.now d ≡ call_timer_row office.now setting (id number Lifetime)) }
    ensures fits { IfOk result (Fits office.now.calls setting.now) }
{
    let timer = CallTimer::Lifetime;
    office.call_timer_row(setting, CallTimerId { number, timer })
}

/// What the timer that is due first results in; at equal moments, that of a transaction goes first.
pub(crate) fn due_row(office: &Office<'_>, setting: Setting) -> Result<Doing, AllocError>
    requires early { setting.now < 2 ^ 60 }
    requires few { office.now.tokens < 2 ^ 63 }
    ensures row { IfOk result (λ d. effect office.now.calls office.now.acks setting.now d ≡ due_row office.now setting (first_due office.now.table.timers setting.now) (first_due office.now.calls.timers setting.now)) }
    ensures fits { IfOk result (Fits office.now.calls setting.now) }
{
    match (
        office.table.first_due(setting.now),
        office.calls.first_due(setting.now),
    ) {
        (None, None) => Ok(office.drops_row(Taken::Idle)),
        (Some(timer), None) => timer_row(office, setting, timer.key),
        (None, Some(other)) => office.call_timer_row(setting, other.key),
        (Some(timer), Some(other)) => {
            if timer.at <= other.at {
                timer_row(office, setting, timer.key)
            } else {
                office.call_timer_row(setting, other.key)
            }
        }
    }
}

#[tactic(auto, unfolding(event_rows::specs::Rows::timer_row))]
fn timer_row(office: &Office<'_>, setting: Setting, timer: TimerId) -> Result<Doing, AllocError>
    requires early { setting.now < 2 ^ 60 }
    requires few { office.now.tokens < 2 ^ 63 }
    requires due { IsTrue (is_due office.now.table timer setting.now) }
    ensures row { IfOk result (λ d. effect office.now.calls office.now.acks setting.now d ≡ timer_row office.now setting timer) }
    ensures fits { IfOk result (Fits office.now.calls setting.now) }
{
    match office.table.foresee_fire(timer, setting.now) {
        Ok(foreseen) => {
            let ForeseenFire { fired, change } = foreseen;
            let begun = one_change(office.alloc, change)?;
            fires_by(office, setting, timer, begun, fired)
        }
        Err(TableError::OutOfMemory) => Err(AllocError),
        Err(TableError::Unknown | TableError::AfterFinal | TableError::Full) => unreachable!(),
    }
}

fn fires_by(
    office: &Office<'_>,
    setting: Setting,
    timer: TimerId,
    begun: Vec<Change>,
    fired: Fired,
) -> Result<Doing, AllocError>
    requires early { setting.now < 2 ^ 60 }
    requires few { office.now.tokens < 2 ^ 63 }
    requires begun { begun.items ≡ fire_of timer ∷ [] }
    ensures row { IfOk result (λ d. effect office.now.calls office.now.acks setting.now d ≡ fires_by office.now setting timer (Some fired)) }
    ensures fits { IfOk result (Fits office.now.calls setting.now) }
{
    match fired {
        Fired::Send(out) => office.moves_row(begun, Some(out)),
        Fired::TimedOut => office.timeout_row(setting, timer, begun),
        Fired::Ended => Ok(Doing::ends(Plan::moves(office.alloc, begun, None)?, timer.id)),
    }
}
