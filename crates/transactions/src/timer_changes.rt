//! Timers of a transaction that stop and start.

ghost use Rattle.std.specs.Prelude.{◌≡◌, ◌+◌, ◌<◌, ◌≤◌, ◌^◌, [], ◌∷◌};
ghost use Rattle.transactions.specs.Timing.{same_timer, timer_of, without_kinds, stopped, stopped_by, start, started};
ghost use Rattle.transaction_machines.specs.Steps.{IsShort, timeout};
ghost use Rattle.timers.specs.Queue.{without, moment};
ghost use Rattle.transactions.specs.Contents.{has_come};
ghost use Rattle.transactions.specs.Kinds.{HaveLines, kinds_of};
ghost use Rattle.transactions.specs.Changes.{starts_count};

use crate::transaction::TimerId;
use timers::Timers;
use transaction_machines::{
    InviteClient, InviteServer, OtherClient, OtherServer, Start, Starts, State, Stops, TimerKind,
};

/// The moment of a timer, where it is set.
pub(crate) fn moment(timers: &Timers<TimerId>, id: usize, kind: TimerKind) -> Option<u64>
    ensures { result ≡ moment same_timer timers.now.timers (timer_of id kind) }
{
    timers.moment(TimerId { id, kind })
}

/// Whether a timer that is due at a moment, if it is set, is due by now.
pub(crate) fn has_come(at: Option<u64>, now: u64) -> bool
    ensures { result ≡ has_come now at }
{
    match at {
        Some(at) => at <= now,
        None => false,
    }
}

fn cancel(timers: &mut Timers<TimerId>, id: usize, kind: TimerKind)
    ensures timers { timers.new.timers ≡ without same_timer timers.old.timers (timer_of id kind) }
    ensures room { timers.old.room ≤ timers.new.room }
{
    timers.cancel(TimerId { id, kind });
}

fn stop_kinds(timers: &mut Timers<TimerId>, id: usize, kinds: &[TimerKind])
    ensures timers { timers.new.timers ≡ without_kinds timers.old.timers id kinds.now }
    ensures room { timers.old.room ≤ timers.new.room }
{
    for kind in kinds {
        cancel(timers, id, *kind);
    }
}

/// The kinds of timers that fire in a state (RFC 3261 section 17, RFC 6026).
fn kinds_of(state: State) -> &'static [TimerKind]
    ensures { result.now ≡ kinds_of state }
{
    match state {
        State::InviteClient(InviteClient::Calling(..)) => {
            &[TimerKind::A, TimerKind::B, TimerKind::N]
        }
        State::InviteClient(InviteClient::Proceeding) => &[TimerKind::N],
        State::InviteClient(InviteClient::Completed) => &[TimerKind::D],
        State::InviteClient(InviteClient::Accepted) => &[TimerKind::M],
        State::InviteServer(InviteServer::Proceeding) => &[],
        State::InviteServer(InviteServer::Completed(_)) => &[TimerKind::G, TimerKind::H],
        State::InviteServer(InviteServer::Confirmed) => &[TimerKind::I],
        State::InviteServer(InviteServer::Accepted) => &[TimerKind::L],
        State::OtherClient(OtherClient::Trying(_) | OtherClient::Proceeding) => {
            &[TimerKind::E, TimerKind::F]
        }
        State::OtherClient(OtherClient::Completed) => &[TimerKind::K],
        State::OtherServer(OtherServer::Trying | OtherServer::Proceeding) => &[],
        State::OtherServer(OtherServer::Completed) => &[TimerKind::J],
    }
}

// All timers of the transaction: no other kind than its state's is set.
fn stop_every(timers: &mut Timers<TimerId>, id: usize, state: State)
    requires lines { HaveLines id state timers.old.timers }
    ensures timers { timers.new.timers ≡ stopped timers.old.timers id }
    ensures room { timers.old.room ≤ timers.new.room }
{
    stop_kinds(timers, id, kinds_of(state));
}

/// Stops timers of a transaction that is in this state.
pub(crate) fn stop(timers: &mut Timers<TimerId>, id: usize, state: State, stops: Stops)
    requires lines { HaveLines id state timers.old.timers }
    ensures timers { timers.new.timers ≡ stopped_by timers.old.timers id stops }
    ensures room { timers.old.room ≤ timers.new.room }
{
    match stops {
        Stops::NoTimer => {}
        Stops::Retransmission => stop_kinds(timers, id, &[TimerKind::A, TimerKind::B]),
        Stops::Every => stop_every(timers, id, state),
    }
}

fn set(timers: &mut Timers<TimerId>, id: usize, timer: Start, now: u64)
    requires room { 0 < timers.old.room }
    requires moment { now < 2 ^ 60 }
    requires short { timer.after ≤ timeout }
    ensures timers { timers.new.timers ≡ start timers.old.timers id timer now }
    ensures room { timers.old.room ≤ timers.new.room + 1 }
{
    let key = TimerId {
        id,
        kind: timer.kind,
    };
    timers.set(key, now + timer.after).unwrap();
}

/// Starts timers of a transaction. There is room for them.
pub(crate) fn set_all(timers: &mut Timers<TimerId>, id: usize, starts: Starts, now: u64)
    requires room { starts_count starts ≤ timers.old.room }
    requires moment { now < 2 ^ 60 }
    requires short { IsShort starts }
    ensures timers { timers.new.timers ≡ started timers.old.timers id starts now }
    ensures room { timers.old.room ≤ timers.new.room + 2 }
{
    match starts {
        Starts::NoTimer => {}
        Starts::One(one) => set(timers, id, one, now),
        Starts::Two(one, other) => {
            set(timers, id, one, now);
            set(timers, id, other, now);
        }
    }
}
