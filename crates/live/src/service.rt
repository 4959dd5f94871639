//! The signalling from its start to its end.

ghost use Rattle.std.specs.Prelude.{◌≡◌, ℕ, List, [], ◌∷◌, ◌++◌, MatchOption};
ghost use Rattle.live.specs.Rounds.{TableAt, end_after, streaks_after};
ghost use Rattle.live.specs.Serving.{Leads, Served, one_less};
ghost use Rattle.live.specs.Traces.{LivesUntil};
ghost use Rattle.live.specs.Turns.{HasTable};

use crate::round::Round;
use crate::signalling::Signalling;
use crate::streaks::{End, Streaks};
use crate::trouble::{Operator, tell_of_change, tell_of_event};
use crate::wire::Wire;
use media_laws::agents_stand;
use std::sync::Wait;
use std::sync::atomic::{AtomicBool, Ordering};

/// Gives the moments.
pub trait Clock {
    /// The moments that it gave, in order.
    ghost told: { Self → List ℕ };

    /// The milliseconds since the start.
    fn now(&mut self) -> u64
        ensures told { told self.new ≡ told self.old ++ result ∷ [] };
}

// One round less, or None if none is left.
fn one_less(turns: Option<u64>) -> Option<Option<u64>>
    ensures { result ≡ one_less turns }
{
    match turns {
        None => Some(None),
        Some(0) => None,
        Some(left) => Some(Some(left - 1)),
    }
}

// One round, whose trouble and event are reported to the operator.
fn go_on<W: Wire, C: Clock, O: Operator, R: Wait>(
    rt: &R,
    signalling: &mut Signalling<W>,
    clock: &mut C,
    operator: &mut O,
    streaks: &mut Streaks,
) -> Round
    requires { HasTable signalling.old.board signalling.old.agent }
    ensures round { Leads streaks.old streaks.new
        (record {
          state = record { agent = signalling.old.agent; lists = signalling.old.board; wire = W.seen signalling.old.wire };
          salts = signalling.old.salts;
          moments = C.told clock.old;
          news = O.handed operator.old;
          told = O.told operator.old;
        })
        (record {
          state = record { agent = signalling.new.agent; lists = signalling.new.board; wire = W.seen signalling.new.wire };
          salts = signalling.new.salts;
          moments = C.told clock.new;
          news = O.handed operator.new;
          told = O.told operator.new;
        }) result }
    ensures streaks { streaks.new ≡ streaks_after streaks.old result }
    ensures table { MatchOption (end_after streaks.new result) (HasTable signalling.new.board signalling.new.agent)
        (λ end. TableAt signalling.new.board signalling.new.agent end) }
{
    let now = clock.now();
    let news = operator.news(now);
    let round = signalling.round(rt, now, news);
    let before = *streaks;
    *streaks = before.after(round);
    tell_of_change(operator, before, *streaks);
    tell_of_event(operator, &signalling.agent, round, now);
    round
}

/// Makes rounds until as many are made as are asked for, until the flag is set, or until too many in a row fail. Each
/// round asks the operator for news, which the agent gets once. The operator is told of each kind of trouble as it
/// begins and as it is over, and of each event once the agent took it.
pub fn serve<W: Wire, C: Clock, O: Operator, R: Wait>(
    rt: &R,
    signalling: &mut Signalling<W>,
    clock: &mut C,
    operator: &mut O,
    stop: &AtomicBool,
    turns: Option<u64>,
) -> End
    requires { HasTable signalling.old.board signalling.old.agent }
    ensures table { TableAt signalling.new.board signalling.new.agent result }
    ensures served { Served
        (record {
          state = record { agent = signalling.old.agent; lists = signalling.old.board; wire = W.seen signalling.old.wire };
          salts = signalling.old.salts;
          moments = C.told clock.old;
          news = O.handed operator.old;
          told = O.told operator.old;
        })
        (record {
          state = record { agent = signalling.new.agent; lists = signalling.new.board; wire = W.seen signalling.new.wire };
          salts = signalling.new.salts;
          moments = C.told clock.new;
          news = O.handed operator.new;
          told = O.told operator.new;
        }) turns result }
    // The trace of the live server.
    ensures lives { LivesUntil
        (record { agent = signalling.old.agent; lists = signalling.old.board; wire = W.seen signalling.old.wire })
        (record { agent = signalling.new.agent; lists = signalling.new.board; wire = W.seen signalling.new.wire }) result }
{
    agents_stand();
    let mut turns = turns;
    let mut streaks = Streaks { failed: 0, lost: 0 };
    for _ in rt.forever() {
        if stop.load(Ordering::SeqCst) {
            return End::Stopped;
        }
        let Some(left) = one_less(turns) else {
            return End::Turns;
        };
        turns = left;
        let round = go_on(rt, signalling, clock, operator, &mut streaks);
        if let Some(end) = streaks.end(round) {
            return end;
        }
    }
    unreachable!()
}
