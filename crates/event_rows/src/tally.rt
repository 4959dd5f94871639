//! How many events got each answer.

ghost use Rattle.std.specs.Prelude.{◌≡◌};
ghost use Rattle.event_rows.specs.Tally.{counted, none_counted, one_more};

use plans::{Taken, Why};

/// How many events got each answer, since the agent was made. A count that has reached 2^64 - 1 stays there. An event
/// that was lost because memory ran out is not counted.
#[derive(Clone, Copy)]
pub struct Tally {
    pub done: u64,
    pub unread: u64,
    pub stray: u64,
    pub ack: u64,
    pub no_branch: u64,
    pub clock: u64,
    pub spent: u64,
    pub shed: u64,
    pub idle: u64,
}

fn one_more(count: u64) -> u64
    ensures { result ≡ one_more count }
{
    count.saturating_add(1)
}

impl Tally {
    /// No event yet.
    pub fn none_counted() -> Tally
        ensures { result ≡ none_counted }
    {
        Tally {
            done: 0,
            unread: 0,
            stray: 0,
            ack: 0,
            no_branch: 0,
            clock: 0,
            spent: 0,
            shed: 0,
            idle: 0,
        }
    }

    fn with_dropped(self, why: Why) -> Tally
        ensures { result ≡ counted self (Taken.Dropped why) }
    {
        match why {
            Why::Unread(_) => Tally {
                unread: one_more(self.unread),
                ..self
            },
            Why::Stray => Tally {
                stray: one_more(self.stray),
                ..self
            },
            Why::Ack => Tally {
                ack: one_more(self.ack),
                ..self
            },
            Why::NoBranch => Tally {
                no_branch: one_more(self.no_branch),
                ..self
            },
            Why::Clock => Tally {
                clock: one_more(self.clock),
                ..self
            },
            Why::Spent => Tally {
                spent: one_more(self.spent),
                ..self
            },
        }
    }

    /// One more event.
    pub fn with(self, taken: Taken) -> Tally
        ensures { result ≡ counted self taken }
    {
        match taken {
            Taken::Done => Tally {
                done: one_more(self.done),
                ..self
            },
            Taken::Dropped(why) => self.with_dropped(why),
            Taken::Shed => Tally {
                shed: one_more(self.shed),
                ..self
            },
            Taken::Idle => Tally {
                idle: one_more(self.idle),
                ..self
            },
        }
    }
}
