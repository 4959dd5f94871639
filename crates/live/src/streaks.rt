//! What ends the signalling: failures in a row.

ghost use Rattle.std.specs.Prelude.{◌≡◌};
ghost use Rattle.live.specs.Rounds.{end_after, is_behind, is_behind_turn, lost_after, one_more, streaks_after};

use crate::round::Round;
use crate::turn::Turned;

/// How many receives or waits that failed in a row, or events that were lost in a row, end the signalling.
const MAX_IN_A_ROW: u32 = 100;

/// Why the signalling ended.
#[derive(Clone, Copy)]
pub enum End {
    /// As many rounds were made as were asked for.
    Turns,
    /// The stop flag is set.
    Stopped,
    /// A hundred receives or waits failed in a row.
    Socket,
    /// A hundred events in a row were lost, or changes of the relay table could not be published.
    Memory,
}

/// How many receives or waits failed in a row, and how many events were lost in a row.
#[derive(Clone, Copy)]
pub struct Streaks {
    pub failed: u32,
    pub lost: u32,
}

fn one_more(count: u32) -> u32
    ensures { result ≡ one_more count }
{
    count.saturating_add(1)
}

fn lost_after(lost: u32, turned: Turned) -> u32
    ensures { result ≡ lost_after lost turned }
{
    match turned {
        Turned::Done(_, _) => 0,
        Turned::Lost => one_more(lost),
        Turned::Behind => lost,
    }
}

fn is_behind_turn(turned: Turned) -> bool
    ensures { result ≡ is_behind_turn turned }
{
    match turned {
        Turned::Done(_, _) => false,
        Turned::Lost => false,
        Turned::Behind => true,
    }
}

fn is_behind(round: Round) -> bool
    ensures { result ≡ is_behind round }
{
    match round {
        Round::Fired(turned) => is_behind_turn(turned),
        Round::Heard(turned) => is_behind_turn(turned),
        Round::Took(_, turned) => is_behind_turn(turned),
        Round::Waited => false,
        Round::Failed => false,
    }
}

impl Streaks {
    /// The counts after a round. Takes no memory.
    pub fn after(self, round: Round) -> Streaks
        ensures { result ≡ streaks_after self round }
    {
        match round {
            Round::Fired(turned) | Round::Heard(turned) => Streaks {
                failed: self.failed,
                lost: lost_after(self.lost, turned),
            },
            Round::Took(_, turned) => Streaks {
                failed: 0,
                lost: lost_after(self.lost, turned),
            },
            Round::Waited => Streaks {
                failed: 0,
                lost: self.lost,
            },
            Round::Failed => Streaks {
                failed: one_more(self.failed),
                lost: self.lost,
            },
        }
    }

    /// Why the signalling ends after a round that leaves these counts, if it does. Takes no memory.
    pub fn end(self, round: Round) -> Option<End>
        ensures { result ≡ end_after self round }
    {
        if is_behind(round) {
            Some(End::Memory)
        } else if self.failed >= MAX_IN_A_ROW {
            Some(End::Socket)
        } else if self.lost >= MAX_IN_A_ROW {
            Some(End::Memory)
        } else {
            None
        }
    }
}
