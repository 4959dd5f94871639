//! Trouble that is reported to an operator as it begins, and what events were about.

ghost use Rattle.std.specs.Prelude.{◌≡◌, [], ◌∷◌, ◌++◌, List, Option};
ghost use Rattle.live.specs.Troubles.{trouble_between};
ghost use Rattle.live.specs.News.{with_news};
ghost use Rattle.live.specs.Reports.{begun, event_report, looked, noted, over, troubles};
ghost use Rattle.live.specs.declared.news.News as declared_news;
ghost use Rattle.live.specs.declared.report.Report as declared_report;
ghost use Rattle.live.specs.declared.report.Report.TheVariants as reports;

use crate::news::News;
use crate::round::Round;
use crate::streaks::Streaks;
use crate::turn::Turned;
use agent::Agent;
use sip_uri::Addr;

/// A kind of trouble.
#[derive(Clone, Copy)]
pub enum Trouble {
    /// A receive or a wait failed, and none before it since one succeeded.
    Socket,
    /// Memory was refused for an event, and for none before it since one was taken.
    Memory,
}

/// Receives reports of trouble and of events, and has news for the agent.
pub trait Operator {
    /// What it was asked and told, in order.
    ghost told: { Self → List declared_report.Report };

    /// The news that it handed in, in order.
    ghost handed: { Self → List declared_news.News };

    /// News by this moment, in milliseconds, if there is any. Each round asks for it, and a round with news has no
    /// other event.
    fn news(&mut self, now: u64) -> Option<News>
        ensures told { told self.new ≡ told self.old ++ reports.Asked now ∷ [] }
        ensures handed { handed self.new ≡ with_news (handed self.old) result };

    /// A kind of trouble begins.
    fn tell(&mut self, trouble: Trouble)
        ensures told { told self.new ≡ told self.old ++ reports.Begins trouble ∷ [] }
        ensures handed { handed self.new ≡ handed self.old };

    /// A kind of trouble is over.
    fn tell_end(&mut self, trouble: Trouble)
        ensures told { told self.new ≡ told self.old ++ reports.Ends trouble ∷ [] }
        ensures handed { handed self.new ≡ handed self.old };

    /// The agent took an event at this moment, in milliseconds: a datagram from this source, a timer, or the news of
    /// this round. The agent's note says what the event was about.
    fn noted(&mut self, agent: &Agent, source: Option<Addr>, now: u64)
        ensures told { told self.new ≡ told self.old ++ noted agent.now source now ∷ [] }
        ensures handed { handed self.new ≡ handed self.old };

    /// A round took no event, at this moment, in milliseconds: its news is lost, if it had any. Such a round comes
    /// every tenth of a second if no events are taken.
    fn look(&mut self, agent: &Agent, now: u64)
        ensures told { told self.new ≡ told self.old ++ looked agent.now now ∷ [] }
        ensures handed { handed self.new ≡ handed self.old };
}

impl Streaks {
    /// The trouble that begins with a round that turns these counts into `after`. Takes no memory.
    pub fn trouble_until(self, after: Streaks) -> Option<Trouble>
        ensures { result ≡ trouble_between self after }
    {
        if self.failed == 0 && after.failed > 0 {
            Some(Trouble::Socket)
        } else if self.lost == 0 && after.lost > 0 {
            Some(Trouble::Memory)
        } else {
            None
        }
    }
}

/// Reports the trouble to the operator, if there is any.
fn tell_of<O: Operator>(operator: &mut O, trouble: Option<Trouble>)
    ensures told { O.told operator.new ≡ O.told operator.old ++ begun trouble }
    ensures handed { O.handed operator.new ≡ O.handed operator.old }
{
    if let Some(trouble) = trouble {
        operator.tell(trouble);
    }
}

/// Reports to the operator that a kind of trouble is over, if it is by its counts before and after a round.
fn tell_of_end<O: Operator>(operator: &mut O, trouble: Trouble, before: u32, after: u32)
    ensures told { O.told operator.new ≡ O.told operator.old ++ over trouble before after }
    ensures handed { O.handed operator.new ≡ O.handed operator.old }
{
    if before > 0 && after == 0 {
        operator.tell_end(trouble);
    }
}

/// Reports to the operator the trouble that began or ended with a round.
pub(crate) fn tell_of_change<O: Operator>(operator: &mut O, before: Streaks, after: Streaks)
    ensures told { O.told operator.new ≡ O.told operator.old ++ troubles before after }
    ensures handed { O.handed operator.new ≡ O.handed operator.old }
{
    tell_of(operator, before.trouble_until(after));
    tell_of_end(operator, Trouble::Socket, before.failed, after.failed);
    tell_of_end(operator, Trouble::Memory, before.lost, after.lost);
}

/// Reports the event of a round to the operator, if the agent took one: a timer, news, or a datagram.
pub(crate) fn tell_of_event<O: Operator>(operator: &mut O, agent: &Agent, round: Round, now: u64)
    ensures told { O.told operator.new ≡ O.told operator.old ++ event_report agent.now round now ∷ [] }
    ensures handed { O.handed operator.new ≡ O.handed operator.old }
{
    match round {
        Round::Fired(Turned::Done(_, _)) | Round::Heard(Turned::Done(_, _)) => {
            operator.noted(agent, None, now)
        }
        Round::Took(source, Turned::Done(_, _)) => operator.noted(agent, Some(source), now),
        _ => operator.look(agent, now),
    }
}
