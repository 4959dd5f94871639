//! One round of the signalling: it passes news to the agent, or fires what is due, or takes a datagram, or waits.

ghost use Rattle.std.specs.Prelude.{◌≡◌, ◌∷◌, ◌++◌, [], false, IfOk, MatchOption, MatchResult, None};
ghost use Rattle.std.specs.Result.{is_err};
ghost use Rattle.events.specs.declared.event.What.TheVariants as whats;
ghost use Rattle.event_rows.specs.Rows.{next_due};
ghost use Rattle.live.specs.Arrivals.{TakesOne, buffer_length};
ghost use Rattle.live.specs.News.{what_of};
ghost use Rattle.live.specs.Rounds.{Rounds, event, is_due, salts_after, wait_until};
ghost use Rattle.live.specs.Salts.{after_salt, salt_at};
ghost use Rattle.live.specs.States.{OnlySends};
ghost use Rattle.live.specs.Turns.{HasTable, Turns};

use crate::buffer::DatagramBuffer;
use crate::news::{News, what_of};
use crate::salt::next_salt;
use crate::signalling::Signalling;
use crate::turn::{Turned, live_turn};
use crate::wire::{Wire, WireFault};
use events::{Event, What};
use sip_uri::Addr;
use std::alloc::{AllocError, Global};
use std::sync::Wait;
use text::Text;

/// How many milliseconds are waited at most.
const MAX_WAIT: u64 = 100;

/// What a round did.
#[derive(Clone, Copy)]
pub enum Round {
    /// A timer was due.
    Fired(Turned),
    /// There was news.
    Heard(Turned),
    /// A datagram was there, from this source.
    Took(Addr, Turned),
    /// Nothing was there, and it waited.
    Waited,
    /// A receive or a wait failed.
    Failed,
}

/// How many milliseconds to wait until the next moment at which something is due: at most 100.
fn wait_until(now: u64, due: Option<u64>) -> u64
    ensures { result ≡ wait_until now due }
{
    match due {
        None => MAX_WAIT,
        Some(at) => MAX_WAIT.min(at.saturating_sub(now)),
    }
}

fn is_due(now: u64, due: Option<u64>) -> bool
    ensures { result ≡ is_due now due }
{
    match due {
        None => false,
        Some(at) => at <= now,
    }
}

/// What comes with a datagram.
fn datagram(alloc: Global, source: Addr, bytes: &[u8]) -> Result<What, AllocError>
    ensures { IfOk result (λ what. what ≡ whats.Datagram source bytes.now) }
{
    let bytes = Vec::from_slice(alloc, bytes)?;
    Ok(What::Datagram {
        source,
        bytes: Text::from_vec(bytes),
    })
}

/// Takes a datagram if one is there. Returns its source and what comes with it, unless memory is refused for that.
fn receive<W: Wire>(
    alloc: Global,
    wire: &mut W,
    buffer: &mut DatagramBuffer,
) -> Result<Option<(Addr, Result<What, AllocError>)>, WireFault>
    ensures taken { MatchResult result
        (λ r. MatchOption r ((W.seen wire.new).taken ≡ (W.seen wire.old).taken)
        (λ d. TakesOne (W.seen wire.old).taken (W.seen wire.new).taken d.0 d.1))
        (λ _. (W.seen wire.new).taken ≡ (W.seen wire.old).taken) }
    ensures rooms { (W.seen wire.new).rooms ≡ (W.seen wire.old).rooms ++ buffer_length ∷ [] }
    ensures tried { (W.seen wire.new).tried ≡ (W.seen wire.old).tried }
    ensures waited { (W.seen wire.new).waited ≡ (W.seen wire.old).waited }
    ensures failed { (W.seen wire.new).failed ≡ is_err result }
{
    let Some((source, length)) = wire.receive(buffer.bytes.as_mut_slice())? else {
        return Ok(None);
    };
    let bytes = &buffer.bytes.as_slice()[..length];
    Ok(Some((source, datagram(alloc, source, bytes))))
}

impl<W: Wire> Signalling<W> {
    // The agent takes the event.
    fn happen<R: Wait>(&mut self, rt: &R, event: Event) -> Turned
        requires { HasTable self.old.board self.old.agent }
        ensures turns { Turns event
            (record { agent = self.old.agent; lists = self.old.board; wire = W.seen self.old.wire })
            (record { agent = self.new.agent; lists = self.new.board; wire = W.seen self.new.wire }) result }
        ensures only_sends { OnlySends (W.seen self.old.wire) (W.seen self.new.wire) }
        ensures salts { self.new.salts ≡ self.old.salts }
    {
        let turned = live_turn(
            rt,
            self.alloc,
            &mut self.agent,
            &mut self.board,
            &mut self.wire,
            &event,
        );
        drop(event);
        turned
    }

    // An event that comes without a datagram, with the next salt.
    fn happen_alone<R: Wait>(&mut self, rt: &R, now: u64, what: What) -> Turned
        requires { HasTable self.old.board self.old.agent }
        ensures turns { Turns (event now (salt_at self.old.salts) what)
            (record { agent = self.old.agent; lists = self.old.board; wire = W.seen self.old.wire })
            (record { agent = self.new.agent; lists = self.new.board; wire = W.seen self.new.wire }) result }
        ensures only_sends { OnlySends (W.seen self.old.wire) (W.seen self.new.wire) }
        ensures salts { self.new.salts ≡ after_salt self.old.salts }
    {
        let salt = next_salt(&mut self.salts);
        self.happen(rt, Event { now, salt, what })
    }

    // Takes a datagram, or waits until one may be there.
    fn take<R: Wait>(&mut self, rt: &R, now: u64) -> Round
        requires table { HasTable self.old.board self.old.agent }
        requires idle { is_due now (next_due self.old.agent) ≡ false }
        ensures round { Rounds now (salt_at self.old.salts) None
            (record { agent = self.old.agent; lists = self.old.board; wire = W.seen self.old.wire })
            (record { agent = self.new.agent; lists = self.new.board; wire = W.seen self.new.wire }) result }
        ensures salts { self.new.salts ≡ salts_after self.old.salts result }
    {
        match receive(self.alloc, &mut self.wire, &mut self.buffer) {
            Err(_) => Round::Failed,
            Ok(None) => match self.wire.wait(wait_until(now, self.agent.next_due())) {
                Ok(()) => Round::Waited,
                Err(_) => Round::Failed,
            },
            Ok(Some((source, what))) => {
                let salt = next_salt(&mut self.salts);
                let turned = match what {
                    Err(_) => Turned::Lost,
                    Ok(what) => self.happen(rt, Event { now, salt, what }),
                };
                Round::Took(source, turned)
            }
        }
    }

    /// Passes this news to the agent, if there is any. Otherwise fires one timer that is due at this moment, in
    /// milliseconds, or takes one datagram. If there is neither, waits until the next moment that is due, at most 100
    /// milliseconds. The event gets the next salt of the stream.
    pub fn round<R: Wait>(&mut self, rt: &R, now: u64, news: Option<News>) -> Round
        requires { HasTable self.old.board self.old.agent }
        ensures round { Rounds now (salt_at self.old.salts) news
            (record { agent = self.old.agent; lists = self.old.board; wire = W.seen self.old.wire })
            (record { agent = self.new.agent; lists = self.new.board; wire = W.seen self.new.wire }) result }
        ensures salts { self.new.salts ≡ salts_after self.old.salts result }
    {
        if let Some(news) = news {
            Round::Heard(self.happen_alone(rt, now, what_of(news)))
        } else if is_due(now, self.agent.next_due()) {
            Round::Fired(self.happen_alone(rt, now, What::Due))
        } else {
            self.take(rt, now)
        }
    }
}
