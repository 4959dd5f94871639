//! What an input does to a transaction.

ghost use Rattle.std.specs.Prelude.{◌≡◌, ◌*◌, min};
ghost use Rattle.transaction_machines.specs.Steps.{line, ended, t1, t2, after_t2, after_limit};

use crate::input::TimerKind;
use crate::state::State;

/// The estimate of the round trip, in milliseconds (RFC 3261 section 17.1.1.1).
pub const T1: u64 = 500;

/// The longest interval between two copies, in milliseconds (section 17.1.2.2).
pub const T2: u64 = 4000;

/// How long a message stays in the network, in milliseconds (section 17.1.2.2).
pub(crate) const T4: u64 = 5000;

/// 64 times T1, in milliseconds: when a transaction gives up.
pub const LIMIT: u64 = 32_000;

/// What is sent.
#[derive(Clone, Copy, Debug)]
pub enum Sending {
    Nothing,
    /// What was sent last, if anything was.
    Again,
    /// What comes with the input: the core's response, or the ACK to a response. It is what is sent again from then on.
    Fresh,
}

/// What is reported to the core.
#[derive(Clone, Copy, Debug)]
pub enum Told {
    Silent,
    /// The message goes up to the core.
    Up,
    /// No response came, or no ACK: the transaction ends.
    TimedOut,
    /// The transaction ends.
    Ended,
}

/// Which timers of the transaction stop.
#[derive(Clone, Copy, Debug)]
pub enum Stops {
    NoTimer,
    /// A and B.
    Retransmission,
    Every,
}

/// A timer that starts, and how long it runs, in milliseconds.
#[derive(Clone, Copy)]
pub struct Start {
    pub kind: TimerKind,
    pub after: u64,
}

/// Which timers start, in this order.
#[derive(Clone, Copy)]
pub enum Starts {
    NoTimer,
    One(Start),
    Two(Start, Start),
}

/// What an input does.
#[derive(Clone, Copy)]
pub struct Step {
    /// The next state, or none where the transaction ends.
    pub next: Option<State>,
    pub send: Sending,
    pub told: Told,
    /// What stops before others start.
    pub stops: Stops,
    pub starts: Starts,
}

/// The next state, in which nothing else changes, with what is sent and reported.
pub(crate) fn stays(state: State, send: Sending, told: Told) -> Option<Step>
    ensures { result ≡ line state send told Stops.NoTimer Starts.NoTimer }
{
    Some(Step {
        next: Some(state),
        send,
        told,
        stops: Stops::NoTimer,
        starts: Starts::NoTimer,
    })
}

/// A state is entered: every timer stops, and one starts.
pub(crate) fn enters(state: State, send: Sending, told: Told, start: Start) -> Option<Step>
    ensures { result ≡ line state send told Stops.Every (Starts.One start) }
{
    Some(Step {
        next: Some(state),
        send,
        told,
        stops: Stops::Every,
        starts: Starts::One(start),
    })
}

/// A state in which one timer starts, and none stops.
pub(crate) fn sets(state: State, send: Sending, start: Start) -> Option<Step>
    ensures { result ≡ line state send Told.Silent Stops.NoTimer (Starts.One start) }
{
    Some(Step {
        next: Some(state),
        send,
        told: Told::Silent,
        stops: Stops::NoTimer,
        starts: Starts::One(start),
    })
}

/// The transaction ends.
pub(crate) fn ends(told: Told) -> Option<Step>
    ensures { result ≡ ended told }
{
    Some(Step {
        next: None,
        send: Sending::Nothing,
        told,
        stops: Stops::Every,
        starts: Starts::NoTimer,
    })
}

/// Twice the interval, at most T2.
pub(crate) fn doubled_to_t2(interval: u64) -> u64
    ensures { result ≡ after_t2 interval }
{
    if interval > T2 / 2 { T2 } else { 2 * interval }
}

/// Twice the interval, at most 64 times T1.
pub(crate) fn twice_to_limit(interval: u64) -> u64
    ensures { result ≡ after_limit interval }
{
    if interval > LIMIT / 2 {
        LIMIT
    } else {
        2 * interval
    }
}
