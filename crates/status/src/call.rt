//! The live calls.

use crate::entries::Entries;
use text::Text;

/// How far a call is.
#[derive(Clone, Copy, Debug)]
pub enum CallPhase {
    /// The callee's telephone was asked.
    Calling,
    /// The caller gave up, and the callee's telephone is notified.
    Cancelling,
    /// The callee's telephone answered, and the caller's ACK is awaited.
    Answered,
    /// Both ends talk.
    Talking,
    /// One end asks to change the media.
    Changing,
    /// An end has left, and the other's ACK is awaited.
    Ending,
}

/// Which way a medium goes.
#[derive(Clone, Copy, Debug)]
pub enum Direction {
    Both,
    FromCaller,
    FromCallee,
    Neither,
}

/// A medium that a call agreed on.
pub struct MediumStatus {
    /// Such as `audio`.
    pub kind: Text<'static>,
    /// The first format of the answer: its encoding, such as `opus/48000`, if the answer names one, or otherwise its
    /// number.
    pub codec: Text<'static>,
    pub direction: Direction,
}

/// How many datagrams of media came from an end of a call.
#[derive(Clone, Copy, Debug)]
pub struct Flow {
    /// In the last ten seconds.
    pub recent: u64,
    /// Since the call began.
    pub total: u64,
}

/// What is known of a call from the outside: when it began, and its media.
#[derive(Clone, Copy, Debug)]
pub struct CallTraffic {
    /// The call's number.
    pub number: u64,
    /// In milliseconds since the server's start.
    pub begun: u64,
    pub from_caller: Flow,
    pub from_callee: Flow,
}

/// A call.
pub struct CallStatus {
    pub number: u64,
    /// The users at its ends; empty if a URI names none.
    pub caller: Text<'static>,
    pub callee: Text<'static>,
    pub phase: CallPhase,
    /// In the order of the description; none before the first answer.
    pub media: Entries<MediumStatus>,
    /// None if it is not counted.
    pub traffic: Option<CallTraffic>,
}

impl Drop for MediumStatus {
    fn drop(self) {
        let MediumStatus {
            kind: _,
            codec: _,
            direction: _,
        } = self;
    }
}

impl Drop for CallStatus {
    fn drop(self) {
        let CallStatus {
            number: _,
            caller: _,
            callee: _,
            phase: _,
            media: _,
            traffic: _,
        } = self;
    }
}
