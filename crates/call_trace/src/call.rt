//! Calls as records: what an agent must remember of them, seen from the trace.

use crate::datagram::{Dialog, Message};
use sdp::Description;

/// The four descriptions of a session (RFC 3264): one end offers and the other answers, each through the server.
pub struct Session {
    pub offer_taken: Description<'static>,
    pub answer_sent: Description<'static>,
    pub offer_sent: Description<'static>,
    pub answer_taken: Description<'static>,
}

impl Drop for Session {
    fn drop(self) {
        let Session {
            offer_taken: _,
            answer_sent: _,
            offer_sent: _,
            answer_taken: _,
        } = self;
    }
}

/// A session, and which end offered it.
#[derive(Drop)]
pub struct Settled {
    pub by_caller: bool,
    pub session: Session,
}

/// How far a call has come.
pub enum Stage {
    /// The callee was asked and has not answered. A call that is cancelled is no longer listed.
    Asked,
    /// It was answered, and this was settled last. Whether the ACK came doesn't matter.
    Answered(Settled),
    /// One end has left it, the caller where this is true; the other waits for its BYE.
    Ending(bool),
}

impl Drop for Stage {
    fn drop(self) {
        match self {
            Stage::Asked => {}
            Stage::Answered(_) => {}
            Stage::Ending(_) => {}
        }
    }
}

/// An offer that was passed on and has no final response yet.
pub struct Offer {
    pub by_caller: bool,
    /// The request that was taken.
    pub came: Message,
    /// The request that was sent to the other end.
    pub went: Message,
}

impl Drop for Offer {
    fn drop(self) {
        let Offer {
            by_caller: _,
            came: _,
            went: _,
        } = self;
    }
}

/// A call of two dialogs.
pub struct Call {
    pub caller: Dialog,
    /// The callee's tag is empty until it answers.
    pub callee: Dialog,
    pub stage: Stage,
    pub offer: Option<Offer>,
}

impl Drop for Call {
    fn drop(self) {
        let Call {
            caller: _,
            callee: _,
            stage: _,
            offer: _,
        } = self;
    }
}
