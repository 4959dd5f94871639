//! A call's standing.

use call_media::End;

/// The phase of a call.
#[derive(Clone, Copy, Debug)]
pub enum Phase {
    Asked,
    Cancelling,
    Answered,
    Settled,
    Reasked,
    Reanswered,
    Updating,
    Ending,
}

/// The CANCEL of an INVITE inside a call.
#[derive(Clone, Copy, Debug)]
pub enum Cancelled {
    /// The offerer sent none.
    Never,
    /// It waits for the first provisional response (RFC 3261 section 9.1).
    Waits,
    /// It was passed on.
    PassedOn,
}

/// The phase of a call, with what else the table needs to know about it.
#[derive(Clone, Copy, Debug)]
pub enum Stage {
    /// The first INVITE was passed on. Whether a provisional response came.
    Asked(bool),
    /// The first INVITE was given up. Whether its CANCEL was sent; otherwise it waits for the first provisional
    /// response.
    Cancelling(bool),
    /// The 200 to the first INVITE waits for its ACK, and is sent again after this many milliseconds.
    Answered(u64),
    Settled,
    /// An INVITE inside the call was passed on. Whether a provisional response came, and its CANCEL.
    Reasked(bool, Cancelled),
    /// The 200 to such an INVITE waits for its ACK, and is sent again after this many milliseconds.
    Reanswered(u64),
    /// An UPDATE was passed on.
    Updating,
    /// The end that answered left before the ACK came; the 200 is sent again after this many milliseconds.
    Ending(u64),
}

/// A call's standing.
#[derive(Clone, Copy)]
pub struct Standing {
    /// Whose offer is open, or was answered last.
    pub offerer: End,
    pub stage: Stage,
}

impl Stage {
    ghost use Rattle.std.specs.Prelude.{◌≡◌};
    ghost use Rattle.call_core.specs.Stages.{phase_of};

    /// The phase. Takes no memory.
    pub fn phase(self) -> Phase
        ensures { result ≡ phase_of self }
    {
        match self {
            Stage::Asked(_) => Phase::Asked,
            Stage::Cancelling(_) => Phase::Cancelling,
            Stage::Answered(_) => Phase::Answered,
            Stage::Settled => Phase::Settled,
            Stage::Reasked(..) => Phase::Reasked,
            Stage::Reanswered(_) => Phase::Reanswered,
            Stage::Updating => Phase::Updating,
            Stage::Ending(_) => Phase::Ending,
        }
    }
}
