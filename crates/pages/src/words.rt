//! The words for phases and directions, which need no escape.

ghost use Rattle.std.specs.Prelude.{◌≡◌};
ghost use Rattle.pages.specs.Words.{direction_word, phase_word};

use status::{CallPhase, Direction};

/// A phase's name.
pub(crate) fn phase_word(phase: CallPhase) -> &'static [u8]
    ensures { result.now ≡ phase_word phase }
{
    match phase {
        CallPhase::Calling => b"calling",
        CallPhase::Cancelling => b"cancelling",
        CallPhase::Answered => b"answered",
        CallPhase::Talking => b"talking",
        CallPhase::Changing => b"changing",
        CallPhase::Ending => b"ending",
    }
}

/// A direction's name.
pub(crate) fn direction_word(direction: Direction) -> &'static [u8]
    ensures { result.now ≡ direction_word direction }
{
    match direction {
        Direction::Both => b"both",
        Direction::FromCaller => b"from_caller",
        Direction::FromCallee => b"from_callee",
        Direction::Neither => b"neither",
    }
}
