//! When and where a call does something.

ghost use Rattle.std.specs.Prelude.{◌≡◌, ◌+◌, ◌<◌, ◌^◌, IfOk};
ghost use Rattle.call_steps.specs.Scenes.{fresh};

use offer_answer::OwnRange;
use responses::token;
use sip_uri::Addr;
use std::alloc::{AllocError, Global};
use text::Text;

/// What an event gives to each step of a call.
#[derive(Clone, Copy)]
pub struct Occasion {
    /// Where the server is reached.
    pub server: Addr,
    /// The server's address and relay ports.
    pub range: OwnRange,
    /// The moment, in milliseconds.
    pub now: u64,
    /// The salt of the event.
    pub salt: u64,
    /// How many tokens were made before.
    pub tokens: u64,
}

impl Occasion {
    /// The nth token of this step.
    pub(crate) fn fresh(self, alloc: Global, nth: u64) -> Result<Text<'static>, AllocError>
        requires { self.tokens + nth < 2 ^ 64 }
        ensures { IfOk result (λ t. t ≡ fresh self nth) }
    {
        token(alloc, self.salt, self.tokens + nth)
    }
}
