//! The moment that the agent has reached.

ghost use Rattle.std.specs.Prelude.{◌≡◌};

use crate::agent::Agent;

impl Agent {
    /// The greatest moment of an event so far, in milliseconds. An event that comes later with a lesser moment counts
    /// as at this one. Takes no memory.
    pub fn moment(&self) -> u64
        ensures { result ≡ self.now.moment }
    {
        self.moment
    }
}
