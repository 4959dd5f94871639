//! What a REGISTER is to change.

use crate::binding::{Binding, Bindings};
use std::marker::Model;
use text::Text;

/// What a REGISTER is to change: the bindings that its user is to have. `Registrar::carry_out` makes the change.
#[derive(Drop)]
pub struct Plan {
    user: Text<'static>,
    bindings: Bindings,
}

impl Model for Plan {
    ghost use Rattle.registrar.specs.Registrar.{PlanContents};

    ghost Value = { PlanContents };

    ghost view = { λ p. record { user = p.user; bindings = p.bindings } };
}

impl Plan {
    ghost use Rattle.std.specs.Prelude.{◌≡◌};
    ghost use Rattle.registrar.specs.Registrar.{PlanContents, plan_of};

    /// The plan by which a user is to have these bindings. Takes no memory.
    pub(crate) fn new(user: Text<'static>, bindings: Vec<Binding>) -> Plan
        ensures { result ≡ plan_of user.entry bindings.items }
    {
        Plan {
            user,
            bindings: Bindings::from_vec(bindings),
        }
    }

    /// The bindings in the answer to the REGISTER, oldest first. Takes no memory.
    pub fn bindings(&self) -> &[Binding]
        ensures { result.now ≡ self.now.bindings }
    {
        self.bindings.as_slice()
    }

    /// The user, and the bindings. Takes no memory.
    pub(crate) fn into_parts(self) -> (Text<'static>, Bindings)
        ensures { plan_of result.0 result.1 ≡ self }
    {
        (self.user, self.bindings)
    }
}
