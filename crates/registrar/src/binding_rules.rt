//! The rules of bindings.

/// The most bindings that a user has.
pub(crate) const MAX_BINDINGS: usize = 8;

/// How long a contact is bound, and what happens where a user would have more than 8 bindings.
#[derive(Clone, Copy)]
pub struct BindingRules {
    /// The least number of seconds that a binding lasts.
    pub min_expires: u32,
    /// The most seconds that a binding lasts; none where it lasts as long as is asked for.
    pub max_expires: Option<u32>,
    /// Whether the bindings least recently refreshed are dropped until 8 are left, in place of the refusal B5.
    pub oldest_leaves: bool,
}

impl BindingRules {
    ghost use Rattle.std.specs.Prelude.{◌≡◌};
    ghost use Rattle.registrar.specs.BindingRules.{granted};

    /// The seconds for which a contact is bound, of those that it asks for (RFC 3261 section 10.3, step 7).
    pub fn granted(self, seconds: u32) -> u32
        ensures { result ≡ granted self seconds }
    {
        match self.max_expires {
            Some(most) => { if most < seconds { most } else { seconds } }
            None => seconds,
        }
    }
}
