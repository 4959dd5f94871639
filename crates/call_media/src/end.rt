//! The two ends of a call.

/// An end of a call: who called, or who was called.
#[derive(Clone, Copy, Debug)]
pub enum End {
    Caller,
    Callee,
}

impl End {
    ghost use Rattle.std.specs.Prelude.{◌≡◌};
    ghost use Rattle.call_media.specs.declared.end.End.TheVariants.{Caller};
    ghost use Rattle.call_media.specs.Ends.{is_same, other};

    pub(crate) fn is_caller(self) -> bool
        ensures { result ≡ is_same self Caller }
    {
        match self {
            End::Caller => true,
            End::Callee => false,
        }
    }

    /// The other end. Takes no memory.
    pub fn other(self) -> End
        ensures { result ≡ other self }
    {
        match self {
            End::Caller => End::Callee,
            End::Callee => End::Caller,
        }
    }
}
