//! What the threads of a program share.

/// A runtime that several threads may use at once. Its law says what the bound `Sync` says. A block of methods that
/// implements a trait learns nothing from `Sync` in its own head, and a method that starts threads has to know it.
pub(crate) trait Shared {
    ghost use Rattle.std.specs.Prelude.{ℕ};
    ghost use denote.Param.Send.{Common};

    // What a reference to the runtime means is the same for every thread.
    ghost is_shared: { (x : Self) (base offset : ℕ) → Common (Self.row.shr_at x base offset) };
}

impl Shared for HostRuntime {
    ghost use Rattle.std.proofs.Common.{rules};
    ghost use denote.Param.Send.{sendable};

    ghost is_shared = { λ x base offset κ. Prim.search (sendable, rules) };
}
