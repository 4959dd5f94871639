//! Copies of bindings.

ghost use Rattle.std.specs.Prelude.{◌≡◌, IfOk};
ghost use Rattle.registrar.specs.Registering.{AllLast, present};

use crate::binding::Binding;
use std::alloc::{AllocError, Global};

/// The same bindings.
pub(crate) fn copy_all(alloc: Global, bindings: &[Binding]) -> Result<Vec<Binding>, AllocError>
    ensures { IfOk result (λ copies. copies.items ≡ bindings.now) }
{
    let mut copies = Vec::new(alloc);
    for binding in bindings {
        copies.push(binding.copy(alloc)?)?;
    }
    Ok(copies)
}

/// The bindings that have not expired, copied.
pub(crate) fn present(
    alloc: Global,
    bindings: &[Binding],
    now: u64,
) -> Result<Vec<Binding>, AllocError>
    ensures kept { IfOk result (λ kept. kept.items ≡ present now bindings.now) }
    ensures last { IfOk result (λ kept. AllLast now kept.items) }
{
    let mut kept = Vec::new(alloc);
    for binding in bindings {
        if !binding.is_present(now) {
            continue;
        }
        kept.push(binding.copy(alloc)?)?;
    }
    Ok(kept)
}
