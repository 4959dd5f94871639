//! Two values at once, or a lack of memory.

ghost use Rattle.std.specs.Prelude.{◌≡◌, ◌⊎◌, IfOk, IfErr, Ok, Err};

use std::alloc::AllocError;

/// Both values, or a lack of memory. It is generic over all types: if values are kept one after the other, dropping
/// one of them is proved here once, and not at each exit of each caller. Takes no memory.
pub fn both<A: Drop, B: Drop>(
    one: Result<A, AllocError>,
    other: Result<B, AllocError>,
) -> Result<(A, B), AllocError>
    ensures ok { IfOk result (λ both. (one ≡ Ok both.0) × (other ≡ Ok both.1)) }
    ensures err { IfErr result (λ e. (one ≡ Err e) ⊎ (other ≡ Err e)) }
{
    Ok((one?, other?))
}
