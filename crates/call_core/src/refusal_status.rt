//! Refusals that are passed on.

ghost use Rattle.std.specs.Prelude.{◌≡◌};
ghost use Rattle.call_core.specs.Passing.{status_passed_on};

/// The status with which a refusal of one end is passed to the other: 480 for a redirection, which the server doesn't
/// follow, 500 for 401 and 407, which ask the server itself for its name (RFC 3261 sections 8.1.3.4 and 22), and
/// otherwise the same. Takes no memory.
pub fn status_passed_on(status: u16) -> u16
    ensures { result ≡ status_passed_on status }
{
    match status {
        300..=399 => 480,
        401 | 407 => 500,
        _ => status,
    }
}
