//! How many turns a command line asks for.

ghost use Rattle.std.specs.Prelude.{◌≡◌};
ghost use Rattle.server.specs.Turns.{turns_of};

use scripts::number_of;

/// A number from 1, in decimal digits only.
pub(crate) fn turns_of(text: &[u8]) -> Option<u64>
    ensures { result ≡ turns_of text.now }
{
    match number_of(text) {
        Some(number) if number != 0 => Some(number),
        _ => None,
    }
}
