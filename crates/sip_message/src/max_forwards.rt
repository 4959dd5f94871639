//! The form of Max-Forwards (RFC 3261 sections 20.22 and 25.1).

ghost use Rattle.std.specs.Prelude.{◌≡◌};
ghost use Rattle.sip_message.specs.MaxForwards.{max_forwards_of};

use text::{is_run_of_digits, number_upto};

/// The hops of a request that starts here, and of one that gives none (RFC 3261 section 8.1.1.6).
pub const MAX_FORWARDS: u8 = 70;

/// The number of hops left, 0 to 255, if the text is one.
pub(crate) fn read_max_forwards(text: &[u8]) -> Option<u8>
    ensures { result ≡ max_forwards_of text.now }
{
    if is_run_of_digits(text) {
        number_upto(255, text).map(|n| n as u8)
    } else {
        None
    }
}
