//! The numbers of a script.

ghost use Rattle.std.specs.Prelude.{◌≡◌};
ghost use Rattle.text.specs.Number.{number_upto};
ghost use Rattle.scripts.specs.Limits.{max_number, max_bytes, max_port};
ghost use Rattle.scripts.specs.Numbers.{number_of, port_of};

use text::is_run_of_digits;

const MAX_PORT: u32 = 65_535;

/// The maximum number of bytes in a datagram.
const MAX_BYTES: u32 = 65_535;

fn value_of(digits: &[u8]) -> Option<u64>
    ensures { result ≡ number_upto max_number digits.now }
{
    let mut number = 0u64;
    for digit in digits {
        if !digit.is_ascii_digit() {
            return None;
        }
        let value = u64::from(*digit - b'0');
        if number > (u64::MAX - value) / 10 {
            return None;
        }
        number = number * 10 + value;
    }
    Some(number)
}

/// The number in a text: one or more decimal digits and nothing else, below 2^64. Takes no memory.
pub fn number_of(text: &[u8]) -> Option<u64>
    ensures { result ≡ number_of max_number text.now }
{
    if is_run_of_digits(text) {
        value_of(text)
    } else {
        None
    }
}

fn small_number(most: u32, text: &[u8]) -> Option<u32>
    ensures { result ≡ number_of most text.now }
{
    if is_run_of_digits(text) {
        text::number_upto(most, text)
    } else {
        None
    }
}

/// The length of a datagram.
pub(crate) fn length_of(text: &[u8]) -> Option<usize>
    ensures { result ≡ number_of max_bytes text.now }
{
    Some(small_number(MAX_BYTES, text)? as usize)
}

/// A port: 1 to 65535.
#[tactic(auto, using(crate::proofs::NumberLaws::bounded))]
pub(crate) fn port_of(text: &[u8]) -> Option<u16>
    ensures { result ≡ port_of text.now }
{
    let number = small_number(MAX_PORT, text)?;
    match u16::try_from(number) {
        Ok(port) if port != 0 => Some(port),
        _ => None,
    }
}
