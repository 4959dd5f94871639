//! The whole numbers of a file.

ghost use Rattle.std.specs.Prelude.{◌≡◌};
ghost use Rattle.configuration.specs.Files.{natural, port_of, number_of};
ghost use Rattle.configuration.specs.Flaws.{is_within};

fn below_2_16(number: i64) -> Option<u16>
    ensures { result ≡ natural 65535 number }
{
    u16::try_from(number).ok()
}

fn below_2_32(number: i64) -> Option<u32>
    ensures { result ≡ natural 4294967295 number }
{
    u32::try_from(number).ok()
}

/// A number below 2^8.
pub(crate) fn below_2_8(number: i64) -> Option<u8>
    ensures { result ≡ natural 255 number }
{
    u8::try_from(number).ok()
}

/// A port, or a number of pairs. A number that is neither reads as 0.
pub(crate) fn port_of(number: i64) -> u16
    ensures { result ≡ port_of number }
{
    below_2_16(number).unwrap_or(0)
}

/// Seconds, minutes, hours or transactions. A number that is none of these reads as 0.
pub(crate) fn number_of(number: i64) -> u32
    ensures { result ≡ number_of number }
{
    below_2_32(number).unwrap_or(0)
}

/// Whether a number is from the least to the most.
pub(crate) fn is_within(least: u32, most: u32, number: i64) -> bool
    ensures { result ≡ is_within least most (natural 4294967295 number) }
{
    match below_2_32(number) {
        Some(number) => least <= number && number <= most,
        None => false,
    }
}
