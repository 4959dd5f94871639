//! Texts that are equal except for the case of ASCII letters.

ghost use Rattle.std.specs.Prelude.{◌≡◌, IsTrue, ◌↔◌};
ghost use Rattle.std.specs.Char.{to_ascii_lowercase};
ghost use Rattle.std.specs.Str.{str_to_ascii_lowercase};

fn same_letter(a: u8, b: u8) -> bool
    ensures { IsTrue result ↔ (to_ascii_lowercase a ≡ to_ascii_lowercase b) }
{
    a == b || a.eq_ignore_ascii_case(&b)
}

/// Whether two texts are equal except for the case of ASCII letters. Most names are written the way they are looked
/// up, so each byte is first compared as it is. Takes no memory.
pub fn same_without_case(a: &[u8], b: &[u8]) -> bool
    ensures { IsTrue result ↔ (str_to_ascii_lowercase a.now ≡ str_to_ascii_lowercase b.now) }
{
    if a.len() != b.len() {
        return false;
    }
    for at in 0..a.len() {
        if !same_letter(a[at], b[at]) {
            return false;
        }
    }
    true
}
