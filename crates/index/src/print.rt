//! A number for what is looked up by a text: anything with another number is skipped without comparing texts.

ghost use Rattle.std.specs.Prelude.{◌≡◌};
ghost use Rattle.index.specs.PrintKeys.{print_of};

use core::hash::{Hasher, keyed_hasher};

/// The key of prints. Anyone who sends texts without knowing it can't choose many with the same print.
#[derive(Clone, Copy)]
pub struct PrintKey {
    pub first: u64,
    pub second: u64,
}

impl PrintKey {
    /// A key that everybody knows, for scripts: nobody writes one while it is running.
    pub const FIXED: PrintKey = PrintKey {
        first: 0,
        second: 0,
    };

    /// The print of a text: SipHash-1-3 under this key. Takes no memory.
    pub fn print_of(self, bytes: &[u8]) -> u64
        ensures { result ≡ print_of self bytes.now }
    {
        let mut hasher = keyed_hasher(self.first, self.second);
        hasher.write(bytes);
        hasher.finish()
    }
}
