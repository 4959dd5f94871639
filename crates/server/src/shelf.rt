//! Files by path.

ghost use Rattle.std.specs.Prelude.{◌≡◌, ℕ, List, Option};

use std::io::Read;

/// Where the paths of a command line lead.
pub trait Shelf {
    /// An open file.
    type File: Read + Drop;

    /// The bytes of the file at a path, if they are known.
    ghost contents: { Self → List ℕ → Option (List ℕ) };

    /// Opens the file at a path. If it can't be opened, each read of it fails.
    fn open(&self, path: &str) -> Self::File
        ensures { Self.File.remaining result ≡ contents self.now path.now };
}
