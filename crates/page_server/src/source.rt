//! What a server serves.

ghost use Rattle.std.specs.Prelude.{◌≡◌, ◌++◌, List, ℕ, ⊤, OnOk};
ghost use Rattle.page_server.specs.declared.path.Path as declared;

use crate::path::Path;
use std::alloc::AllocError;

/// What a server serves. Pages may have to be made first, elsewhere.
pub trait PageSource {
    /// Whether this is the text of a page.
    ghost shows: { Self → declared.Path → List ℕ → Type 0 } = { λ _ _ _. ⊤ };

    /// A client asked for a page.
    fn ask(&mut self);

    /// Whether the pages are ready. The client that asked waits until they are.
    fn is_ready(&mut self) -> bool;

    /// Appends a page. If memory runs out, a part may be written.
    fn put(&mut self, path: Path, out: &mut Vec<u8>) -> Result<(), AllocError>
        ensures ok { OnOk result ((body : List ℕ) × (out.new.items ≡ out.old.items ++ body) × shows self.old path body) };
}
