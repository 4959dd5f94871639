//! What a program that ends writes to standard error.

ghost use Rattle.std.specs.Prelude.{◌≡◌, ◌∷◌, ◌++◌, []};

use crate::error_stream::ErrorStream;
use std::fmt;
use std::sync::Wait;
use std::sync::atomic::AtomicBool;

/// The last words of a program, for standard error. If nobody reads them, they are given up within a second in all, so
/// that the program ends. Contracts see the texts that were to be written.
#[derive(Drop)]
pub struct LastWords<'a, R> {
    rt: &'a R,
    pub(crate) stream: ErrorStream,
    is_over: AtomicBool,
}

impl<'a, R: Wait> LastWords<'a, R> {
    /// Nothing was written. Takes no memory.
    pub fn new(rt: &'a R) -> LastWords<'a, R>
        ensures { result.stream.texts ≡ [] }
    {
        LastWords {
            rt,
            stream: ErrorStream::new(),
            is_over: AtomicBool::new(true),
        }
    }

    /// Writes a text.
    pub fn put(&mut self, text: &[u8])
        ensures { self.new.stream.texts ≡ self.old.stream.texts ++ text.now ∷ [] }
    {
        self.stream.write(self.rt, text, &self.is_over);
    }
}

impl<R: Wait> fmt::Write for LastWords<'_, R> {
    ghost use Rattle.std.specs.Prelude.{◌≡◌, ◌∷◌, ◌++◌, []};

    ghost write_str_gives = { λ old text new. new.stream.texts ≡ old.stream.texts ++ text ∷ [] };

    fn write_str(&mut self, text: &str) -> fmt::Result {
        self.put(text.as_bytes());
        Ok(())
    }
}
