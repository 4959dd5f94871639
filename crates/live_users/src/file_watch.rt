//! Looks at a file, one after the other.

ghost use Rattle.std.specs.Prelude.{◌≡◌, None, Some, string_bytes};
ghost use Rattle.live_users.specs.Looks.{Looks, Says};

use crate::found::{Found, found_at};
use std::fs::Files;

/// What a look says of a file.
#[derive(Clone, Copy)]
pub enum Look {
    /// It is as at the last look.
    Same,
    /// It differs: its time of change or its size does, or this is the first look.
    Changed,
    /// It is gone, or was not there at the first look.
    Gone,
}

/// Looks at the file of a path, and remembers what the last of them found.
#[derive(Drop)]
pub struct FileWatch {
    path: String,
    /// None before the first look, and after it was forgotten.
    last: Option<Found>,
}

/// What a look that found this says, if the look before it did not find the same.
fn news_of(found: Found) -> Look
    ensures { Says None found result }
{
    match found {
        Found::File { .. } => Look::Changed,
        Found::NoFile => Look::Gone,
    }
}

impl FileWatch {
    /// The file at a path, before the first look. Takes no memory.
    pub fn new(path: String) -> FileWatch
        ensures last { result.last ≡ None }
        ensures path { result.path ≡ path }
    {
        FileWatch { path, last: None }
    }

    /// The path. Takes no memory.
    pub fn path(&self) -> &str
        ensures { result.now ≡ string_bytes self.now.path }
    {
        self.path.as_str()
    }

    /// A look that found this. Takes no memory.
    pub fn take(&mut self, found: Found) -> Look
        ensures says { Says self.old.last found result }
        ensures last { self.new.last ≡ Some found }
        ensures path { self.new.path ≡ self.old.path }
    {
        let before = self.last;
        self.last = Some(found);
        match before {
            Some(before) if found.is_same(before) => Look::Same,
            _ => news_of(found),
        }
    }

    /// Looks at the file as it is now.
    pub fn look<R: Files>(&mut self, rt: &R) -> Look
        ensures looks { Looks self.old.last self.new.last result }
        ensures path { self.new.path ≡ self.old.path }
    {
        let found = found_at(rt, self.path.as_str());
        self.take(found)
    }

    /// The next look says what it finds as if it were the first. Takes no memory.
    pub fn forget(&mut self)
        ensures last { self.new.last ≡ None }
        ensures path { self.new.path ≡ self.old.path }
    {
        self.last = None;
    }
}
