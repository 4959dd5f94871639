//! The files of the system.

use server::Shelf;
use std::fs::Files;
use std::io::{ErrorKind, Read};
use std::{fs, io};

/// A file, or a placeholder for one that could not be opened: each read of it fails.
#[derive(Drop)]
pub enum Opened<F> {
    File(F),
    Unopened,
}

impl<F: Read> Read for Opened<F> {
    fn read(&mut self, buf: &mut [u8]) -> io::Result<usize> {
        match self {
            Opened::File(file) => file.read(buf),
            Opened::Unopened => Err(io::Error::from(ErrorKind::NotFound)),
        }
    }
}

/// The files that a runtime opens.
#[derive(Drop)]
pub struct Disk<'a, R> {
    pub rt: &'a R,
}

impl<R: Files> Shelf for Disk<'_, R> {
    type File = Opened<R::File>;

    ghost use Rattle.std.specs.Prelude.{None};

    // The contents of a file of the system are not known.
    ghost contents = { λ _ _. None };

    fn open(&self, path: &str) -> Opened<R::File> {
        match fs::open(self.rt, path) {
            Ok(file) => Opened::File(file),
            Err(_) => Opened::Unopened,
        }
    }
}
