//! What a look at a file finds.

ghost use Rattle.std.specs.Prelude.{◌≡◌, ◌↔◌, IsTrue};

use std::fs;
use std::fs::Files;
use std::os::unix::fs::MetadataExt;

/// What a look at a path finds.
#[derive(Clone, Copy)]
pub enum Found {
    /// A file: when it changed last, in seconds and nanoseconds since 1970, and its size in bytes.
    File { seconds: i64, nanos: i64, size: u64 },
    /// No file, or one that can't be looked at.
    NoFile,
}

/// What is at a path now.
pub(crate) fn found_at<R: Files>(rt: &R, path: &str) -> Found {
    match fs::metadata(rt, path) {
        Ok(metadata) if metadata.is_file() => Found::File {
            seconds: metadata.mtime(),
            nanos: metadata.mtime_nsec(),
            size: metadata.len(),
        },
        _ => Found::NoFile,
    }
}

impl Found {
    /// Whether both looks found the same. Takes no memory.
    pub(crate) fn is_same(self, other: Found) -> bool
        ensures { IsTrue result ↔ self ≡ other }
    {
        match (self, other) {
            (
                Found::File {
                    seconds,
                    nanos,
                    size,
                },
                Found::File {
                    seconds: other_seconds,
                    nanos: other_nanos,
                    size: other_size,
                },
            ) => seconds == other_seconds && nanos == other_nanos && size == other_size,
            (Found::NoFile, Found::NoFile) => true,
            _ => false,
        }
    }
}
