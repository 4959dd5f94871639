//! The line of a text on which the definition of a key begins.

ghost use Rattle.std.specs.Prelude.{◌≡◌, ◌≤◌, ◌<◌, length, None, IfOk, IsUtf8};
ghost use Rattle.configuration.specs.Lines.{max_looked, line_behind, IsTold};

use crate::entries::{first_top, skip_bom};
use std::alloc::{AllocError, Global};
use std::str::from_utf8;
use toml_parser::ParseError;

/// No line is reported for longer texts, so that the time of a search is bounded.
const MAX_LOOKED: usize = 65_536;

/// The line that comes after a text, from 1.
pub(crate) fn line_behind(before: &[u8]) -> usize
    ensures { result ≡ line_behind before.now }
{
    let mut line = 1usize;
    for byte in before {
        if *byte == b'\n' {
            line += 1;
        }
    }
    line
}

/// The line on which the first entry of a key begins.
fn line_in(alloc: Global, text: &str, key: &[u8]) -> Result<Option<usize>, AllocError>
    ensures { IfOk result (IsTold text.now key.now) }
{
    match first_top(alloc, skip_bom(text), key) {
        Ok(Some(from)) => {
            let before = text.len() - from.len();
            Ok(Some(line_behind(&text.as_bytes()[..before])))
        }
        Ok(None) | Err(ParseError::At(..)) => Ok(None),
        Err(ParseError::OutOfMemory) => Err(AllocError),
    }
}

/// The line, from 1, on which the first entry of a key of the whole file begins. None where there is no such entry,
/// or the text is too long to be searched.
pub(crate) fn line_of(alloc: Global, text: &[u8], key: &[u8]) -> Result<Option<usize>, AllocError>
    ensures told { length text.now ≤ max_looked → IsUtf8 text.now → IfOk result (IsTold text.now key.now) }
    ensures long { max_looked < length text.now → IfOk result (λ line. line ≡ None) }
{
    if text.len() > MAX_LOOKED {
        return Ok(None);
    }
    match from_utf8(text) {
        Ok(text) => line_in(alloc, text, key),
        Err(_) => Ok(None),
    }
}
