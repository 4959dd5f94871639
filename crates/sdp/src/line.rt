//! Lines of a description.

use std::marker::Model;
use text::Text;

/// A line `type=value` (RFC 4566 section 5): the type is one letter, whose case matters. In a description that was
/// read, the value is any bytes except NUL, CR and LF.
pub struct Line<'a> {
    pub letter: u8,
    pub value: Text<'a>,
}

impl Drop for Line<'_> {
    fn drop(self) {
        let Line {
            letter: _,
            value: _,
        } = self;
    }
}

/// Lines in order, which contracts see as a list.
#[derive(Drop)]
pub struct Lines<'a> {
    lines: Vec<Line<'a>>,
}

impl<'a> Model for Lines<'a> {
    ghost use Rattle.std.specs.Prelude.{List};
    ghost use Rattle.sdp.specs.declared.line.Line.{Line};

    ghost Value = { List Line };

    ghost view = { λ l. l.lines.items };
}

impl<'a> Lines<'a> {
    ghost use Rattle.std.specs.Prelude.{◌≡◌};

    /// The list of these lines. Takes no memory.
    pub fn from_vec(lines: Vec<Line<'a>>) -> Lines<'a>
        ensures { result ≡ lines.entry.items }
    {
        Lines { lines }
    }

    /// The lines. Takes no memory.
    pub fn into_vec(self) -> Vec<Line<'a>>
        ensures { result.items ≡ self.entry }
    {
        self.lines
    }

    /// The lines, lent.
    pub fn as_slice(&self) -> &[Line<'a>]
        ensures { result.now ≡ self.now }
    {
        &self.lines
    }
}
