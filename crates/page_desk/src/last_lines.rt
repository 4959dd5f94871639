//! The last lines of a text.

ghost use Rattle.std.specs.Prelude.{◌≡◌, ◌≤◌, ◌++◌, ◌∷◌, [], ℕ, List, length, take, OnOk, OnErr};
ghost use Rattle.page_desk.specs.Lines.{Keeps, line_feed, with_line};

use std::alloc::{AllocError, Global};
use std::marker::Model;
use text::Text;

/// This many lines are kept at most.
const MAX_LINES: usize = 50;

/// What ends a line.
const LINE_FEED: u8 = b'\n';

/// The last 50 lines of a text that grows, oldest first and without their ends, and what follows the last of them.
#[derive(Drop)]
pub struct LastLines {
    alloc: Global,
    lines: Vec<Text<'static>>,
    rest: Vec<u8>,
}

impl Model for LastLines {
    ghost use Rattle.page_desk.specs.Lines.{Contents};

    ghost Value = { Contents };

    ghost view = { λ l. record { lines = l.lines.items; rest = l.rest.items } };
}

impl LastLines {
    /// Those of no text. Takes no memory.
    pub fn new(alloc: Global) -> LastLines
        ensures { Keeps [] result }
    {
        LastLines {
            alloc,
            lines: Vec::new(alloc),
            rest: Vec::new(alloc),
        }
    }

    /// The lines, lent. Takes no memory.
    pub fn as_slice(&self) -> &[Text<'static>]
        ensures { result.now ≡ self.now.lines }
    {
        self.lines.as_slice()
    }

    /// A line ends here.
    fn end_line(&mut self) -> Result<(), AllocError>
        ensures ok { OnOk result (self.new ≡ with_line self.old) }
        ensures err { OnErr result (self.new ≡ self.old) }
    {
        let line = Text::from_slice(self.alloc, self.rest.as_slice())?;
        self.lines.push(line)?;
        if self.lines.len() > MAX_LINES {
            drop(self.lines.remove(0));
        }
        self.rest.clear();
        Ok(())
    }

    /// The text goes on with this byte.
    fn put_byte(&mut self, byte: u8) -> Result<(), AllocError>
        ensures ok { OnOk result ((text : List ℕ) → Keeps text self.old → Keeps (text ++ byte ∷ []) self.new) }
        ensures err { OnErr result (self.new ≡ self.old) }
    {
        if byte == LINE_FEED {
            return self.end_line();
        }
        self.rest.push(byte)?;
        Ok(())
    }

    /// The text goes on with these bytes. If memory is refused, it goes on with the first of them only.
    pub fn put(&mut self, bytes: &[u8]) -> Result<(), AllocError>
        ensures ok { OnOk result ((text : List ℕ) → Keeps text self.old → Keeps (text ++ bytes.now) self.new) }
        ensures err { OnErr result ((count : ℕ) × (count ≤ length bytes.now) × ((text : List ℕ) → Keeps text self.old → Keeps (text ++ take count bytes.now) self.new)) }
    {
        for byte in bytes {
            self.put_byte(*byte)?;
        }
        Ok(())
    }
}
