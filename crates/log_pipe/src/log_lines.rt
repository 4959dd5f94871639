//! Lines of the log on their way to the thread that writes them.

ghost use Rattle.std.specs.Prelude.{◌≡◌, count_by, ◌==◌};
ghost use Rattle.log_pipe.specs.Losses.{PassesOn, TellsLost, line_count};

use crate::lost_line::LostLine;
use rtrb::Producer;

/// The end that passes lines on. It never waits: lines that find no room are counted, and the count is told once there
/// is room.
#[derive(Drop)]
pub struct LogLines {
    pub(crate) ring: Producer<u8>,
    /// How many lines found no room, and were not told yet.
    pub(crate) lost: u64,
}

/// How many lines a text has.
fn count_lines(text: &[u8]) -> u64
    ensures { result ≡ line_count text.now }
{
    text.iter().filter(|byte| **byte == b'\n').count() as u64
}

impl LogLines {
    /// Tells how many lines found no room, if any did not and there is room for that now. Takes no memory.
    pub fn tell_lost(&mut self)
        ensures { TellsLost self.old self.new }
    {
        if self.lost == 0 {
            return;
        }
        let line = LostLine::new(self.lost);
        match self.ring.push_entire_slice(line.as_bytes()) {
            Ok(()) => self.lost = 0,
            Err(_) => {}
        }
    }

    /// Passes lines on, each with its end: all of these, after those that were lost, or none. Takes no memory.
    pub fn put(&mut self, lines: &[u8])
        ensures { PassesOn lines.now self.old self.new }
    {
        self.tell_lost();
        match self.ring.push_entire_slice(lines) {
            Ok(()) => {}
            Err(_) => self.lost = self.lost.saturating_add(count_lines(lines)),
        }
    }
}
