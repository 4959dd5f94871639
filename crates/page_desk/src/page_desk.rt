//! The end of the page's thread.

ghost use Rattle.std.specs.Prelude.{◌≡◌, ◌≤◌, ◌∷◌, ◌++◌, [], true, false, ℕ, List, None};
ghost use Rattle.rtrb.specs.Ring.{known_items, received, sent};
ghost use Rattle.page_desk.specs.Latest.{is_fresh};
ghost use Rattle.page_desk.specs.Lines.{Keeps};
ghost use Rattle.page_desk.specs.Rings.{GoesOn, IsLastOf, IsPassedOn, TakesStatus};

use crate::last_lines::LastLines;
use crate::latest::Latest;
use page_server::{PageSource, Path};
use pages::{put_json, put_metrics, put_page};
use rtrb::{Consumer, Producer};
use status::{Overview, Status};
use std::alloc::{AllocError, Global};

/// How many moments wait for the page at most.
pub(crate) const ROOM_OF_MOMENTS: usize = 16;

/// How many bytes of lines are taken at once.
const BLOCK: usize = 4_096;

/// What the page's thread has: what the signalling passed on.
#[derive(Drop)]
pub struct PageDesk {
    /// The server's version, and when it started, in seconds since 1970.
    pub(crate) version: &'static str,
    pub(crate) started: u64,
    pub(crate) asks: Producer<u8>,
    pub(crate) moments: Consumer<u64>,
    pub(crate) statuses: Consumer<Status>,
    pub(crate) lines: Consumer<u8>,
    pub(crate) latest: Latest,
    pub(crate) log: LastLines,
    block: [u8; BLOCK],
}

/// The last of the moments that were passed on; `before` if there were none.
fn last_of(moments: &mut Consumer<u64>, before: u64) -> u64
    ensures { IsLastOf before (received moments.old) (received moments.new) (known_items moments.new) result }
{
    let mut last = before;
    for _ in 0..ROOM_OF_MOMENTS {
        match moments.pop() {
            Ok(moment) => last = moment,
            Err(_) => return last,
        }
    }
    last
}

impl PageDesk {
    pub(crate) fn new(
        alloc: Global,
        version: &'static str,
        started: u64,
        asks: Producer<u8>,
        moments: Consumer<u64>,
        statuses: Consumer<Status>,
        lines: Consumer<u8>,
    ) -> PageDesk
        ensures server { (result.version.now ≡ version.now) × (result.started ≡ started) }
        ensures asks { result.asks ≡ asks }
        ensures moments { result.moments ≡ moments }
        ensures statuses { result.statuses ≡ statuses }
        ensures lines { result.lines ≡ lines }
        ensures latest { (result.latest.status ≡ None) × (is_fresh result.latest ≡ false) }
        ensures log { Keeps [] result.log }
    {
        PageDesk {
            version,
            started,
            asks,
            moments,
            statuses,
            lines,
            latest: Latest::new(),
            log: LastLines::new(alloc),
            block: [0; BLOCK],
        }
    }

    /// Takes lines of the log that were passed on. Those for which there is no memory are left out.
    fn take_lines(&mut self)
        ensures lines { GoesOn (received self.old.lines) (received self.new.lines) (known_items self.new.lines) self.old.log self.new.log }
        ensures latest { self.new.latest ≡ self.old.latest }
        ensures asks { sent self.new.asks ≡ sent self.old.asks }
        ensures moments { self.new.moments ≡ self.old.moments }
        ensures statuses { self.new.statuses ≡ self.old.statuses }
    {
        let count = self.lines.pop_partial_slice(&mut self.block);
        let _ = self.log.put(&self.block[..count]);
    }

    /// Takes the snapshot that was passed on, if there is one: it comes now.
    fn take_status(&mut self)
        ensures status { TakesStatus self.old.statuses self.new.statuses self.old.latest self.new.latest self.old.latest.moment }
        ensures asks { sent self.new.asks ≡ sent self.old.asks }
        ensures moments { self.new.moments ≡ self.old.moments }
        ensures lines { self.new.lines ≡ self.old.lines }
        ensures log { self.new.log ≡ self.old.log }
    {
        if let Ok(status) = self.statuses.pop() {
            self.latest.take(status);
        }
    }

    /// Takes what the signalling passed on, and returns its moment, in milliseconds. Lines for which there is no
    /// memory are left out.
    pub fn take(&mut self) -> u64
        ensures now { result ≡ self.new.latest.moment }
        ensures moments { IsLastOf self.old.latest.moment (received self.old.moments) (received self.new.moments) (known_items self.new.moments) result }
        ensures status { TakesStatus self.old.statuses self.new.statuses self.old.latest self.new.latest result }
        ensures lines { GoesOn (received self.old.lines) (received self.new.lines) (known_items self.new.lines) self.old.log self.new.log }
        ensures asks { sent self.new.asks ≡ sent self.old.asks }
    {
        self.latest.moment = last_of(&mut self.moments, self.latest.moment);
        self.take_status();
        self.take_lines();
        self.latest.moment
    }
}

impl PageSource for PageDesk {
    ghost use Rattle.page_desk.specs.Shown.{Shows};

    ghost shows = { λ desk path body. Shows desk path body };

    ghost use Rattle.std.specs.Prelude.{◌≡◌, ◌∷◌, [], true, false};
    ghost use Rattle.rtrb.specs.Ring.{sent};
    ghost use Rattle.page_desk.specs.Latest.{is_fresh};
    ghost use Rattle.page_desk.specs.Rings.{IsPassedOn};

    fn ask(&mut self)
        ensures fresh { is_fresh self.old.latest ≡ true → sent self.new.asks ≡ sent self.old.asks }
        ensures asks { is_fresh self.old.latest ≡ false → IsPassedOn (0 ∷ []) self.old.asks self.new.asks }
        ensures latest { self.new.latest ≡ self.old.latest }
        ensures log { self.new.log ≡ self.old.log }
    {
        if !self.latest.is_fresh() {
            let _ = self.asks.push(0);
        }
    }

    fn is_ready(&mut self) -> bool
        ensures ready { result ≡ is_fresh self.old.latest }
        ensures same { self.new ≡ self.old }
    {
        self.latest.is_fresh()
    }

    fn put(&mut self, path: Path, out: &mut Vec<u8>) -> Result<(), AllocError> {
        let Some(status) = &self.latest.status else {
            return Ok(());
        };
        let overview = Overview {
            version: self.version,
            started: self.started,
            status,
            log: self.log.as_slice(),
        };
        match path {
            Path::Page => put_page(out, overview),
            Path::Json => put_json(out, overview),
            Path::Metrics => put_metrics(out, overview),
        }
    }
}
