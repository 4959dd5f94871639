//! Both ends of what the page shows.

ghost use Rattle.std.specs.Prelude.{◌≡◌, [], None, false, IfOk};
ghost use Rattle.rtrb.specs.Ring.{IsPair, producer_capacity};
ghost use Rattle.page_desk.specs.Latest.{is_fresh};
ghost use Rattle.page_desk.specs.Lines.{Keeps};
ghost use Rattle.page_desk.specs.Rings.{room_of_lines, room_of_moments};

use crate::page_desk::{PageDesk, ROOM_OF_MOMENTS};
use crate::status_desk::StatusDesk;
use rtrb::RingBuffer;
use std::alloc::{AllocError, Global};

/// This many questions wait to be answered at most.
const ROOM_OF_ASKS: usize = 1;

/// This many bytes of lines wait for the page at most.
const ROOM_OF_LINES: usize = 65_536;

/// The end of the signalling, and that of the page's thread, of a server of this version, which started then, in
/// seconds since 1970. At most one question and one snapshot wait between them.
pub fn desks(
    alloc: Global,
    version: &'static str,
    started: u64,
) -> Result<(StatusDesk, PageDesk), AllocError>
    ensures asks { IfOk result (λ ends. IsPair ends.1.asks ends.0.asked × (producer_capacity ends.1.asks ≡ 1)) }
    ensures moments { IfOk result (λ ends. IsPair ends.0.moments ends.1.moments × (producer_capacity ends.0.moments ≡ room_of_moments)) }
    ensures statuses { IfOk result (λ ends. IsPair ends.0.statuses ends.1.statuses × (producer_capacity ends.0.statuses ≡ 1)) }
    ensures lines { IfOk result (λ ends. IsPair ends.0.lines ends.1.lines × (producer_capacity ends.0.lines ≡ room_of_lines)) }
    ensures due { IfOk result (λ ends. ends.0.next ≡ 0) }
    ensures server { IfOk result (λ ends. (ends.1.version.now ≡ version.now) × (ends.1.started ≡ started)) }
    ensures unready { IfOk result (λ ends. (ends.1.latest.status ≡ None) × (is_fresh ends.1.latest ≡ false)) }
    ensures log { IfOk result (λ ends. Keeps [] ends.1.log) }
{
    let (asks, asked) = RingBuffer::new(alloc, ROOM_OF_ASKS)?;
    let (moments, moments_out) = RingBuffer::new(alloc, ROOM_OF_MOMENTS)?;
    let (statuses, statuses_out) = RingBuffer::new(alloc, 1)?;
    let (lines, lines_out) = RingBuffer::new(alloc, ROOM_OF_LINES)?;
    let page = PageDesk::new(
        alloc,
        version,
        started,
        asks,
        moments_out,
        statuses_out,
        lines_out,
    );
    let desk = StatusDesk {
        asked,
        moments,
        statuses,
        lines,
        next: 0,
    };
    Ok((desk, page))
}
