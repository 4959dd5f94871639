//! The limits, the counts of events and the log on the page.

ghost use Rattle.std.specs.Prelude.{◌≡◌, ◌++◌, OnOk};
ghost use Rattle.std.specs.List.{flat_map};
ghost use Rattle.pages.specs.Limits.{datagram_rows, event_row, events_table, limit_rows, limits_table, log_line, log_text};

use crate::escape::{Place, put_escaped};
use crate::piece::{Piece, put_pieces};
use port_pool::PairCounts;
use status::{DatagramCounts, EventCount, Status};
use std::alloc::AllocError;
use text::Text;

fn put_counts(out: &mut Vec<u8>, pairs: PairCounts, transactions: usize) -> Result<(), AllocError>
    ensures { OnOk result (out.new.items ≡ out.old.items ++ limit_rows pairs transactions) }
{
    let pieces = [
        Piece::Markup(b"<h2>Limits</h2>\n<div><table>\n<tr><td>Pairs of ports used</td><td>"),
        Piece::Number(pairs.used as u64),
        Piece::Markup(b"</td></tr>\n<tr><td>Pairs resting</td><td>"),
        Piece::Number(pairs.resting as u64),
        Piece::Markup(b"</td></tr>\n<tr><td>Pairs free</td><td>"),
        Piece::Number(pairs.free as u64),
        Piece::Markup(b"</td></tr>\n<tr><td>Server transactions</td><td>"),
        Piece::Number(transactions as u64),
        Piece::Markup(b" of 4096</td></tr>\n"),
    ];
    put_pieces(out, Place::Html, &pieces)
}

fn put_datagrams(out: &mut Vec<u8>, datagrams: DatagramCounts) -> Result<(), AllocError>
    ensures { OnOk result (out.new.items ≡ out.old.items ++ datagram_rows datagrams) }
{
    let pieces = [
        Piece::Markup(b"<tr><td>Datagrams from callers</td><td>"),
        Piece::Number(datagrams.from_callers),
        Piece::Markup(b"</td></tr>\n<tr><td>Datagrams from callees</td><td>"),
        Piece::Number(datagrams.from_callees),
        Piece::Markup(b"</td></tr>\n</table></div>\n"),
    ];
    put_pieces(out, Place::Html, &pieces)
}

/// Writes how close the limits are. If memory runs out, a part may be written.
#[tactic(auto, unfolding(crate::specs::Limits::limits_table))]
pub(crate) fn put_limits(out: &mut Vec<u8>, status: &Status) -> Result<(), AllocError>
    ensures { OnOk result (out.new.items ≡ out.old.items ++ limits_table status.now) }
{
    put_counts(out, status.pairs, status.transactions)?;
    put_datagrams(out, status.datagrams)
}

fn put_event(out: &mut Vec<u8>, event: EventCount) -> Result<(), AllocError>
    ensures { OnOk result (out.new.items ≡ out.old.items ++ event_row event) }
{
    let pieces = [
        Piece::Markup(b"<tr><td>"),
        Piece::Text(event.kind.as_bytes()),
        Piece::Markup(b"</td><td>"),
        Piece::Number(event.count),
        Piece::Markup(b"</td></tr>\n"),
    ];
    put_pieces(out, Place::Html, &pieces)
}

fn put_rows(out: &mut Vec<u8>, events: &[EventCount]) -> Result<(), AllocError>
    ensures { OnOk result (out.new.items ≡ out.old.items ++ flat_map event_row events.now) }
{
    for event in events {
        put_event(out, *event)?;
    }
    Ok(())
}

/// Writes the table of events. If memory runs out, a part may be written.
#[tactic(auto, unfolding(crate::specs::Limits::events_table))]
pub(crate) fn put_events(out: &mut Vec<u8>, events: &[EventCount]) -> Result<(), AllocError>
    ensures { OnOk result (out.new.items ≡ out.old.items ++ events_table events.now) }
{
    out.extend_from_slice(b"<h2>Events</h2>\n<div><table>\n")?;
    put_rows(out, events)?;
    out.extend_from_slice(b"</table></div>\n")
}

fn put_line(out: &mut Vec<u8>, line: &Text<'static>) -> Result<(), AllocError>
    ensures { OnOk result (out.new.items ≡ out.old.items ++ log_line line.now) }
{
    put_escaped(out, Place::Html, line.as_bytes())?;
    out.push(b'\n')?;
    Ok(())
}

fn put_lines(out: &mut Vec<u8>, log: &[Text<'static>]) -> Result<(), AllocError>
    ensures { OnOk result (out.new.items ≡ out.old.items ++ flat_map log_line log.now) }
{
    for line in log {
        put_line(out, line)?;
    }
    Ok(())
}

/// Writes the last lines of the log. If memory runs out, a part may be written.
#[tactic(auto, unfolding(crate::specs::Limits::log_text))]
pub(crate) fn put_log(out: &mut Vec<u8>, log: &[Text<'static>]) -> Result<(), AllocError>
    ensures { OnOk result (out.new.items ≡ out.old.items ++ log_text log.now) }
{
    out.extend_from_slice(b"<h2>Log</h2>\n<pre>")?;
    put_lines(out, log)?;
    out.extend_from_slice(b"</pre>\n")
}
