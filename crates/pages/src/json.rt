//! The status as JSON.

ghost use Rattle.std.specs.Prelude.{◌≡◌, ◌++◌, OnOk};
ghost use Rattle.pages.specs.Json.{event_member, json_counts, json_datagrams, json_front, json_head, json_limits, json_log, json_start, json_text, line_string};
ghost use Rattle.pages.specs.Pieces.{behind_comma, listed};

use crate::escape::Place;
use crate::json_calls::put_calls;
use crate::json_users::put_users;
use crate::piece::{Piece, put_pieces};
use port_pool::PairCounts;
use status::{DatagramCounts, EventCount, Overview, Status};
use std::alloc::AllocError;
use text::Text;

/// What comes between the users and the calls.
const CALLS: &[u8] = b"],\"calls\":[";

#[tactic(auto, unfolding(crate::specs::Json::event_member))]
fn put_event(out: &mut Vec<u8>, event: EventCount) -> Result<(), AllocError>
    ensures { OnOk result (out.new.items ≡ out.old.items ++ event_member event) }
{
    let pieces = [
        Piece::Markup(b"\""),
        Piece::Text(event.kind.as_bytes()),
        Piece::Markup(b"\":"),
        Piece::Number(event.count),
    ];
    put_pieces(out, Place::Json, &pieces)
}

fn put_next_event(out: &mut Vec<u8>, event: EventCount) -> Result<(), AllocError>
    ensures { OnOk result (out.new.items ≡ out.old.items ++ behind_comma event_member event) }
{
    out.push(b',')?;
    put_event(out, event)
}

fn put_events(out: &mut Vec<u8>, events: &[EventCount]) -> Result<(), AllocError>
    ensures { OnOk result (out.new.items ≡ out.old.items ++ listed event_member events.now) }
{
    let Some((first, rest)) = events.split_first() else {
        return Ok(());
    };
    put_event(out, *first)?;
    for event in rest {
        put_next_event(out, *event)?;
    }
    Ok(())
}

#[tactic(auto, unfolding(crate::specs::Json::line_string))]
fn put_line(out: &mut Vec<u8>, line: &Text<'static>) -> Result<(), AllocError>
    ensures { OnOk result (out.new.items ≡ out.old.items ++ line_string line.now) }
{
    let pieces = [
        Piece::Markup(b"\""),
        Piece::Text(line.as_bytes()),
        Piece::Markup(b"\""),
    ];
    put_pieces(out, Place::Json, &pieces)
}

fn put_next_line(out: &mut Vec<u8>, line: &Text<'static>) -> Result<(), AllocError>
    ensures { OnOk result (out.new.items ≡ out.old.items ++ behind_comma line_string line.now) }
{
    out.push(b',')?;
    put_line(out, line)
}

fn put_lines(out: &mut Vec<u8>, log: &[Text<'static>]) -> Result<(), AllocError>
    ensures { OnOk result (out.new.items ≡ out.old.items ++ listed line_string log.now) }
{
    let Some((first, rest)) = log.split_first() else {
        return Ok(());
    };
    put_line(out, first)?;
    for line in rest {
        put_next_line(out, line)?;
    }
    Ok(())
}

#[tactic(auto, unfolding(crate::specs::Json::json_start))]
fn put_start(out: &mut Vec<u8>, overview: Overview<'_>) -> Result<(), AllocError>
    ensures { OnOk result (out.new.items ≡ out.old.items ++ json_start overview.entry) }
{
    let pieces = [
        Piece::Markup(b"{\"version\":\""),
        Piece::Text(overview.version.as_bytes()),
        Piece::Markup(b"\",\"started\":"),
        Piece::Number(overview.started),
        Piece::Markup(b",\"moment_milliseconds\":"),
        Piece::Number(overview.status.moment),
        Piece::Markup(b",\"users\":["),
    ];
    put_pieces(out, Place::Json, &pieces)
}

#[tactic(auto, unfolding(crate::specs::Json::json_datagrams))]
fn put_datagrams(out: &mut Vec<u8>, datagrams: DatagramCounts) -> Result<(), AllocError>
    ensures { OnOk result (out.new.items ≡ out.old.items ++ json_datagrams datagrams) }
{
    let pieces = [
        Piece::Markup(b"],\"datagrams\":{\"from_callers\":"),
        Piece::Number(datagrams.from_callers),
        Piece::Markup(b",\"from_callees\":"),
        Piece::Number(datagrams.from_callees),
        Piece::Markup(b"}"),
    ];
    put_pieces(out, Place::Json, &pieces)
}

#[tactic(auto, unfolding(crate::specs::Json::json_limits))]
fn put_limits(out: &mut Vec<u8>, pairs: PairCounts, transactions: usize) -> Result<(), AllocError>
    ensures { OnOk result (out.new.items ≡ out.old.items ++ json_limits pairs transactions) }
{
    let pieces = [
        Piece::Markup(b",\"pairs\":{\"used\":"),
        Piece::Number(pairs.used as u64),
        Piece::Markup(b",\"resting\":"),
        Piece::Number(pairs.resting as u64),
        Piece::Markup(b",\"free\":"),
        Piece::Number(pairs.free as u64),
        Piece::Markup(b"},\"transactions\":"),
        Piece::Number(transactions as u64),
        Piece::Markup(b",\"transactions_limit\":4096,\"events\":{"),
    ];
    put_pieces(out, Place::Json, &pieces)
}

#[tactic(auto, unfolding(crate::specs::Json::json_head))]
fn put_head(out: &mut Vec<u8>, overview: Overview<'_>) -> Result<(), AllocError>
    ensures { OnOk result (out.new.items ≡ out.old.items ++ json_head overview.entry) }
{
    put_start(out, overview)?;
    put_users(out, overview.status.users.as_slice())
}

fn put_calls_key(out: &mut Vec<u8>) -> Result<(), AllocError>
    ensures { OnOk result (out.new.items ≡ out.old.items ++ CALLS.now) }
{
    out.extend_from_slice(CALLS)
}

#[tactic(auto, unfolding(crate::specs::Json::json_front))]
fn put_front(out: &mut Vec<u8>, overview: Overview<'_>) -> Result<(), AllocError>
    ensures { OnOk result (out.new.items ≡ out.old.items ++ json_front overview.entry) }
{
    put_head(out, overview)?;
    put_calls_key(out)
}

#[tactic(auto, unfolding(crate::specs::Json::json_counts))]
fn put_counts(out: &mut Vec<u8>, status: &Status) -> Result<(), AllocError>
    ensures { OnOk result (out.new.items ≡ out.old.items ++ json_counts status.now) }
{
    put_datagrams(out, status.datagrams)?;
    put_limits(out, status.pairs, status.transactions)?;
    put_events(out, status.events.as_slice())
}

#[tactic(auto, unfolding(crate::specs::Json::json_log))]
fn put_log(out: &mut Vec<u8>, log: &[Text<'static>]) -> Result<(), AllocError>
    ensures { OnOk result (out.new.items ≡ out.old.items ++ json_log log.now) }
{
    out.extend_from_slice(b"},\"log\":[")?;
    put_lines(out, log)?;
    out.extend_from_slice(b"]}\n")
}

/// Appends the overview as an object of JSON (RFC 8259), in ASCII. If memory runs out, a part may be written.
#[tactic(auto, unfolding(crate::specs::Json::json_text))]
pub fn put_json(out: &mut Vec<u8>, overview: Overview<'_>) -> Result<(), AllocError>
    ensures { OnOk result (out.new.items ≡ out.old.items ++ json_text overview.entry) }
{
    put_front(out, overview)?;
    put_calls(out, overview.status.calls.as_slice())?;
    put_counts(out, overview.status)?;
    put_log(out, overview.log)
}
