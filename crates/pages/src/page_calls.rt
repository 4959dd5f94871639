//! The calls on the page, with the state of their media.

ghost use Rattle.std.specs.Prelude.{◌≡◌, ◌++◌, OnOk};
ghost use Rattle.std.specs.List.{flat_map, list_any};
ghost use Rattle.pages.specs.Calls.{age_cell, call_ends, call_row, calls_heading, calls_table, counted_cells, comes_from_callee, comes_from_caller, expected_ends, flow_cells, is_talking, medium_text, recent_cell, traffic_cells};

use crate::escape::Place;
use crate::piece::{Piece, put_pieces};
use crate::words::{direction_word, phase_word};
use status::{CallPhase, CallStatus, CallTraffic, Direction, Flow, MediumStatus};
use std::alloc::AllocError;

fn put_medium(out: &mut Vec<u8>, medium: &MediumStatus) -> Result<(), AllocError>
    ensures { OnOk result (out.new.items ≡ out.old.items ++ medium_text medium.now) }
{
    let pieces = [
        Piece::Text(medium.kind.as_bytes()),
        Piece::Markup(b" "),
        Piece::Text(medium.codec.as_bytes()),
        Piece::Markup(b", "),
        Piece::Markup(direction_word(medium.direction)),
        Piece::Markup(b"<br>"),
    ];
    put_pieces(out, Place::Html, &pieces)
}

fn put_media(out: &mut Vec<u8>, media: &[MediumStatus]) -> Result<(), AllocError>
    ensures { OnOk result (out.new.items ≡ out.old.items ++ flat_map medium_text media.now) }
{
    for medium in media {
        put_medium(out, medium)?;
    }
    Ok(())
}

fn put_ends(out: &mut Vec<u8>, call: &CallStatus) -> Result<(), AllocError>
    ensures { OnOk result (out.new.items ≡ out.old.items ++ call_ends call.now) }
{
    let pieces = [
        Piece::Markup(b"<tr><td>"),
        Piece::Number(call.number),
        Piece::Markup(b"</td><td>"),
        Piece::Text(call.caller.as_bytes()),
        Piece::Markup(b"</td><td>"),
        Piece::Text(call.callee.as_bytes()),
        Piece::Markup(b"</td><td>"),
        Piece::Markup(phase_word(call.phase)),
        Piece::Markup(b"</td><td>"),
    ];
    put_pieces(out, Place::Html, &pieces)
}

/// From which ends media should come.
#[derive(Clone, Copy)]
struct Expected {
    caller: bool,
    callee: bool,
}

fn comes_from_caller(direction: Direction) -> bool
    ensures { result ≡ comes_from_caller direction }
{
    matches!(direction, Direction::Both | Direction::FromCaller)
}

fn comes_from_callee(direction: Direction) -> bool
    ensures { result ≡ comes_from_callee direction }
{
    matches!(direction, Direction::Both | Direction::FromCallee)
}

fn is_talking(phase: CallPhase) -> bool
    ensures { result ≡ is_talking phase }
{
    matches!(phase, CallPhase::Talking)
}

fn any_from_caller(media: &[MediumStatus]) -> bool
    ensures { result ≡ list_any (λ m. comes_from_caller m.direction) media.now }
{
    media
        .iter()
        .any(|medium| comes_from_caller(medium.direction))
}

fn any_from_callee(media: &[MediumStatus]) -> bool
    ensures { result ≡ list_any (λ m. comes_from_callee m.direction) media.now }
{
    media
        .iter()
        .any(|medium| comes_from_callee(medium.direction))
}

/// From which ends media should come: both ends talk, and a medium goes that way.
fn expected_ends(call: &CallStatus) -> Expected
    ensures { result ≡ expected_ends call.now }
{
    Expected {
        caller: is_talking(call.phase) && any_from_caller(call.media.as_slice()),
        callee: is_talking(call.phase) && any_from_callee(call.media.as_slice()),
    }
}

/// The cell marks an end from which media should come but that sent nothing recently.
fn recent_cell(is_expected: bool, recent: u64) -> &'static [u8]
    ensures { result.now ≡ recent_cell is_expected recent }
{
    if is_expected && recent == 0 {
        b"<td class=\"silent\">"
    } else {
        b"<td>"
    }
}

fn put_flow(out: &mut Vec<u8>, is_expected: bool, flow: Flow) -> Result<(), AllocError>
    ensures { OnOk result (out.new.items ≡ out.old.items ++ flow_cells is_expected flow) }
{
    let pieces = [
        Piece::Markup(recent_cell(is_expected, flow.recent)),
        Piece::Number(flow.recent),
        Piece::Markup(b"</td><td>"),
        Piece::Number(flow.total),
        Piece::Markup(b"</td>"),
    ];
    put_pieces(out, Place::Html, &pieces)
}

fn put_age(out: &mut Vec<u8>, millis: u64) -> Result<(), AllocError>
    ensures { OnOk result (out.new.items ≡ out.old.items ++ age_cell millis) }
{
    let pieces = [
        Piece::Markup(b"<td>"),
        Piece::Duration(millis),
        Piece::Markup(b" ago</td>"),
    ];
    put_pieces(out, Place::Html, &pieces)
}

fn put_counted(
    out: &mut Vec<u8>,
    moment: u64,
    ends: Expected,
    traffic: CallTraffic,
) -> Result<(), AllocError>
    ensures { OnOk result (out.new.items ≡ out.old.items ++ counted_cells moment ends traffic) }
{
    put_age(out, moment.saturating_sub(traffic.begun))?;
    put_flow(out, ends.caller, traffic.from_caller)?;
    put_flow(out, ends.callee, traffic.from_callee)
}

fn put_traffic(
    out: &mut Vec<u8>,
    moment: u64,
    ends: Expected,
    traffic: Option<CallTraffic>,
) -> Result<(), AllocError>
    ensures { OnOk result (out.new.items ≡ out.old.items ++ traffic_cells moment ends traffic) }
{
    match traffic {
        Some(traffic) => put_counted(out, moment, ends, traffic),
        None => out.extend_from_slice(b"<td></td><td></td><td></td><td></td><td></td>"),
    }
}

fn put_call(out: &mut Vec<u8>, moment: u64, call: &CallStatus) -> Result<(), AllocError>
    ensures { OnOk result (out.new.items ≡ out.old.items ++ call_row moment call.now) }
{
    put_ends(out, call)?;
    put_media(out, call.media.as_slice())?;
    out.extend_from_slice(b"</td>")?;
    put_traffic(out, moment, expected_ends(call), call.traffic)?;
    out.extend_from_slice(b"</tr>\n")
}

fn put_rows(out: &mut Vec<u8>, moment: u64, calls: &[CallStatus]) -> Result<(), AllocError>
    ensures { OnOk result (out.new.items ≡ out.old.items ++ flat_map (call_row moment) calls.now) }
{
    for call in calls {
        put_call(out, moment, call)?;
    }
    Ok(())
}

fn put_heading(out: &mut Vec<u8>, count: usize) -> Result<(), AllocError>
    ensures { OnOk result (out.new.items ≡ out.old.items ++ calls_heading count) }
{
    let pieces = [
        Piece::Markup(b"<h2>Calls: "),
        Piece::Number(count as u64),
        Piece::Markup(
            b"</h2>\n<div><table>\n<tr><th rowspan=\"2\">Call</th><th rowspan=\"2\">Caller</th><th rowspan=\"2\">Callee</th><th rowspan=\"2\">Phase</th><th rowspan=\"2\">Media</th><th rowspan=\"2\">Begun</th><th colspan=\"2\">From caller</th><th colspan=\"2\">From callee</th></tr>\n<tr><th>10 s</th><th>all</th><th>10 s</th><th>all</th></tr>\n",
        ),
    ];
    put_pieces(out, Place::Html, &pieces)
}

/// Appends the table of calls as they are at a moment in milliseconds since the start. If memory runs out, a part may
/// be written.
#[tactic(auto, unfolding(crate::specs::Calls::calls_table))]
pub(crate) fn put_calls(
    out: &mut Vec<u8>,
    moment: u64,
    calls: &[CallStatus],
) -> Result<(), AllocError>
    ensures { OnOk result (out.new.items ≡ out.old.items ++ calls_table moment calls.now) }
{
    put_heading(out, calls.len())?;
    put_rows(out, moment, calls)?;
    out.extend_from_slice(b"</table></div>\n")
}
