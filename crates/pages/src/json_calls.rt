//! The calls in JSON, with their media.

ghost use Rattle.std.specs.Prelude.{◌≡◌, ◌++◌, OnOk};
ghost use Rattle.pages.specs.JsonCalls.{call_end, call_ends, call_front, call_media, call_object, medium_object, phase_member, phase_start, traffic_object, traffic_value};
ghost use Rattle.pages.specs.Pieces.{behind_comma, listed};

use crate::escape::Place;
use crate::piece::{Piece, put_pieces};
use crate::words::{direction_word, phase_word};
use status::{CallPhase, CallStatus, CallTraffic, MediumStatus};
use std::alloc::AllocError;

#[tactic(auto, unfolding(crate::specs::JsonCalls::medium_object))]
fn put_medium(out: &mut Vec<u8>, medium: &MediumStatus) -> Result<(), AllocError>
    ensures { OnOk result (out.new.items ≡ out.old.items ++ medium_object medium.now) }
{
    let pieces = [
        Piece::Markup(b"{\"kind\":\""),
        Piece::Text(medium.kind.as_bytes()),
        Piece::Markup(b"\",\"codec\":\""),
        Piece::Text(medium.codec.as_bytes()),
        Piece::Markup(b"\",\"direction\":\""),
        Piece::Markup(direction_word(medium.direction)),
        Piece::Markup(b"\"}"),
    ];
    put_pieces(out, Place::Json, &pieces)
}

fn put_next_medium(out: &mut Vec<u8>, medium: &MediumStatus) -> Result<(), AllocError>
    ensures { OnOk result (out.new.items ≡ out.old.items ++ behind_comma medium_object medium.now) }
{
    out.push(b',')?;
    put_medium(out, medium)
}

fn put_media(out: &mut Vec<u8>, media: &[MediumStatus]) -> Result<(), AllocError>
    ensures { OnOk result (out.new.items ≡ out.old.items ++ listed medium_object media.now) }
{
    let Some((first, rest)) = media.split_first() else {
        return Ok(());
    };
    put_medium(out, first)?;
    for medium in rest {
        put_next_medium(out, medium)?;
    }
    Ok(())
}

#[tactic(auto, unfolding(crate::specs::JsonCalls::call_ends))]
fn put_ends(out: &mut Vec<u8>, call: &CallStatus) -> Result<(), AllocError>
    ensures { OnOk result (out.new.items ≡ out.old.items ++ call_ends call.now) }
{
    let pieces = [
        Piece::Markup(b"{\"number\":"),
        Piece::Number(call.number),
        Piece::Markup(b",\"caller\":\""),
        Piece::Text(call.caller.as_bytes()),
        Piece::Markup(b"\",\"callee\":\""),
        Piece::Text(call.callee.as_bytes()),
    ];
    put_pieces(out, Place::Json, &pieces)
}

#[tactic(auto, unfolding(crate::specs::JsonCalls::phase_start))]
fn put_phase_start(out: &mut Vec<u8>, phase: CallPhase) -> Result<(), AllocError>
    ensures { OnOk result (out.new.items ≡ out.old.items ++ phase_start phase) }
{
    out.extend_from_slice(b"\",\"phase\":\"")?;
    out.extend_from_slice(phase_word(phase))
}

#[tactic(auto, unfolding(crate::specs::JsonCalls::phase_member))]
fn put_phase(out: &mut Vec<u8>, phase: CallPhase) -> Result<(), AllocError>
    ensures { OnOk result (out.new.items ≡ out.old.items ++ phase_member phase) }
{
    put_phase_start(out, phase)?;
    out.extend_from_slice(b"\",\"media\":[")
}

fn put_counted(out: &mut Vec<u8>, traffic: CallTraffic) -> Result<(), AllocError>
    ensures { OnOk result (out.new.items ≡ out.old.items ++ traffic_object traffic) }
{
    let pieces = [
        Piece::Markup(b"{\"begun_milliseconds\":"),
        Piece::Number(traffic.begun),
        Piece::Markup(b",\"from_caller\":{\"recent\":"),
        Piece::Number(traffic.from_caller.recent),
        Piece::Markup(b",\"total\":"),
        Piece::Number(traffic.from_caller.total),
        Piece::Markup(b"},\"from_callee\":{\"recent\":"),
        Piece::Number(traffic.from_callee.recent),
        Piece::Markup(b",\"total\":"),
        Piece::Number(traffic.from_callee.total),
        Piece::Markup(b"}}"),
    ];
    put_pieces(out, Place::Json, &pieces)
}

fn put_traffic(out: &mut Vec<u8>, traffic: Option<CallTraffic>) -> Result<(), AllocError>
    ensures { OnOk result (out.new.items ≡ out.old.items ++ traffic_value traffic) }
{
    match traffic {
        Some(traffic) => put_counted(out, traffic),
        None => out.extend_from_slice(b"null"),
    }
}

#[tactic(auto, unfolding(crate::specs::JsonCalls::call_front))]
fn put_front(out: &mut Vec<u8>, call: &CallStatus) -> Result<(), AllocError>
    ensures { OnOk result (out.new.items ≡ out.old.items ++ call_front call.now) }
{
    put_ends(out, call)?;
    put_phase(out, call.phase)
}

#[tactic(auto, unfolding(crate::specs::JsonCalls::call_media))]
fn put_all_media(out: &mut Vec<u8>, media: &[MediumStatus]) -> Result<(), AllocError>
    ensures { OnOk result (out.new.items ≡ out.old.items ++ call_media media.now) }
{
    put_media(out, media)?;
    out.extend_from_slice(b"],\"traffic\":")
}

#[tactic(auto, unfolding(crate::specs::JsonCalls::call_end))]
fn put_end(out: &mut Vec<u8>, traffic: Option<CallTraffic>) -> Result<(), AllocError>
    ensures { OnOk result (out.new.items ≡ out.old.items ++ call_end traffic) }
{
    put_traffic(out, traffic)?;
    out.extend_from_slice(b"}")
}

#[tactic(auto, unfolding(crate::specs::JsonCalls::call_object))]
fn put_call(out: &mut Vec<u8>, call: &CallStatus) -> Result<(), AllocError>
    ensures { OnOk result (out.new.items ≡ out.old.items ++ call_object call.now) }
{
    put_front(out, call)?;
    put_all_media(out, call.media.as_slice())?;
    put_end(out, call.traffic)
}

fn put_next_call(out: &mut Vec<u8>, call: &CallStatus) -> Result<(), AllocError>
    ensures { OnOk result (out.new.items ≡ out.old.items ++ behind_comma call_object call.now) }
{
    out.push(b',')?;
    put_call(out, call)
}

/// Writes the calls with a comma between them. If memory runs out, a part may be written.
pub(crate) fn put_calls(out: &mut Vec<u8>, calls: &[CallStatus]) -> Result<(), AllocError>
    ensures { OnOk result (out.new.items ≡ out.old.items ++ listed call_object calls.now) }
{
    let Some((first, rest)) = calls.split_first() else {
        return Ok(());
    };
    put_call(out, first)?;
    for call in rest {
        put_next_call(out, call)?;
    }
    Ok(())
}
