//! The users and the calls as Prometheus' metrics.

ghost use Rattle.std.specs.Prelude.{◌≡◌, ◌++◌, OnOk};
ghost use Rattle.std.specs.List.{flat_map};
ghost use Rattle.pages.specs.MetricCalls.{bound_sample, call_sample, datagram_samples, ends_sample, phase_sample, traffic_samples, user_sample};

use crate::escape::Place;
use crate::piece::{Piece, put_pieces};
use crate::words::phase_word;
use status::{CallPhase, CallStatus, CallTraffic, UserStatus};
use std::alloc::AllocError;

#[tactic(auto, unfolding(crate::specs::MetricCalls::bound_sample))]
fn put_bound(out: &mut Vec<u8>, name: &[u8], count: usize) -> Result<(), AllocError>
    ensures { OnOk result (out.new.items ≡ out.old.items ++ bound_sample name.now count) }
{
    let pieces = [
        Piece::Markup(b"office_bindings{user=\""),
        Piece::Text(name),
        Piece::Markup(b"\"} "),
        Piece::Number(count as u64),
        Piece::Markup(b"\n"),
    ];
    put_pieces(out, Place::Label, &pieces)
}

fn put_user(out: &mut Vec<u8>, user: &UserStatus) -> Result<(), AllocError>
    ensures { OnOk result (out.new.items ≡ out.old.items ++ user_sample user.now) }
{
    put_bound(out, user.name.as_bytes(), user.bindings.as_slice().len())
}

/// Writes how many bindings each user has. If memory runs out, a part may be written.
pub(crate) fn put_users(out: &mut Vec<u8>, users: &[UserStatus]) -> Result<(), AllocError>
    ensures { OnOk result (out.new.items ≡ out.old.items ++ flat_map user_sample users.now) }
{
    for user in users {
        put_user(out, user)?;
    }
    Ok(())
}

#[tactic(auto, unfolding(crate::specs::MetricCalls::ends_sample))]
fn put_ends(out: &mut Vec<u8>, call: &CallStatus) -> Result<(), AllocError>
    ensures { OnOk result (out.new.items ≡ out.old.items ++ ends_sample call.now) }
{
    let pieces = [
        Piece::Markup(b"office_call_info{call=\""),
        Piece::Number(call.number),
        Piece::Markup(b"\",caller=\""),
        Piece::Text(call.caller.as_bytes()),
        Piece::Markup(b"\",callee=\""),
        Piece::Text(call.callee.as_bytes()),
    ];
    put_pieces(out, Place::Label, &pieces)
}

#[tactic(auto, unfolding(crate::specs::MetricCalls::phase_sample))]
fn put_phase(out: &mut Vec<u8>, phase: CallPhase) -> Result<(), AllocError>
    ensures { OnOk result (out.new.items ≡ out.old.items ++ phase_sample phase) }
{
    let pieces = [
        Piece::Markup(b"\",phase=\""),
        Piece::Markup(phase_word(phase)),
        Piece::Markup(b"\"} 1\n"),
    ];
    put_pieces(out, Place::Label, &pieces)
}

fn put_call(out: &mut Vec<u8>, call: &CallStatus) -> Result<(), AllocError>
    ensures { OnOk result (out.new.items ≡ out.old.items ++ call_sample call.now) }
{
    put_ends(out, call)?;
    put_phase(out, call.phase)
}

/// Writes who talks to whom. If memory runs out, a part may be written.
pub(crate) fn put_calls(out: &mut Vec<u8>, calls: &[CallStatus]) -> Result<(), AllocError>
    ensures { OnOk result (out.new.items ≡ out.old.items ++ flat_map call_sample calls.now) }
{
    for call in calls {
        put_call(out, call)?;
    }
    Ok(())
}

fn put_counted(out: &mut Vec<u8>, number: u64, traffic: CallTraffic) -> Result<(), AllocError>
    ensures { OnOk result (out.new.items ≡ out.old.items ++ traffic_samples number traffic) }
{
    let pieces = [
        Piece::Markup(b"office_call_datagrams{call=\""),
        Piece::Number(number),
        Piece::Markup(b"\",direction=\"from_caller\"} "),
        Piece::Number(traffic.from_caller.total),
        Piece::Markup(b"\noffice_call_datagrams{call=\""),
        Piece::Number(number),
        Piece::Markup(b"\",direction=\"from_callee\"} "),
        Piece::Number(traffic.from_callee.total),
        Piece::Markup(b"\n"),
    ];
    put_pieces(out, Place::Label, &pieces)
}

fn put_datagrams_of(out: &mut Vec<u8>, call: &CallStatus) -> Result<(), AllocError>
    ensures { OnOk result (out.new.items ≡ out.old.items ++ datagram_samples call.now) }
{
    match call.traffic {
        Some(traffic) => put_counted(out, call.number, traffic),
        None => Ok(()),
    }
}

/// Writes how many datagrams came from each end. If memory runs out, a part may be written.
pub(crate) fn put_datagrams(out: &mut Vec<u8>, calls: &[CallStatus]) -> Result<(), AllocError>
    ensures { OnOk result (out.new.items ≡ out.old.items ++ flat_map datagram_samples calls.now) }
{
    for call in calls {
        put_datagrams_of(out, call)?;
    }
    Ok(())
}
