//! The status in Prometheus' text form (version 0.0.4).

ghost use Rattle.std.specs.Prelude.{◌≡◌, ◌++◌, OnOk};
ghost use Rattle.std.specs.List.{flat_map};
ghost use Rattle.pages.specs.Metrics.{calls_head, calls_samples, event_sample, events_samples, flow_samples, info_samples, limit_samples, metrics_text, number_samples, server_samples, total_samples, users_head, users_samples};

use crate::escape::Place;
use crate::metric_calls::{put_calls, put_datagrams, put_users};
use crate::piece::{Piece, put_pieces};
use port_pool::PairCounts;
use status::{CallStatus, DatagramCounts, EventCount, Overview, Status, UserStatus};
use std::alloc::AllocError;

const DATAGRAMS: &[u8] =
    b"# HELP office_call_datagrams Datagrams of media from each end of a call that stands.\n# TYPE office_call_datagrams gauge\n";

const EVENTS: &[u8] =
    b"# HELP office_events_total Events, by what became of them.\n# TYPE office_events_total counter\n";

#[tactic(auto, unfolding(crate::specs::Metrics::server_samples))]
fn put_server(out: &mut Vec<u8>, overview: Overview<'_>) -> Result<(), AllocError>
    ensures { OnOk result (out.new.items ≡ out.old.items ++ server_samples overview.entry) }
{
    let pieces = [
        Piece::Markup(
            b"# HELP office_info The version of the server.\n# TYPE office_info gauge\noffice_info{version=\"",
        ),
        Piece::Text(overview.version.as_bytes()),
        Piece::Markup(
            b"\"} 1\n# HELP office_start_time_seconds When the server started, in seconds since 1970.\n# TYPE office_start_time_seconds gauge\noffice_start_time_seconds ",
        ),
        Piece::Number(overview.started),
        Piece::Markup(b"\n"),
    ];
    put_pieces(out, Place::Label, &pieces)
}

#[tactic(auto, unfolding(crate::specs::Metrics::limit_samples))]
fn put_pairs(out: &mut Vec<u8>, pairs: PairCounts, transactions: usize) -> Result<(), AllocError>
    ensures { OnOk result (out.new.items ≡ out.old.items ++ limit_samples pairs transactions) }
{
    let pieces = [
        Piece::Markup(
            b"# HELP office_pairs Pairs of ports, by state.\n# TYPE office_pairs gauge\noffice_pairs{state=\"used\"} ",
        ),
        Piece::Number(pairs.used as u64),
        Piece::Markup(b"\noffice_pairs{state=\"resting\"} "),
        Piece::Number(pairs.resting as u64),
        Piece::Markup(b"\noffice_pairs{state=\"free\"} "),
        Piece::Number(pairs.free as u64),
        Piece::Markup(
            b"\n# HELP office_server_transactions Server transactions.\n# TYPE office_server_transactions gauge\noffice_server_transactions ",
        ),
        Piece::Number(transactions as u64),
        Piece::Markup(
            b"\n# HELP office_server_transactions_limit The most server transactions at once.\n# TYPE office_server_transactions_limit gauge\noffice_server_transactions_limit 4096\n",
        ),
    ];
    put_pieces(out, Place::Label, &pieces)
}

#[tactic(auto, unfolding(crate::specs::Metrics::total_samples))]
fn put_datagram_counts(out: &mut Vec<u8>, datagrams: DatagramCounts) -> Result<(), AllocError>
    ensures { OnOk result (out.new.items ≡ out.old.items ++ total_samples datagrams) }
{
    let pieces = [
        Piece::Markup(
            b"# HELP office_datagrams_total Datagrams of media since the start.\n# TYPE office_datagrams_total counter\noffice_datagrams_total{direction=\"from_caller\"} ",
        ),
        Piece::Number(datagrams.from_callers),
        Piece::Markup(b"\noffice_datagrams_total{direction=\"from_callee\"} "),
        Piece::Number(datagrams.from_callees),
        Piece::Markup(b"\n"),
    ];
    put_pieces(out, Place::Label, &pieces)
}

#[tactic(auto, unfolding(crate::specs::Metrics::event_sample))]
fn put_event(out: &mut Vec<u8>, event: EventCount) -> Result<(), AllocError>
    ensures { OnOk result (out.new.items ≡ out.old.items ++ event_sample event) }
{
    let pieces = [
        Piece::Markup(b"office_events_total{kind=\""),
        Piece::Text(event.kind.as_bytes()),
        Piece::Markup(b"\"} "),
        Piece::Number(event.count),
        Piece::Markup(b"\n"),
    ];
    put_pieces(out, Place::Label, &pieces)
}

fn put_events(out: &mut Vec<u8>, events: &[EventCount]) -> Result<(), AllocError>
    ensures { OnOk result (out.new.items ≡ out.old.items ++ flat_map event_sample events.now) }
{
    for event in events {
        put_event(out, *event)?;
    }
    Ok(())
}

#[tactic(auto, unfolding(crate::specs::Metrics::users_head))]
fn put_user_count(out: &mut Vec<u8>, count: usize) -> Result<(), AllocError>
    ensures { OnOk result (out.new.items ≡ out.old.items ++ users_head count) }
{
    let pieces = [
        Piece::Markup(
            b"# HELP office_users Users of the configuration.\n# TYPE office_users gauge\noffice_users ",
        ),
        Piece::Number(count as u64),
        Piece::Markup(
            b"\n# HELP office_bindings Bindings of each user.\n# TYPE office_bindings gauge\n",
        ),
    ];
    put_pieces(out, Place::Label, &pieces)
}

fn put_call_count(out: &mut Vec<u8>, count: usize) -> Result<(), AllocError>
    ensures { OnOk result (out.new.items ≡ out.old.items ++ calls_head count) }
{
    let pieces = [
        Piece::Markup(
            b"# HELP office_calls Calls that stand.\n# TYPE office_calls gauge\noffice_calls ",
        ),
        Piece::Number(count as u64),
        Piece::Markup(
            b"\n# HELP office_call_info Each call, with its users and its phase.\n# TYPE office_call_info gauge\n",
        ),
    ];
    put_pieces(out, Place::Label, &pieces)
}

fn put_datagrams_heading(out: &mut Vec<u8>) -> Result<(), AllocError>
    ensures { OnOk result (out.new.items ≡ out.old.items ++ DATAGRAMS.now) }
{
    out.extend_from_slice(DATAGRAMS)
}

fn put_events_heading(out: &mut Vec<u8>) -> Result<(), AllocError>
    ensures { OnOk result (out.new.items ≡ out.old.items ++ EVENTS.now) }
{
    out.extend_from_slice(EVENTS)
}

#[tactic(auto, unfolding(crate::specs::Metrics::users_samples))]
fn put_all_users(out: &mut Vec<u8>, users: &[UserStatus]) -> Result<(), AllocError>
    ensures { OnOk result (out.new.items ≡ out.old.items ++ users_samples users.now) }
{
    put_user_count(out, users.len())?;
    put_users(out, users)
}

#[tactic(auto, unfolding(crate::specs::Metrics::info_samples))]
fn put_infos(out: &mut Vec<u8>, calls: &[CallStatus]) -> Result<(), AllocError>
    ensures { OnOk result (out.new.items ≡ out.old.items ++ info_samples calls.now) }
{
    put_call_count(out, calls.len())?;
    put_calls(out, calls)
}

#[tactic(auto, unfolding(crate::specs::Metrics::flow_samples))]
fn put_flows(out: &mut Vec<u8>, calls: &[CallStatus]) -> Result<(), AllocError>
    ensures { OnOk result (out.new.items ≡ out.old.items ++ flow_samples calls.now) }
{
    put_datagrams_heading(out)?;
    put_datagrams(out, calls)
}

#[tactic(auto, unfolding(crate::specs::Metrics::calls_samples))]
fn put_all_calls(out: &mut Vec<u8>, calls: &[CallStatus]) -> Result<(), AllocError>
    ensures { OnOk result (out.new.items ≡ out.old.items ++ calls_samples calls.now) }
{
    put_infos(out, calls)?;
    put_flows(out, calls)
}

#[tactic(auto, unfolding(crate::specs::Metrics::events_samples))]
fn put_all_events(out: &mut Vec<u8>, events: &[EventCount]) -> Result<(), AllocError>
    ensures { OnOk result (out.new.items ≡ out.old.items ++ events_samples events.now) }
{
    put_events_heading(out)?;
    put_events(out, events)
}

#[tactic(auto, unfolding(crate::specs::Metrics::number_samples))]
fn put_numbers(out: &mut Vec<u8>, status: &Status) -> Result<(), AllocError>
    ensures { OnOk result (out.new.items ≡ out.old.items ++ number_samples status.now) }
{
    put_datagram_counts(out, status.datagrams)?;
    put_pairs(out, status.pairs, status.transactions)?;
    put_all_events(out, status.events.as_slice())
}

/// Appends the metrics, in ASCII. If memory runs out, a part may be written.
#[tactic(auto, unfolding(crate::specs::Metrics::metrics_text))]
pub fn put_metrics(out: &mut Vec<u8>, overview: Overview<'_>) -> Result<(), AllocError>
    ensures { OnOk result (out.new.items ≡ out.old.items ++ metrics_text overview.entry) }
{
    put_server(out, overview)?;
    put_all_users(out, overview.status.users.as_slice())?;
    put_all_calls(out, overview.status.calls.as_slice())?;
    put_numbers(out, overview.status)
}
