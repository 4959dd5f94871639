//! The state of a server at a moment.

ghost use Rattle.std.specs.Prelude.{◌≡◌, map, IfOk};
ghost use Rattle.port_pool.specs.PairCounts.{pair_counts};
ghost use Rattle.transactions.specs.Slots.{serving};
ghost use Rattle.agent_status.specs.Calls.{call_status};
ghost use Rattle.agent_status.specs.Events.{event_counts, shown_count};
ghost use Rattle.agent_status.specs.Users.{user_status};

use crate::kinds::event_counts;
use crate::standing_calls::call_statuses;
use crate::users::user_statuses;
use agent::Agent;
use status::{CallTraffic, DatagramCounts, Entries, Status};
use std::alloc::{AllocError, Global};

/// The state of this agent's server at a moment, in milliseconds. Its users and calls are those of the agent's
/// registrar and calls, and its pairs those of the pool. What was counted of the calls, and of media in all, is
/// passed in.
pub fn status_of(
    alloc: Global,
    agent: &Agent,
    traffic: &[CallTraffic],
    datagrams: DatagramCounts,
    now: u64,
) -> Result<Status, AllocError>
    ensures moment { IfOk result (λ status. status.moment ≡ now) }
    ensures users { IfOk result (λ status. status.users ≡ map (user_status now) agent.now.registrar.entries) }
    ensures calls { IfOk result (λ status. status.calls ≡ map (λ c. call_status traffic.now c.call) agent.now.calls.calls) }
    ensures pairs { IfOk result (λ status. status.pairs ≡ pair_counts now agent.now.calls.pool.holdings) }
    ensures transactions { IfOk result (λ status. status.transactions ≡ serving agent.now.table.slots) }
    ensures events { IfOk result (λ status. map shown_count status.events ≡ event_counts agent.now.tally) }
    ensures datagrams { IfOk result (λ status. status.datagrams ≡ datagrams) }
{
    let users = user_statuses(alloc, agent.registrar().users(), now)?;
    let calls = call_statuses(alloc, agent.calls(), traffic)?;
    let events = event_counts(alloc, agent.tally())?;
    Ok(Status {
        moment: now,
        users: Entries::from_vec(users),
        calls: Entries::from_vec(calls),
        pairs: agent.pair_counts(now),
        transactions: agent.serving_count(),
        events: Entries::from_vec(events),
        datagrams,
    })
}
