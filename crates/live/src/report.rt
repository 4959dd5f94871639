//! What an operator is asked and told, for clauses.

use crate::trouble::Trouble;
use agent::Agent;
use sip_uri::Addr;
use std::snapshot::Snapshot;

/// What an operator is asked or told. Moments are in milliseconds. A program learns nothing from this: an operator
/// notes it in a `ReportLog`.
#[derive(Drop)]
pub enum Report {
    /// It is asked for news at this moment.
    Asked(u64),
    /// A kind of trouble begins.
    Begins(Trouble),
    /// A kind of trouble is over.
    Ends(Trouble),
    /// The agent, as it is now, took an event at this moment: a datagram from this source, if there is one.
    Noted(Snapshot<Agent>, Option<Addr>, u64),
    /// A round took no event at this moment, and the agent is as it is now.
    Looked(Snapshot<Agent>, u64),
}
