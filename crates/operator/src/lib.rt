//! What the operator of a server is told: events and trouble as lines of the log, users that the file adds or removes,
//! silent calls, and the page's snapshots. Moments, in milliseconds since the server's start, are handed in.
#![tactic(auto)]

mod event_log;
mod office_operator;
mod snapshot;
mod tally;

pub use event_log::EventLog;
pub use office_operator::{Desks, OfficeOperator};
pub use tally::tally_line;
