//! The agent: what the server does with each datagram and each due timer, as one value. A step plans everything first
//! and changes everything last, and keeps the media promise. Nothing here knows about sockets, clocks or threads.
#![tactic(auto)]

mod acks;
mod agent;
mod commit;
mod latest_moment;
mod moments;
mod new_agent;
mod run;

pub use agent::Agent;
pub use event_rows::Tally;
pub use plans::{CallRule, KeptAck, Reply, Taken, Why};
pub use run::{Entry, Trace};
