//! What goes into the server and what comes out of it: events, and datagrams to send. These are only values: the
//! moments and the salts are passed in, and nothing here reads a clock, draws a number or knows of SIP.
#![tactic(auto)]

mod event;
mod sent;

pub use event::{Event, What};
pub use sent::Sent;
