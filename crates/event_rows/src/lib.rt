//! The order of checks: which rule a datagram or a due timer meets, what that results in, and the agent that it
//! leaves, as definitions over the plans; how many events got each answer. Nothing here knows about sockets, clocks
//! or threads.
#![tactic(auto)]

mod tally;

pub use tally::Tally;
