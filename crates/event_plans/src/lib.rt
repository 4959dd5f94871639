//! The plan of an event: which rule a datagram or a due timer meets, by the order of checks, and what that results
//! in. It reads a borrowed office, and changes nothing.
#![tactic(auto)]

mod due;
mod rows;
mod rule;
mod rules;
mod unread;

pub use rows::plan_event;
