//! The state of a server at a moment, from what its agent knows.
#![tactic(auto)]

mod kinds;
mod media;
mod of_agent;
mod standing_calls;
mod users;

pub use of_agent::status_of;
