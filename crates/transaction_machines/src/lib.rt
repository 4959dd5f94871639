//! The machines of transactions (RFC 3261 section 17, with the Accepted states of RFC 6026): for a state and an input
//! the next state, what is sent, what is reported to the core, and which timers stop and start. Nothing here knows
//! about a message's bytes, a clock, or more than one transaction.
#![tactic(auto)]

mod input;
mod invite_client;
mod invite_server;
mod other_client;
mod other_server;
mod state;
mod step;

pub use input::{Input, TimerKind};
pub use invite_client::InviteClient;
pub use invite_server::InviteServer;
pub use other_client::OtherClient;
pub use other_server::OtherServer;
pub use state::{State, advance, is_server};
pub use step::{LIMIT, Sending, Start, Starts, Step, Stops, T1, T2, Told};
