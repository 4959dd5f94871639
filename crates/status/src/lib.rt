//! The state of a server at a moment, as values that know nothing of messages and sockets: who is bound where, which
//! calls are live, and how close the limits are. Moments are in milliseconds since the server's start.
#![tactic(auto)]

mod call;
mod entries;
mod status;
mod user;

pub use call::{CallPhase, CallStatus, CallTraffic, Direction, Flow, MediumStatus};
pub use entries::Entries;
pub use status::{DatagramCounts, EventCount, Overview, Status};
pub use user::{BindingStatus, UserStatus};
