//! The live calls: each with what the server keeps for it, in the order in which they began, and the pool of ports
//! that serves them. Each call has a number of its own, and what one does spares all others. Nothing here knows about
//! bytes, the order of checks, or sockets.
#![tactic(auto)]

mod beside;
mod call_timers;
mod carry_out;
mod change;
mod entry;
mod lookup;
mod standing_call;
mod state;
mod tags;
mod timer_id;

pub use change::{Beside, CallChange, LegDialog};
pub use standing_call::{OfferRequest, StandingCall, TakenOffer, offerer_of};
pub use state::Calls;
pub use timer_id::CallTimerId;
