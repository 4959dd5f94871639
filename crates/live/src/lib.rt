//! The live server between its sockets and its clock: each event goes through the agent, its changes of the relay
//! table are published, and then what it sends goes out. Sockets, clock and stop flag are passed in.
#![tactic(auto)]

mod buffer;
mod news;
mod news_log;
mod number_log;
mod report;
mod report_log;
mod round;
mod salt;
mod service;
mod signalling;
mod streaks;
mod trouble;
mod turn;
mod wire;

pub use buffer::{DatagramBuffer, datagram_buffer};
pub use news::News;
pub use news_log::NewsLog;
pub use number_log::NumberLog;
pub use report::Report;
pub use report_log::ReportLog;
pub use round::Round;
pub use salt::{
    next_print_key, next_salt, salts_have_their_own_places, salts_of, starts_have_their_own_places,
};
pub use service::{Clock, serve};
pub use signalling::Signalling;
pub use streaks::{End, Streaks};
pub use trouble::{Operator, Trouble};
pub use turn::{Turned, live_turn};
pub use wire::{Wire, WireFault};
