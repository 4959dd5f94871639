//! The sockets of a server: one for SIP and one at each relay port, what waits for them, and notes of what they took
//! and sent, only for clauses. Also standard error, as a thread writes to it. It knows no messages and no calls.
#![tactic(auto)]

mod addresses;
mod error_stream;
mod last_call;
mod last_words;
mod log;
mod media;
mod number_log;
mod part_log;
mod ports;
mod ready;
mod refusals;
mod room;
mod sip_socket;
mod tries;
mod unbound;
mod waiter;
mod workers;

pub use error_stream::ErrorStream;
pub use last_words::LastWords;
pub use media::MediaSockets;
pub use ports::{RelaySockets, Sockets, bind, worker_count};
pub use refusals::{Refusal, Refusals};
pub use sip_socket::SipSocket;
pub use unbound::Unbound;
pub use workers::workers_of;
