//! The call server between the bytes of its files and streams: what a command line asks for, what is sent for a
//! datagram, and what is sent at the events of a script. A script is read whole or bit by bit, and the state at its
//! end is written. `serve` picks the configuration that is served on sockets, which are passed in.
#![tactic(auto)]

mod agents;
mod command_line;
mod day;
mod ending;
mod fault;
mod host;
mod input;
mod output;
mod reason;
mod service;
mod shelf;
mod single;
mod state;
mod stream;
mod turns;
mod version;
mod words;

pub use command_line::run;
pub use day::replay;
pub use ending::Ending;
pub use fault::Fault;
pub use host::{Host, HostFault};
pub use input::read_datagram;
pub use reason::Reason;
pub use service::serve;
pub use shelf::Shelf;
pub use single::once;
pub use stream::follow;
pub use version::VERSION;
pub use words::{Asked, CommandError, command};
