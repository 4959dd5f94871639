//! The relay table as media threads see it: one writer publishes lists of changes, and each worker looks ports up in
//! the table that was published last, without waiting.
#![tactic(auto)]

mod board;
mod changes;
mod counts;
mod hop_lookup;
mod rule;
mod serve;
mod socket;
mod table_value;
mod viewer;
mod worker;

pub use board::{Board, Refused, Unopened};
pub use changes::Changes;
pub use counts::{Counter, EachPort, PortCounts, Ports};
pub use hop_lookup::{Out, forward};
pub use serve::serve_media;
pub use socket::{MediaSocket, SocketFault};
pub use viewer::{Sight, Sighted, Stamp, TableReader, Viewer};
pub use worker::{Turn, TurnFault, Worker};
