//! The traffic of calls: how many datagrams came from each end of a call, from which end none come, and in which
//! calls none do. Moments, in milliseconds, are passed in, and a `PortCounter` gives the counts of the relay's ports:
//! no clock and no socket is read.
#![tactic(auto)]

mod call_traffic;
mod end_traffic;
mod facing;
mod following;
mod media_log;
mod port_counter;
mod reading_log;
mod recent;
mod relay_port;
mod silent_way;
mod sources;
mod stillness;
mod traffic_log;
mod way;

pub use call_traffic::CarriedMedia;
pub use media_log::MediaLog;
pub use port_counter::PortCounter;
pub use reading_log::ReadingLog;
pub use silent_way::SilentWay;
pub use stillness::Stillness;
