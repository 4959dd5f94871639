//! Pairs of ports that relay media, the calls that hold them, and the relay table: where the datagrams of each port
//! go.
//!
//! A call is known only by its number. No port ever serves two calls, no row outlives the call's hold of its port,
//! and a pair that was freed rests before it serves again.
#![tactic(auto)]

mod changes;
mod error;
mod holdings;
mod hop;
mod pair;
mod pair_counts;
mod places;
mod pool;
mod relay_line;
mod relay_table;

pub use changes::Change;
pub use error::PoolError;
pub use hop::Hop;
pub use pair::Pair;
pub use pair_counts::PairCounts;
pub use pool::Pool;
pub use relay_line::RelayLine;
pub use relay_table::RelayTable;
