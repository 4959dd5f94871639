//! Numbers under what they are looked up by: those of a print are found by binary search.
#![tactic(auto)]

mod buckets;
mod entries;
mod index;
mod print;

pub use buckets::Buckets;
pub use index::{Entry, Index};
pub use print::PrintKey;
