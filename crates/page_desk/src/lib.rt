//! What the page shows of a server that runs: both ends of the rings between the signalling, which never waits for the
//! page, and the page's thread. Moments, in milliseconds since the server's start, are handed in.
#![tactic(auto)]

mod ends;
mod last_lines;
mod latest;
mod page_desk;
mod status_desk;

pub use ends::desks;
pub use last_lines::LastLines;
pub use page_desk::PageDesk;
pub use status_desk::StatusDesk;
