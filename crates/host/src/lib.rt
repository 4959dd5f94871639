//! The system as `live` and `server` ask for it: its clock, its files, its file descriptors and its socket for SIP, and
//! what a start says.
#![tactic(auto)]

mod announcement;
mod descriptors;
mod disk;
mod refusal;
mod sip_wire;
mod system_clock;
mod worker_counts;

pub use announcement::{Announcement, Announcer, warning};
pub use descriptors::{TooFewDescriptors, lacks_descriptors};
pub use disk::{Disk, Opened};
pub use refusal::{Refusal, fault_of};
pub use sip_wire::SipWire;
pub use system_clock::SystemClock;
pub use worker_counts::WorkerCounts;
