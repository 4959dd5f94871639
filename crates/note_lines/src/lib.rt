//! The log's words: a line for what an event was about, and the live calls, as lines name them. The agent's values,
//! moments in milliseconds and the counts of media are handed in.
#![tactic(auto)]

mod call_lines;
mod call_notes;
mod holds;
mod ledger;
mod lines;
mod media_counts;
mod noted_event;
mod notes;
mod reasons;
mod registrations;

pub use ledger::Ledger;
pub use media_counts::MediaCounts;
pub use noted_event::NotedEvent;
pub use notes::{put_count, put_note, put_silent_way};
