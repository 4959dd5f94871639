//! What the log leaves out: which events a level logs, how many of those that strangers cause, and when counts are
//! logged. Moments, in milliseconds, are handed in.
#![tactic(auto)]

mod count_schedule;
mod levels;
mod note_limit;

pub use count_schedule::CountSchedule;
pub use levels::{is_of_strangers, logs_calls, logs_note, logs_trouble};
pub use note_limit::NoteLimit;
