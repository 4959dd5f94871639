//! The lines of the log on their way to standard error: ends that pass lines on and never wait, and the end of the
//! thread that writes them. Lines that find no room are counted, and the count is told once there is room.
#![tactic(auto)]

mod ends;
mod log_lines;
mod log_writer;
mod lost_line;

pub use ends::{LogPipe, log_pipe_ends};
pub use log_lines::LogLines;
pub use log_writer::LogWriter;
