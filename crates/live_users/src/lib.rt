//! The users of a configuration's file while the server runs. A thread looks at the file, and hands over its other
//! users and the line to be logged. The signalling takes these news, and hands the users in until the agent has them.
//! Moments, in milliseconds, are handed in.
#![tactic(auto)]

mod ends;
mod file_look;
mod file_thread;
mod file_watch;
mod found;
mod lists;
mod news;
mod report;
mod user_desk;
mod user_file;
mod waiting_users;

pub use ends::{FileEnds, file_ends};
pub use file_thread::FileThread;
pub use file_watch::{FileWatch, Look};
pub use found::Found;
pub use news::{FileNews, OtherUsers};
pub use report::FileReport;
pub use user_desk::UserDesk;
pub use user_file::UserFile;
pub use waiting_users::{UsersChange, WaitingUsers};
