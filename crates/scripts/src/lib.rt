//! Scripts: the text form of a day's events, and of what the server sends, notes and relays.
//!
//! A line `D now salt ip port length` is followed by that many bytes and a line feed: a datagram. A line `T now salt`
//! is a due timer. A line `Q now salt number` says that for a long time no media have come in the call of this
//! number. A line `U now salt names` says that the users with these names, one or more, are the office's from now on.
//! Names are separated by one comma, and a name is any bytes but a comma and a line feed, or none. Numbers are
//! decimal, without a sign. Fields are separated by one space.
#![tactic(auto)]

mod entry;
mod error;
mod first;
mod head;
mod number;
mod read;
mod write;

pub use error::ScriptError;
pub use first::first_event;
pub use number::number_of;
pub use read::{malformed_at, read_script};
pub use write::{put_call, put_hop, put_sent};
