//! The state of a server at a moment.

use crate::call::CallStatus;
use crate::entries::Entries;
use crate::user::UserStatus;
use port_pool::PairCounts;
use text::Text;

/// How many events of a kind there were.
#[derive(Clone, Copy, Debug)]
pub struct EventCount {
    /// The name in the line of counts: lower-case letters and `_`.
    pub kind: &'static str,
    pub count: u64,
}

/// How many datagrams of media came from callers, and how many from callees, since the server's start.
#[derive(Clone, Copy, Debug)]
pub struct DatagramCounts {
    pub from_callers: u64,
    pub from_callees: u64,
}

/// The state of a server at a moment.
pub struct Status {
    /// In milliseconds since the start.
    pub moment: u64,
    /// In the order of the configuration.
    pub users: Entries<UserStatus>,
    /// In the order in which they began.
    pub calls: Entries<CallStatus>,
    pub pairs: PairCounts,
    /// How many server transactions there are.
    pub transactions: usize,
    pub events: Entries<EventCount>,
    pub datagrams: DatagramCounts,
}

impl Drop for Status {
    fn drop(self) {
        let Status {
            moment: _,
            users: _,
            calls: _,
            pairs: _,
            transactions: _,
            events: _,
            datagrams: _,
        } = self;
    }
}

/// Everything that a page shows, lent.
#[derive(Clone, Copy)]
pub struct Overview<'a> {
    /// The server's version.
    pub version: &'static str,
    /// When the server started, in seconds since 1970.
    pub started: u64,
    pub status: &'a Status,
    /// The last lines of the log, oldest first, without their ends.
    pub log: &'a [Text<'static>],
}
