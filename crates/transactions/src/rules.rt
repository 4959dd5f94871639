//! The rules of a table.

/// The rules of a table.
#[derive(Clone, Copy)]
pub struct TableRules {
    /// How many milliseconds an INVITE of the server's own that begins a dialog waits for its first response, at most
    /// 64*T1 (timer B, RFC 3261 section 17.1.1.2).
    pub first_wait: u64,
    /// The most live server transactions whose requests came from one address; none where no address has a limit of
    /// its own.
    pub share: Option<usize>,
}
