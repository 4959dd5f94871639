//! All connections.

ghost use Rattle.std.specs.Prelude.{◌≡◌, ◌+◌, ◌<◌, ◌≤◌, ◌++◌, ◌∷◌, [], ℕ, length, nat_le, All, OnOk, OnErr, map};
ghost use Rattle.page_server.specs.Connections.{IsBriefNow, IsTimelyNow, held_of};
ghost use Rattle.page_server.specs.Held.{AreLeft, IsBrief, IsTimely, max_connections};

use crate::connection::{Connection, is_waiting, turn};
use crate::source::PageSource;
use std::alloc::{AllocError, Global};
use std::marker::Model;
use std::mem;

/// The maximum number of connections at once.
const MAX_CONNECTIONS: usize = 32;

/// All connections, up to the maximum.
#[derive(Drop)]
pub(crate) struct Connections {
    all: Vec<Connection>,
}

impl Model for Connections {
    ghost use Rattle.std.specs.Prelude.{◌≤◌, List, length, map};
    ghost use Rattle.page_server.specs.Connections.{held_of};
    ghost use Rattle.page_server.specs.Held.{Held, max_connections};

    ghost Value = { List Held };

    ghost view = { λ c. map held_of c.all.items };

    ghost invariant = { λ c. length c.all.items ≤ max_connections };
}

/// One more, after the others. If memory is refused, it is dropped.
fn keep(kept: &mut Vec<Connection>, connection: Connection) -> Result<(), AllocError>
    ensures ok { OnOk result (kept.new.items ≡ kept.old.items ++ connection ∷ []) }
    ensures err { OnErr result (kept.new.items ≡ kept.old.items) }
    ensures timely { (now : ℕ) → All (IsTimelyNow now) kept.old.items → IsTimelyNow now connection
        → All (IsTimelyNow now) kept.new.items }
    ensures brief { (now : ℕ) → All (IsBriefNow now) kept.old.items → IsBriefNow now connection
        → All (IsBriefNow now) kept.new.items }
    ensures most { length kept.new.items ≤ length kept.old.items + 1 }
{
    match kept.push(connection) {
        Ok(()) => Ok(()),
        Err(refused) => {
            drop(refused);
            Err(AllocError)
        }
    }
}

/// Does what can be done at each of these now, and returns those that are left.
fn turn_all<S: PageSource>(
    alloc: Global,
    source: &mut S,
    before: Vec<Connection>,
    now: u64,
) -> Vec<Connection>
    ensures timely { All (IsTimelyNow now) result.items }
    ensures brief { All (IsBriefNow now) result.items }
    ensures kept { AreLeft now (map held_of before.items) (map held_of result.items) }
    ensures fewer { length result.items ≤ length before.items }
{
    let mut kept = Vec::new(alloc);
    for connection in before {
        if let Some(left) = turn(alloc, source, connection, now) {
            let _ = keep(&mut kept, left);
        }
    }
    kept
}

impl Connections {
    /// No connections. Takes no memory.
    pub(crate) fn new(alloc: Global) -> Connections
        ensures { result ≡ [] }
    {
        Connections {
            all: Vec::new(alloc),
        }
    }

    /// Whether there are as many as there may be.
    pub(crate) fn are_full(&self) -> bool
        ensures { result ≡ nat_le max_connections (length self.now) }
    {
        self.all.len() >= MAX_CONNECTIONS
    }

    /// Whether the page of one is being made.
    pub(crate) fn are_waiting(&self) -> bool {
        self.all.iter().any(is_waiting)
    }

    /// One more. If memory is refused, it is dropped.
    pub(crate) fn add(&mut self, connection: Connection) -> Result<(), AllocError>
        requires { length self.old < max_connections }
        ensures ok { OnOk result (self.new ≡ self.old ++ held_of connection ∷ []) }
        ensures err { OnErr result (self.new ≡ self.old) }
    {
        keep(&mut self.all, connection)
    }

    /// Does what can be done at each now. Those that are left have been at their stages, and have lasted, for less than
    /// their limits.
    pub(crate) fn turn<S: PageSource>(&mut self, alloc: Global, source: &mut S, now: u64)
        ensures timely { All (IsTimely now) self.new }
        ensures brief { All (IsBrief now) self.new }
        ensures kept { AreLeft now self.old self.new }
        ensures fewer { length self.new ≤ length self.old }
        ensures few { length self.new ≤ max_connections }
    {
        let before = mem::replace(&mut self.all, Vec::new(alloc));
        self.all = turn_all(alloc, source, before, now);
    }
}
