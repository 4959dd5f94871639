//! The list of users that the agent has yet to take.

ghost use Rattle.std.specs.Prelude.{◌≡◌, ◌+◌, ℕ, true, false, None, Some, is_some, length, option_map, IfOk, OnErr};
ghost use Rattle.live_users.specs.Waiting.{due_at, handed_in, put_off, settled, taken, wanting};

use crate::lists::keep_all;
use std::alloc::{AllocError, Global};
use std::marker::Model;
use text::Texts;

/// Users that the agent could not take are handed in again after this many milliseconds.
const BETWEEN_TRIES: u64 = 1_000;

/// A list of users that the agent took: how many it added and removed, and how many there are.
#[derive(Clone, Copy)]
pub struct UsersChange {
    pub added: usize,
    pub removed: usize,
    pub count: usize,
}

/// The users that the agent shall have, where it has others.
pub struct WaitingUsers {
    alloc: Global,
    wanted: Option<Texts<'static>>,
    added: usize,
    removed: usize,
    /// Whether they were handed in for the round that goes on.
    are_handed_in: bool,
    /// When they may be handed in next, in milliseconds.
    next_try: u64,
}

impl Drop for WaitingUsers {
    fn drop(self) {
        let WaitingUsers {
            alloc: _,
            wanted: _,
            added: _,
            removed: _,
            are_handed_in: _,
            next_try: _,
        } = self;
    }
}

impl Model for WaitingUsers {
    ghost use Rattle.live_users.specs.Waiting.{Contents};

    ghost Value = { Contents };

    ghost view = { λ w. record { wanted = w.wanted; added = w.added; removed = w.removed; are_handed_in = w.are_handed_in; next_try = w.next_try } };
}

impl WaitingUsers {
    /// No list waits. Takes no memory.
    pub fn new(alloc: Global) -> WaitingUsers
        ensures wanted { result.wanted ≡ None }
        ensures counts { (result.added ≡ 0) × (result.removed ≡ 0) }
        ensures not_yet { result.are_handed_in ≡ false }
    {
        WaitingUsers {
            alloc,
            wanted: None,
            added: 0,
            removed: 0,
            are_handed_in: false,
            next_try: 0,
        }
    }

    /// The agent should have these users; this many were added to the list before, and this many removed from it. They
    /// may be handed in at once. A count that has reached 2^64 - 1 stays there. Takes no memory.
    pub fn want(&mut self, users: Texts<'static>, added: usize, removed: usize)
        ensures { self.new ≡ wanting self.old users.entry added removed }
    {
        self.wanted = Some(users);
        self.added = self.added.saturating_add(added);
        self.removed = self.removed.saturating_add(removed);
        self.next_try = 0;
        self.lose();
    }

    /// The users to be handed in at this moment, in milliseconds, if there are any. They may be handed in again a
    /// second later.
    pub fn hand_in(&mut self, now: u64) -> Result<Option<Texts<'static>>, AllocError>
        ensures due { IfOk result (λ users. users ≡ due_at now self.old) }
        ensures handed { IfOk result (λ users. self.new ≡ handed_in now self.old) }
        ensures err { OnErr result (self.new ≡ put_off now self.old) }
    {
        let Some(wanted) = &self.wanted else {
            return Ok(None);
        };
        if now < self.next_try {
            return Ok(None);
        }
        self.next_try = now.saturating_add(BETWEEN_TRIES);
        let users = keep_all(self.alloc, wanted.as_slice())?;
        self.are_handed_in = true;
        Ok(Some(Texts::from_vec(users)))
    }

    /// A round is over that lost its event or had none: what was handed in for it wasn't taken. Takes no memory.
    pub fn lose(&mut self)
        ensures { self.new ≡ record self.old { are_handed_in = false } }
    {
        self.are_handed_in = false;
    }

    /// The agent took the event of a round: the change of its users, if any were handed in for that. Takes no memory.
    pub fn settle(&mut self) -> Option<UsersChange>
        ensures change { result ≡ taken self.old }
        ensures waiting { self.new ≡ settled self.old }
    {
        if !self.are_handed_in {
            return None;
        }
        self.lose();
        let users = self.wanted.take()?;
        let change = UsersChange {
            added: self.added,
            removed: self.removed,
            count: users.as_slice().len(),
        };
        self.added = 0;
        self.removed = 0;
        Some(change)
    }
}
