//! At most ten of the events that strangers cause are logged in a second.

ghost use Rattle.std.specs.Prelude.{◌≡◌, ◌-◌, ◌/◌, ◌≤◌, ◌==◌, ℕ, List, [], nat_lt, if◌then◌else◌};
ghost use Rattle.log_rules.specs.NoteLimits.{Follows, after_question, logged_in, most_logged, with_logged};

use std::marker::Model;

/// This many in a second.
const MOST_LOGGED: u32 = 10;

/// How many events that strangers caused were logged in a second, and how many were left out since that was logged.
#[derive(Drop)]
pub struct NoteLimit {
    second: u64,
    logged: u32,
    left_out: u64,
}

impl Model for NoteLimit {
    ghost use Rattle.log_rules.specs.NoteLimits.{Contents};

    ghost Value = { Contents };

    ghost view = { λ l. record { second = l.second; logged = l.logged; left_out = l.left_out } };

    ghost use Rattle.std.specs.Prelude.{◌≤◌};
    ghost use Rattle.log_rules.specs.NoteLimits.{most_logged};

    ghost invariant = { λ l. l.logged ≤ most_logged };
}

impl NoteLimit {
    /// Nothing was logged. Takes no memory.
    pub fn new() -> NoteLimit
        ensures none { Follows [] result }
        ensures left_out { result.left_out ≡ 0 }
    {
        NoteLimit {
            second: 0,
            logged: 0,
            left_out: 0,
        }
    }

    /// How many were logged in this second.
    fn logged_in(&self, second: u64) -> u32
        ensures { result ≡ logged_in second self.now }
    {
        if second == self.second {
            self.logged
        } else {
            0
        }
    }

    /// Whether an event of this moment, in milliseconds, is logged. One that isn't is counted, up to 2^64 - 1. Takes no
    /// memory.
    pub fn admits(&mut self, now: u64) -> bool
        ensures admitted { result ≡ nat_lt (logged_in (now / 1000) self.old) most_logged }
        ensures limit { self.new ≡ after_question now self.old }
        // Of the events logged before, fewer than ten were of this second.
        ensures follows { (moments : List ℕ) → Follows moments self.old → self.old.second ≤ now / 1000
            → Follows (with_logged result now moments) self.new }
    {
        let second = now / 1000;
        let logged = self.logged_in(second);
        self.second = second;
        if logged < MOST_LOGGED {
            self.logged = logged + 1;
            true
        } else {
            self.logged = logged;
            self.left_out = self.left_out.saturating_add(1);
            false
        }
    }

    /// How many were left out, which are not counted again; none while this moment, in milliseconds, is in the second
    /// of the last question. Takes no memory.
    pub fn take_left_out(&mut self, now: u64) -> u64
        ensures count { result ≡ (if now / 1000 == self.old.second then 0 else self.old.left_out) }
        ensures limit { self.new ≡ record self.old { left_out = self.old.left_out - result } }
    {
        if now / 1000 == self.second {
            return 0;
        }
        let left_out = self.left_out;
        self.left_out = 0;
        left_out
    }
}
