//! Numbers, each under a print.

ghost use Rattle.std.specs.Prelude.{ℕ, ◌≡◌, ◌+◌, ◌<◌, ◌≤◌, [], OnOk, IsOk, map, length, if◌then◌else◌, nat_eq};
ghost use Rattle.index.specs.Entries.{numbers_of, of_print};
ghost use Rattle.index.specs.Numbers.{put_number, remove_number};

use crate::entries;
use std::alloc::{AllocError, Global};
use std::marker::Model;

/// A number, and the print that it is under.
#[derive(Clone, Copy, PartialEq, Eq)]
pub struct Entry {
    pub print: u64,
    pub number: usize,
}

/// Numbers under prints: to look something up, make a print of it and check only the numbers under that print.
#[derive(Drop)]
pub struct Index {
    entries: Vec<Entry>,
}

impl Model for Index {
    ghost use Rattle.std.specs.Prelude.{vec_len, ◌-◌};
    ghost use Rattle.std.specs.Vec.{vec_capacity};
    ghost use Rattle.index.specs.Numbers.{Indexed};
    ghost use Rattle.index.specs.Entries.{EntriesRise};

    ghost Value = { Indexed };

    ghost view = { λ i. record {
      entries = i.entries.items;
      room = vec_capacity i.entries - vec_len i.entries;
    } };

    ghost invariant = { λ i. EntriesRise i.entries.items };
}

impl Index {
    /// An index without numbers. Takes no memory.
    pub fn new(alloc: Global) -> Self
        ensures { result.entries ≡ [] }
    {
        Index {
            entries: Vec::new(alloc),
        }
    }

    /// The numbers of a print, the least first, with that print. Takes no memory.
    pub fn numbers(&self, print: u64) -> &[Entry]
        ensures entries { result.now ≡ of_print self.now.entries print }
        ensures numbers { map (λ e. e.number) result.now ≡ numbers_of self.now.entries print }
    {
        entries::of_print(&self.entries, print)
    }

    /// Makes room for `n` more numbers, or fails because memory ran out. It changes no number.
    pub fn reserve(&mut self, n: usize) -> Result<(), AllocError>
        ensures entries { self.new.entries ≡ self.old.entries }
        ensures ok { OnOk result (n ≤ self.new.room) }
        ensures enough { n ≤ self.old.room → IsOk result }
        ensures room { self.old.room ≤ self.new.room }
    {
        self.entries.reserve(n)
    }

    /// Puts a number under a print. There is room for it, so this takes no memory.
    pub fn put(&mut self, print: u64, number: usize)
        requires { 0 < self.old.room }
        ensures numbers { (other : ℕ) → numbers_of self.new.entries other ≡
            (if nat_eq other print then put_number (numbers_of self.old.entries print) number else numbers_of self.old.entries other) }
        ensures room { self.old.room ≤ self.new.room + 1 }
    {
        entries::put(&mut self.entries, Entry { print, number });
    }

    /// Removes a number from under a print, if it is there. Takes no memory.
    pub fn remove(&mut self, print: u64, number: usize)
        ensures numbers { (other : ℕ) → numbers_of self.new.entries other ≡
            (if nat_eq other print then remove_number (numbers_of self.old.entries print) number else numbers_of self.old.entries other) }
        ensures room { length (numbers_of self.old.entries print) + self.old.room ≤ length (numbers_of self.new.entries print) + self.new.room }
    {
        entries::remove(&mut self.entries, Entry { print, number });
    }
}
