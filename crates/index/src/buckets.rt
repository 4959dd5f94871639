//! Numbers under prints in buckets.

ghost use Rattle.std.specs.Prelude.{ℕ, ◌≡◌, ◌+◌, ◌%◌, ◌<◌, ◌≤◌, [], OnOk, IsOk, map, length, if◌then◌else◌, nat_eq};
ghost use Rattle.index.specs.Buckets.{HaveRoom, bucket_at, bucket_count, numbers_in};
ghost use Rattle.index.specs.Entries.{of_print};
ghost use Rattle.index.specs.Numbers.{put_number, remove_number};

use crate::index::{Entry, Index};
use std::alloc::{AllocError, Global};
use std::marker::Model;

/// How many buckets there are, once there is room for a number.
const BUCKETS: usize = 64;

/// For how many numbers each bucket makes room when it makes room at all, so that this is seldom needed.
const SPARE: usize = 32;

/// Numbers under prints, as an `Index` has them. They are in buckets by their prints, so that a change moves only the
/// numbers of one bucket. Room that a number took is not released when the number is removed.
#[derive(Drop)]
pub struct Buckets {
    buckets: Vec<Index>,
    /// The least number of further numbers that each bucket takes without memory.
    room: usize,
}

impl Model for Buckets {
    ghost use Rattle.std.specs.Prelude.{◌<◌, ◌≤◌, length};
    ghost use Rattle.index.specs.Buckets.{Bucketed, HaveRoom, bucket_count};

    ghost Value = { Bucketed };

    ghost view = { λ b. record { buckets = b.buckets.items; room = b.room } };

    ghost invariant = { λ b. (length b.buckets.items ≤ bucket_count) × (0 < b.room → bucket_count ≤ length b.buckets.items) × HaveRoom b.room b.buckets.items };
}

impl Buckets {
    /// An index without numbers. Takes no memory.
    pub fn new(alloc: Global) -> Self
        ensures { result.buckets ≡ [] }
    {
        Buckets {
            buckets: Vec::new(alloc),
            room: 0,
        }
    }

    /// The numbers of a print, the least first, with that print. Takes no memory.
    pub fn numbers(&self, print: u64) -> &[Entry]
        ensures entries { result.now ≡ of_print (bucket_at self.now.buckets (print % bucket_count)).entries print }
        ensures numbers { map (λ e. e.number) result.now ≡ numbers_in self.now.buckets print }
    {
        match self.buckets.get(bucket_of(print)) {
            Some(bucket) => bucket.numbers(print),
            None => &[],
        }
    }

    /// Makes room for `n` more numbers, or fails because memory ran out. It changes no number.
    pub fn reserve(&mut self, n: usize) -> Result<(), AllocError>
        ensures numbers { (print : ℕ) → numbers_in self.new.buckets print ≡ numbers_in self.old.buckets print }
        ensures ok { OnOk result (n ≤ self.new.room) }
        ensures enough { n ≤ self.old.room → IsOk result }
        ensures room { self.old.room ≤ self.new.room }
    {
        if n > self.room {
            self.make_room(n.max(SPARE))?;
        }
        Ok(())
    }

    fn make_room(&mut self, n: usize) -> Result<(), AllocError>
        requires { self.old.room < n }
        ensures numbers { (print : ℕ) → numbers_in self.new.buckets print ≡ numbers_in self.old.buckets print }
        ensures ok { OnOk result (n ≤ self.new.room) }
        ensures room { self.old.room ≤ self.new.room }
    {
        make_buckets(&mut self.buckets)?;
        reserve_each(&mut self.buckets, n)?;
        self.room = n;
        Ok(())
    }

    /// Puts a number under a print. There is room for it, so this takes no memory.
    pub fn put(&mut self, print: u64, number: usize)
        requires { 0 < self.old.room }
        ensures numbers { (other : ℕ) → numbers_in self.new.buckets other ≡
            (if nat_eq other print then put_number (numbers_in self.old.buckets print) number else numbers_in self.old.buckets other) }
        ensures room { self.old.room ≤ self.new.room + 1 }
    {
        self.buckets[bucket_of(print)].put(print, number);
        self.room -= 1;
    }

    /// Removes a number from under a print, if it is there. Takes no memory.
    pub fn remove(&mut self, print: u64, number: usize)
        ensures numbers { (other : ℕ) → numbers_in self.new.buckets other ≡
            (if nat_eq other print then remove_number (numbers_in self.old.buckets print) number else numbers_in self.old.buckets other) }
        ensures room { self.old.room ≤ self.new.room }
    {
        let place = bucket_of(print);
        if place < self.buckets.len() {
            self.buckets[place].remove(print, number);
        }
    }
}

// The place of the bucket of a print.
fn bucket_of(print: u64) -> usize
    ensures place { result ≡ print % bucket_count }
    ensures bound { result < bucket_count }
{
    print as usize % BUCKETS
}

// Makes the buckets that aren't there yet.
fn make_buckets(buckets: &mut Vec<Index>) -> Result<(), AllocError>
    requires { length buckets.old.items ≤ bucket_count }
    ensures numbers { (print : ℕ) → numbers_in buckets.new.items print ≡ numbers_in buckets.old.items print }
    ensures most { length buckets.new.items ≤ bucket_count }
    ensures ok { OnOk result (bucket_count ≤ length buckets.new.items) }
    ensures whole { bucket_count ≤ length buckets.old.items → buckets.new.items ≡ buckets.old.items }
{
    let alloc = *buckets.allocator();
    while buckets.len() < BUCKETS {
        buckets.push(Index::new(alloc))?;
    }
    Ok(())
}

// Makes room for `n` more numbers in each bucket.
fn reserve_each(buckets: &mut Vec<Index>, n: usize) -> Result<(), AllocError>
    ensures entries { (place : ℕ) → (bucket_at buckets.new.items place).entries ≡ (bucket_at buckets.old.items place).entries }
    ensures len { length buckets.new.items ≡ length buckets.old.items }
    ensures ok { OnOk result (HaveRoom n buckets.new.items) }
    ensures room { (place : ℕ) → (bucket_at buckets.old.items place).room ≤ (bucket_at buckets.new.items place).room }
{
    let mut place = 0;
    while place < buckets.len() {
        buckets[place].reserve(n)?;
        place += 1;
    }
    Ok(())
}
