//! The places of the table: transactions by their numbers, and an index of what they are looked up by.

ghost use Rattle.std.specs.Prelude.{◌≡◌, ◌+◌, ◌≤◌, ◌<◌, [], ◌∷◌, ◌++◌, length, map, vec_len, OnOk, OnErr, IfSome, IsSome, Some, None, option_map, slice_set, nat_lt, if◌then◌else◌};
ghost use Rattle.std.specs.Vec.{vec_capacity};
ghost use Rattle.index.specs.Passing.{numbers_from};
ghost use Rattle.transactions.specs.declared.transaction.Transaction.{Transaction};
ghost use Rattle.transactions.specs.Contents.{placed};
ghost use Rattle.transactions.specs.KnownPrints.{IsPrintOf};
ghost use Rattle.transactions.specs.Places.{KeepsSide, has_branch, has_call, has_tag};
ghost use Rattle.transactions.specs.Shares.{serving_from};
ghost use Rattle.transactions.specs.Slots.{at, free_number, serving};
ghost use Rattle.transactions.specs.Transactions.{went};

use crate::free_numbers::FreeNumbers;
use crate::print::{BranchPrint, Prints, ip_print};
use crate::slot::Slot;
use crate::transaction::Transaction;
use boxed::Boxed;
use index::{Buckets, Entry, PrintKey};
use std::alloc::{AllocError, Global};
use std::marker::Model;
use text::Text;
use transaction_machines::State;

/// Room for this many transactions is made at once, where room is needed at all, so that it happens seldom.
const SPARE: usize = 16;

/// The places of the table.
#[derive(Drop)]
pub(crate) struct Places {
    slots: Vec<Slot>,
    /// The prints of each place, in the same order.
    prints: Vec<Prints>,
    /// Of the prints.
    key: PrintKey,
    /// Under the print of the branch of the top Via.
    branches: Buckets,
    /// Under the print of Call-ID.
    calls: Buckets,
    /// Under the print of the tag of From.
    tags: Buckets,
    /// Under the print of the address that a server transaction's request came from.
    sources: Buckets,
    free: FreeNumbers,
    /// How many server transactions there are.
    serving: usize,
    /// How many transactions can begin without memory.
    room: usize,
}

impl Model for Places {
    ghost use Rattle.std.specs.Prelude.{vec_len};
    ghost use Rattle.std.specs.Vec.{vec_capacity};
    ghost use Rattle.transactions.specs.KeptPrints.{AreNoted};
    ghost use Rattle.transactions.specs.Places.{Placed, IsIndexed, HasRoom};

    ghost Value = { Placed };

    ghost view = { λ p. record { slots = p.slots.items; key = p.key; room = p.room } };

    ghost invariant = { λ p. IsIndexed p.key p.slots.items p.branches.buckets p.calls.buckets p.tags.buckets p.sources.buckets p.free.numbers p.serving
        × HasRoom (vec_len p.slots) (vec_capacity p.slots) p.branches p.calls p.tags p.sources p.free p.room
        × AreNoted p.key p.slots.items p.prints.items (vec_len p.prints) (vec_capacity p.prints) p.room };
}

impl Places {
    /// No transactions. Takes no memory.
    pub(crate) fn new(alloc: Global, key: PrintKey) -> Places
        ensures slots { result.slots ≡ [] }
        ensures key { result.key ≡ key }
    {
        Places {
            slots: Vec::new(alloc),
            prints: Vec::new(alloc),
            key,
            branches: Buckets::new(alloc),
            calls: Buckets::new(alloc),
            tags: Buckets::new(alloc),
            sources: Buckets::new(alloc),
            free: FreeNumbers::new(alloc),
            serving: 0,
            room: 0,
        }
    }

    pub(crate) fn slots(&self) -> &[Slot]
        ensures { result.now ≡ self.now.slots }
    {
        &self.slots
    }

    /// The key of the prints.
    pub(crate) fn key(&self) -> PrintKey
        ensures { result ≡ self.now.key }
    {
        self.key
    }

    /// The transactions whose top Via has a branch of this print.
    pub(crate) fn of_branch(&self, print: u64) -> &[Entry]
        ensures { map (λ e. e.number) result.now ≡ numbers_from (has_branch self.now.key print) 0 self.now.slots }
    {
        self.branches.numbers(print)
    }

    /// The transactions with a Call-ID of this print.
    pub(crate) fn of_call(&self, print: u64) -> &[Entry]
        ensures { map (λ e. e.number) result.now ≡ numbers_from (has_call self.now.key print) 0 self.now.slots }
    {
        self.calls.numbers(print)
    }

    /// The transactions with a From tag of this print.
    pub(crate) fn of_tag(&self, print: u64) -> &[Entry]
        ensures { map (λ e. e.number) result.now ≡ numbers_from (has_tag self.now.key print) 0 self.now.slots }
    {
        self.tags.numbers(print)
    }

    /// The least number that no transaction has.
    pub(crate) fn free_number(&self) -> usize
        ensures { result ≡ free_number self.now.slots }
    {
        self.free.least().unwrap_or(self.slots.len())
    }

    /// How many server transactions there are.
    pub(crate) fn serving_count(&self) -> usize
        ensures { result ≡ serving self.now.slots }
    {
        self.serving
    }

    /// How many server transactions there are whose requests came from this address.
    pub(crate) fn serving_from(&self, ip: [u8; 4]) -> usize
        ensures { result ≡ serving_from ip self.now.slots }
    {
        self.sources.numbers(ip_print(ip)).len()
    }

    /// Makes room for `n` transactions more, and for the end of each existing one.
    pub(crate) fn reserve(&mut self, n: usize) -> Result<(), AllocError>
        ensures slots { self.new.slots ≡ self.old.slots }
        ensures key { self.new.key ≡ self.old.key }
        ensures ok { OnOk result (n ≤ self.new.room) }
        ensures room { self.old.room ≤ self.new.room }
        // Nothing is refused that takes no room.
        ensures needed { OnErr result (0 < n) }
    {
        if n > self.room {
            self.make_room(n.max(SPARE))?;
        }
        Ok(())
    }

    fn make_room(&mut self, n: usize) -> Result<(), AllocError>
        requires { self.old.room < n }
        ensures slots { self.new.slots ≡ self.old.slots }
        ensures key { self.new.key ≡ self.old.key }
        ensures ok { OnOk result (n ≤ self.new.room) }
        ensures room { self.old.room ≤ self.new.room }
    {
        self.slots.reserve(n)?;
        self.prints.reserve(n)?;
        self.branches.reserve(n)?;
        self.calls.reserve(n)?;
        self.tags.reserve(n)?;
        self.sources.reserve(n)?;
        let used = self.slots.len() - self.free.len();
        self.free.reserve(used + n)?;
        self.room = n;
        Ok(())
    }

    /// A new transaction, under the least number that is free. There is room for it. Its branch may have a known print.
    pub(crate) fn open(
        &mut self,
        transaction: Boxed<Transaction>,
        known: Option<BranchPrint>,
    ) -> usize
        requires room { 0 < self.old.room }
        requires known { IsPrintOf known transaction.parts.vias }
        ensures number { result ≡ free_number self.old.slots }
        ensures slots { self.new.slots ≡ placed self.old.slots (free_number self.old.slots) transaction }
        ensures key { self.new.key ≡ self.old.key }
        ensures room { self.old.room ≤ self.new.room + 1 }
    {
        let number = self.free_number();
        let prints = Prints::of(self.key, transaction.get(), known);
        let slot = Slot::of(transaction);
        self.branches.put(prints.branch, number);
        self.calls.put(prints.call, number);
        self.tags.put(prints.tag, number);
        self.sources.put(prints.source, number);
        self.serving += count_of(slot.is_serving());
        self.free.take_least();
        place(&mut self.slots, number, slot);
        note(&mut self.prints, number, prints);
        self.room -= 1;
        number
    }

    /// The next state of a transaction, or its end. Takes no memory.
    pub(crate) fn write(&mut self, id: usize, next: Option<State>, fresh: Option<Text<'static>>)
        requires there { IsSome (at self.old.slots id) }
        requires side { IfSome next (KeepsSide self.old.slots id) }
        ensures slots { (t : Transaction) → at self.old.slots id ≡ Some t →
            self.new.slots ≡ slice_set self.old.slots id (option_map (went t fresh.entry) next) }
        ensures key { self.new.key ≡ self.old.key }
        ensures room { self.old.room ≤ self.new.room }
    {
        match next {
            Some(state) => self.advance(id, state, fresh),
            None => self.end(id),
        }
    }

    // The next state of a transaction, on the same side.
    fn advance(&mut self, id: usize, state: State, fresh: Option<Text<'static>>)
        requires there { IsSome (at self.old.slots id) }
        requires side { KeepsSide self.old.slots id state }
        ensures slots { (t : Transaction) → at self.old.slots id ≡ Some t →
            self.new.slots ≡ slice_set self.old.slots id (Some (went t fresh.entry state)) }
        ensures key { self.new.key ≡ self.old.key }
        ensures room { self.old.room ≤ self.new.room }
    {
        self.slots[id].advance(fresh, state);
    }

    // The end of a transaction: its number is free.
    fn end(&mut self, id: usize)
        requires { IsSome (at self.old.slots id) }
        ensures slots { self.new.slots ≡ slice_set self.old.slots id None }
        ensures key { self.new.key ≡ self.old.key }
        ensures room { self.old.room ≤ self.new.room }
    {
        let prints = self.prints[id];
        self.serving -= count_of(self.slots[id].is_serving());
        self.branches.remove(prints.branch, id);
        self.calls.remove(prints.call, id);
        self.tags.remove(prints.tag, id);
        self.sources.remove(prints.source, id);
        self.slots[id] = Slot::free();
        self.prints[id] = Prints::none();
        self.free.put(id);
    }
}

// One for what is counted.
fn count_of(is: bool) -> usize
    ensures { result ≡ (if is then 1 else 0) }
{
    usize::from(is)
}

// A transaction at a place, which may be one past the last. There is room for it.
fn place(slots: &mut Vec<Slot>, id: usize, slot: Slot)
    requires { vec_len slots.old < vec_capacity slots.old }
    ensures items { slots.new.items ≡ (if nat_lt id (length slots.old.items) then slice_set slots.old.items id slot else slots.old.items ++ slot ∷ []) }
    ensures len { vec_len slots.new ≤ vec_len slots.old + 1 }
    ensures capacity { vec_capacity slots.old ≤ vec_capacity slots.new }
{
    if id < slots.len() {
        slots[id] = slot;
        return;
    }
    let _ = slots.push(slot);
}

// The prints of a place, which may be one past the last. There is room for them.
fn note(prints: &mut Vec<Prints>, id: usize, new: Prints)
    requires { vec_len prints.old < vec_capacity prints.old }
    ensures items { prints.new.items ≡ (if nat_lt id (length prints.old.items) then slice_set prints.old.items id new else prints.old.items ++ new ∷ []) }
    ensures len { vec_len prints.new ≤ vec_len prints.old + 1 }
    ensures capacity { vec_capacity prints.old ≤ vec_capacity prints.new }
{
    if id < prints.len() {
        prints[id] = new;
        return;
    }
    let _ = prints.push(new);
}
