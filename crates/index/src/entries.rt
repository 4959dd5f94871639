//! Entries in the order of prints, and those of a print in the order of their numbers.

ghost use Rattle.std.specs.Prelude.{◌≡◌, ◌+◌, ◌<◌, ◌≤◌, length, vec_len, drop, false, slice_get, IsTrue, nat_lt};
ghost use Rattle.std.specs.List.{AllByRecursion};
ghost use Rattle.std.specs.Vec.{vec_capacity};
ghost use Rattle.index.specs.Entries.{is_before, EntriesRise, place_of, of_print, numbers_of, put_entry, stands_in, remove_entry};

use crate::Entry;

fn is_before(entry: &Entry, print: u64, number: usize) -> bool
    ensures { result ≡ is_before entry.now print number }
{
    entry.print < print || (entry.print == print && entry.number < number)
}

// How many entries come before one with this print and number.
fn place_of(entries: &[Entry], print: u64, number: usize) -> usize
    requires { EntriesRise entries.now }
    ensures bound { result ≤ length entries.now }
    ensures place { result ≡ place_of entries.now print number }
{
    entries.partition_point(|entry| is_before(entry, print, number))
}

// The entries from a place on.
fn rest_from(entries: &[Entry], place: usize) -> &[Entry]
    requires { place ≤ length entries.now }
    ensures { result.now ≡ drop place entries.now }
{
    &entries[place..]
}

// The entries of a print, among entries that have no lower one.
fn run_of(entries: &[Entry], print: u64) -> &[Entry]
    requires rise { EntriesRise entries.now }
    requires not_below { AllByRecursion (λ e. nat_lt e.print print ≡ false) entries.now }
    ensures { result.now ≡ of_print entries.now print }
{
    &entries[..entries.partition_point(|entry| entry.print == print)]
}

/// The entries of a print.
pub(crate) fn of_print(entries: &[Entry], print: u64) -> &[Entry]
    requires { EntriesRise entries.now }
    ensures { result.now ≡ of_print entries.now print }
{
    run_of(rest_from(entries, place_of(entries, print, 0)), print)
}

/// Puts an entry before the first that does not come before it.
pub(crate) fn put(entries: &mut Vec<Entry>, entry: Entry)
    requires rise { EntriesRise entries.old.items }
    requires room { vec_len entries.old < vec_capacity entries.old }
    ensures put { entries.new.items ≡ put_entry entries.old.items entry }
    ensures len { vec_len entries.new ≡ vec_len entries.old + 1 }
    ensures capacity { vec_capacity entries.new ≡ vec_capacity entries.old }
{
    let place = place_of(entries, entry.print, entry.number);
    let _ = entries.insert(place, entry);
}

// Whether an entry is at a place.
fn stands_at(entries: &[Entry], place: usize, entry: Entry) -> bool
    ensures stands { result ≡ stands_in (slice_get entries.now place) entry }
    ensures bound { IsTrue result → place < length entries.now }
{
    entries.get(place) == Some(&entry)
}

/// Removes an entry, if it is there.
pub(crate) fn remove(entries: &mut Vec<Entry>, entry: Entry)
    requires { EntriesRise entries.old.items }
    ensures others { entries.new.items ≡ remove_entry entries.old.items entry }
    // One less if it was there, in all and for its print.
    ensures len { vec_len entries.new + length (numbers_of entries.old.items entry.print)
        ≡ vec_len entries.old + length (numbers_of entries.new.items entry.print) }
    ensures capacity { vec_capacity entries.new ≡ vec_capacity entries.old }
{
    let place = place_of(entries, entry.print, entry.number);
    if stands_at(entries, place, entry) {
        entries.remove(place);
    }
}
