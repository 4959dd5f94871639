//! Numbers that no transaction has.

ghost use Rattle.std.specs.Prelude.{◌≡◌, ◌+◌, ◌<◌, ◌≤◌, [], OnOk, drop, length, nat_lt};
ghost use Rattle.std.specs.List.{prefix_len, slice_get};
ghost use Rattle.std.specs.VecDeque.{deque_len};
ghost use Rattle.std.specs.Option.{option_copied};
ghost use Rattle.index.specs.Numbers.{put_number};
ghost use Rattle.transactions.specs.FreeNumbers.{NumbersRise};

use std::alloc::{AllocError, Global};
use std::collections::VecDeque;
use std::marker::Model;

/// Numbers, the least first. They lie in a ring, so that the least leaves with no other moved.
#[derive(Drop)]
pub(crate) struct FreeNumbers {
    numbers: VecDeque<usize>,
}

impl Model for FreeNumbers {
    ghost use Rattle.std.specs.Prelude.{◌-◌};
    ghost use Rattle.std.specs.VecDeque.{deque_len, deque_capacity};
    ghost use Rattle.transactions.specs.FreeNumbers.{Free, NumbersRise};

    ghost Value = { Free };

    ghost view = { λ f. record { numbers = f.numbers.items; room = deque_capacity f.numbers - deque_len f.numbers } };

    ghost invariant = { λ f. NumbersRise f.numbers.items };
}

impl FreeNumbers {
    /// No numbers. Takes no memory.
    pub(crate) fn new(alloc: Global) -> FreeNumbers
        ensures { result.numbers ≡ [] }
    {
        FreeNumbers {
            numbers: VecDeque::new(alloc),
        }
    }

    /// The least number.
    pub(crate) fn least(&self) -> Option<usize>
        ensures { result ≡ slice_get self.now.numbers 0 }
    {
        self.numbers.front().copied()
    }

    pub(crate) fn len(&self) -> usize
        ensures { result ≡ length self.now.numbers }
    {
        self.numbers.len()
    }

    /// Makes room for `n` numbers more.
    pub(crate) fn reserve(&mut self, n: usize) -> Result<(), AllocError>
        ensures numbers { self.new.numbers ≡ self.old.numbers }
        ensures ok { OnOk result (n ≤ self.new.room) }
        ensures room { self.old.room ≤ self.new.room }
    {
        self.numbers.reserve(n)
    }

    /// Takes the least number away.
    pub(crate) fn take_least(&mut self)
        ensures numbers { self.new.numbers ≡ drop 1 self.old.numbers }
        ensures room { length self.old.numbers + self.old.room ≤ length self.new.numbers + self.new.room }
    {
        self.numbers.pop_front();
    }

    /// Puts a number. There is room for it.
    pub(crate) fn put(&mut self, number: usize)
        requires { 0 < self.old.room }
        ensures numbers { self.new.numbers ≡ put_number self.old.numbers number }
        ensures room { self.old.room ≤ self.new.room + 1 }
    {
        let place = place_of(&self.numbers, number);
        let _ = self.numbers.insert(place, number);
    }
}

// How many numbers are less than one.
fn place_of(numbers: &VecDeque<usize>, number: usize) -> usize
    requires { NumbersRise numbers.now.items }
    ensures bound { result ≤ deque_len numbers.now }
    ensures place { result ≡ prefix_len (λ n. nat_lt n number) numbers.now.items }
{
    numbers.partition_point(|other| *other < number)
}
