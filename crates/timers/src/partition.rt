//! Where a list that is partitioned by a test changes sides.

ghost use Rattle.std.specs.Prelude.{◌≡◌, ◌≤◌, Bool};
ghost use Rattle.std.specs.VecDeque.{deque_len};
ghost use Rattle.std.specs.List.{prefix_len};
ghost use Rattle.std.specs.List.Sorted.{IsPartitionedBy};
ghost use Rattle.std.specs.Fn.{ComputesKey};

use std::collections::VecDeque;

// How many items pass a test that no item passes after one that fails. A ring is in two slices, and the one with the
// place is searched: each step of a binary search on the ring itself would ask which of them an item is in.
pub(crate) fn ring_partition_point<T, P: Fn(&T) -> bool + Copy>(
    list: &VecDeque<T>,
    test: P,
) -> usize
    requires { P.IsAlwaysCallable test }
    ensures bound { result ≤ deque_len list.now }
    ensures place { (p : T → Bool) → ComputesKey P.FnMut p test → IsPartitionedBy p list.now.items → result ≡ prefix_len p list.now.items }
{
    let (front, back) = list.as_slices();
    match back.first() {
        Some(first) if test(first) => front.len() + back.partition_point(test),
        _ => front.partition_point(test),
    }
}
