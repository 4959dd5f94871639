//! All pairs of a pool, by rising port, and the calls that hold them.

ghost use Rattle.std.specs.Prelude.{◌≡◌, ◌+◌, ◌*◌, ◌≤◌, IfOk, true, false, nat_lt, length, find, count_by, take};
ghost use Rattle.std.specs.List.{position};
ghost use Rattle.std.specs.List.Sorted.{IsPartitionPoint};
ghost use Rattle.std.specs.Option.{option_copied};
ghost use Rattle.port_pool.specs.Limits.{last_port};
ghost use Rattle.port_pool.specs.PairCounts.{is_held, pair_counts, rests_unheld};
ghost use Rattle.port_pool.specs.Holdings.{unheld_pairs, free_pairs, is_call, is_resting, is_free, pair_of, is_among, has_even, holder_of, PairsRise};

use crate::pair::Pair;
use crate::pair_counts::PairCounts;
use std::alloc::{AllocError, Global};

/// How long a pair rests after it was freed, in milliseconds.
const REST: u64 = 32_000;

/// A pair, by its even port, the call that holds it, if any, and the moment at which it was last freed, if it ever was,
/// in milliseconds.
#[derive(Clone, Copy)]
pub(crate) struct Holding {
    pub even: u16,
    pub holder: Option<u64>,
    pub freed: Option<u64>,
}

/// Whether the pair was freed so recently that late datagrams may still come to it.
fn is_resting(now: u64, holding: &Holding) -> bool
    ensures { result ≡ is_resting now holding.now }
{
    match holding.freed {
        Some(freed) => now < REST || now - REST < freed,
        None => false,
    }
}

/// Whether the pair may be given to a call.
fn is_free(now: u64, holding: &Holding) -> bool
    ensures { result ≡ is_free now holding.now }
{
    holding.holder.is_none() && !is_resting(now, holding)
}

fn is_held(holding: &Holding) -> bool
    ensures { result ≡ is_held holding.now }
{
    holding.holder.is_some()
}

fn rests_unheld(now: u64, holding: &Holding) -> bool
    ensures { result ≡ rests_unheld now holding.now }
{
    holding.holder.is_none() && is_resting(now, holding)
}

fn used_count(holdings: &[Holding]) -> usize
    ensures { result ≡ count_by is_held holdings.now }
{
    holdings.iter().filter(|holding| is_held(holding)).count()
}

fn resting_count(holdings: &[Holding], now: u64) -> usize
    ensures { result ≡ count_by (rests_unheld now) holdings.now }
{
    holdings
        .iter()
        .filter(|holding| rests_unheld(now, holding))
        .count()
}

fn free_count(holdings: &[Holding], now: u64) -> usize
    ensures { result ≡ count_by (is_free now) holdings.now }
{
    holdings
        .iter()
        .filter(|holding| is_free(now, holding))
        .count()
}

/// How many pairs are held, rest, and are free.
pub(crate) fn pair_counts(holdings: &[Holding], now: u64) -> PairCounts
    ensures { result ≡ pair_counts now holdings.now }
{
    PairCounts {
        used: used_count(holdings),
        resting: resting_count(holdings, now),
        free: free_count(holdings, now),
    }
}

fn pair_of(holding: &Holding) -> Pair
    ensures { result ≡ pair_of holding.now }
{
    Pair { even: holding.even }
}

pub(crate) fn is_among(pairs: &[Pair], even: u16) -> bool
    ensures { result ≡ is_among pairs.now even }
{
    pairs.iter().any(|pair| pair.even == even)
}

/// Pairs from a port on, none of which is held.
pub(crate) fn unheld_pairs(
    alloc: Global,
    first: u16,
    pairs: u16,
) -> Result<Vec<Holding>, AllocError>
    requires { first + 2 * pairs ≤ last_port + 1 }
    ensures { IfOk result (λ holdings. holdings.items ≡ unheld_pairs first pairs) }
{
    let mut holdings = Vec::with_capacity(alloc, usize::from(pairs))?;
    for k in 0..pairs {
        let even = first + 2 * k;
        holdings.push(Holding {
            even,
            holder: None,
            freed: None,
        })?;
    }
    Ok(holdings)
}

/// The lowest pairs that may be given to a call: `n`, or all if fewer are free.
pub(crate) fn lowest_free(
    alloc: Global,
    holdings: &[Holding],
    n: usize,
    now: u64,
) -> Result<Vec<Pair>, AllocError>
    ensures { IfOk result (λ pairs. pairs.items ≡ take n (free_pairs now holdings.now)) }
{
    holdings
        .iter()
        .filter(|holding| is_free(now, holding))
        .map(|holding| pair_of(holding))
        .take(n)
        .collect(alloc)
}

/// The call that holds the pair with this even port.
pub(crate) fn holder_of(holdings: &[Holding], even: u16) -> Option<u64>
    requires { PairsRise holdings.now }
    ensures { result ≡ holder_of holdings.now even }
{
    holding_of(holdings, even)?.holder
}

/// Whether a call holds the pair with this even port.
pub(crate) fn is_held_by(holdings: &[Holding], call: u64, even: u16) -> bool
    requires { PairsRise holdings.now }
    ensures { result ≡ is_call call (holder_of holdings.now even) }
{
    holder_of(holdings, even) == Some(call)
}

// How many pairs are below a port.
fn count_below(holdings: &[Holding], port: u16) -> usize
    requires { PairsRise holdings.now }
    ensures bound { result ≤ length holdings.now }
    ensures point { IsPartitionPoint (λ s. nat_lt s.even port ≡ true) (λ s. nat_lt s.even port ≡ false)
        holdings.now result }
{
    holdings.partition_point(|holding| holding.even < port)
}

/// The place of the pair with this even port, found by binary search.
pub(crate) fn place_of(holdings: &[Holding], even: u16) -> Option<usize>
    requires { PairsRise holdings.now }
    ensures { result ≡ position (has_even even) holdings.now }
{
    let place = count_below(holdings, even);
    if place == holdings.len() || holdings[place].even != even {
        return None;
    }
    Some(place)
}

fn holding_of(holdings: &[Holding], even: u16) -> Option<&Holding>
    requires { PairsRise holdings.now }
    ensures { option_copied result ≡ find (has_even even) holdings.now }
{
    Some(&holdings[place_of(holdings, even)?])
}
