//! The binding that was refreshed last.

ghost use Rattle.std.specs.Prelude.{◌≡◌, ◌&&◌, ◌||◌, not, nat_lt, nat_le, find};
ghost use Rattle.std.specs.List.{list_all};
ghost use Rattle.std.specs.Option.{option_copied};
ghost use Rattle.registrar.specs.Registering.{present};
ghost use Rattle.registrar.specs.Bound.{is_latest, latest, target_of};

use crate::binding::Binding;
use sip_uri::Uri;

fn all_over_or_before(bindings: &[Binding], binding: &Binding, now: u64) -> bool
    ensures { result ≡ list_all (λ b. not (nat_lt now b.expires_at) || nat_le b.refreshed binding.now.refreshed) bindings.now }
{
    bindings
        .iter()
        .all(|b| !b.is_present(now) || b.refreshed <= binding.refreshed)
}

// Whether no binding that is not over was refreshed after this one.
fn is_latest(bindings: &[Binding], binding: &Binding, now: u64) -> bool
    ensures { result ≡ is_latest (present now bindings.now) binding.now }
{
    all_over_or_before(bindings, binding, now)
}

fn first_latest(bindings: &[Binding], now: u64) -> Option<&Binding>
    ensures { option_copied result ≡ find (λ b. nat_lt now b.expires_at && is_latest (present now bindings.now) b) bindings.now }
{
    bindings
        .iter()
        .find(|b| b.is_present(now) && is_latest(bindings, b, now))
}

// Of the bindings that have not expired, the one that was refreshed last.
fn latest(bindings: &[Binding], now: u64) -> Option<&Binding>
    ensures { option_copied result ≡ latest (present now bindings.now) }
{
    first_latest(bindings, now)
}

/// The URI of the binding that was refreshed last, of those that have not expired.
#[tactic(auto, unfolding(crate::specs::Bound::target_of))]
pub(crate) fn target(bindings: &[Binding], now: u64) -> Option<&Uri<'static>>
    ensures { option_copied result ≡ target_of (present now bindings.now) }
{
    match latest(bindings, now) {
        Some(binding) => Some(&binding.uri),
        None => None,
    }
}
