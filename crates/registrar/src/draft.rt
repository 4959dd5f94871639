//! Bindings while a REGISTER is applied.

ghost use Rattle.std.specs.Prelude.{◌≡◌, ◌≤◌, length, IfOk};
ghost use Rattle.registrar.specs.BindingRules.{is_recent, later, recent};
ghost use Rattle.registrar.specs.Limits.{max_bindings};
ghost use Rattle.registrar.specs.Registering.{AllLast, present, rank, with_number, with_ranks, first_number};

use crate::binding::Binding;
use crate::binding_rules::MAX_BINDINGS;
use std::alloc::{AllocError, Global};
use std::marker::Model;

/// A binding while a REGISTER is applied. The number of its refresh, in place of the binding's own, has room for any
/// count of contacts.
#[derive(Drop)]
pub(crate) struct Draft {
    pub binding: Binding,
    pub number: u64,
}

impl Model for Draft {
    ghost use Rattle.registrar.specs.declared.binding.Binding.{Binding};
    ghost use Rattle.registrar.specs.Registering.{with_number};

    ghost Value = { Binding };

    ghost view = { λ d. with_number d.number d.binding };
}

impl Draft {
    /// The same draft. Takes memory only for its texts.
    fn copy(&self, alloc: Global) -> Result<Draft, AllocError>
        ensures { IfOk result (λ copy. copy ≡ self.now) }
    {
        Ok(Draft {
            binding: self.binding.copy(alloc)?,
            number: self.number,
        })
    }
}

fn draft_of(alloc: Global, binding: &Binding) -> Result<Draft, AllocError>
    ensures { IfOk result (λ draft. draft ≡ binding.now) }
{
    Ok(Draft {
        binding: binding.copy(alloc)?,
        number: u64::from(binding.refreshed),
    })
}

/// The bindings that have not expired, copied.
pub(crate) fn drafts_of(
    alloc: Global,
    bindings: &[Binding],
    now: u64,
) -> Result<Vec<Draft>, AllocError>
    ensures drafts { IfOk result (λ drafts. drafts.items ≡ present now bindings.now) }
    ensures last { IfOk result (λ drafts. AllLast now drafts.items) }
{
    let mut drafts = Vec::new(alloc);
    for binding in bindings {
        if !binding.is_present(now) {
            continue;
        }
        drafts.push(draft_of(alloc, binding)?)?;
    }
    Ok(drafts)
}

/// A number after all of these, which were numbered by their order.
pub(crate) fn first_number(bindings: &[Binding]) -> u64
    ensures { result ≡ first_number bindings.now }
{
    bindings.len() as u64 + 1
}

fn count_before(drafts: &[Draft], draft: &Draft) -> usize
    ensures { result ≡ rank drafts.now draft.now }
{
    drafts.iter().filter(|d| d.number < draft.number).count()
}

fn rank(drafts: &[Draft], draft: &Draft) -> u32
    requires { length drafts.now ≤ max_bindings }
    ensures { result ≡ rank drafts.now draft.now }
{
    count_before(drafts, draft) as u32
}

fn with_number(alloc: Global, draft: &Draft, number: u32) -> Result<Binding, AllocError>
    ensures { IfOk result (λ binding. binding ≡ with_number number draft.now) }
{
    let mut binding = draft.binding.copy(alloc)?;
    binding.refreshed = number;
    Ok(binding)
}

/// The bindings, numbered by their order.
pub(crate) fn with_ranks(alloc: Global, drafts: &[Draft]) -> Result<Vec<Binding>, AllocError>
    requires { length drafts.now ≤ max_bindings }
    ensures { IfOk result (λ bindings. bindings.items ≡ with_ranks drafts.now) }
{
    let mut bindings = Vec::new(alloc);
    for draft in drafts {
        bindings.push(with_number(alloc, draft, rank(drafts, draft))?)?;
    }
    Ok(bindings)
}

fn count_after(drafts: &[Draft], draft: &Draft) -> usize
    ensures { result ≡ later drafts.now draft.now }
{
    drafts.iter().filter(|d| draft.number < d.number).count()
}

fn is_recent(drafts: &[Draft], draft: &Draft) -> bool
    ensures { result ≡ is_recent drafts.now draft.now }
{
    count_after(drafts, draft) < MAX_BINDINGS
}

/// As many as a user may have, those refreshed last, copied.
pub(crate) fn recent(alloc: Global, drafts: &[Draft]) -> Result<Vec<Draft>, AllocError>
    ensures { IfOk result (λ after. after.items ≡ recent drafts.now) }
{
    let mut recent = Vec::new(alloc);
    for draft in drafts {
        if !is_recent(drafts, draft) {
            continue;
        }
        recent.push(draft.copy(alloc)?)?;
    }
    Ok(recent)
}
