//! Who may register, and where they are bound.

ghost use Rattle.std.specs.Prelude.{◌≡◌, ◌<◌, ◌++◌, map, IfOk, OnOk};
ghost use Rattle.agent_status.specs.Users.{binding_status, bindings_at, present_status, user_status};

use registrar::{Binding, UserBindings};
use sip_uri::write_uri;
use status::{BindingStatus, Entries, UserStatus};
use std::alloc::{AllocError, Global};

fn binding_status(alloc: Global, binding: &Binding, now: u64) -> Result<BindingStatus, AllocError>
    requires { now < binding.now.expires_at }
    ensures { IfOk result (λ status. status ≡ binding_status now binding.now) }
{
    Ok(BindingStatus {
        contact: write_uri(alloc, &binding.uri)?,
        seconds_left: binding.seconds_left(now),
    })
}

/// One more, unless it has expired.
fn push_binding(
    alloc: Global,
    statuses: &mut Vec<BindingStatus>,
    binding: &Binding,
    now: u64,
) -> Result<(), AllocError>
    ensures { OnOk result (statuses.new.items ≡ statuses.old.items ++ present_status now binding.now) }
{
    if binding.is_present(now) {
        statuses.push(binding_status(alloc, binding, now)?)?;
    }
    Ok(())
}

/// The bindings that have not expired.
fn bindings_at(
    alloc: Global,
    bindings: &[Binding],
    now: u64,
) -> Result<Vec<BindingStatus>, AllocError>
    ensures { IfOk result (λ statuses. statuses.items ≡ bindings_at now bindings.now) }
{
    let mut statuses = Vec::new(alloc);
    for binding in bindings {
        push_binding(alloc, &mut statuses, binding, now)?;
    }
    Ok(statuses)
}

fn user_status(alloc: Global, entry: &UserBindings, now: u64) -> Result<UserStatus, AllocError>
    ensures { IfOk result (λ status. status ≡ user_status now entry.now) }
{
    Ok(UserStatus {
        name: entry.user.keep(alloc)?,
        bindings: Entries::from_vec(bindings_at(alloc, entry.bindings.as_slice(), now)?),
    })
}

/// Each user, in the order of the registrar.
pub(crate) fn user_statuses(
    alloc: Global,
    entries: &[UserBindings],
    now: u64,
) -> Result<Vec<UserStatus>, AllocError>
    ensures { IfOk result (λ statuses. statuses.items ≡ map (user_status now) entries.now) }
{
    let mut statuses = Vec::with_capacity(alloc, entries.len())?;
    for entry in entries {
        statuses.push(user_status(alloc, entry, now)?)?;
    }
    Ok(statuses)
}
