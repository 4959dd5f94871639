//! What the contacts of a REGISTER do to the bindings of its user.

ghost use Rattle.std.specs.Prelude.{◌≡◌, ◌≢◌, ℕ, true, false, nat_lt, List, ◌^◌, ◌<◌, ◌≤◌, None, Err, IfOk, IfSome, OnErr, OnOk, position, length, find, option_copied};
ghost use Rattle.registrar.specs.BindingRules.{standing};
ghost use Rattle.registrar.specs.Limits.{max_bindings};
ghost use Rattle.registrar.specs.Registering.{AllLast, lifetime, is_of, is_older_than, is_stale, binding_by, put, without, is_too_brief, uri_refusal, contact_refusal, with_uri, with_contact, with_contacts, within_limit};
ghost use Rattle.registrar.specs.Registrar.{Gives};
ghost use Rattle.registrar.specs.declared.refusal.Refusal.TheVariants as Refusal;

use crate::binding::Binding;
use crate::binding_rules::{BindingRules, MAX_BINDINGS};
use crate::draft::{Draft, recent, with_ranks};
use crate::refusal::Refusal;
use crate::register::{Contact, Register};
use sip_uri::{Uri, same_binding};
use std::alloc::{AllocError, Global};

const DEFAULT_EXPIRES: u32 = 3600;

// The seconds that a binding of this contact is to last.
fn lifetime(register: &Register<'_>, contact: &Contact<'_>) -> u32
    ensures { result ≡ lifetime register.now contact.now }
{
    match (contact.expires, register.expires) {
        (Some(own), _) => own,
        (None, Some(of_all)) => of_all,
        (None, None) => DEFAULT_EXPIRES,
    }
}

fn is_too_brief(min_expires: u32, seconds: u32) -> bool
    ensures { result ≡ is_too_brief min_expires seconds }
{
    0 < seconds && seconds < min_expires
}

fn draft_of<'a>(bindings: &'a [Draft], uri: &Uri<'_>) -> Option<&'a Draft>
    ensures { option_copied result ≡ find (is_of uri.now) bindings.now }
{
    bindings.iter().find(|b| same_binding(&b.binding.uri, uri))
}

/// Whether the request has the Call-ID that bound it last, and is no newer.
pub(crate) fn is_older_than(register: &Register<'_>, binding: &Binding) -> bool
    ensures { result ≡ is_older_than register.now binding.now }
{
    binding.call_id.as_bytes() == register.call_id.as_bytes() && register.cseq <= binding.cseq
}

fn is_stale(register: &Register<'_>, binding: Option<&Draft>) -> bool
    ensures { result ≡ is_stale register.now (option_copied binding.entry) }
{
    match binding {
        Some(draft) => is_older_than(register, &draft.binding),
        None => false,
    }
}

fn binding_by(
    alloc: Global,
    register: &Register<'_>,
    uri: &Uri<'_>,
    seconds: u32,
    number: u64,
    now: u64,
) -> Result<Draft, AllocError>
    requires moment { now < 2 ^ 60 }
    requires lasts { seconds ≢ 0 }
    ensures binding { IfOk result (λ b. b ≡ binding_by register.now uri.now seconds number now) }
    ensures last { IfOk result (λ b. nat_lt now b.expires_at ≡ true) }
{
    let binding = Binding {
        uri: uri.keep(alloc)?,
        expires_at: now + u64::from(seconds) * 1000,
        call_id: register.call_id.keep(alloc)?,
        cseq: register.cseq,
        refreshed: 0,
    };
    Ok(Draft { binding, number })
}

fn remove(bindings: &mut Vec<Draft>, uri: &Uri<'_>)
    ensures others { bindings.new.items ≡ without bindings.old.items uri.now }
    ensures last { (now : ℕ) → AllLast now bindings.old.items → AllLast now bindings.new.items }
{
    bindings.retain(|b| !same_binding(&b.binding.uri, uri));
}

fn place_of(bindings: &[Draft], uri: &Uri<'_>) -> Option<usize>
    ensures place { result ≡ position (is_of uri.now) bindings.now }
    ensures bound { IfSome result (λ place. place < length bindings.now) }
{
    bindings
        .iter()
        .position(|b| same_binding(&b.binding.uri, uri))
}

// An existing binding keeps its place, and a new one goes last.
fn put(bindings: &mut Vec<Draft>, binding: Draft) -> Result<(), AllocError>
    ensures put { OnOk result (bindings.new.items ≡ put bindings.old.items binding) }
    ensures last { OnOk result ((now : ℕ) → nat_lt now binding.expires_at ≡ true → AllLast now bindings.old.items → AllLast now bindings.new.items) }
{
    match place_of(bindings, &binding.binding.uri) {
        Some(place) => bindings[place] = binding,
        None => bindings.push(binding)?,
    }
    Ok(())
}

// Why a contact of this URI, for these seconds, is refused.
fn uri_refusal(
    kept: &[Draft],
    min_expires: u32,
    register: &Register<'_>,
    uri: &Uri<'_>,
    seconds: u32,
) -> Option<Refusal>
    ensures { result ≡ uri_refusal min_expires register.now kept.now uri.now seconds }
{
    if is_too_brief(min_expires, seconds) {
        return Some(Refusal::TooBrief);
    }
    if is_stale(register, draft_of(kept, uri)) {
        return Some(Refusal::OutOfOrder);
    }
    None
}

// The bindings with this URI bound for these seconds, or without its binding.
fn with_uri(
    alloc: Global,
    kept: Vec<Draft>,
    register: &Register<'_>,
    uri: &Uri<'_>,
    seconds: u32,
    number: u64,
    now: u64,
) -> Result<Vec<Draft>, AllocError>
    requires { now < 2 ^ 60 }
    ensures bindings { IfOk result (λ after. after.items ≡ with_uri register.now now kept.items number uri.now seconds) }
    ensures last { IfOk result (λ after. AllLast now kept.items → AllLast now after.items) }
{
    let mut kept = kept;
    if seconds == 0 {
        remove(&mut kept, uri);
        return Ok(kept);
    }
    put(
        &mut kept,
        binding_by(alloc, register, uri, seconds, number, now)?,
    )?;
    Ok(kept)
}

/// Takes one contact of a REGISTER; `number` is that of its refresh (RFC 3261 section 10.3, step 7).
fn with_contact(
    alloc: Global,
    kept: Vec<Draft>,
    rules: BindingRules,
    register: &Register<'_>,
    contact: &Contact<'_>,
    number: u64,
    now: u64,
) -> Result<Vec<Draft>, Refusal>
    requires { now < 2 ^ 60 }
    ensures answer { Gives result (with_contact rules register.now now kept.items number contact.now) }
    ensures memory { result ≡ Err Refusal.OutOfMemory → contact_refusal rules.min_expires register.now kept.items contact.now ≡ None }
    ensures last { IfOk result (λ after. AllLast now kept.items → AllLast now after.items) }
{
    let Some(uri) = &contact.uri else {
        return Err(Refusal::BadContact);
    };
    let seconds = lifetime(register, contact);
    if let Some(refusal) = uri_refusal(&kept, rules.min_expires, register, uri, seconds) {
        return Err(refusal);
    }
    let seconds = rules.granted(seconds);
    Ok(with_uri(alloc, kept, register, uri, seconds, number, now)?)
}

/// The contacts of a REGISTER, one by one.
pub(crate) fn with_contacts(
    alloc: Global,
    bindings: Vec<Draft>,
    rules: BindingRules,
    register: &Register<'_>,
    first_number: u64,
    now: u64,
) -> Result<Vec<Draft>, Refusal>
    requires moment { now < 2 ^ 60 }
    requires numbers { first_number ≤ 2 ^ 63 }
    ensures answer { Gives result (with_contacts rules register.now now first_number register.now.contacts bindings.items) }
    ensures last { IfOk result (λ after. AllLast now bindings.items → AllLast now after.items) }
{
    let mut kept = bindings;
    let mut number = first_number;
    for contact in register.contacts.as_slice() {
        kept = with_contact(alloc, kept, rules, register, contact, number, now)?;
        number += 1;
    }
    Ok(kept)
}

// The bindings that remain: the others are dropped.
fn standing(alloc: Global, rules: BindingRules, kept: Vec<Draft>) -> Result<Vec<Draft>, AllocError>
    ensures bindings { IfOk result (λ after. after.items ≡ standing rules kept.items) }
    ensures memory { OnErr result (rules.oldest_leaves ≡ true) }
{
    if rules.oldest_leaves && kept.len() > MAX_BINDINGS {
        recent(alloc, &kept)
    } else {
        Ok(kept)
    }
}

/// The bindings that remain, numbered by the order of their refresh, if they are at most as many as a user may have.
pub(crate) fn within_limit(
    alloc: Global,
    rules: BindingRules,
    kept: Vec<Draft>,
) -> Result<Vec<Binding>, Refusal>
    ensures answer { Gives result (within_limit (standing rules kept.items)) }
    ensures memory { result ≡ Err Refusal.OutOfMemory → rules.oldest_leaves ≡ false → length kept.items ≤ max_bindings }
    ensures last { IfOk result (λ after. (now : ℕ) → AllLast now kept.items → AllLast now after.items) }
{
    let standing = standing(alloc, rules, kept)?;
    if standing.len() > MAX_BINDINGS {
        return Err(Refusal::TooManyBindings);
    }
    Ok(with_ranks(alloc, &standing)?)
}
