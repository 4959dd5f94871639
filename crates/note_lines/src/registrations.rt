//! Where a user is from now on, as a line.

ghost use Rattle.std.specs.Prelude.{◌≡◌, ◌++◌, ◌-◌, OnOk, OnErr, Some};
ghost use Rattle.std.specs.Int.{div_ceil};
ghost use Rattle.std.specs.Option.{option_copied};
ghost use Rattle.sip_uri.specs.Writing.{BeginsWith};
ghost use Rattle.note_lines.specs.Lines.{said};
ghost use Rattle.note_lines.specs.NoteLines.{bound_line, registration_line, seconds_left, unbound_line};

use crate::lines::{end_line, put_number, put_text, put_word};
use registrar::{Binding, Registrar};
use sip_uri::{Uri, put_uri};
use std::alloc::{AllocError, Global};
use text::Text;

/// The seconds that a binding has left: 0 if it has expired.
fn seconds_of(binding: &Binding, now: u64) -> u64
    ensures { result ≡ div_ceil (binding.now.expires_at - now) 1000 }
{
    if binding.is_present(now) {
        binding.seconds_left(now)
    } else {
        0
    }
}

/// The seconds that the longest-lasting binding has left.
fn seconds_left(bindings: &[Binding], now: u64) -> u64
    ensures { result ≡ seconds_left bindings.now now }
{
    let mut most = 0;
    for binding in bindings {
        most = most.max(seconds_of(binding, now));
    }
    most
}

/// Calls to this user go there.
#[tactic(auto, unfolding(crate::specs::Lines::line_text))]
fn put_bound(
    out: &mut Vec<u8>,
    alloc: Global,
    user: &Text<'static>,
    target: &Uri<'static>,
    seconds: u64,
) -> Result<(), AllocError>
    ensures ok { OnOk result (out.new.items ≡ out.old.items ++ said (Some (bound_line user.now (Some target.now) seconds))) }
    ensures err { OnErr result (BeginsWith out.old.items out.new.items) }
{
    let mut contact = Vec::new(alloc);
    put_uri(&mut contact, target)?;
    put_word(out, b"registered")?;
    put_text(out, b"user", user.as_bytes())?;
    put_text(out, b"contact", &contact)?;
    put_number(out, b"seconds", seconds)?;
    end_line(out)
}

/// No calls reach this user.
#[tactic(auto, unfolding(crate::specs::Lines::line_text))]
fn put_unbound(out: &mut Vec<u8>, user: &Text<'static>) -> Result<(), AllocError>
    ensures ok { OnOk result (out.new.items ≡ out.old.items ++ said (Some (unbound_line user.now))) }
    ensures err { OnErr result (BeginsWith out.old.items out.new.items) }
{
    put_word(out, b"unregistered")?;
    put_text(out, b"user", user.as_bytes())?;
    end_line(out)
}

/// Appends the line of where a user is from now on. If memory runs out, a part of it may be written.
pub(crate) fn put_registration(
    out: &mut Vec<u8>,
    alloc: Global,
    registrar: &Registrar,
    user: Option<&Text<'static>>,
    now: u64,
) -> Result<(), AllocError>
    ensures ok { OnOk result (out.new.items ≡ out.old.items ++ said (registration_line registrar.now (option_copied user.entry) now)) }
    ensures err { OnErr result (BeginsWith out.old.items out.new.items) }
{
    let Some(user) = user else {
        return Ok(());
    };
    let bindings = registrar.bindings(user, now)?;
    let seconds = seconds_left(&bindings, now);
    match registrar.target(user, now) {
        Some(target) => put_bound(out, alloc, user, target, seconds),
        None => put_unbound(out, user),
    }
}
