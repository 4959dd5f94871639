//! The live calls, as lines name them.

ghost use Rattle.std.specs.Prelude.{◌≡◌, ◌≤◌, ◌-◌, [], find, length, unwrap_or, IfOk, OnOk, OnErr, Some};
ghost use Rattle.std.specs.Option.{option_copied};
ghost use Rattle.note_lines.specs.Ledger.{answer_entry, entry_of, hold_entry, is_call, is_entry, user_at, user_text, with_answer, with_call, with_entry, with_hold, without_call};
ghost use Rattle.note_lines.specs.Limits.{max_calls};

use call_core::End;
use calls::StandingCall;
use std::alloc::{AllocError, Global};
use std::marker::Model;
use text::Text;

/// How many calls are remembered: at most this many are live at a time.
const MAX_CALLS: usize = 256;

/// A live call: who called whom, and when it began and was answered, in milliseconds.
#[derive(Drop)]
pub(crate) struct Entry {
    pub number: u64,
    pub from: Text<'static>,
    pub to: Text<'static>,
    pub begun: u64,
    pub answered: Option<u64>,
    pub is_held: bool,
}

impl Entry {
    /// The user at this end.
    pub(crate) fn user(&self, end: End) -> &[u8]
        ensures { result.now ≡ user_at end self.now }
    {
        match end {
            End::Caller => self.from.as_bytes(),
            End::Callee => self.to.as_bytes(),
        }
    }

    /// How long it has lasted: since it was answered, if it was, or else since it began.
    pub(crate) fn stood(&self, now: u64) -> u64
        ensures { result ≡ now - unwrap_or self.now.answered self.now.begun }
    {
        now.saturating_sub(self.answered.unwrap_or(self.begun))
    }

    /// The call of this number was answered.
    fn answer(&mut self, number: u64, now: u64)
        ensures { self.new ≡ answer_entry number now self.old }
    {
        if self.number == number {
            self.answered = Some(now);
        }
    }

    /// The call of this number was put on hold, or taken off hold.
    fn hold(&mut self, number: u64, is_held: bool)
        ensures { self.new ≡ hold_entry number is_held self.old }
    {
        if self.number == number {
            self.is_held = is_held;
        }
    }
}

/// The live calls, in the order in which they began: at most 256, of which the earliest is forgotten first.
#[derive(Drop)]
pub struct Ledger {
    entries: Vec<Entry>,
}

impl Model for Ledger {
    ghost use Rattle.std.specs.Prelude.{◌≤◌, List, length};
    ghost use Rattle.note_lines.specs.declared.ledger.Entry.{Entry};
    ghost use Rattle.note_lines.specs.Limits.{max_calls};

    ghost Value = { List Entry };

    ghost view = { λ l. l.entries.items };

    ghost invariant = { λ l. length l.entries.items ≤ max_calls };
}

/// The user of a URI; empty if it has none.
fn user_text(alloc: Global, user: Option<&Text<'static>>) -> Result<Text<'static>, AllocError>
    ensures { IfOk result (λ text. text ≡ user_text (option_copied user.entry)) }
{
    match user {
        Some(user) => user.keep(alloc),
        None => Ok(Text::lent(&[])),
    }
}

/// The entry of a call that begins.
fn entry_of(alloc: Global, call: &StandingCall, now: u64) -> Result<Option<Entry>, AllocError>
    ensures { IfOk result (λ entry. entry ≡ Some (entry_of call.now now)) }
{
    let Some(dialog) = call.call.dialog(End::Caller) else {
        return Ok(None);
    };
    let from = user_text(alloc, dialog.theirs.uri.user.as_ref())?;
    let to = user_text(alloc, dialog.ours.uri.user.as_ref())?;
    Ok(Some(Entry {
        number: call.call.number(),
        from,
        to,
        begun: now,
        answered: None,
        is_held: false,
    }))
}

/// The call of a number.
pub(crate) fn call_of(calls: &[StandingCall], number: u64) -> Option<&StandingCall>
    ensures { option_copied result ≡ find (is_call number) calls.now }
{
    calls.iter().find(|call| call.call.number() == number)
}

fn answer(entries: &mut [Entry], number: u64, now: u64)
    ensures { entries.new ≡ with_answer number now entries.old }
{
    for entry in entries.iter_mut() {
        entry.answer(number, now);
    }
}

fn hold(entries: &mut [Entry], number: u64, is_held: bool)
    ensures { entries.new ≡ with_hold number is_held entries.old }
{
    for entry in entries.iter_mut() {
        entry.hold(number, is_held);
    }
}

fn end(entries: &mut Vec<Entry>, number: u64)
    ensures entries { entries.new.items ≡ without_call number entries.old.items }
    ensures few { length entries.new.items ≤ length entries.old.items }
{
    entries.retain(|entry| entry.number != number)
}

/// If there are too many, the earliest is forgotten.
fn push(entries: &mut Vec<Entry>, entry: Entry) -> Result<(), AllocError>
    requires { length entries.old.items ≤ max_calls }
    ensures ok { OnOk result (entries.new.items ≡ with_entry entry entries.old.items) }
    ensures err { OnErr result (entries.new.items ≡ entries.old.items) }
    ensures few { length entries.new.items ≤ max_calls }
{
    entries.push(entry)?;
    if entries.len() > MAX_CALLS {
        drop(entries.remove(0));
    }
    Ok(())
}

impl Ledger {
    /// A ledger without calls. Takes no memory.
    pub fn new(alloc: Global) -> Ledger
        ensures { result ≡ [] }
    {
        Ledger {
            entries: Vec::new(alloc),
        }
    }

    /// At most 256 calls are known.
    pub(crate) fn few(&self)
        ensures { length self.now ≤ max_calls }
    {
        let _ = &self.entries;
    }

    /// The call of a number.
    pub(crate) fn get(&self, number: u64) -> Option<&Entry>
        ensures { option_copied result ≡ find (is_entry number) self.now }
    {
        self.entries.iter().find(|entry| entry.number == number)
    }

    /// A call begins. If memory runs out, the ledger is as before.
    pub(crate) fn begin(
        &mut self,
        alloc: Global,
        calls: &[StandingCall],
        number: u64,
        now: u64,
    ) -> Result<(), AllocError>
        ensures ok { OnOk result (self.new ≡ with_call (find (is_call number) calls.now) now self.old) }
        ensures err { OnErr result (self.new ≡ self.old) }
    {
        let Some(call) = call_of(calls, number) else {
            return Ok(());
        };
        match entry_of(alloc, call, now)? {
            Some(entry) => push(&mut self.entries, entry),
            None => Ok(()),
        }
    }

    /// A call is answered.
    pub(crate) fn answer(&mut self, number: u64, now: u64)
        ensures { self.new ≡ with_answer number now self.old }
    {
        answer(self.entries.as_mut_slice(), number, now);
    }

    /// A call is put on hold, or taken off hold.
    pub(crate) fn hold(&mut self, number: u64, is_held: bool)
        ensures { self.new ≡ with_hold number is_held self.old }
    {
        hold(self.entries.as_mut_slice(), number, is_held);
    }

    /// A call is over.
    pub(crate) fn end(&mut self, number: u64)
        ensures { self.new ≡ without_call number self.old }
    {
        end(&mut self.entries, number);
    }
}
