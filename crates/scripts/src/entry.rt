//! The first event of a script.

ghost use Rattle.std.specs.Prelude.{◌≡◌, IfOk};
ghost use Rattle.events.specs.declared.event.What.TheVariants.{Datagram, Users};
ghost use Rattle.scripts.specs.Reading.{is_same, timer_of, silent_of, users_of, bytes_of, datagram_of, entry_of, next_of};
ghost use Rattle.scripts.specs.Values.{names_of};

use crate::head::{Head, head_of};
use crate::number::number_of;
use events::{Event, What};
use sip_uri::Addr;
use std::alloc::{AllocError, Global};
use std::marker::Model;
use text::{Text, Texts, cut};

/// What a line is about, with the bytes of a datagram or of names as they are in the script.
#[derive(Clone, Copy)]
enum Told<'a> {
    Due,
    /// For a long time no media have come in the call of this number.
    Silent(u64),
    /// The users with these names, separated by commas, are the office's from now on.
    Users(&'a [u8]),
    Datagram { source: Addr, bytes: &'a [u8] },
}

/// The first event of a text, and what comes after it.
#[derive(Drop)]
pub(crate) struct Entry<'a> {
    moment: u64,
    salt: u64,
    told: Told<'a>,
    rest: &'a [u8],
}

impl<'a> Model for Entry<'a> {
    ghost use Rattle.scripts.specs.Values.{Entry, event_of};

    ghost Value = { Entry };

    ghost view = { λ e. record { event = event_of e.moment e.salt e.told; rest = e.rest.now } };
}

impl<'a> Entry<'a> {
    /// What comes after the event. Takes no memory.
    pub(crate) fn rest(&self) -> &'a [u8]
        ensures { result.now ≡ self.now.rest }
    {
        self.rest
    }

    /// The event, with bytes of its own.
    pub(crate) fn event(&self, alloc: Global) -> Result<Event, AllocError>
        ensures { IfOk result (λ e. e ≡ self.now.event) }
    {
        let what = match self.told {
            Told::Due => What::Due,
            Told::Silent(call) => What::Silent(call),
            Told::Users(names) => users(alloc, names)?,
            Told::Datagram { source, bytes } => datagram(alloc, source, bytes)?,
        };
        Ok(Event {
            now: self.moment,
            salt: self.salt,
            what,
        })
    }
}

/// The users with these names, separated by commas.
fn users(alloc: Global, names: &[u8]) -> Result<What, AllocError>
    ensures { IfOk result (λ what. what ≡ Users (names_of names.now)) }
{
    let mut users = Vec::new(alloc);
    for name in names.split(|b| *b == b',') {
        users.push(Text::from_slice(alloc, name)?)?;
    }
    Ok(What::Users(Texts::from_vec(users)))
}

fn datagram(alloc: Global, source: Addr, bytes: &[u8]) -> Result<What, AllocError>
    ensures { IfOk result (λ what. what ≡ Datagram source bytes.now) }
{
    Ok(What::Datagram {
        source,
        bytes: Text::from_slice(alloc, bytes)?,
    })
}

pub(crate) fn is_same(text: &[u8], other: &[u8]) -> bool
    ensures { result ≡ is_same text.now other.now }
{
    text == other
}

#[tactic(auto, unfolding(crate::specs::Reading::timer_of))]
fn timer_of<'a>(fields: &'a [u8], behind: &'a [u8]) -> Option<Entry<'a>>
    ensures { result ≡ timer_of fields.now behind.now }
{
    let (now, rest) = cut(fields, b' ');
    let now = number_of(now)?;
    let salt = number_of(rest?)?;
    Some(Entry {
        moment: now,
        salt,
        told: Told::Due,
        rest: behind,
    })
}

#[tactic(auto, unfolding(crate::specs::Reading::silent_of))]
fn silent_of<'a>(fields: &'a [u8], behind: &'a [u8]) -> Option<Entry<'a>>
    ensures { result ≡ silent_of fields.now behind.now }
{
    let (now, rest) = cut(fields, b' ');
    let (salt, rest) = cut(rest?, b' ');
    let moment = number_of(now)?;
    let salt = number_of(salt)?;
    let call = number_of(rest?)?;
    Some(Entry {
        moment,
        salt,
        told: Told::Silent(call),
        rest: behind,
    })
}

#[tactic(auto, unfolding(crate::specs::Reading::users_of))]
fn users_of<'a>(fields: &'a [u8], behind: &'a [u8]) -> Option<Entry<'a>>
    ensures { result ≡ users_of fields.now behind.now }
{
    let (now, rest) = cut(fields, b' ');
    let (salt, rest) = cut(rest?, b' ');
    let moment = number_of(now)?;
    let salt = number_of(salt)?;
    let names = rest?;
    Some(Entry {
        moment,
        salt,
        told: Told::Users(names),
        rest: behind,
    })
}

#[tactic(auto, unfolding(crate::specs::Reading::bytes_of))]
fn bytes_of(head: Head, behind: &[u8]) -> Option<Entry<'_>>
    ensures { result ≡ bytes_of head behind.now }
{
    if head.count < behind.len() && behind[head.count] == b'\n' {
        Some(Entry {
            moment: head.now,
            salt: head.salt,
            told: Told::Datagram {
                source: head.source,
                bytes: &behind[..head.count],
            },
            rest: &behind[head.count + 1..],
        })
    } else {
        None
    }
}

fn datagram_of<'a>(fields: &'a [u8], behind: &'a [u8]) -> Option<Entry<'a>>
    ensures { result ≡ datagram_of fields.now behind.now }
{
    bytes_of(head_of(fields)?, behind)
}

fn entry_of<'a>(kind: &'a [u8], fields: &'a [u8], behind: &'a [u8]) -> Option<Entry<'a>>
    ensures { result ≡ entry_of kind.now fields.now behind.now }
{
    if is_same(kind, b"T") {
        return timer_of(fields, behind);
    }
    if is_same(kind, b"Q") {
        return silent_of(fields, behind);
    }
    if is_same(kind, b"U") {
        return users_of(fields, behind);
    }
    if is_same(kind, b"D") {
        return datagram_of(fields, behind);
    }
    None
}

/// The event of the first line, with the bytes after the line.
#[tactic(auto, unfolding(crate::specs::Reading::next_of))]
pub(crate) fn next_of(text: &[u8]) -> Option<Entry<'_>>
    ensures { result ≡ next_of text.now }
{
    let (line, behind) = cut(text, b'\n');
    let (kind, fields) = cut(line, b' ');
    let fields = fields?;
    entry_of(kind, fields, behind?)
}
