//! The values of the Contact header fields (RFC 3261 section 20.10).

ghost use Rattle.std.specs.Prelude.{◌≡◌, ◌++◌, map, IfOk, OnOk};
ghost use Rattle.text.specs.Pieces.{pieces};
ghost use Rattle.text.specs.declared.split.Within.TheVariants.{Nothing};
ghost use Rattle.sip_message.specs.Contact.{is_star, contact_of, contacts_of, headers_in, is_success, may_need_contact, need_by_method, contact_need};

use crate::message::Message;
use crate::start::Start;
use header_fields::{FieldValue, Header, is_named};
use sip_uri::{NameAddr, UriError, read_name_addr};
use std::alloc::{AllocError, Global};
use text::{Text, cut_piece, trim_blanks};

/// One value of a Contact header field.
#[derive(Drop)]
pub enum ContactValue<'a> {
    /// `*`, which means every binding.
    Star,
    Address(NameAddr<'a>),
    /// A text that is neither, or whose URI has another scheme.
    Unreadable,
}

impl<'a> ContactValue<'a> {
    /// The same value, which borrows nothing.
    pub fn keep(&self, alloc: Global) -> Result<ContactValue<'static>, AllocError>
        ensures { IfOk result (λ c. c ≡ self.now) }
    {
        match self {
            ContactValue::Star => Ok(ContactValue::Star),
            ContactValue::Address(name) => Ok(ContactValue::Address(name.keep(alloc)?)),
            ContactValue::Unreadable => Ok(ContactValue::Unreadable),
        }
    }
}

/// How many Contact values, each an address, a message has.
#[derive(Clone, Copy)]
pub enum ContactNeed {
    One,
    AtMostOne,
    /// They are not checked.
    Unlooked,
}

fn is_star(text: &[u8]) -> bool
    ensures { result ≡ is_star text.now }
{
    trim_blanks(text) == b"*".as_slice()
}

#[tactic(auto, unfolding(crate::specs::Contact::contact_of))]
fn read_contact(alloc: Global, text: &[u8]) -> Result<ContactValue<'_>, AllocError>
    ensures { IfOk result (λ c. c ≡ contact_of text.now) }
{
    if is_star(text) {
        return Ok(ContactValue::Star);
    }
    match read_name_addr(alloc, text) {
        Ok(name) => Ok(ContactValue::Address(name)),
        Err(UriError::OutOfMemory) => Err(AllocError),
        Err(_) => Ok(ContactValue::Unreadable),
    }
}

/// Appends the values of a text.
fn put_lent<'a>(
    alloc: Global,
    contacts: &mut Vec<ContactValue<'a>>,
    text: &'a [u8],
) -> Result<(), AllocError>
    ensures { OnOk result (contacts.new.items ≡ contacts.old.items ++ map contact_of (pieces 44 Nothing text.now)) }
{
    let mut left = Some(text);
    while let Some(text) = left {
        let (piece, behind) = cut_piece(text, b',');
        contacts.push(read_contact(alloc, piece)?)?;
        left = behind;
    }
    Ok(())
}

/// Appends these values, which then borrow nothing.
fn put_kept<'a>(
    alloc: Global,
    contacts: &mut Vec<ContactValue<'a>>,
    more: &[ContactValue<'_>],
) -> Result<(), AllocError>
    ensures { OnOk result (contacts.new.items ≡ contacts.old.items ++ more.now) }
{
    for contact in more {
        contacts.push(contact.keep(alloc)?)?;
    }
    Ok(())
}

/// Appends the values of a header field.
fn put_contacts<'a>(
    alloc: Global,
    contacts: &mut Vec<ContactValue<'a>>,
    value: &FieldValue<'a>,
) -> Result<(), AllocError>
    ensures { OnOk result (contacts.new.items ≡ contacts.old.items ++ map contact_of (pieces 44 Nothing value.now)) }
{
    if let Some(bytes) = value.in_place() {
        return put_lent(alloc, contacts, bytes);
    }
    let text = value.text(alloc)?;
    let mut found = Vec::new(alloc);
    put_lent(alloc, &mut found, text.as_bytes())?;
    put_kept(alloc, contacts, &found)
}

/// The header fields of a message, in order. Takes no memory.
pub fn headers_in<'m, 'a>(message: &'m Message<'a>) -> &'m [Header<'a>]
    ensures { result.now ≡ headers_in message.now }
{
    match message {
        Message::Request(request) => request.headers.as_slice(),
        Message::Response(response) => response.headers.as_slice(),
    }
}

/// Each Contact value of these header fields, in order.
pub fn contact_values<'a>(
    alloc: Global,
    headers: &[Header<'a>],
) -> Result<Vec<ContactValue<'a>>, AllocError>
    ensures { IfOk result (λ v. v.items ≡ contacts_of headers.now) }
{
    let mut contacts = Vec::new(alloc);
    for header in headers {
        if is_named(header, b"Contact") {
            put_contacts(alloc, &mut contacts, &header.value)?;
        }
    }
    Ok(contacts)
}

/// Each Contact value of a message, in order.
pub fn contacts<'a>(
    alloc: Global,
    message: &Message<'a>,
) -> Result<Vec<ContactValue<'a>>, AllocError>
    ensures { IfOk result (λ v. v.items ≡ contacts_of (headers_in message.now)) }
{
    contact_values(alloc, headers_in(message))
}

fn is_success(status: u16) -> bool
    ensures { result ≡ is_success status }
{
    200 <= status && status <= 299
}

fn may_need_contact(start: &Start<'_>) -> bool
    ensures { result ≡ may_need_contact start.now }
{
    match start {
        Start::Asking(_) => true,
        Start::Answering(line) => is_success(line.status),
    }
}

fn need_by_method(method: &[u8]) -> ContactNeed
    ensures { result ≡ need_by_method method.now }
{
    if method == b"INVITE".as_slice() {
        ContactNeed::One
    } else if method == b"UPDATE".as_slice() {
        ContactNeed::AtMostOne
    } else {
        ContactNeed::Unlooked
    }
}

/// How many Contacts the message needs: an INVITE and a 2xx to one say where their sender can be reached, and an
/// UPDATE and a 2xx to one may say so.
pub(crate) fn contact_need(start: &Start<'_>, method: &Text<'_>) -> ContactNeed
    ensures { result ≡ contact_need start.now method.now }
{
    if may_need_contact(start) {
        need_by_method(method.as_bytes())
    } else {
        ContactNeed::Unlooked
    }
}
