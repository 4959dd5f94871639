//! Where the sender of a message is reached.

ghost use Rattle.std.specs.Prelude.{◌≡◌, IfOk};
ghost use Rattle.sip_message.specs.Contact.{contacts_of};
ghost use Rattle.call_rules.specs.Reach.{address_in, contact_address, is_lost, is_reached, is_unreachable, leaves_unreached};

use crate::methods::{is_invite, is_success, is_update};
use sip_message::{ContactValue, Parts, Response, contact_values};
use sip_uri::{Addr, address_of};
use std::alloc::{AllocError, Global};

fn address_in(value: &ContactValue<'_>) -> Option<Addr>
    ensures { result ≡ address_in value.now }
{
    match value {
        ContactValue::Star | ContactValue::Unreadable => None,
        ContactValue::Address(name) => address_of(&name.uri),
    }
}

/// The address that the first Contact of these says; none where there is no Contact, where the first is not a URI,
/// and where its host is a name. Takes no memory.
#[tactic(auto, unfolding(crate::specs::Reach::contact_address))]
pub fn contact_address(values: &[ContactValue<'_>]) -> Option<Addr>
    ensures { result ≡ contact_address values.now }
{
    match values {
        [] => None,
        [value, ..] => address_in(value),
    }
}

/// Whether these Contacts reach somebody. Takes no memory.
pub fn is_reached(values: &[ContactValue<'_>]) -> bool
    ensures { result ≡ is_reached values.now }
{
    contact_address(values).is_some()
}

fn is_lost(values: &[ContactValue<'_>]) -> bool
    ensures { result ≡ is_lost values.now }
{
    match values {
        [] => false,
        [_, ..] => !is_reached(values),
    }
}

pub(crate) fn leaves_unreached(parts: &Parts<'_>, values: &[ContactValue<'_>]) -> bool
    ensures { result ≡ leaves_unreached parts.now values.now }
{
    if is_invite(parts) {
        !is_reached(values)
    } else if is_update(parts) {
        is_lost(values)
    } else {
        false
    }
}

/// Whether a response can't be taken, since its Contact leaves nowhere to send what follows it: a 2xx to an INVITE, and
/// one to an UPDATE that has a Contact.
#[tactic(auto, unfolding(crate::specs::Reach::is_unreachable))]
pub fn is_unreachable(alloc: Global, response: &Response<'_>) -> Result<bool, AllocError>
    ensures { IfOk result (λ b. b ≡ is_unreachable response.now) }
{
    if !is_success(response.status) {
        return Ok(false);
    }
    let values = contact_values(alloc, response.headers.as_slice())?;
    Ok(leaves_unreached(&response.parts, &values))
}
