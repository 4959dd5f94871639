//! Where the sender of a message is reached (RFC 3261 sections 12.1.1 and 12.1.2).

ghost use Rattle.std.specs.Prelude.{◌≡◌, IfOk};
ghost use Rattle.sip_message.specs.Contact.{contacts_of};
ghost use Rattle.dialogs.specs.Making.{reached_at};

use sip_message::{ContactValue, Header, contact_values};
use sip_uri::Uri;
use std::alloc::{AllocError, Global};

fn uri_of(alloc: Global, values: &[ContactValue<'_>]) -> Result<Option<Uri<'static>>, AllocError>
    ensures { IfOk result (λ uri. uri ≡ reached_at values.now) }
{
    let [value] = values else {
        return Ok(None);
    };
    match value {
        ContactValue::Address(name) => Ok(Some(name.uri.keep(alloc)?)),
        ContactValue::Star | ContactValue::Unreadable => Ok(None),
    }
}

/// The URI of the one Contact address that these header fields have; none where there is no Contact, or more than
/// one.
pub fn contact_uri(
    alloc: Global,
    headers: &[Header<'_>],
) -> Result<Option<Uri<'static>>, AllocError>
    ensures { IfOk result (λ uri. uri ≡ reached_at (contacts_of headers.now)) }
{
    let values = contact_values(alloc, headers)?;
    uri_of(alloc, &values)
}
