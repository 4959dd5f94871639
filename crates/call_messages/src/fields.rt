//! The header fields of the server's messages to an end, after those that every message has.

ghost use Rattle.std.specs.Prelude.{◌≡◌, [], ◌∷◌, IfOk};
ghost use Rattle.call_messages.specs.Messages.{contact, content_type, description_headers, retry_after};

use sip_message::{FieldValue, Header};
use sip_uri::Addr;
use sip_writing::put_socket_address;
use std::alloc::{AllocError, Global};
use text::{Room, Text};

/// Where the server is reached: `Contact: <sip:ADDRESS:PORT>` (RFC 3261 sections 8.1.1.8 and 12.1.1).
pub fn contact_header(alloc: Global, server: Addr) -> Result<Header<'static>, AllocError>
    ensures contact { IfOk result (λ h. h ≡ contact server) }
{
    let mut room = Room::new();
    room.put(b"<sip:");
    put_socket_address(&mut room, server);
    room.put_byte(b'>');
    Ok(Header {
        name: Text::lent(b"Contact"),
        value: FieldValue::whole(room.text(alloc)?),
    })
}

/// When a request that clashed with another may come again: only `Retry-After: 5` (RFC 3261 sections 14.2 and 20.33).
pub fn retry_alone(alloc: Global) -> Result<Vec<Header<'static>>, AllocError>
    ensures { IfOk result (λ hs. hs.items ≡ retry_after ∷ []) }
{
    let mut headers = Vec::new(alloc);
    headers.push(Header::of(alloc, b"Retry-After", b"5")?)?;
    Ok(headers)
}

fn content_type() -> Header<'static>
    ensures { result ≡ content_type }
{
    Header {
        name: Text::lent(b"Content-Type"),
        value: FieldValue::whole(Text::lent(b"application/sdp")),
    }
}

/// The header fields of a message with a description.
pub(crate) fn description_headers(
    alloc: Global,
    server: Addr,
) -> Result<[Header<'static>; 2], AllocError>
    ensures { IfOk result (λ hs. hs ≡ description_headers server) }
{
    Ok([contact_header(alloc, server)?, content_type()])
}
