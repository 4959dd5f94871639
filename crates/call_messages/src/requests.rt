//! Requests to an end, as they are sent.

ghost use Rattle.std.specs.Prelude.{◌≡◌, IfOk, option_map};
ghost use Rattle.sip_message.specs.declared.message.Message.TheVariants as Kinds;
ghost use Rattle.sip_writing.specs.Writing.{message_text};
ghost use Rattle.transactions.specs.OwnRequests.{own_of};
ghost use Rattle.call_messages.specs.Messages.{ack, bye, next_request, offer, one_hop_less};

use crate::fields::description_headers;
use dialogs::{Dialog, DialogError, Extras, Method};
use sdp::{Description, write_description};
use sip_message::{MAX_FORWARDS, Via};
use sip_uri::Addr;
use sip_writing::server_via;
use std::alloc::{AllocError, Global};
use text::Text;
use transactions::OwnRequest;

/// The next request of this method, where a number is left for it.
#[tactic(auto, unfolding(dialogs::specs::Requests::request_in))]
fn next_request(
    alloc: Global,
    dialog: &Dialog,
    method: Method,
    via: Via<'static>,
    extras: &Extras<'_, '_>,
) -> Result<Option<OwnRequest>, AllocError>
    ensures { IfOk result (λ own. own ≡ option_map own_of (next_request dialog.now method via.entry extras.now.max_forwards
        extras.now.further.now extras.now.body.now)) }
{
    match dialog.next_request(alloc, method, via, extras) {
        Ok(next) => {
            let uri = dialog.target.keep(alloc)?;
            Ok(Some(OwnRequest {
                uri,
                parts: next.parts,
                bytes: next.bytes,
            }))
        }
        Err(DialogError::OutOfMemory) => Err(AllocError),
        Err(DialogError::OldNumber) => Ok(None),
        Err(DialogError::NoNumberLeft) => Ok(None),
    }
}

/// A request that is passed on has one hop less than it came with (RFC 3261 section 16.6).
fn one_hop_less(hops: u8) -> u8
    ensures { result ≡ one_hop_less hops }
{
    hops.saturating_sub(1)
}

/// An INVITE or UPDATE with an offer that is passed on: the first INVITE of a call, in its new leg, and those that
/// follow. It has the server's Contact, a branch of this token, and one hop less than it came with. None where no
/// number is left.
pub fn offer(
    alloc: Global,
    server: Addr,
    dialog: &Dialog,
    method: Method,
    hops: u8,
    description: &Description<'_>,
    token: &[u8],
) -> Result<Option<OwnRequest>, AllocError>
    ensures offer { IfOk result (λ own. own ≡ option_map own_of (offer server dialog.now method hops description.now token.now)) }
{
    let via = server_via(alloc, server, token)?;
    let further = description_headers(alloc, server)?;
    let body = write_description(alloc, description)?;
    let extras = Extras {
        max_forwards: one_hop_less(hops),
        further: &further,
        body: body.as_bytes(),
    };
    next_request(alloc, dialog, method, via, &extras)
}

/// The ACK of the 2xx to the last INVITE in this dialog (RFC 3261 section 13.2.2.4), with a branch of this token.
pub fn ack(
    alloc: Global,
    server: Addr,
    dialog: &Dialog,
    token: &[u8],
) -> Result<Text<'static>, AllocError>
    ensures ack { IfOk result (λ t. t ≡ message_text (Kinds.Request (ack server dialog.now token.now))) }
{
    let via = server_via(alloc, server, token)?;
    let extras = Extras {
        max_forwards: MAX_FORWARDS,
        further: &[],
        body: b"",
    };
    dialog.ack(alloc, dialog.local_number.unwrap_or(0), &via, &extras)
}

/// A BYE (RFC 3261 section 15.1.1), with a branch of this token. None where no number is left.
pub fn bye(
    alloc: Global,
    server: Addr,
    dialog: &Dialog,
    token: &[u8],
) -> Result<Option<OwnRequest>, AllocError>
    ensures bye { IfOk result (λ own. own ≡ option_map own_of (bye server dialog.now token.now)) }
{
    let via = server_via(alloc, server, token)?;
    let extras = Extras {
        max_forwards: MAX_FORWARDS,
        further: &[],
        body: b"",
    };
    next_request(alloc, dialog, Method::Bye, via, &extras)
}
