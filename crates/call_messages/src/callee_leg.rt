//! The callee's leg of a call, before its first response.

ghost use Rattle.std.specs.Prelude.{◌≡◌, codes, IfOk};
ghost use Rattle.call_messages.specs.Messages.{leg_call_id, new_leg};

use dialogs::{Dialog, DialogId, party_named};
use sip_message::Parts;
use sip_uri::{Addr, Uri, put_ip4};
use std::alloc::{AllocError, Global};
use text::{Text, both};

/// The bytes of an @ and of the longest address, 255.255.255.255.
const HOST_BYTES: usize = 16;

fn leg_call_id(alloc: Global, server: Addr, token: &[u8]) -> Result<Text<'static>, AllocError>
    ensures { IfOk result (λ text. text ≡ leg_call_id server token.now) }
{
    let mut out = Vec::with_capacity(alloc, token.len() + HOST_BYTES)?;
    out.extend_from_slice(token)?;
    out.push(b'@')?;
    put_ip4(&mut out, &server.ip)?;
    Ok(Text::from_vec(out))
}

fn leg_id(alloc: Global, server: Addr, token: &[u8], tag: &[u8]) -> Result<DialogId, AllocError>
    ensures { IfOk result (λ id. id ≡ record { call_id = leg_call_id server token.now; ours = tag.now; theirs = codes "" }) }
{
    let call_id = leg_call_id(alloc, server, token)?;
    let ours = Text::from_slice(alloc, tag)?;
    let theirs = Text::lent(b"");
    Ok(DialogId {
        call_id,
        ours,
        theirs,
    })
}

/// The dialog that a call's first INVITE asks the callee for. From and To are those of the caller's INVITE, which has
/// these parts, without its tags. The Call-ID is a token at the server's address, and the From tag is a token. The
/// request goes to the URI at which the callee is bound (RFC 3261 sections 8.1.1 and 16.6). The first request of this
/// dialog is that INVITE.
#[tactic(auto, unfolding(crate::specs::Messages::new_leg))]
pub fn new_leg(
    alloc: Global,
    server: Addr,
    caller: &Parts<'_>,
    target: &Uri<'_>,
    token: &[u8],
    tag: &[u8],
) -> Result<Dialog, AllocError>
    ensures leg { IfOk result (λ d. d ≡ new_leg server caller.now target.now token.now tag.now) }
{
    let ends = both(
        party_named(alloc, &caller.from),
        party_named(alloc, &caller.to),
    );
    let place = both(leg_id(alloc, server, token, tag), target.keep(alloc));
    let ((ours, theirs), (id, target)) = both(ends, place)?;
    Ok(Dialog {
        id,
        ours,
        theirs,
        target,
        local_number: None,
        remote_number: None,
    })
}
