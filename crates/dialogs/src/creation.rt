//! Dialogs that begin (RFC 3261 section 12.1).

ghost use Rattle.std.specs.Prelude.{◌≡◌, Some, IfOk};
ghost use Rattle.sip_message.specs.Contact.{contacts_of};
ghost use Rattle.dialogs.specs.Making.{reached_at, own_tag, party_named, callees_dialog, callers_dialog};

use crate::identifiers::DialogId;
use crate::state::{Dialog, Party};
use sip_message::{Parts, Request, Response, tag_text};
use sip_uri::{NameAddr, Uri, keep_text};
use std::alloc::{AllocError, Global};
use text::{Text, both};

/// The party of a name and address: its display name and its URI, without parameters of the field (RFC 3261 section
/// 12.1).
pub fn party_named(alloc: Global, name: &NameAddr<'_>) -> Result<Party, AllocError>
    ensures { IfOk result (λ party. party ≡ party_named name.now) }
{
    let display = keep_text(alloc, &name.display)?;
    let uri = name.uri.keep(alloc)?;
    Ok(Party { display, uri })
}

fn identifiers(
    alloc: Global,
    call_id: &Text<'_>,
    ours: &[u8],
    theirs: &[u8],
) -> Result<DialogId, AllocError>
    ensures { IfOk result (λ id. id ≡ record { call_id = call_id.now; ours = ours.now; theirs = theirs.now }) }
{
    let call_id = call_id.keep(alloc)?;
    let ours = Text::from_slice(alloc, ours)?;
    let theirs = Text::from_slice(alloc, theirs)?;
    Ok(DialogId {
        call_id,
        ours,
        theirs,
    })
}

/// The tag of the server's responses to an INVITE.
fn own_tag<'m>(invite: &'m Request<'_>, tag: &'m [u8]) -> &'m [u8]
    ensures { result.now ≡ own_tag invite.now tag.now }
{
    let to_tag = tag_text(invite.parts.to.params.as_slice());
    if to_tag.is_empty() { tag } else { to_tag }
}

impl Dialog {
    /// The dialog with the sender of an INVITE, whose Contact says this target, and which the server answers with this
    /// tag, or with that of its To where it has one (RFC 3261 section 12.1.1).
    pub fn as_callee(
        alloc: Global,
        invite: &Request<'_>,
        tag: &[u8],
        target: Uri<'static>,
    ) -> Result<Dialog, AllocError>
        requires target { reached_at (contacts_of invite.now.headers) ≡ Some target }
        ensures target { IfOk result (λ d. reached_at (contacts_of invite.now.headers) ≡ Some d.target) }
        ensures dialog { IfOk result (λ d. d ≡ callees_dialog invite.now tag.now d.target) }
    {
        let parts = &invite.parts;
        let their_tag = tag_text(parts.from.params.as_slice());
        let id = identifiers(alloc, &parts.call_id, own_tag(invite, tag), their_tag);
        let ends = both(
            party_named(alloc, &parts.to),
            party_named(alloc, &parts.from),
        );
        let (id, (ours, theirs)) = both(id, ends)?;
        Ok(Dialog {
            id,
            ours,
            theirs,
            target,
            local_number: None,
            remote_number: Some(parts.cseq.number),
        })
    }

    /// The dialog with the sender of a 2xx to an INVITE of the server's, which has these parts, where the Contact of
    /// the 2xx says this target (RFC 3261 section 12.1.2).
    pub fn as_caller(
        alloc: Global,
        invite: &Parts<'_>,
        response: &Response<'_>,
        target: Uri<'static>,
    ) -> Result<Dialog, AllocError>
        requires target { reached_at (contacts_of response.now.headers) ≡ Some target }
        ensures target { IfOk result (λ d. reached_at (contacts_of response.now.headers) ≡ Some d.target) }
        ensures dialog { IfOk result (λ d. d ≡ callers_dialog invite.now response.now d.target) }
    {
        let our_tag = tag_text(invite.from.params.as_slice());
        let their_tag = tag_text(response.parts.to.params.as_slice());
        let id = identifiers(alloc, &invite.call_id, our_tag, their_tag);
        let ends = both(
            party_named(alloc, &invite.from),
            party_named(alloc, &invite.to),
        );
        let (id, (ours, theirs)) = both(id, ends)?;
        Ok(Dialog {
            id,
            ours,
            theirs,
            target,
            local_number: Some(invite.cseq.number),
            remote_number: None,
        })
    }
}
