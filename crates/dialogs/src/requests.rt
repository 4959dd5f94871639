//! Requests in a dialog (RFC 3261 section 12.2.1.1).

ghost use Rattle.std.specs.Prelude.{◌≡◌, ◌≤◌, OnOk, IfOk, IfErr};
ghost use Rattle.sip_message.specs.declared.message.Message.TheVariants as Kinds;
ghost use Rattle.sip_message.specs.declared.via.Via.{Via};
ghost use Rattle.sip_writing.specs.Writing.{message_text};
ghost use Rattle.dialogs.specs.Counting.{method_text, following, max_for, RefusesNext};
ghost use Rattle.sip_writing.specs.Unkept.{end_name};
ghost use Rattle.dialogs.specs.Requests.{ack_text, our_name, parts_in, request_in, their_name};

use crate::error::DialogError;
use crate::method::Method;
use crate::state::Dialog;
use sip_message::{Header, Parts, Via};
use sip_uri::Uri;
use sip_writing::{
    EndName, Outline, Unkept, name_with_tag, parts_with_names, write_outline, write_unkept,
};
use std::alloc::{AllocError, Global};
use text::{Text, both};

/// What a request in a dialog has besides what the dialog says.
#[derive(Clone, Copy)]
pub struct Extras<'m, 'a> {
    /// One less than it came with in a request that is passed on, and 70 in all others (RFC 3261 sections 8.1.1.6 and
    /// 16.6).
    pub max_forwards: u8,
    /// Header fields after those that each request has, such as Contact and Content-Type.
    pub further: &'m [Header<'a>],
    pub body: &'m [u8],
}

/// A request as it is sent, with its number and its parts.
#[derive(Drop)]
pub struct NextRequest {
    pub number: u32,
    pub parts: Parts<'static>,
    pub bytes: Text<'static>,
}

/// The parts of a request: From and To are the dialog's ends, with their tags.
#[tactic(auto, unfolding(crate::specs::Requests::parts_in))]
fn parts_in(
    alloc: Global,
    dialog: &Dialog,
    via: Via<'static>,
    method: &[u8],
    number: u32,
) -> Result<Parts<'static>, AllocError>
    ensures { IfOk result (λ parts. parts ≡ parts_in dialog.now via.entry method.now number) }
{
    let id = &dialog.id;
    let ours = &dialog.ours;
    let theirs = &dialog.theirs;
    let from = name_with_tag(alloc, &ours.display, &ours.uri, id.ours.as_bytes());
    let to = name_with_tag(alloc, &theirs.display, &theirs.uri, id.theirs.as_bytes());
    let (from, to) = both(from, to)?;
    let call_id = id.call_id.as_bytes();
    parts_with_names(alloc, via, from, to, call_id, number, method)
}

/// The request with these parts, as it is sent.
#[tactic(auto, unfolding(sip_writing::specs::Outlines::outlined, crate::specs::Requests::request_in))]
fn text_in(
    alloc: Global,
    dialog: &Dialog,
    parts: &Parts<'_>,
    method: &[u8],
    number: u32,
    extras: &Extras<'_, '_>,
) -> Result<Text<'static>, AllocError>
    ensures { (via : Via) → parts.now ≡ parts_in dialog.now via method.now number → IfOk result (λ t. t ≡ message_text (Kinds.Request
        (request_in dialog.now via method.now number extras.now.max_forwards extras.now.further.now extras.now.body.now))) }
{
    let _ = number;
    let outline = Outline {
        method,
        uri: &dialog.target,
        parts,
        max_forwards: extras.max_forwards,
        further: extras.further,
        body: extras.body,
    };
    write_outline(alloc, &outline)
}

impl Dialog {
    /// The next request of this method with the server's Via, and its number, which `keep_number` keeps. G2 comes where
    /// no number is left.
    pub fn next_request(
        &self,
        alloc: Global,
        method: Method,
        via: Via<'static>,
        extras: &Extras<'_, '_>,
    ) -> Result<NextRequest, DialogError>
        ensures number { IfOk result (λ next. next.number ≡ following self.now) }
        ensures left { OnOk result (following self.now ≤ max_for method) }
        ensures parts { IfOk result (λ next. next.parts ≡ parts_in self.now via.entry (method_text method) (following self.now)) }
        ensures bytes { IfOk result (λ next. next.bytes ≡ message_text (Kinds.Request (request_in self.now via.entry (method_text method)
            (following self.now) extras.now.max_forwards extras.now.further.now extras.now.body.now))) }
        ensures refused { IfErr result (RefusesNext self.now method) }
    {
        let number = self.next_number(method)?;
        let parts = parts_in(alloc, self, via, method.as_bytes(), number)?;
        let bytes = text_in(alloc, self, &parts, method.as_bytes(), number, extras)?;
        Ok(NextRequest {
            number,
            parts,
            bytes,
        })
    }

    fn our_name(&self) -> EndName<'_, 'static>
        ensures { end_name result ≡ our_name self.now }
    {
        EndName {
            display: &self.ours.display,
            uri: &self.ours.uri,
            tag: self.id.ours.as_bytes(),
        }
    }

    fn their_name(&self) -> EndName<'_, 'static>
        ensures { end_name result ≡ their_name self.now }
    {
        EndName {
            display: &self.theirs.display,
            uri: &self.theirs.uri,
            tag: self.id.theirs.as_bytes(),
        }
    }

    /// The ACK of a 2xx to the INVITE with this number, with the server's Via, as it is sent (RFC 3261 section
    /// 13.2.2.4).
    #[tactic(auto, unfolding(sip_writing::specs::Unkept::unkept_request, crate::specs::Requests::request_in, crate::specs::Requests::parts_in))]
    pub fn ack(
        &self,
        alloc: Global,
        number: u32,
        via: &Via<'_>,
        extras: &Extras<'_, '_>,
    ) -> Result<Text<'static>, AllocError>
        ensures bytes { IfOk result (λ t. t ≡ message_text (Kinds.Request (request_in self.now via.now ack_text number
            extras.now.max_forwards extras.now.further.now extras.now.body.now))) }
    {
        let Extras {
            max_forwards,
            further,
            body,
        } = *extras;
        let request = Unkept {
            method: b"ACK",
            uri: &self.target,
            via,
            max_forwards,
            from: self.our_name(),
            to: self.their_name(),
            call_id: self.id.call_id.as_bytes(),
            number,
            further,
            body,
        };
        write_unkept(alloc, &request)
    }

    /// Sends the requests that follow to this URI (RFC 3261 section 12.2). Takes no memory.
    pub fn refresh_target(&mut self, target: Uri<'static>)
        ensures target { self.new ≡ record self.old { target = target.entry } }
    {
        self.target = target;
    }
}
