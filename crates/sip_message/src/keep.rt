//! Values that borrow nothing, with what a contract sees of them: the one way to keep what a datagram said.

ghost use Rattle.std.specs.Prelude.{◌≡◌, IfOk};

use crate::cseq::{CSeq, Sequence};
use crate::message::{Message, Parts, Request, Response, parts_with};
use crate::party::{Ends, Party};
use crate::via::{Via, Vias};
use sip_uri::NameAddr;
use std::alloc::{AllocError, Global};
use text::{Text, both};

impl<'a> CSeq<'a> {
    /// The same value, which borrows nothing.
    pub fn keep(&self, alloc: Global) -> Result<CSeq<'static>, AllocError>
        ensures { IfOk result (λ c. c ≡ self.now) }
    {
        Ok(CSeq {
            number: self.number,
            method: self.method.keep(alloc)?,
        })
    }
}

impl<'a> Via<'a> {
    /// The same value, which borrows nothing.
    pub fn keep(&self, alloc: Global) -> Result<Via<'static>, AllocError>
        ensures { IfOk result (λ v. v ≡ self.now) }
    {
        let place = both(self.sent_by.keep(alloc), self.host.keep(alloc));
        let ((sent_by, host), params) = both(place, self.params.keep(alloc))?;
        Ok(Via {
            sent_by,
            host,
            port: self.port,
            params,
        })
    }
}

impl<'a> Vias<'a> {
    /// The same values, which borrow nothing.
    pub fn keep(&self, alloc: Global) -> Result<Vias<'static>, AllocError>
        ensures { IfOk result (λ v. v ≡ self.now) }
    {
        let mut vias = Vec::new(alloc);
        for via in self.as_slice() {
            vias.push(via.keep(alloc)?)?;
        }
        Ok(Vias::from_vec(vias))
    }
}

fn kept_party(
    alloc: Global,
    name: &NameAddr<'_>,
    text: &Text<'_>,
) -> Result<Party<'static>, AllocError>
    ensures { IfOk result (λ party. (party.name ≡ name.now) × (party.text ≡ text.now)) }
{
    Ok(Party {
        text: text.keep(alloc)?,
        name: name.keep(alloc)?,
    })
}

fn kept_ends(alloc: Global, parts: &Parts<'_>) -> Result<Ends<'static>, AllocError>
    ensures from { IfOk result (λ ends. (ends.from.name ≡ parts.now.from) × (ends.from.text ≡ parts.now.from_text)) }
    ensures to { IfOk result (λ ends. (ends.to.name ≡ parts.now.to) × (ends.to.text ≡ parts.now.to_text)) }
{
    Ok(Ends {
        from: kept_party(alloc, &parts.from, &parts.from_text)?,
        to: kept_party(alloc, &parts.to, &parts.to_text)?,
    })
}

impl<'a> Parts<'a> {
    /// From and its text, which borrow nothing.
    pub fn keep_from(&self, alloc: Global) -> Result<Party<'static>, AllocError>
        ensures name { IfOk result (λ party. party.name ≡ self.now.from) }
        ensures text { IfOk result (λ party. party.text ≡ self.now.from_text) }
    {
        kept_party(alloc, &self.from, &self.from_text)
    }

    /// CSeq and its text, which borrow nothing.
    pub fn keep_sequence(&self, alloc: Global) -> Result<Sequence<'static>, AllocError>
        ensures cseq { IfOk result (λ sequence. sequence.cseq ≡ self.now.cseq) }
        ensures text { IfOk result (λ sequence. sequence.text ≡ self.now.cseq_text) }
    {
        Ok(Sequence {
            text: self.cseq_text.keep(alloc)?,
            cseq: self.cseq.keep(alloc)?,
        })
    }

    /// The same parts, which borrow nothing.
    pub fn keep(&self, alloc: Global) -> Result<Parts<'static>, AllocError>
        ensures { IfOk result (λ p. p ≡ self.now) }
    {
        let way = both(self.vias.keep(alloc), kept_ends(alloc, self));
        let request = both(self.call_id.keep(alloc), self.keep_sequence(alloc));
        let ((vias, ends), (call_id, sequence)) = both(way, request)?;
        Ok(parts_with(vias, ends, call_id, sequence))
    }
}

impl<'a> Request<'a> {
    /// The same request, which borrows nothing.
    pub fn keep(&self, alloc: Global) -> Result<Request<'static>, AllocError>
        ensures { IfOk result (λ r. r ≡ self.now) }
    {
        let line = both(self.method.keep(alloc), self.uri.keep(alloc));
        let rest = both(self.headers.keep(alloc), self.body.keep(alloc));
        let ((method, uri), (parts, (headers, body))) = both(
            line,
            both(self.parts.keep(alloc), rest),
        )?;
        Ok(Request {
            method,
            uri,
            parts,
            max_forwards: self.max_forwards,
            headers,
            body,
        })
    }
}

impl<'a> Response<'a> {
    /// The same response, which borrows nothing.
    pub fn keep(&self, alloc: Global) -> Result<Response<'static>, AllocError>
        ensures { IfOk result (λ r. r ≡ self.now) }
    {
        let line = both(self.reason.keep(alloc), self.parts.keep(alloc));
        let rest = both(self.headers.keep(alloc), self.body.keep(alloc));
        let ((reason, parts), (headers, body)) = both(line, rest)?;
        Ok(Response {
            status: self.status,
            reason,
            parts,
            headers,
            body,
        })
    }
}

impl<'a> Message<'a> {
    /// The same message, which borrows nothing.
    pub fn keep(&self, alloc: Global) -> Result<Message<'static>, AllocError>
        ensures { IfOk result (λ m. m ≡ self.now) }
    {
        match self {
            Message::Request(request) => Ok(Message::Request(request.keep(alloc)?)),
            Message::Response(response) => Ok(Message::Response(response.keep(alloc)?)),
        }
    }
}
