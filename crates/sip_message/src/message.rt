//! Messages.

ghost use Rattle.std.specs.Prelude.{◌≡◌};
ghost use Rattle.sip_message.specs.Values.{parts_with};

use crate::cseq::{CSeq, Sequence};
use crate::party::Ends;
use crate::via::Vias;
use header_fields::Headers;
use sip_uri::{NameAddr, Uri};
use text::Text;

/// What a response repeats of its request: the values of these header fields, and with them the texts of From, To and
/// CSeq as received, unfolded and trimmed (RFC 3261 section 8.2.6.2).
pub struct Parts<'a> {
    pub vias: Vias<'a>,
    pub from: NameAddr<'a>,
    pub to: NameAddr<'a>,
    pub call_id: Text<'a>,
    pub cseq: CSeq<'a>,
    pub from_text: Text<'a>,
    pub to_text: Text<'a>,
    pub cseq_text: Text<'a>,
}

impl Drop for Parts<'_> {
    #[inline(always)]
    fn drop(self) {
        let Parts {
            vias: _,
            from: _,
            to: _,
            call_id: _,
            cseq: _,
            from_text: _,
            to_text: _,
            cseq_text: _,
        } = self;
    }
}

/// The parts with these values. It has no error exit, which keeps the proofs of those that read or copy them short.
pub fn parts_with<'a>(
    vias: Vias<'a>,
    ends: Ends<'a>,
    call_id: Text<'a>,
    sequence: Sequence<'a>,
) -> Parts<'a>
    ensures { result ≡ parts_with vias.entry ends.entry.from ends.entry.to call_id.entry sequence.entry }
{
    let Ends { from, to } = ends;
    Parts {
        vias,
        from: from.name,
        to: to.name,
        call_id,
        cseq: sequence.cseq,
        from_text: from.text,
        to_text: to.text,
        cseq_text: sequence.text,
    }
}

/// A request (RFC 3261 section 7.1). `headers` are all header fields in order except Content-Length, which the body
/// gives.
pub struct Request<'a> {
    pub method: Text<'a>,
    pub uri: Uri<'a>,
    pub parts: Parts<'a>,
    /// 0 to 255; 70 if there is no Max-Forwards.
    pub max_forwards: u8,
    pub headers: Headers<'a>,
    pub body: Text<'a>,
}

impl Drop for Request<'_> {
    #[inline(always)]
    fn drop(self) {
        let Request {
            method: _,
            uri: _,
            parts: _,
            max_forwards: _,
            headers: _,
            body: _,
        } = self;
    }
}

/// A response (RFC 3261 section 7.2). `headers` are all header fields in order except Content-Length, which the body
/// gives.
pub struct Response<'a> {
    /// 100 to 699.
    pub status: u16,
    pub reason: Text<'a>,
    pub parts: Parts<'a>,
    pub headers: Headers<'a>,
    pub body: Text<'a>,
}

impl Drop for Response<'_> {
    fn drop(self) {
        let Response {
            status: _,
            reason: _,
            parts: _,
            headers: _,
            body: _,
        } = self;
    }
}

/// A message.
pub enum Message<'a> {
    Request(Request<'a>),
    Response(Response<'a>),
}

impl Drop for Message<'_> {
    #[inline(always)]
    fn drop(self) {
        match self {
            Message::Request(_) => {}
            Message::Response(_) => {}
        }
    }
}
