//! Which message belongs to which request (RFC 3261 sections 17.1.3, 17.2.3 and 9.2).

ghost use Rattle.std.specs.Prelude.{◌≡◌, is_some};
ghost use Rattle.sip_message.specs.Words.{tag_value};
ghost use Rattle.transactions.specs.Matching.{same_sent_by, same_top, served_method, is_copy, is_reply, keeps_to_tag, is_same_call, is_merged_with};

use sip_message::{Parts, Via, is_method, tag_value, top_branch};
use sip_uri::{port_or_default, same_host, same_text};
use text::Text;

fn same_sent_by(a: &Via, b: &Via) -> bool
    ensures { result ≡ same_sent_by a.now b.now }
{
    same_host(&a.host, &b.host) && port_or_default(a.port) == port_or_default(b.port)
}

/// Whether two top Vias have one branch and one sent-by.
pub(crate) fn same_top(a: &Parts, b: &Parts) -> bool
    ensures { result ≡ same_top a.now.vias b.now.vias }
{
    match (a.vias.as_slice(), b.vias.as_slice()) {
        ([top_a, ..], [top_b, ..]) => {
            same_text(top_branch(&a.vias), top_branch(&b.vias)) && same_sent_by(top_a, top_b)
        }
        ([], []) => true,
        _ => false,
    }
}

// The method of the transaction that a request belongs to: an ACK belongs to its INVITE.
fn served_method<'m>(method: &'m Text<'_>) -> &'m [u8]
    ensures { result.now ≡ served_method method.now }
{
    if method.as_bytes() == b"ACK".as_slice() {
        b"INVITE"
    } else {
        method.as_bytes()
    }
}

/// Whether a request is the same as this one: branch, sent-by and method agree.
#[tactic(auto, unfolding(crate::specs::Matching::is_copy))]
pub(crate) fn is_copy(request: &Parts, first: &Parts) -> bool
    ensures { result ≡ is_copy request.now first.now }
{
    is_method(first, served_method(&request.cseq.method)) && same_top(first, request)
}

// The tag of To is the request's, where it has one.
fn keeps_to_tag(response: &Parts, request: &Parts) -> bool
    ensures { result ≡ keeps_to_tag response.now request.now }
{
    match tag_value(request.to.params.as_slice()) {
        None => true,
        Some(tag) => same_text(tag_value(response.to.params.as_slice()), Some(tag)),
    }
}

// Call-ID, tag of From and number agree.
fn is_same_call(a: &Parts, b: &Parts) -> bool
    ensures { result ≡ is_same_call a.now b.now }
{
    a.call_id.as_bytes() == b.call_id.as_bytes()
        && same_text(
            tag_value(a.from.params.as_slice()),
            tag_value(b.from.params.as_slice()),
        )
        && a.cseq.number == b.cseq.number
        && a.cseq.method.as_bytes() == b.cseq.method.as_bytes()
}

/// Whether a response is one to this request.
#[tactic(auto, unfolding(crate::specs::Matching::is_reply))]
pub(crate) fn is_reply(response: &Parts, request: &Parts) -> bool
    ensures { result ≡ is_reply response.now request.now }
{
    same_text(top_branch(&response.vias), top_branch(&request.vias))
        && is_same_call(response, request)
        && keeps_to_tag(response, request)
}

/// Whether a request is another one with the tag of From, Call-ID, number and method of this one.
#[tactic(auto, unfolding(crate::specs::Matching::is_merged_with, crate::specs::Matching::is_copy))]
pub(crate) fn is_merged_with(request: &Parts, first: &Parts) -> bool
    ensures { result ≡ is_merged_with request.now first.now }
{
    is_same_call(request, first) && !is_copy(request, first)
}

/// Whether To has a tag.
pub(crate) fn has_to_tag(parts: &Parts) -> bool
    ensures { result ≡ is_some (tag_value parts.now.to.params) }
{
    tag_value(parts.to.params.as_slice()).is_some()
}
