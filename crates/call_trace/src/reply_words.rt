//! Which response replies to which request.

ghost use Rattle.std.specs.Prelude.{◌≡◌, ◌↔◌, IsTrue};
ghost use Rattle.call_trace.specs.Messages.{Replies};
ghost use Rattle.call_trace.specs.Computed.{is_absent, replies};

use crate::datagram::Message;
use crate::kinds::is_request;
use text::Text;

pub(crate) fn is_absent(tag: &Text<'_>) -> bool
    ensures { result ≡ is_absent tag.now }
{
    match tag.as_bytes() {
        [] => true,
        _ => false,
    }
}

#[tactic(auto, unfolding(crate::specs::Computed::replies))]
pub(crate) fn is_reply(response: &Message, request: &Message) -> bool
    ensures { result ≡ replies response.now request.now }
{
    !is_request(response.kind)
        && is_request(request.kind)
        && response.branch == request.branch
        && response.call_id == request.call_id
        && response.from_tag == request.from_tag
        && response.number == request.number
        && response.method == request.method
        && (is_absent(&request.to_tag) || response.to_tag == request.to_tag)
}

/// Whether the response replies to the request (RFC 3261 sections 8.2.6.2 and 17.1.3).
pub fn replies(response: &Message, request: &Message) -> bool
    ensures { IsTrue result ↔ Replies response.now request.now }
{
    is_reply(response, request)
}
