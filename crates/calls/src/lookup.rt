//! Which call a message or a timer is for. Nothing here takes memory.

ghost use Rattle.std.specs.Prelude.{◌≡◌, map};
ghost use Rattle.std.specs.Option.{option_copied};
ghost use Rattle.call_core.specs.Calls.{holds_in};
ghost use Rattle.call_core.specs.Notes.{is_settled};
ghost use Rattle.calls.specs.Tags.{prints_of};
ghost use Rattle.calls.specs.Settled.{has_settled, is_settled_call};
ghost use Rattle.calls.specs.Finding.{awaits_ack, awaits_this_ack, has_number, has_open_offer, has_tag, is_cancellable, is_of_end, is_tag_in, place_by_ack, place_by_end, place_by_number, place_by_offer, place_by_tag};

use crate::standing_call::StandingCall;
use crate::state::Calls;
use crate::tags::{TagPrints, place_at, place_of};
use call_core::{End, Stage, Standing};
use dialogs::Dialog;
use index::PrintKey;
use sip_message::{Request, tag_text};

fn is_of_end(call: &StandingCall, end: End, request: &Request<'_>) -> bool
    ensures { result ≡ is_of_end end request.now.parts call.now }
{
    match call.call.dialog(end) {
        None => false,
        Some(dialog) => dialog.id.is_of_request(request),
    }
}

fn is_cancellable(standing: Option<Standing>) -> bool
    ensures { result ≡ holds_in is_cancellable standing }
{
    match standing {
        None => false,
        Some(standing) => matches!(standing.stage, Stage::Asked(_) | Stage::Reasked(..)),
    }
}

fn has_open_offer(call: &StandingCall, id: usize) -> bool
    ensures { result ≡ has_open_offer id call.now }
{
    call.asked.id == id && is_cancellable(call.call.standing())
}

fn awaits_ack(stage: Stage) -> bool
    ensures { result ≡ awaits_ack stage }
{
    matches!(
        stage,
        Stage::Answered(_) | Stage::Reanswered(_) | Stage::Ending(_)
    )
}

fn awaits_this_ack(call: &StandingCall, request: &Request<'_>) -> bool
    ensures { result ≡ awaits_this_ack request.now.parts call.now }
{
    match call.call.standing() {
        None => false,
        Some(standing) => {
            awaits_ack(standing.stage)
                && request.parts.cseq.number == call.asked.number
                && is_of_end(call, standing.offerer, request)
        }
    }
}

fn is_tag_in(dialog: Option<&Dialog>, tag: &[u8]) -> bool
    ensures { result ≡ is_tag_in (option_copied dialog.entry) tag.now }
{
    match dialog {
        None => false,
        Some(dialog) => dialog.id.ours.as_bytes() == tag,
    }
}

fn has_tag(call: &StandingCall, tag: &[u8]) -> bool
    ensures { result ≡ has_tag tag.now call.now }
{
    call.callee_tag.as_bytes() == tag || is_tag_in(call.call.dialog(End::Caller), tag)
}

fn has_number(call: &StandingCall, number: u64) -> bool
    ensures { result ≡ has_number number call.now }
{
    call.call.number() == number
}

fn is_settled(standing: Option<Standing>) -> bool
    ensures { result ≡ holds_in is_settled standing }
{
    match standing {
        None => false,
        Some(standing) => matches!(standing.stage, Stage::Settled),
    }
}

fn is_settled_call(call: &StandingCall, number: u64) -> bool
    ensures { result ≡ is_settled_call number call.now }
{
    has_number(call, number) && is_settled(call.call.standing())
}

fn has_settled(calls: &[StandingCall], number: u64) -> bool
    ensures { result ≡ has_settled number calls.now }
{
    calls.iter().any(|call| is_settled_call(call, number))
}

fn place_by_end(calls: &[StandingCall], end: End, request: &Request<'_>) -> Option<usize>
    ensures { result ≡ place_by_end end request.now.parts calls.now }
{
    calls.iter().position(|call| is_of_end(call, end, request))
}

fn place_by_offer(calls: &[StandingCall], id: usize) -> Option<usize>
    ensures { result ≡ place_by_offer id calls.now }
{
    calls.iter().position(|call| has_open_offer(call, id))
}

fn place_by_ack(calls: &[StandingCall], request: &Request<'_>) -> Option<usize>
    ensures { result ≡ place_by_ack request.now.parts calls.now }
{
    calls.iter().position(|call| awaits_this_ack(call, request))
}

fn place_by_tag(calls: &[StandingCall], tag: &[u8]) -> Option<usize>
    ensures { result ≡ place_by_tag tag.now calls.now }
{
    calls.iter().position(|call| has_tag(call, tag))
}

fn place_by_number(calls: &[StandingCall], number: u64) -> Option<usize>
    ensures { result ≡ place_by_number number calls.now }
{
    calls.iter().position(|call| has_number(call, number))
}

/// The place that `place_by_end` gives; a tag with the print of the request's To is looked up first.
fn first_of_end(
    calls: &[StandingCall],
    tags: &[TagPrints],
    key: PrintKey,
    end: End,
    request: &Request<'_>,
) -> Option<usize>
    requires { tags.now ≡ map (prints_of key) calls.now }
    ensures { result ≡ place_by_end end request.now.parts calls.now }
{
    let print = key.print_of(tag_text(request.parts.to.params.as_slice()));
    let place = place_at(tags, end, print)?;
    match calls.get(place) {
        Some(call) if is_of_end(call, end, request) => Some(place),
        _ => place_by_end(calls, end, request),
    }
}

/// The place that `place_by_tag` gives; a tag with its print is looked up first.
fn first_of_tag(
    calls: &[StandingCall],
    tags: &[TagPrints],
    key: PrintKey,
    tag: &[u8],
) -> Option<usize>
    requires { tags.now ≡ map (prints_of key) calls.now }
    ensures { result ≡ place_by_tag tag.now calls.now }
{
    let place = place_of(tags, key.print_of(tag))?;
    match calls.get(place) {
        Some(call) if has_tag(call, tag) => Some(place),
        _ => place_by_tag(calls, tag),
    }
}

impl Calls {
    /// The place of the call in whose dialog with this end a request is (RFC 3261 section 12.2.2).
    pub fn place_by_end(&self, end: End, request: &Request<'_>) -> Option<usize>
        ensures { result ≡ place_by_end end request.now.parts self.now.calls }
    {
        first_of_end(&self.calls, &self.tags, self.key, end, request)
    }

    /// The place of the call whose INVITE came with this transaction and has no final response: a CANCEL of it changes
    /// something (RFC 3261 section 9.2).
    pub fn place_by_offer(&self, id: usize) -> Option<usize>
        ensures { result ≡ place_by_offer id self.now.calls }
    {
        place_by_offer(&self.calls, id)
    }

    /// The place of the call in which a 2xx to an INVITE waits for this ACK (RFC 3261 section 13.3.1.4).
    pub fn place_by_ack(&self, request: &Request<'_>) -> Option<usize>
        ensures { result ≡ place_by_ack request.now.parts self.now.calls }
    {
        place_by_ack(&self.calls, request)
    }

    /// The place of the call of which this is the server's own tag: that of the leg to the callee, or of the dialog
    /// with the caller.
    pub fn place_by_tag(&self, tag: &[u8]) -> Option<usize>
        ensures { result ≡ place_by_tag tag.now self.now.calls }
    {
        first_of_tag(&self.calls, &self.tags, self.key, tag)
    }

    /// The place of the call with this number.
    pub fn place_by_number(&self, number: u64) -> Option<usize>
        ensures { result ≡ place_by_number number self.now.calls }
    {
        place_by_number(&self.calls, number)
    }

    /// Whether the call with this number is settled: no offer is open, and each was answered.
    pub fn has_settled(&self, number: u64) -> bool
        ensures { result ≡ has_settled number self.now.calls }
    {
        has_settled(&self.calls, number)
    }
}
