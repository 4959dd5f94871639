//! Kinds and methods of messages (RFC 3261 section 7).

ghost use Rattle.std.specs.Prelude.{◌≡◌};
ghost use Rattle.call_trace.specs.Messages.{is_request, is_final, is_success, is_ok, is_method, is_listed, asks, is_offer, is_answer, is_request_of, accepts, invite};
ghost use Rattle.call_trace.specs.Computed.{is_taken};

use crate::datagram::{Direction, Kind, Message};
use text::{Text, Texts};

pub(crate) const INVITE: &[u8] = b"INVITE";

pub(crate) const ACK: &[u8] = b"ACK";

pub(crate) const BYE: &[u8] = b"BYE";

pub(crate) fn is_taken(direction: Direction) -> bool
    ensures { result ≡ is_taken direction }
{
    match direction {
        Direction::Taken => true,
        Direction::Sent => false,
    }
}

pub(crate) fn is_request(kind: Kind) -> bool
    ensures { result ≡ is_request kind }
{
    match kind {
        Kind::Request => true,
        Kind::Response(_) => false,
    }
}

pub(crate) fn is_final(kind: Kind) -> bool
    ensures { result ≡ is_final kind }
{
    match kind {
        Kind::Request => false,
        Kind::Response(status) => 200 <= status,
    }
}

pub(crate) fn is_success(kind: Kind) -> bool
    ensures { result ≡ is_success kind }
{
    match kind {
        Kind::Request => false,
        Kind::Response(status) => 200 <= status && status < 300,
    }
}

pub(crate) fn is_ok(kind: Kind) -> bool
    ensures { result ≡ is_ok kind }
{
    match kind {
        Kind::Request => false,
        Kind::Response(status) => status == 200,
    }
}

pub(crate) fn is_method(name: &[u8], method: &Text<'_>) -> bool
    ensures { result ≡ is_method name.now method.now }
{
    method.as_bytes() == name
}

fn is_listed(methods: &Texts<'_>, method: &Text<'_>) -> bool
    ensures { result ≡ is_listed methods.now method.now }
{
    methods.as_slice().iter().any(|name| *name == *method)
}

/// Whether this is a request of one of the methods.
pub(crate) fn asks(methods: &Texts<'_>, message: &Message) -> bool
    ensures { result ≡ asks methods.now message.now }
{
    is_request(message.kind) && is_listed(methods, &message.method)
}

/// Whether this is a request of one of the methods, with a description.
pub(crate) fn is_offer(methods: &Texts<'_>, message: &Message) -> bool
    ensures { result ≡ is_offer methods.now message.now }
{
    asks(methods, message) && message.description.is_some()
}

/// Whether this is a 2xx with a description.
pub(crate) fn is_answer(message: &Message) -> bool
    ensures { result ≡ is_answer message.now }
{
    is_success(message.kind) && message.description.is_some()
}

/// Whether this is a request of the method.
pub(crate) fn is_request_of(name: &[u8], message: &Message) -> bool
    ensures { result ≡ is_request_of name.now message.now }
{
    is_request(message.kind) && is_method(name, &message.method)
}

/// Whether this is a 2xx to an INVITE.
pub(crate) fn accepts(message: &Message) -> bool
    ensures { result ≡ accepts message.now }
{
    is_success(message.kind) && is_method(INVITE, &message.method)
}
