//! What the order of checks asks of a message.

ghost use Rattle.std.specs.Prelude.{◌≡◌};
ghost use Rattle.std.specs.Option.{option_copied};
ghost use Rattle.responses.specs.Words.{begins_with_cookie, has_fit_branch, has_header, is_declined_method, is_method, is_offered_method};

use sip_message::{Header, Request, Vias, first_value, top_branch};
use text::Text;

/// What every branch begins with (RFC 3261 section 8.1.1.7).
const COOKIE: &[u8] = b"z9hG4bK";

fn begins_with_cookie(branch: Option<&Text<'_>>) -> bool
    ensures { result ≡ begins_with_cookie (option_copied branch.entry) }
{
    match branch {
        None => false,
        Some(branch) => branch.as_bytes().starts_with(COOKIE),
    }
}

/// Whether the branch of the top Via begins as it has to.
pub fn has_fit_branch(vias: &Vias<'_>) -> bool
    ensures { result ≡ has_fit_branch vias.now }
{
    begins_with_cookie(top_branch(vias))
}

pub fn is_method(name: &[u8], request: &Request<'_>) -> bool
    ensures { result ≡ is_method name.now request.now }
{
    request.method.as_bytes() == name
}

pub fn has_header(name: &[u8], headers: &[Header<'_>]) -> bool
    ensures { result ≡ has_header name.now headers.now }
{
    first_value(headers, name).is_some()
}

/// Whether the method is known and not offered.
pub fn is_declined_method(request: &Request<'_>) -> bool
    ensures { result ≡ is_declined_method request.now }
{
    is_method(b"PRACK", request)
        || is_method(b"REFER", request)
        || is_method(b"SUBSCRIBE", request)
        || is_method(b"NOTIFY", request)
        || is_method(b"INFO", request)
        || is_method(b"MESSAGE", request)
        || is_method(b"PUBLISH", request)
}

/// Whether the method is offered, of those that are neither ACK nor CANCEL.
pub fn is_offered_method(request: &Request<'_>) -> bool
    ensures { result ≡ is_offered_method request.now }
{
    is_method(b"INVITE", request)
        || is_method(b"BYE", request)
        || is_method(b"REGISTER", request)
        || is_method(b"OPTIONS", request)
        || is_method(b"UPDATE", request)
}
