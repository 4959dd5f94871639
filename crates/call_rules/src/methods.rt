//! What the rules of calls ask of a message by its method and its status.

ghost use Rattle.std.specs.Prelude.{◌≡◌};
ghost use Rattle.sip_message.specs.Contact as messages;
ghost use Rattle.call_rules.specs.Speaking.{is_acknowledged, is_bye, is_invite, is_offer, is_update, may_offer};

use sip_message::{Parts, Request, Response, is_method};

pub(crate) fn is_invite(parts: &Parts<'_>) -> bool
    ensures { result ≡ is_invite parts.now }
{
    is_method(parts, b"INVITE")
}

pub(crate) fn is_update(parts: &Parts<'_>) -> bool
    ensures { result ≡ is_update parts.now }
{
    is_method(parts, b"UPDATE")
}

pub(crate) fn is_bye(parts: &Parts<'_>) -> bool
    ensures { result ≡ is_bye parts.now }
{
    is_method(parts, b"BYE")
}

/// Whether a 2xx to this request answers an offer.
pub(crate) fn may_offer(parts: &Parts<'_>) -> bool
    ensures { result ≡ may_offer parts.now }
{
    is_invite(parts) || is_update(parts)
}

/// Whether a request inside a call is an offer.
pub(crate) fn is_offer(request: &Request<'_>) -> bool
    ensures { result ≡ is_offer request.now }
{
    is_invite(&request.parts) || is_update(&request.parts) && !request.body.as_bytes().is_empty()
}

pub(crate) fn is_success(status: u16) -> bool
    ensures { result ≡ messages.is_success status }
{
    200 <= status && status <= 299
}

/// Whether this is a 2xx to an INVITE with these parts.
pub(crate) fn is_acknowledged(asked: &Parts<'_>, response: &Response<'_>) -> bool
    ensures { result ≡ is_acknowledged asked.now response.now }
{
    is_invite(asked) && is_success(response.status)
}
