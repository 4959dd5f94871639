//! The words for why the server itself refuses a request, or drops an event.

ghost use Rattle.std.specs.Prelude.{◌≡◌, IfOk, string_bytes};
ghost use Rattle.note_lines.specs.Reasons.{fault_words, reason_words, refusal_words, why_word};

use plans::{Reason, Why};
use registrar::Refusal;
use sip_message::MessageError;
use std::alloc::{AllocError, Global};
use text::Text;

/// A datagram's first fault.
fn fault_words(alloc: Global, fault: MessageError) -> Result<Text<'static>, AllocError>
    ensures { IfOk result (λ words. words ≡ fault_words fault) }
{
    let words = match fault {
        MessageError::OutOfMemory => Text::lent(b"out of memory"),
        MessageError::StartLine => Text::lent(b"M1: bad start line"),
        MessageError::Version => Text::lent(b"M2: bad version"),
        MessageError::HeaderLine => Text::lent(b"M3: bad header line"),
        MessageError::Missing(name) => owned(format!(in alloc; "M4: no {name}")?),
        MessageError::Unreadable(name) => owned(format!(in alloc; "M5: bad {name}")?),
        MessageError::Short => Text::lent(b"M6: body shorter than Content-Length"),
        MessageError::TooLong => Text::lent(b"M7: too long"),
    };
    Ok(words)
}

fn owned(words: String) -> Text<'static>
    ensures { result ≡ string_bytes words }
{
    Text::from_vec(words.into_bytes())
}

/// Why the registrar refuses a REGISTER.
fn refusal_words(refusal: Refusal) -> &'static [u8]
    ensures { result.now ≡ refusal_words refusal }
{
    match refusal {
        Refusal::OutOfMemory => b"out of memory",
        Refusal::UnknownUser => b"B1: unknown user",
        Refusal::StarMisused => b"B2: star misused",
        Refusal::TooBrief => b"B3: too brief",
        Refusal::OutOfOrder => b"B4: out of order",
        Refusal::TooManyBindings => b"B5: too many bindings",
        Refusal::BadContact => b"B6: bad contact",
    }
}

/// The words of a rule, as the reason's own text has them.
pub(crate) fn reason_words(alloc: Global, reason: Reason) -> Result<Text<'static>, AllocError>
    ensures { IfOk result (λ words. words ≡ reason_words reason) }
{
    let words: &'static [u8] = match reason {
        Reason::Unread(fault) => return fault_words(alloc, fault),
        Reason::NoBranch => b"no branch of RFC 3261",
        Reason::NothingToCancel => b"nothing to cancel",
        Reason::Merged => b"merged",
        Reason::MethodNotOffered => b"method not offered",
        Reason::UnknownMethod => b"unknown method",
        Reason::ExtensionRequired => b"extension required",
        Reason::ProxyBetween => b"proxy between",
        Reason::NoDialog => b"no dialog",
        Reason::OldNumber => b"old number",
        Reason::NoHops => b"no hops left",
        Reason::Unreached => b"contact without address",
        Reason::UnknownUser => b"unknown user",
        Reason::Unbound => b"not registered",
        Reason::BodyType => b"type of body",
        Reason::BodyEncoding => b"encoding of body",
        Reason::Undescribed => b"no description",
        Reason::UnfitOffer => b"unfit offer",
        Reason::NoPorts => b"no ports",
        Reason::TooManyCalls => b"too many calls",
        Reason::Glare => b"glare",
        Reason::SecondOffer => b"second offer",
        Reason::NumberAtItsEnd => b"number at its end",
        Reason::Register(refusal) => refusal_words(refusal),
    };
    Ok(Text::lent(words))
}

/// Why an event was dropped, by the name of its count.
pub(crate) fn why_word(why: Why) -> &'static [u8]
    ensures { result.now ≡ why_word why }
{
    match why {
        Why::Unread(_) => b"unread",
        Why::Stray => b"stray",
        Why::Ack => b"ack",
        Why::NoBranch => b"no_branch",
        Why::Clock => b"clock",
        Why::Spent => b"spent",
    }
}
