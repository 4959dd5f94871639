//! The responses of the server's own.

ghost use Rattle.std.specs.Prelude.{◌≡◌, [], ◌∷◌, codes, map, nat_lt, IfOk, true};
ghost use Rattle.sip_message.specs.Lookup.{named};
ghost use Rattle.sip_message.specs.declared.message.Message.TheVariants as Kinds;
ghost use Rattle.sip_writing.specs.Writing.{message_text};
ghost use Rattle.registrar.specs.Registering.{AllLast};
ghost use Rattle.responses.specs.Responding.{allow, contact_header, min_expires_header, refusal_headers, responds, status_of};
ghost use Rattle.responses.specs.Tags.{joined_tags, required_tags};

use crate::tags::join_required_tags;
use registrar::{Binding, Refusal};
use sip_message::{FieldValue, Header, Parts};
use sip_uri::{Addr, put_uri};
use sip_writing::{Reply, write_reply};
use std::alloc::{AllocError, Global};
use text::{Text, put_number};

/// The methods that are offered.
const ALLOW: &[u8] = b"INVITE, ACK, CANCEL, BYE, REGISTER, OPTIONS, UPDATE";

/// The tag of To in a response that no transaction sends.
pub const STATELESS: &[u8] = b"stateless";

/// The most bytes that most values of Contact have, so that their buffer seldom grows.
const USUAL_CONTACT_BYTES: usize = 96;

/// The bytes of a response without a body: what it repeats from the request, and further header fields.
#[tactic(auto, unfolding(crate::specs::Responding::responds, sip_writing::specs::Reply::reply_of))]
pub fn response_with(
    alloc: Global,
    parts: &Parts<'_>,
    source: Addr,
    status: u16,
    tag: &[u8],
    further: &[Header<'_>],
) -> Result<Text<'static>, AllocError>
    ensures { IfOk result (λ t. t ≡ message_text (Kinds.Response (responds parts.now source status tag.now further.now))) }
{
    let reply = Reply {
        parts,
        source,
        status,
        tag,
        further,
        body: &[],
    };
    write_reply(alloc, &reply)
}

fn one_header(alloc: Global, header: Header<'static>) -> Result<Vec<Header<'static>>, AllocError>
    ensures { IfOk result (λ hs. hs.items ≡ header.entry ∷ []) }
{
    let mut headers = Vec::new(alloc);
    headers.push(header)?;
    Ok(headers)
}

/// The methods that are offered, in a header field. Takes no memory.
pub fn allow_header() -> Header<'static>
    ensures { result ≡ allow }
{
    Header {
        name: Text::lent(b"Allow"),
        value: FieldValue::whole(Text::lent(ALLOW)),
    }
}

/// The extensions that are required, in a header field.
pub fn unsupported_header(
    alloc: Global,
    headers: &[Header<'_>],
) -> Result<Vec<Header<'static>>, AllocError>
    ensures { IfOk result (λ hs. hs.items ≡ named (codes "Unsupported") (joined_tags (required_tags headers.now)) ∷ []) }
{
    let tags = join_required_tags(alloc, headers)?;
    let header = Header::of(alloc, b"Unsupported", tags.as_bytes())?;
    one_header(alloc, header)
}

fn contact_header(alloc: Global, binding: &Binding, now: u64) -> Result<Header<'static>, AllocError>
    requires { nat_lt now binding.now.expires_at ≡ true }
    ensures { IfOk result (λ h. h ≡ contact_header now binding.now) }
{
    let mut out = Vec::with_capacity(alloc, USUAL_CONTACT_BYTES)?;
    out.extend_from_slice(b"<")?;
    put_uri(&mut out, &binding.uri)?;
    out.extend_from_slice(b">;expires=")?;
    put_number(&mut out, binding.seconds_left(now))?;
    Ok(Header {
        name: Text::lent(b"Contact"),
        value: FieldValue::whole(Text::from_vec(out)),
    })
}

/// A Contact header field for each binding, in order.
pub fn contact_headers(
    alloc: Global,
    bindings: &[Binding],
    now: u64,
) -> Result<Vec<Header<'static>>, AllocError>
    requires { AllLast now bindings.now }
    ensures { IfOk result (λ hs. hs.items ≡ map (contact_header now) bindings.now) }
{
    let mut headers = Vec::new(alloc);
    for binding in bindings {
        headers.push(contact_header(alloc, binding, now)?)?;
    }
    Ok(headers)
}

/// The status of a REGISTER that is refused.
pub fn status_of(refusal: Refusal) -> u16
    ensures { result ≡ status_of refusal }
{
    match refusal {
        Refusal::UnknownUser => 404,
        Refusal::StarMisused | Refusal::BadContact => 400,
        Refusal::TooBrief => 423,
        Refusal::OutOfMemory | Refusal::OutOfOrder | Refusal::TooManyBindings => 500,
    }
}

fn min_expires_header(alloc: Global, seconds: u32) -> Result<Header<'static>, AllocError>
    ensures { IfOk result (λ h. h ≡ min_expires_header seconds) }
{
    let mut out = Vec::new(alloc);
    put_number(&mut out, u64::from(seconds))?;
    Header::of(alloc, b"Min-Expires", &out)
}

/// What the response to a REGISTER that is refused has besides.
pub fn refusal_headers(
    alloc: Global,
    least: u32,
    refusal: Refusal,
) -> Result<Vec<Header<'static>>, AllocError>
    ensures { IfOk result (λ hs. hs.items ≡ refusal_headers least refusal) }
{
    if refusal != Refusal::TooBrief {
        return Ok(Vec::new(alloc));
    }
    let header = min_expires_header(alloc, least)?;
    one_header(alloc, header)
}
