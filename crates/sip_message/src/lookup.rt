//! Header fields that may occur at most once.

ghost use Rattle.std.specs.Prelude.{◌≡◌, Ok, Err, IfOk, IfErr};
ghost use Rattle.std.specs.Option.{option_copied};
ghost use Rattle.sip_message.specs.Lookup.{one_named, one_named_at_most, IsFound};
ghost use Rattle.sip_message.specs.declared.header_names.HeaderName.TheVariants as Names;

use crate::error::MessageError;
use crate::header_names::HeaderName;
use crate::seen::Seen;
use header_fields::{FieldValue, Header};

/// Header fields, and where those that may occur at most once are among them.
#[derive(Drop)]
pub(crate) struct Found<'m, 'a> {
    pub headers: &'m [Header<'a>],
    from: Seen<'m, 'a>,
    to: Seen<'m, 'a>,
    call_id: Seen<'m, 'a>,
    cseq: Seen<'m, 'a>,
    max_forwards: Seen<'m, 'a>,
    content_type: Seen<'m, 'a>,
    content_length: Seen<'m, 'a>,
}

impl<'m, 'a> Found<'m, 'a> {
    pub(crate) fn from(&self) -> Result<&'m FieldValue<'a>, MessageError>
        requires { IsFound self.now }
        ensures found { IfOk result (λ v. one_named Names.From self.now.headers.now ≡ Ok v.now) }
        ensures refused { IfErr result (λ e. one_named Names.From self.now.headers.now ≡ Err e) }
    {
        self.from.exactly_one(HeaderName::From)
    }

    pub(crate) fn to(&self) -> Result<&'m FieldValue<'a>, MessageError>
        requires { IsFound self.now }
        ensures found { IfOk result (λ v. one_named Names.To self.now.headers.now ≡ Ok v.now) }
        ensures refused { IfErr result (λ e. one_named Names.To self.now.headers.now ≡ Err e) }
    {
        self.to.exactly_one(HeaderName::To)
    }

    pub(crate) fn call_id(&self) -> Result<&'m FieldValue<'a>, MessageError>
        requires { IsFound self.now }
        ensures found { IfOk result (λ v. one_named Names.CallId self.now.headers.now ≡ Ok v.now) }
        ensures refused { IfErr result (λ e. one_named Names.CallId self.now.headers.now ≡ Err e) }
    {
        self.call_id.exactly_one(HeaderName::CallId)
    }

    pub(crate) fn cseq(&self) -> Result<&'m FieldValue<'a>, MessageError>
        requires { IsFound self.now }
        ensures found { IfOk result (λ v. one_named Names.CSeq self.now.headers.now ≡ Ok v.now) }
        ensures refused { IfErr result (λ e. one_named Names.CSeq self.now.headers.now ≡ Err e) }
    {
        self.cseq.exactly_one(HeaderName::CSeq)
    }

    pub(crate) fn max_forwards(&self) -> Result<Option<&'m FieldValue<'a>>, MessageError>
        requires { IsFound self.now }
        ensures found { IfOk result (λ v. one_named_at_most Names.MaxForwards self.now.headers.now ≡ Ok (option_copied v)) }
        ensures refused { IfErr result (λ e. one_named_at_most Names.MaxForwards self.now.headers.now ≡ Err e) }
    {
        self.max_forwards.at_most_one(HeaderName::MaxForwards)
    }

    pub(crate) fn content_type(&self) -> Result<Option<&'m FieldValue<'a>>, MessageError>
        requires { IsFound self.now }
        ensures found { IfOk result (λ v. one_named_at_most Names.ContentType self.now.headers.now ≡ Ok (option_copied v)) }
        ensures refused { IfErr result (λ e. one_named_at_most Names.ContentType self.now.headers.now ≡ Err e) }
    {
        self.content_type.at_most_one(HeaderName::ContentType)
    }

    pub(crate) fn content_length(&self) -> Result<Option<&'m FieldValue<'a>>, MessageError>
        requires { IsFound self.now }
        ensures found { IfOk result (λ v. one_named_at_most Names.ContentLength self.now.headers.now ≡ Ok (option_copied v)) }
        ensures refused { IfErr result (λ e. one_named_at_most Names.ContentLength self.now.headers.now ≡ Err e) }
    {
        self.content_length.at_most_one(HeaderName::ContentLength)
    }
}

/// Finds the header fields that may occur at most once, all in one pass. Takes no memory.
pub(crate) fn found_in<'m, 'a>(headers: &'m [Header<'a>]) -> Found<'m, 'a>
    ensures headers { result.headers.now ≡ headers.now }
    ensures found { IsFound result }
{
    let mut found = Found {
        headers,
        from: Seen::Nowhere,
        to: Seen::Nowhere,
        call_id: Seen::Nowhere,
        cseq: Seen::Nowhere,
        max_forwards: Seen::Nowhere,
        content_type: Seen::Nowhere,
        content_length: Seen::Nowhere,
    };
    for header in headers {
        let length = header.name.as_bytes().len();
        found.from = found.from.and_header(b"From", header, length);
        found.to = found.to.and_header(b"To", header, length);
        found.call_id = found.call_id.and_header(b"Call-ID", header, length);
        found.cseq = found.cseq.and_header(b"CSeq", header, length);
        found.max_forwards = found
            .max_forwards
            .and_header(b"Max-Forwards", header, length);
        found.content_type = found
            .content_type
            .and_header(b"Content-Type", header, length);
        found.content_length = found
            .content_length
            .and_header(b"Content-Length", header, length);
    }
    found
}
