//! The value of a CSeq header field (RFC 3261 section 20.16).

ghost use Rattle.std.specs.Prelude.{◌≡◌, IfOk};
ghost use Rattle.sip_message.specs.CSeq.{cseq_of, is_method_for};

use crate::start::Start;
use std::alloc::{AllocError, Global};
use text::{Text, cut_word, is_run_of_digits, is_run_of_token, number_upto, without_blanks};

/// The greatest sequence number: they are below 2^31 (RFC 3261 section 8.1.1.5).
const MAX_NUMBER: u32 = 2_147_483_647;

/// A sequence number and a method.
pub struct CSeq<'a> {
    pub number: u32,
    pub method: Text<'a>,
}

impl Drop for CSeq<'_> {
    fn drop(self) {
        let CSeq {
            number: _,
            method: _,
        } = self;
    }
}

/// The value, and its text as received, unfolded and trimmed.
#[derive(Drop)]
pub struct Sequence<'a> {
    pub text: Text<'a>,
    pub cseq: CSeq<'a>,
}

/// The value that the bytes are, if they are a number, blanks and a method.
#[tactic(auto, unfolding(crate::specs::CSeq::cseq_of))]
fn cseq_in(text: &[u8]) -> Option<CSeq<'_>>
    ensures { result ≡ cseq_of text.now }
{
    let (digits, behind) = cut_word(text);
    let method = without_blanks(behind);
    if !is_run_of_digits(digits) || !is_run_of_token(method) {
        return None;
    }
    let number = number_upto(MAX_NUMBER, digits)?;
    Some(CSeq {
        number,
        method: Text::lent(method),
    })
}

/// The value, if the text is a number, blanks and a method: lent if the text is.
pub(crate) fn read_cseq<'a>(alloc: Global, text: &Text<'a>) -> Result<Option<CSeq<'a>>, AllocError>
    ensures { IfOk result (λ cseq. cseq ≡ cseq_of text.now) }
{
    if let Some(bytes) = text.in_place() {
        return Ok(cseq_in(bytes));
    }
    match cseq_in(text.as_bytes()) {
        Some(cseq) => Ok(Some(cseq.keep(alloc)?)),
        None => Ok(None),
    }
}

/// Whether a CSeq may have this method: in a request, only the request's own.
pub(crate) fn is_method_for(start: &Start<'_>, method: &Text<'_>) -> bool
    ensures { result ≡ is_method_for start.now method.now }
{
    match start {
        Start::Asking(line) => method.as_bytes() == line.method.as_bytes(),
        Start::Answering(_) => true,
    }
}
