//! What the head of a request asks for.

ghost use Rattle.std.specs.Prelude.{◌≡◌};
ghost use Rattle.page_server.specs.Requests.{IsHeadOf, asked_by};

use crate::path::{Path, path_of};
use crate::refusal::Refusal;
use httparse::spans::{EMPTY_HEADER_SPAN, parse_request};
use httparse::{Error, Status};

/// The maximum length of a head in bytes, and below it, the maximum number of header fields.
pub(crate) const MAX_HEAD: usize = 8_192;

const MAX_FIELDS: usize = 64;

/// What is known of a request from the bytes that have come.
#[derive(Clone, Copy, Debug)]
pub enum Head {
    /// Its head is not complete yet.
    Incomplete,
    Asked(Path),
    Refused(Refusal),
}

/// What a method and a target ask for.
fn asked_by(method: &[u8], target: &[u8]) -> Head
    ensures { result ≡ asked_by method.now target.now }
{
    match path_of(target) {
        None => Head::Refused(Refusal::NotFound),
        Some(path) if method == b"GET".as_slice() => Head::Asked(path),
        Some(_) => Head::Refused(Refusal::MethodNotAllowed),
    }
}

/// What is known of a request from the bytes that have come; those after its head are ignored. Takes no memory.
pub fn judge(bytes: &[u8]) -> Head
    ensures { IsHeadOf bytes.now result }
{
    let mut fields = [EMPTY_HEADER_SPAN; MAX_FIELDS];
    match parse_request(bytes, &mut fields) {
        Ok(Status::Complete(head)) if head.len <= MAX_HEAD => {
            asked_by(head.method.of(bytes), head.path.of(bytes))
        }
        Ok(Status::Complete(_)) | Err(Error::TooManyHeaders) => Head::Refused(
            Refusal::HeadTooLarge,
        ),
        Ok(Status::Partial) if bytes.len() < MAX_HEAD => Head::Incomplete,
        Ok(Status::Partial) => Head::Refused(Refusal::HeadTooLarge),
        Err(_) => Head::Refused(Refusal::BadRequest),
    }
}
