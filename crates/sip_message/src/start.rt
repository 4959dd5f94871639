//! The start line of a message (RFC 3261 sections 7.1 and 7.2).

ghost use Rattle.std.specs.Prelude.{◌≡◌, ◌==◌, not, Ok};
ghost use Rattle.std.specs.List.{list_all};
ghost use Rattle.sip_message.specs.Faults.{Gives};
ghost use Rattle.sip_message.specs.Start.{has_no_space, is_part, is_version, begins_sip, status_read, status_at, request_at, start_of};

use crate::error::MessageError;
use sip_uri::{Uri, UriError, read_uri};
use std::alloc::Global;
use text::{Text, cut, is_run_of_digits, is_run_of_token, number_upto, same_without_case};

/// The start line of a request.
#[derive(Drop)]
pub struct RequestLine<'a> {
    pub method: Text<'a>,
    pub uri: Uri<'a>,
}

/// The start line of a response.
#[derive(Drop)]
pub struct StatusLine<'a> {
    /// 100 to 699.
    pub status: u16,
    pub reason: Text<'a>,
}

/// A start line.
#[derive(Drop)]
pub enum Start<'a> {
    Asking(RequestLine<'a>),
    Answering(StatusLine<'a>),
}

fn has_no_space(text: &[u8]) -> bool
    ensures { result ≡ has_no_space text.now }
{
    text.iter().all(|b| *b != b' ')
}

/// Whether the text is a part between spaces: some bytes, none of them a space.
pub(crate) fn is_part(text: &[u8]) -> bool
    ensures { result ≡ is_part text.now }
{
    !text.is_empty() && has_no_space(text)
}

fn is_version(text: &[u8]) -> bool
    ensures { result ≡ is_version text.now }
{
    same_without_case(text, b"SIP/2.0")
}

/// Whether the text begins with `SIP/`, ignoring case.
pub(crate) fn begins_sip(text: &[u8]) -> bool
    ensures { result ≡ begins_sip text.now }
{
    let (name, version) = cut(text, b'/');
    same_without_case(name, b"SIP") && version.is_some()
}

/// The number of a response: three digits, 100 to 699.
#[tactic(auto, unfolding(crate::specs::Start::status_read))]
fn read_status(digits: &[u8]) -> Option<u16>
    ensures { result ≡ status_read digits.now }
{
    if digits.len() != 3 || !is_run_of_digits(digits) {
        return None;
    }
    let status = number_upto(699, digits)?;
    if status < 100 {
        return None;
    }
    Some(status as u16)
}

fn status_at<'a>(version: &[u8], digits: &[u8], reason: &'a [u8]) -> Result<Start<'a>, MessageError>
    ensures { Gives result (status_at version.now digits.now reason.now) }
{
    let Some(status) = read_status(digits) else {
        return Err(MessageError::StartLine);
    };
    if !is_version(version) {
        return Err(MessageError::Version);
    }
    let reason = Text::lent(reason);
    Ok(Start::Answering(StatusLine { status, reason }))
}

fn request_at<'a>(
    alloc: Global,
    method: &'a [u8],
    uri: &'a [u8],
    version: &[u8],
) -> Result<Start<'a>, MessageError>
    ensures { Gives result (request_at method.now uri.now version.now) }
{
    if !is_run_of_token(method) || !is_part(version) {
        return Err(MessageError::StartLine);
    }
    let uri = match read_uri(alloc, uri) {
        Ok(uri) => uri,
        Err(UriError::OutOfMemory) => return Err(MessageError::OutOfMemory),
        Err(_) => return Err(MessageError::StartLine),
    };
    if !is_version(version) {
        return Err(MessageError::Version);
    }
    let method = Text::lent(method);
    Ok(Start::Asking(RequestLine { method, uri }))
}

/// What a start line says: three parts, separated by single spaces; a response's reason may itself have spaces.
#[tactic(auto, unfolding(crate::specs::Start::start_of))]
pub(crate) fn read_start(alloc: Global, line: &[u8]) -> Result<Start<'_>, MessageError>
    ensures { Gives result (start_of line.now) }
{
    let (first, Some(behind)) = cut(line, b' ') else {
        return Err(MessageError::StartLine);
    };
    let (second, Some(third)) = cut(behind, b' ') else {
        return Err(MessageError::StartLine);
    };
    if begins_sip(first) {
        status_at(first, second, third)
    } else {
        request_at(alloc, first, second, third)
    }
}
