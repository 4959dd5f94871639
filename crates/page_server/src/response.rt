//! Responses in the form in which they are sent.

ghost use Rattle.std.specs.Prelude.{◌≡◌, ◌++◌, OnOk};
ghost use Rattle.page_server.specs.Responses.{content_text, opening_text, page_text, refusal_text};

use crate::path::{Path, kind_of_page};
use crate::refusal::{Refusal, allow_of, kind_of_refusals, status_of};
use std::alloc::AllocError;
use text::put_number;

/// What each response says: it is the last of its connection, it is not to be cached, and a browser treats it as
/// nothing but its declared type, without scripts and without fetching anything.
const FIXED_FIELDS: &[u8] =
    b"Connection: close\r\nCache-Control: no-store\r\nX-Content-Type-Options: nosniff\r\nContent-Security-Policy: default-src 'none'; style-src 'unsafe-inline'\r\n";

#[tactic(auto, unfolding(crate::specs::Responses::opening_text))]
fn put_opening(out: &mut Vec<u8>, status: &[u8], further: &[u8]) -> Result<(), AllocError>
    ensures { OnOk result (out.new.items ≡ out.old.items ++ opening_text status.now further.now) }
{
    out.extend_from_slice(b"HTTP/1.1 ")?;
    out.extend_from_slice(status)?;
    out.extend_from_slice(b"\r\n")?;
    out.extend_from_slice(FIXED_FIELDS)?;
    out.extend_from_slice(further)?;
    Ok(())
}

/// The length, the empty line after it, and the content.
#[tactic(auto, unfolding(crate::specs::Responses::content_text))]
fn put_content(out: &mut Vec<u8>, body: &[u8]) -> Result<(), AllocError>
    ensures { OnOk result (out.new.items ≡ out.old.items ++ content_text body.now) }
{
    out.extend_from_slice(b"Content-Length: ")?;
    put_number(out, body.len() as u64)?;
    out.extend_from_slice(b"\r\n\r\n")?;
    out.extend_from_slice(body)?;
    Ok(())
}

/// Appends the response with a page. If memory runs out, a part may be written.
#[tactic(auto, unfolding(crate::specs::Responses::page_text))]
pub fn put_page(out: &mut Vec<u8>, path: Path, body: &[u8]) -> Result<(), AllocError>
    ensures { OnOk result (out.new.items ≡ out.old.items ++ page_text path body.now) }
{
    put_opening(out, b"200 OK", b"")?;
    out.extend_from_slice(kind_of_page(path))?;
    put_content(out, body)
}

/// Appends the response without a page, which has no content. If memory runs out, a part may be written.
#[tactic(auto, unfolding(crate::specs::Responses::refusal_text))]
pub fn put_refusal(out: &mut Vec<u8>, refusal: Refusal) -> Result<(), AllocError>
    ensures { OnOk result (out.new.items ≡ out.old.items ++ refusal_text refusal) }
{
    put_opening(out, status_of(refusal), allow_of(refusal))?;
    out.extend_from_slice(kind_of_refusals())?;
    put_content(out, b"")
}
