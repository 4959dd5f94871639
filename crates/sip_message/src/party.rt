//! The value of a From or To header field (RFC 3261 sections 20.20 and 20.39).

ghost use Rattle.std.specs.Prelude.{◌≡◌, IfOk};
ghost use Rattle.std.specs.Option.{option_copied};
ghost use Rattle.sip_message.specs.Party.{tag_fits, has_fit_tag, has_tag, is_tagged_for, party_of};

use crate::start::Start;
use sip_uri::{NameAddr, Param, UriError, param_named, read_name_addr};
use std::alloc::{AllocError, Global};
use text::{Text, is_run_of_token};

/// The value of From or To, and its text as received, unfolded and trimmed.
#[derive(Drop)]
pub struct Party<'a> {
    pub text: Text<'a>,
    pub name: NameAddr<'a>,
}

/// From and To.
#[derive(Drop)]
pub struct Ends<'a> {
    pub from: Party<'a>,
    pub to: Party<'a>,
}

fn tag_fits(tag: Option<&Param>) -> bool
    ensures { result ≡ tag_fits (option_copied tag.entry) }
{
    match tag {
        None => true,
        Some(tag) => tag
            .value
            .as_ref()
            .is_some_and(|value| is_run_of_token(value.as_bytes())),
    }
}

fn has_fit_tag(params: &[Param]) -> bool
    ensures { result ≡ has_fit_tag params.now }
{
    tag_fits(param_named(params, b"tag"))
}

/// Whether From or To with these parameters has a tag (RFC 3261 section 19.3). Takes no memory.
pub fn has_tag(params: &[Param]) -> bool
    ensures { result ≡ has_tag params.now }
{
    param_named(params, b"tag").is_some()
}

/// Whether a From with these parameters has the tag that it needs: it needs one in a request.
pub(crate) fn is_tagged_for(start: &Start<'_>, params: &[Param<'_>]) -> bool
    ensures { result ≡ is_tagged_for start.now params.now }
{
    match start {
        Start::Asking(_) => has_tag(params),
        Start::Answering(_) => true,
    }
}

/// The name and URI that the bytes are, if they are one and its tag, if any, has a value that is a token.
#[tactic(auto, unfolding(crate::specs::Party::party_of))]
#[inline(always)]
fn party_in(alloc: Global, text: &[u8]) -> Result<Option<NameAddr<'_>>, AllocError>
    ensures { IfOk result (λ party. party ≡ party_of text.now) }
{
    match read_name_addr(alloc, text) {
        Ok(name) => {
            if has_fit_tag(name.params.as_slice()) {
                Ok(Some(name))
            } else {
                Ok(None)
            }
        }
        Err(UriError::OutOfMemory) => Err(AllocError),
        Err(_) => Ok(None),
    }
}

/// The name and URI, if the text is one and its tag, if any, has a value that is a token: lent if the text is.
#[inline(always)]
pub(crate) fn read_party<'a>(
    alloc: Global,
    text: &Text<'a>,
) -> Result<Option<NameAddr<'a>>, AllocError>
    ensures { IfOk result (λ party. party ≡ party_of text.now) }
{
    if let Some(bytes) = text.in_place() {
        return party_in(alloc, bytes);
    }
    match party_in(alloc, text.as_bytes())? {
        Some(name) => Ok(Some(name.keep(alloc)?)),
        None => Ok(None),
    }
}
