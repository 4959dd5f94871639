//! The form of Content-Type, a media type (RFC 3261 sections 20.15 and 25.1).

ghost use Rattle.std.specs.Prelude.{◌≡◌, IfOk};
ghost use Rattle.std.specs.List.{list_all};
ghost use Rattle.sip_message.specs.MediaType.{is_token, is_media_value, is_media_param, is_media_range, is_media_type};

use sip_uri::{Param, is_quoted, read_field_params};
use std::alloc::{AllocError, Global};
use text::{cut, is_run_of_token, trim_blanks};

fn is_token(text: &[u8]) -> bool
    ensures { result ≡ is_token text.now }
{
    is_run_of_token(trim_blanks(text))
}

fn is_media_range(text: &[u8]) -> bool
    ensures { result ≡ is_media_range text.now }
{
    let (kind, subtype) = cut(text, b'/');
    is_token(kind) && subtype.is_some_and(|subtype| is_token(subtype))
}

fn is_media_value(value: &[u8]) -> bool
    ensures { result ≡ is_media_value value.now }
{
    is_run_of_token(value) || is_quoted(value)
}

fn is_media_param(param: &Param) -> bool
    ensures { result ≡ is_media_param param.now }
{
    match &param.value {
        None => false,
        Some(value) => is_media_value(value.as_bytes()),
    }
}

fn all_media_params(params: &[Param]) -> bool
    ensures { result ≡ list_all is_media_param params.now }
{
    params.iter().all(|param| is_media_param(param))
}

/// Whether the text is `type/subtype;name=value`.
pub(crate) fn is_media_type(alloc: Global, text: &[u8]) -> Result<bool, AllocError>
    ensures { IfOk result (λ b. b ≡ is_media_type text.now) }
{
    let (range, params) = cut(text, b';');
    if !is_media_range(range) {
        return Ok(false);
    }
    match read_field_params(alloc, params)? {
        Some(params) => Ok(all_media_params(params.as_slice())),
        None => Ok(false),
    }
}
