//! Reading and writing of a name and an address, as in From, To and Contact (RFC 3261 sections 20.10 and 25.1).

ghost use Rattle.std.specs.Prelude.{◌≡◌, ◌++◌, ◌∷◌, [], ℕ, List, OnErr, OnOk, IfOk, IfErr, Ok};
ghost use Rattle.std.specs.Option.{option_copied};
ghost use Rattle.sip_uri.specs.declared.uri.NameAddr.{NameAddr};
ghost use Rattle.sip_uri.specs.NameAddr.{name_params, name_addr_of, ReadsNameAddr, RefusesName, display_part, name_addr_text};
ghost use Rattle.sip_uri.specs.Reading.{Gives};
ghost use Rattle.sip_uri.specs.Writing.{BeginsWith, uri_text};

use crate::error::UriError;
use crate::field_params::read_field_params;
use crate::name_parts::{NameParts, parts_of};
use crate::read::read_uri;
use crate::room::ROOM;
use crate::uri::{NameAddr, Params, Uri};
use crate::write::{put_params, put_uri};
use std::alloc::{AllocError, Global};
use text::{Text, lent};

/// The header's parameters, if the whole is well formed except for the URI.
#[tactic(auto, unfolding(crate::specs::NameAddr::name_params))]
fn name_params<'a>(alloc: Global, parts: &NameParts<'a>) -> Result<Option<Params<'a>>, AllocError>
    ensures { IfOk result (λ o. o ≡ name_params parts.now) }
{
    if !parts.stands_well() {
        return Ok(None);
    }
    read_field_params(alloc, parts.params)
}

#[tactic(auto, unfolding(crate::specs::NameAddr::name_addr_of))]
fn read(alloc: Global, bytes: &[u8]) -> Result<NameAddr<'_>, UriError>
    ensures { Gives result (name_addr_of bytes.now) }
{
    let Some(parts) = parts_of(bytes) else {
        return Err(UriError::Malformed);
    };
    let uri = match read_uri(alloc, parts.uri) {
        Err(UriError::Scheme) => return Err(UriError::Scheme),
        Err(UriError::OutOfMemory) => return Err(UriError::OutOfMemory),
        uri => uri,
    };
    let Some(params) = name_params(alloc, &parts)? else {
        return Err(UriError::Malformed);
    };
    let uri = uri?;
    Ok(NameAddr {
        display: lent(parts.display),
        uri,
        params,
    })
}

/// The name and address in the bytes: `"display" <uri>;params`, `display <uri>;params`, `<uri>;params` or
/// `uri;params`, where the parameters are the header's. A display in quotation marks is returned as written between
/// them, one made of tokens without the blanks at its ends.
///
/// Another scheme in the URI is the first fault, if the outer form could be split. Then come the form of the whole,
/// the URI's escapes and its port.
pub fn read_name_addr(alloc: Global, bytes: &[u8]) -> Result<NameAddr<'_>, UriError>
    // What is read is a name and an address with this value.
    ensures found { IfOk result (λ name. ReadsNameAddr bytes.now name) }
    // A name and an address is read, unless memory runs out.
    ensures only { (name : NameAddr) → ReadsNameAddr bytes.now name → Gives result (Ok name) }
    // Each refusal has its reason.
    ensures refused { IfErr result (λ e. RefusesName bytes.now e) }
    // All of this at once, as a function of the bytes.
    ensures exact { Gives result (name_addr_of bytes.now) }
{
    read(alloc, bytes)
}

fn put_display(out: &mut Vec<u8>, display: Option<&Text>) -> Result<(), AllocError>
    ensures ok { OnOk result (out.new.items ≡ out.old.items ++ display_part (option_copied display.entry)) }
    ensures err { OnErr result (BeginsWith out.old.items out.new.items) }
{
    if let Some(display) = display {
        out.push(b'"')?;
        out.extend_from_slice(display.as_bytes())?;
        out.extend_from_slice(b"\" ")?;
    }
    Ok(())
}

/// Appends a display and a URI: `"display" <uri>`, without the display if there is none. If memory runs out, a part
/// may be written.
pub fn put_display_and_uri(
    out: &mut Vec<u8>,
    display: Option<&Text>,
    uri: &Uri,
) -> Result<(), AllocError>
    ensures ok { OnOk result (out.new.items ≡ out.old.items ++ display_part (option_copied display.entry) ++ 60 ∷ (uri_text uri.now ++ 62 ∷ [])) }
    ensures err { OnErr result (BeginsWith out.old.items out.new.items) }
{
    put_display(out, display)?;
    out.push(b'<')?;
    put_uri(out, uri)?;
    out.push(b'>')?;
    Ok(())
}

/// Appends a name and an address: `"display" <uri>;name=value`, without the display if there is none. If memory runs
/// out, a part may be written.
#[tactic(auto, unfolding(crate::specs::NameAddr::name_addr_text))]
pub fn put_name_addr(out: &mut Vec<u8>, name: &NameAddr) -> Result<(), AllocError>
    ensures ok { OnOk result (out.new.items ≡ out.old.items ++ name_addr_text name.now) }
    ensures err { OnErr result (BeginsWith out.old.items out.new.items) }
{
    put_display_and_uri(out, name.display.as_ref(), &name.uri)?;
    put_params(out, name.params.as_slice(), b';', b';')
}

fn write(alloc: Global, name: &NameAddr) -> Result<Text<'static>, AllocError>
    ensures { IfOk result (λ t. t ≡ name_addr_text name.now) }
{
    let mut out = Vec::with_capacity(alloc, ROOM)?;
    put_name_addr(&mut out, name)?;
    Ok(Text::from_vec(out))
}

/// The text of a name and an address: `"display" <uri>;name=value`, without the display if there is none.
pub fn write_name_addr(alloc: Global, name: &NameAddr) -> Result<Text<'static>, AllocError>
    // The text itself.
    ensures text { IfOk result (λ t. t ≡ name_addr_text name.now) }
    // What is written for a value that was read from some text is read again as that value.
    ensures again { (from : List ℕ) → ReadsNameAddr from name.now → IfOk result (λ t. ReadsNameAddr t name.now) }
{
    write(alloc, name)
}
