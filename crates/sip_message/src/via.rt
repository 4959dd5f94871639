//! The Via header fields of a message (RFC 3261 section 20.42).

ghost use Rattle.std.specs.Prelude.{◌≡◌, ◌++◌, ◌∷◌, true, nat_eq, codes, Some, None, option_map, IfOk, IfSome, OnOk, if◌then◌else◌};
ghost use Rattle.std.specs.Cmp.Lexicographic.{pointwise};
ghost use Rattle.std.specs.Option.{option_copied};
ghost use Rattle.text.specs.Pieces.{pieces};
ghost use Rattle.text.specs.Trim.{trimmed};
ghost use Rattle.text.specs.declared.split.Within.TheVariants.{Nothing};
ghost use Rattle.sip_message.specs.Faults.{Gives};
ghost use Rattle.sip_message.specs.Via.{raw_via_of, is_raw_via, is_port, sent_by_of, port_of, via_of, each_via, via_texts, some_vias, put_before};

use crate::error::MessageError;
use crate::header_names::HeaderName;
use header_fields::{FieldValue, Header, is_named};
use sip_uri::{Host, Params, read_field_params, read_host};
use std::alloc::{AllocError, Global};
use std::marker::Model;
use text::{
    Text, cut, cut_piece, cut_word, is_run_of_digits, number_upto, same_without_case, trim_blanks,
    without_blanks,
};

/// Where a response goes (RFC 3261 section 18.2.2). `sent_by` is host and port as received, without blanks.
pub struct Via<'a> {
    pub sent_by: Text<'a>,
    pub host: Host<'a>,
    pub port: Option<u16>,
    pub params: Params<'a>,
}

impl Drop for Via<'_> {
    fn drop(self) {
        let Via {
            sent_by: _,
            host: _,
            port: _,
            params: _,
        } = self;
    }
}

/// Via values, the top one first.
#[derive(Drop)]
pub struct Vias<'a> {
    vias: Vec<Via<'a>>,
}

impl<'a> Model for Vias<'a> {
    ghost use Rattle.std.specs.Prelude.{List};
    ghost use Rattle.sip_message.specs.declared.via.Via.{Via};

    ghost Value = { List Via };

    ghost view = { λ v. v.vias.items };
}

impl<'a> Vias<'a> {
    ghost use Rattle.std.specs.Prelude.{◌≡◌};

    /// The list of these values. Takes no memory.
    pub fn from_vec(vias: Vec<Via<'a>>) -> Vias<'a>
        ensures { result ≡ vias.entry.items }
    {
        Vias { vias }
    }

    /// The values. Takes no memory.
    pub fn into_vec(self) -> Vec<Via<'a>>
        ensures { result.items ≡ self.entry }
    {
        self.vias
    }

    /// The values, lent.
    pub fn as_slice(&self) -> &[Via<'a>]
        ensures { result.now ≡ self.now }
    {
        &self.vias
    }
}

/// `SIP/2.0/UDP host:port;params` in its parts.
#[derive(Drop)]
struct ViaText<'a> {
    name: &'a [u8],
    version: &'a [u8],
    transport: &'a [u8],
    host: &'a [u8],
    port: Option<&'a [u8]>,
    params: Option<&'a [u8]>,
}

impl<'a> Model for ViaText<'a> {
    ghost use Rattle.std.specs.Cmp.Lexicographic.{pointwise};
    ghost use Rattle.std.specs.Option.{option_copied};
    ghost use Rattle.sip_message.specs.Via.{RawVia};

    ghost Value = { RawVia };

    ghost view = { λ v. record {
      name = v.name.now;
      version = v.version.now;
      transport = v.transport.now;
      host = v.host.now;
      port = option_copied v.port;
      params = option_copied v.params;
    } };
}

fn port_text(text: Option<&[u8]>) -> Option<&[u8]>
    ensures { option_copied result ≡ option_map trimmed (option_copied text.entry) }
{
    match text {
        Some(port) => Some(trim_blanks(port)),
        None => None,
    }
}

/// What comes after `SIP/2.0/UDP` and a space, with which nearly every Via begins.
fn behind_usual(text: &[u8]) -> Option<&[u8]>
    ensures { IfSome result (λ behind. text.now ≡ codes "SIP/2.0/UDP " ++ behind.now) }
{
    text.strip_prefix(b"SIP/2.0/UDP ")
}

/// The parts of a Via with this after its usual beginning, and where host and port are.
#[tactic(auto, unfolding(crate::specs::Via::raw_via_of))]
fn usual_via(behind: &[u8]) -> (ViaText<'_>, &[u8])
    ensures { result.0 ≡ raw_via_of (codes "SIP/2.0/UDP " ++ behind.now) }
{
    let (sent_by, params) = cut(behind, b';');
    let (host, port) = cut(sent_by, b':');
    let parts = ViaText {
        name: b"SIP",
        version: b"2.0",
        transport: b"UDP",
        host: trim_blanks(host),
        port: port_text(port),
        params,
    };
    (parts, trim_blanks(sent_by))
}

/// The parts, and where host and port are.
#[tactic(auto, unfolding(crate::specs::Via::raw_via_of))]
fn via_text(text: &[u8]) -> (ViaText<'_>, &[u8])
    ensures { result.0 ≡ raw_via_of text.now }
{
    if let Some(behind) = behind_usual(text) {
        return usual_via(behind);
    }
    let (front, params) = cut(text, b';');
    let (name, behind) = cut(front, b'/');
    let (version, behind) = cut(behind.unwrap_or(&[]), b'/');
    let (transport, sent_by) = cut_word(without_blanks(behind.unwrap_or(&[])));
    let (host, port) = cut(sent_by, b':');
    let parts = ViaText {
        name: trim_blanks(name),
        version: trim_blanks(version),
        transport,
        host: trim_blanks(host),
        port: port_text(port),
        params,
    };
    (parts, trim_blanks(sent_by))
}

fn is_port(text: &[u8]) -> bool
    ensures { result ≡ is_port text.now }
{
    is_run_of_digits(text) && number_upto(65535, text).unwrap_or(0) > 0
}

/// Whether protocol and port are well formed.
#[tactic(auto, unfolding(crate::specs::Via::is_raw_via))]
fn is_well_formed(via: &ViaText<'_>) -> bool
    ensures { result ≡ is_raw_via via.now }
{
    same_without_case(via.name, b"SIP")
        && same_without_case(via.version, b"2.0")
        && same_without_case(via.transport, b"UDP")
        && via.port.is_none_or(|port| is_port(port))
}

fn are_same(a: &[u8], b: &[u8]) -> bool
    ensures { result ≡ pointwise nat_eq a.now b.now }
{
    a == b
}

/// Whether the bytes are this host, a colon and this port.
fn is_joined(bytes: &[u8], host: &[u8], port: &[u8]) -> bool
    ensures { result ≡ true → bytes.now ≡ host.now ++ 58 ∷ port.now }
{
    let (front, after) = cut(bytes, b':');
    let Some(behind) = after else {
        return false;
    };
    are_same(front, host) && are_same(behind, port)
}

/// Host and port without blanks: lent if these bytes have them in that form.
fn sent_by<'a>(
    alloc: Global,
    bytes: &'a [u8],
    host: &'a [u8],
    port: Option<&[u8]>,
) -> Result<Text<'a>, AllocError>
    ensures { IfOk result (λ t. t ≡ sent_by_of host.now (option_copied port.entry)) }
{
    let Some(port) = port else {
        return Ok(Text::lent(host));
    };
    if is_joined(bytes, host, port) {
        return Ok(Text::lent(bytes));
    }
    let mut joined = Vec::from_slice(alloc, host)?;
    joined.push(b':')?;
    joined.extend_from_slice(port)?;
    Ok(Text::from_vec(joined))
}

fn port_of(text: Option<&[u8]>) -> Option<u16>
    ensures { result ≡ port_of (option_copied text.entry) }
{
    match text {
        Some(port) => number_upto(65535, port).map(|n| n as u16),
        None => None,
    }
}

/// The value of one Via, if the text is one that names UDP.
#[tactic(auto, unfolding(crate::specs::Via::via_of))]
pub(crate) fn read_via(alloc: Global, text: &[u8]) -> Result<Option<Via<'_>>, AllocError>
    ensures { IfOk result (λ via. via ≡ via_of text.now) }
{
    let (parts, place) = via_text(text);
    if !is_well_formed(&parts) {
        return Ok(None);
    }
    let Some(host) = read_host(parts.host) else {
        return Ok(None);
    };
    let Some(params) = read_field_params(alloc, parts.params)? else {
        return Ok(None);
    };
    let sent_by = sent_by(alloc, place, parts.host, parts.port)?;
    let port = port_of(parts.port);
    Ok(Some(Via {
        sent_by,
        host,
        port,
        params,
    }))
}

/// Appends the values of a text, and returns whether each could be read.
fn put_lent<'a>(alloc: Global, vias: &mut Vec<Via<'a>>, text: &'a [u8]) -> Result<bool, AllocError>
    ensures { IfOk result (λ all. put_before vias.old.items (each_via (pieces 44 Nothing text.now)) ≡ (if all then Some vias.new.items else None)) }
{
    let mut left = Some(text);
    while let Some(text) = left {
        let (piece, behind) = cut_piece(text, b',');
        let Some(via) = read_via(alloc, piece)? else {
            return Ok(false);
        };
        vias.reserve(1)?;
        vias.push_reserved(via);
        left = behind;
    }
    Ok(true)
}

/// Appends these values, which borrow nothing.
fn put_kept<'a>(alloc: Global, vias: &mut Vec<Via<'a>>, more: &[Via<'_>]) -> Result<(), AllocError>
    ensures { OnOk result (vias.new.items ≡ vias.old.items ++ more.now) }
{
    for via in more {
        vias.push(via.keep(alloc)?)?;
    }
    Ok(())
}

/// Appends the values of a header field, and returns whether each could be read.
fn put_vias<'a>(
    alloc: Global,
    vias: &mut Vec<Via<'a>>,
    value: &FieldValue<'a>,
) -> Result<bool, AllocError>
    ensures { IfOk result (λ all. put_before vias.old.items (each_via (pieces 44 Nothing value.now)) ≡ (if all then Some vias.new.items else None)) }
{
    if let Some(bytes) = value.in_place() {
        return put_lent(alloc, vias, bytes);
    }
    let text = value.text(alloc)?;
    let mut found = Vec::new(alloc);
    let all = put_lent(alloc, &mut found, text.as_bytes())?;
    if !all {
        return Ok(false);
    }
    put_kept(alloc, vias, &found)?;
    Ok(true)
}

/// The Via values, the top one first, if each can be read.
pub(crate) fn read_each<'a>(
    alloc: Global,
    headers: &[Header<'a>],
) -> Result<Option<Vec<Via<'a>>>, AllocError>
    ensures { IfOk result (λ o. option_map (λ v. v.items) o ≡ each_via (via_texts headers.now)) }
{
    let mut vias = Vec::new(alloc);
    for header in headers {
        if !is_named(header, b"Via") {
            continue;
        }
        let all = put_vias(alloc, &mut vias, &header.value)?;
        if !all {
            return Ok(None);
        }
    }
    Ok(Some(vias))
}

/// The Via values, the top one first: at least one.
#[tactic(auto, using(crate::proofs::ViaLaws::none_there, crate::proofs::ViaLaws::some_unreadable, crate::proofs::ViaLaws::some_there))]
pub(crate) fn read_vias<'a>(alloc: Global, headers: &[Header<'a>]) -> Result<Vias<'a>, MessageError>
    ensures { Gives result (some_vias (via_texts headers.now)) }
{
    let Some(vias) = read_each(alloc, headers)? else {
        return Err(MessageError::Unreadable(HeaderName::Via));
    };
    if vias.is_empty() {
        return Err(MessageError::Missing(HeaderName::Via));
    }
    Ok(Vias::from_vec(vias))
}
