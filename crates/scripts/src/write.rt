//! How the output shows what the server sends, notes and relays.

ghost use Rattle.std.specs.Prelude.{◌≡◌, ◌++◌, OnOk, OnErr};
ghost use Rattle.sip_uri.specs.Writing.{BeginsWith};
ghost use Rattle.scripts.specs.Writing.{place_text, head_text, sent_text, call_text, hop_text};

use events::Sent;
use port_pool::Hop;
use sip_uri::{Addr, put_ip4};
use std::alloc::AllocError;
use text::put_number;

#[tactic(auto, unfolding(crate::specs::Writing::place_text))]
fn put_place(out: &mut Vec<u8>, to: Addr) -> Result<(), AllocError>
    ensures ok { OnOk result (out.new.items ≡ out.old.items ++ place_text to) }
    ensures err { OnErr result (BeginsWith out.old.items out.new.items) }
{
    put_ip4(out, &to.ip)?;
    out.push(b' ')?;
    put_number(out, u64::from(to.port))
}

#[tactic(auto, unfolding(crate::specs::Writing::head_text))]
fn put_head(out: &mut Vec<u8>, to: Addr, count: u64) -> Result<(), AllocError>
    ensures ok { OnOk result (out.new.items ≡ out.old.items ++ head_text to count) }
    ensures err { OnErr result (BeginsWith out.old.items out.new.items) }
{
    out.extend_from_slice(b"S ")?;
    put_place(out, to)?;
    out.push(b' ')?;
    put_number(out, count)?;
    out.push(b'\n')?;
    Ok(())
}

/// Appends `S ip port length`, a line feed, the bytes and a line feed. If memory runs out, a part may be written.
pub fn put_sent(out: &mut Vec<u8>, sent: &Sent) -> Result<(), AllocError>
    ensures ok { OnOk result (out.new.items ≡ out.old.items ++ sent_text sent.now) }
    ensures err { OnErr result (BeginsWith out.old.items out.new.items) }
{
    let bytes = sent.bytes.as_bytes();
    put_head(out, sent.to, bytes.len() as u64)?;
    out.extend_from_slice(bytes)?;
    out.push(b'\n')?;
    Ok(())
}

/// Appends `call NUMBER PHASE` and a line feed. If memory runs out, a part may be written.
pub fn put_call(out: &mut Vec<u8>, number: u64, phase: &[u8]) -> Result<(), AllocError>
    ensures ok { OnOk result (out.new.items ≡ out.old.items ++ call_text number phase.now) }
    ensures err { OnErr result (BeginsWith out.old.items out.new.items) }
{
    out.extend_from_slice(b"call ")?;
    put_number(out, number)?;
    out.push(b' ')?;
    out.extend_from_slice(phase)?;
    out.push(b'\n')?;
    Ok(())
}

/// Appends `hop PORT IP PORT FROM`, the row of a port, and a line feed. If memory runs out, a part may be written.
pub fn put_hop(out: &mut Vec<u8>, port: u16, hop: Hop) -> Result<(), AllocError>
    ensures ok { OnOk result (out.new.items ≡ out.old.items ++ hop_text port hop) }
    ensures err { OnErr result (BeginsWith out.old.items out.new.items) }
{
    out.extend_from_slice(b"hop ")?;
    put_number(out, u64::from(port))?;
    out.push(b' ')?;
    put_place(out, hop.to)?;
    out.push(b' ')?;
    put_number(out, u64::from(hop.from))?;
    out.push(b'\n')?;
    Ok(())
}
