//! The description that the server sends on.

ghost use Rattle.std.specs.Prelude.{◌≡◌, ◌≢◌, ◌≤◌, ◌<◌, ◌^◌, ℕ, List, IfOk, IsTrue, decimal, length, map, option_map, slice_index};
ghost use Rattle.sdp.specs.Addresses.{is_unicast};
ghost use Rattle.sdp.specs.Grammar.{ReadsDescription};
ghost use Rattle.sdp.specs.Writing.{description_text};
ghost use Rattle.sip_uri.specs.Writing.{ip4_text};
ghost use Rattle.offer_answer.specs.Joined.{is_at_server};
ghost use Rattle.offer_answer.specs.Alike.{tells_place, is_kept, kept_lines, Alike};
ghost use Rattle.offer_answer.specs.Direct.{hold_address};
ghost use Rattle.offer_answer.specs.Readdressing.{origin_of, readdressed_address, told_port, readdressed_medium, readdressed_media, told_ports, readdressed_description, has_ports};

use crate::direct::{HOLD, is_hold};
use sdp::{Address, Description, Line, Lines, Media, MediaList, Origin, keep_formats};
use sip_uri::{keep_text, put_ip4};
use std::alloc::{AllocError, Global};
use text::{Text, both, cut, number_text};

/// What the `o=` line of a description of the server's says: `o=- ID VERSION IN IP4 ADDRESS` (RFC 4566 section 5.2).
#[derive(Clone, Copy)]
pub struct ServerOrigin {
    pub id: u64,
    pub version: u64,
    /// The server's address.
    pub ip: [u8; 4],
}

fn address_text(alloc: Global, ip: [u8; 4]) -> Result<Text<'static>, AllocError>
    ensures { IfOk result (λ t. t ≡ ip4_text ip) }
{
    let mut out = Vec::with_capacity(alloc, 15)?;
    put_ip4(&mut out, &ip)?;
    Ok(Text::from_vec(out))
}

#[tactic(auto, unfolding(crate::specs::Readdressing::origin_of))]
fn origin_of(alloc: Global, origin: ServerOrigin) -> Result<Origin<'static>, AllocError>
    ensures { IfOk result (λ o. o ≡ origin_of origin) }
{
    let numbers = both(
        number_text(alloc, origin.id),
        number_text(alloc, origin.version),
    );
    let ((id, version), address) = both(numbers, address_text(alloc, origin.ip))?;
    Ok(Origin {
        username: Text::lent(b"-"),
        id,
        version,
        network_type: Text::lent(b"IN"),
        address_type: Text::lent(b"IP4"),
        address,
    })
}

fn readdressed_address(address: &Address<'_>, ip: [u8; 4]) -> Address<'static>
    ensures { result ≡ readdressed_address ip address.now }
{
    if is_hold(address) {
        Address::Ip4(HOLD)
    } else {
        Address::Ip4(ip)
    }
}

fn readdressed_connection(connection: &Option<Address<'_>>, ip: [u8; 4]) -> Option<Address<'static>>
    ensures { result ≡ option_map (readdressed_address ip) connection.now }
{
    match connection {
        Some(address) => Some(readdressed_address(address, ip)),
        None => None,
    }
}

fn tells_place(name: &[u8]) -> bool
    ensures { result ≡ tells_place name.now }
{
    name == b"rtcp".as_slice()
        || name == b"candidate".as_slice()
        || name == b"remote-candidates".as_slice()
        || name.starts_with(b"ice-")
}

fn is_kept(line: &Line<'_>) -> bool
    ensures { result ≡ is_kept line.now }
{
    !(line.letter == b'a' && tells_place(cut(line.value.as_bytes(), b':').0))
}

/// The lines except the attributes that name places of their own.
fn kept_lines(alloc: Global, lines: &Lines<'_>) -> Result<Lines<'static>, AllocError>
    ensures { IfOk result (λ ls. ls ≡ kept_lines lines.now) }
{
    let mut left = Vec::new(alloc);
    for line in lines.as_slice() {
        if !is_kept(line) {
            continue;
        }
        left.push(line.keep(alloc)?)?;
    }
    Ok(Lines::from_vec(left))
}

fn told_port(port: u16, medium: &Media<'_>) -> u16
    ensures { result ≡ told_port port medium.now }
{
    if medium.port == 0 { 0 } else { port }
}

#[tactic(auto, unfolding(crate::specs::Readdressing::readdressed_medium))]
fn readdressed_medium(
    alloc: Global,
    medium: &Media<'_>,
    port: u16,
    ip: [u8; 4],
) -> Result<Media<'static>, AllocError>
    ensures { IfOk result (λ m. m ≡ readdressed_medium ip port medium.now) }
{
    let what = both(medium.kind.keep(alloc), medium.proto.keep(alloc));
    let said = both(
        keep_formats(alloc, &medium.formats),
        keep_text(alloc, &medium.info),
    );
    let rest = both(said, kept_lines(alloc, &medium.after));
    let ((kind, proto), ((formats, info), after)) = both(what, rest)?;
    Ok(Media {
        kind,
        port: told_port(port, medium),
        count: medium.count,
        proto,
        formats,
        info,
        connection: readdressed_connection(&medium.connection, ip),
        after,
    })
}

fn readdressed_media(
    alloc: Global,
    media: &[Media<'_>],
    ports: &[u16],
    ip: [u8; 4],
) -> Result<MediaList<'static>, AllocError>
    requires { length ports.now ≡ length media.now }
    ensures { IfOk result (λ ms. ms ≡ readdressed_media ip ports.now media.now) }
{
    let mut told = Vec::new(alloc);
    for (i, medium) in media.iter().enumerate() {
        told.push(readdressed_medium(alloc, medium, ports[i], ip)?)?;
    }
    Ok(MediaList::from_vec(told))
}

#[tactic(auto, unfolding(crate::specs::Readdressing::readdressed_description))]
fn readdressed_description(
    alloc: Global,
    description: &Description<'_>,
    ports: &[u16],
    origin: ServerOrigin,
) -> Result<Description<'static>, AllocError>
    requires { length ports.now ≡ length description.now.media }
    ensures { IfOk result (λ d. d ≡ readdressed_description origin ports.now description.now) }
{
    let first = both(origin_of(alloc, origin), description.before.keep(alloc));
    let after = kept_lines(alloc, &description.after);
    let media = readdressed_media(alloc, description.media.as_slice(), ports, origin.ip);
    let ((told_origin, before), (after, media)) = both(first, both(after, media))?;
    Ok(Description {
        origin: told_origin,
        before,
        connection: readdressed_connection(&description.connection, origin.ip),
        after,
        media,
    })
}

/// A law: an id and a version have 64 bits, octets are bytes, and ports have 16 bits.
fn numbers_fit(id: u64, version: u64, ip: &[u8], ports: &[u16])
    ensures id { id < 2 ^ 64 }
    ensures version { version < 2 ^ 64 }
    ensures octets { (i : ℕ) → slice_index ip.now i ≤ 255 }
    ensures ports { (i : ℕ) → slice_index ports.now i ≤ 65535 }
{}

/// A law: an IPv4 address has four octets.
fn four_octets(ip: &[u8; 4])
    ensures { length ip.now ≡ 4 }
{}

/// The description that the server sends in place of the one that it took (RFC 3264): each medium that has a port gets
/// its port from `ports`, each address but 0.0.0.0 is the server's, and the attributes that name addresses and ports
/// of their own are left out. There is one port for each medium, not 0 where the medium's is not, and the server's
/// address is not 0.0.0.0.
#[tactic(auto, using(crate::proofs::ReaddressLaws::readdressed_alike, crate::proofs::ReaddressLaws::readdressed_at_server, crate::proofs::ReaddressLaws::readdressed_ports, crate::proofs::ReaddressLaws::readdressed_origin))]
pub fn readdress(
    alloc: Global,
    description: &Description<'_>,
    ports: &[u16],
    origin: ServerOrigin,
) -> Result<Description<'static>, AllocError>
    requires one_each { length ports.now ≡ length description.now.media }
    requires not_zero { IsTrue (has_ports ports.now description.now.media) }
    requires server { origin.ip ≢ hold_address }
    ensures alike { IfOk result (λ sent. Alike description.now sent) }
    ensures origin { IfOk result (λ sent. sent.origin ≡ origin_of origin) }
    ensures addresses { IfOk result (λ sent. IsTrue (is_at_server origin.ip sent)) }
    ensures ports { IfOk result (λ sent. map (λ m. m.port) sent.media
        ≡ told_ports ports.now description.now.media) }
    // What is sent in place of a description that was read reads back, where the server's address is below 224.0.0.0.
    ensures again { (text : List ℕ) → ReadsDescription text description.now → IsTrue (is_unicast origin.ip) →
        IfOk result (λ sent. ReadsDescription (description_text sent) sent) }
    ensures exact { IfOk result (λ sent. sent ≡ readdressed_description origin ports.now description.now) }
{
    numbers_fit(origin.id, origin.version, &origin.ip, ports);
    four_octets(&origin.ip);
    readdressed_description(alloc, description, ports, origin)
}
