//! Writing descriptions.

ghost use Rattle.std.specs.Prelude.{◌≡◌, ◌++◌, ◌∷◌, [], ℕ, List, map, OnOk, IfOk, decimal};
ghost use Rattle.std.specs.List.{flat_map};
ghost use Rattle.sdp.specs.Grammar.{ReadsDescription};
ghost use Rattle.sdp.specs.Writing.{line_text, ended, origin_line, ip4_text, address_text, connection_lines, count_text, formats_text, medium_line, info_lines, media_lines, description_lines, description_text};

use crate::address::Address;
use crate::description::{Description, Media, Origin};
use crate::line::Line;
use std::alloc::{AllocError, Global};
use text::{Text, put_number};

fn put_line(out: &mut Vec<u8>, line: &Line<'_>) -> Result<(), AllocError>
    ensures { OnOk result (out.new.items ≡ out.old.items ++ ended (line_text line.now ∷ [])) }
{
    out.push(line.letter)?;
    out.push(b'=')?;
    out.extend_from_slice(line.value.as_bytes())?;
    out.extend_from_slice(b"\r\n")
}

fn put_lines(out: &mut Vec<u8>, lines: &[Line<'_>]) -> Result<(), AllocError>
    ensures { OnOk result (out.new.items ≡ out.old.items ++ ended (map line_text lines.now)) }
{
    for line in lines {
        put_line(out, line)?;
    }
    Ok(())
}

fn put_spaced(out: &mut Vec<u8>, text: &Text<'_>) -> Result<(), AllocError>
    ensures { OnOk result (out.new.items ≡ out.old.items ++ (text.now ++ 32 ∷ [])) }
{
    out.extend_from_slice(text.as_bytes())?;
    out.push(b' ')?;
    Ok(())
}

fn put_types(out: &mut Vec<u8>, origin: &Origin<'_>) -> Result<(), AllocError>
    ensures { OnOk result (out.new.items ≡ out.old.items ++ (origin.now.network_type ++ 32 ∷ (origin.now.address_type ++ 32 ∷ []))) }
{
    put_spaced(out, &origin.network_type)?;
    put_spaced(out, &origin.address_type)
}

fn put_numbers(out: &mut Vec<u8>, origin: &Origin<'_>) -> Result<(), AllocError>
    ensures { OnOk result (out.new.items ≡ out.old.items ++ (origin.now.id ++ 32 ∷ (origin.now.version ++ 32 ∷ []))) }
{
    put_spaced(out, &origin.id)?;
    put_spaced(out, &origin.version)
}

fn put_origin(out: &mut Vec<u8>, origin: &Origin<'_>) -> Result<(), AllocError>
    ensures { OnOk result (out.new.items ≡ out.old.items ++ ended (origin_line origin.now ∷ [])) }
{
    out.extend_from_slice(b"o=")?;
    put_spaced(out, &origin.username)?;
    put_numbers(out, origin)?;
    put_types(out, origin)?;
    out.extend_from_slice(origin.address.as_bytes())?;
    out.extend_from_slice(b"\r\n")?;
    Ok(())
}

fn put_dotted(out: &mut Vec<u8>, octet: u8) -> Result<(), AllocError>
    ensures { OnOk result (out.new.items ≡ out.old.items ++ (decimal octet ++ 46 ∷ [])) }
{
    put_number(out, u64::from(octet))?;
    out.push(b'.')?;
    Ok(())
}

fn put_ip4(out: &mut Vec<u8>, octets: &[u8; 4]) -> Result<(), AllocError>
    ensures { OnOk result (out.new.items ≡ out.old.items ++ ip4_text octets.now) }
{
    put_dotted(out, octets[0])?;
    put_dotted(out, octets[1])?;
    put_dotted(out, octets[2])?;
    put_number(out, u64::from(octets[3]))?;
    Ok(())
}

fn put_behind(out: &mut Vec<u8>, front: &[u8], text: &Text<'_>) -> Result<(), AllocError>
    ensures { OnOk result (out.new.items ≡ out.old.items ++ (front.now ++ text.now)) }
{
    out.extend_from_slice(front)?;
    out.extend_from_slice(text.as_bytes())
}

fn put_address(out: &mut Vec<u8>, address: &Address<'_>) -> Result<(), AllocError>
    ensures { OnOk result (out.new.items ≡ out.old.items ++ address_text address.now) }
{
    match address {
        Address::Ip4(octets) => {
            out.extend_from_slice(b"IN IP4 ")?;
            put_ip4(out, octets)
        }
        Address::Multicast(text) => put_behind(out, b"IN IP4 ", text),
        Address::Ip6(text) => put_behind(out, b"IN IP6 ", text),
        Address::Name(text) => put_behind(out, b"IN IP4 ", text),
    }
}

fn put_connection(out: &mut Vec<u8>, connection: &Option<Address<'_>>) -> Result<(), AllocError>
    ensures { OnOk result (out.new.items ≡ out.old.items ++ ended (connection_lines connection.now)) }
{
    if let Some(address) = connection {
        out.extend_from_slice(b"c=")?;
        put_address(out, address)?;
        out.extend_from_slice(b"\r\n")?;
    }
    Ok(())
}

fn put_info(out: &mut Vec<u8>, info: &Option<Text<'_>>) -> Result<(), AllocError>
    ensures { OnOk result (out.new.items ≡ out.old.items ++ ended (info_lines info.now)) }
{
    if let Some(info) = info {
        put_behind(out, b"i=", info)?;
        out.extend_from_slice(b"\r\n")?;
    }
    Ok(())
}

fn put_format(out: &mut Vec<u8>, format: &Text<'_>) -> Result<(), AllocError>
    ensures { OnOk result (out.new.items ≡ out.old.items ++ 32 ∷ format.now) }
{
    out.push(b' ')?;
    out.extend_from_slice(format.as_bytes())
}

fn put_formats(out: &mut Vec<u8>, formats: &[Text<'_>]) -> Result<(), AllocError>
    ensures { OnOk result (out.new.items ≡ out.old.items ++ formats_text formats.now) }
{
    for format in formats {
        put_format(out, format)?;
    }
    Ok(())
}

fn put_port(out: &mut Vec<u8>, medium: &Media<'_>) -> Result<(), AllocError>
    ensures { OnOk result (out.new.items ≡ out.old.items ++ (decimal medium.now.port ++ count_text medium.now.count)) }
{
    put_number(out, u64::from(medium.port))?;
    if let Some(count) = medium.count {
        out.push(b'/')?;
        put_number(out, u64::from(count))?;
    }
    Ok(())
}

fn put_medium(out: &mut Vec<u8>, medium: &Media<'_>) -> Result<(), AllocError>
    ensures { OnOk result (out.new.items ≡ out.old.items ++ ended (medium_line medium.now ∷ [])) }
{
    put_behind(out, b"m=", &medium.kind)?;
    out.push(b' ')?;
    put_port(out, medium)?;
    put_format(out, &medium.proto)?;
    put_formats(out, medium.formats.as_slice())?;
    out.extend_from_slice(b"\r\n")
}

fn put_media(out: &mut Vec<u8>, medium: &Media<'_>) -> Result<(), AllocError>
    ensures { OnOk result (out.new.items ≡ out.old.items ++ ended (media_lines medium.now)) }
{
    put_medium(out, medium)?;
    put_info(out, &medium.info)?;
    put_connection(out, &medium.connection)?;
    put_lines(out, medium.after.as_slice())
}

fn put_all_media(out: &mut Vec<u8>, media: &[Media<'_>]) -> Result<(), AllocError>
    ensures { OnOk result (out.new.items ≡ out.old.items ++ ended (flat_map media_lines media.now)) }
{
    for medium in media {
        put_media(out, medium)?;
    }
    Ok(())
}

fn put_session(out: &mut Vec<u8>, description: &Description<'_>) -> Result<(), AllocError>
    ensures { OnOk result (out.new.items ≡ out.old.items ++ ended (map line_text description.now.before ++ (connection_lines description.now.connection ++ map line_text description.now.after))) }
{
    put_lines(out, description.before.as_slice())?;
    put_connection(out, &description.connection)?;
    put_lines(out, description.after.as_slice())
}

#[tactic(auto, unfolding(crate::specs::Writing::description_text, crate::specs::Writing::description_lines))]
fn put_description(out: &mut Vec<u8>, description: &Description<'_>) -> Result<(), AllocError>
    ensures { OnOk result (out.new.items ≡ out.old.items ++ description_text description.now) }
{
    out.extend_from_slice(b"v=0\r\n")?;
    put_origin(out, &description.origin)?;
    put_session(out, description)?;
    put_all_media(out, description.media.as_slice())
}

fn write(alloc: Global, description: &Description<'_>) -> Result<Text<'static>, AllocError>
    ensures { IfOk result (λ t. t ≡ description_text description.now) }
{
    let mut out = Vec::with_capacity(alloc, 512)?;
    put_description(&mut out, description)?;
    Ok(Text::from_vec(out))
}

/// The bytes of a description, each line ended by CR LF.
pub fn write_description(
    alloc: Global,
    description: &Description<'_>,
) -> Result<Text<'static>, AllocError>
    // The text itself.
    ensures text { IfOk result (λ t. t ≡ description_text description.now) }
    // What is written for a description that was read from some text is read again as that description.
    ensures again { (from : List ℕ) → ReadsDescription from description.now → IfOk result (λ t. ReadsDescription t description.now) }
{
    write(alloc, description)
}
