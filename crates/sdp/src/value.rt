//! The meaning of lines that are in order and well formed.

ghost use Rattle.std.specs.Prelude.{◌≡◌, map, option_map, drop, IfOk};
ghost use Rattle.std.specs.Option.{option_copied};
ghost use Rattle.sdp.specs.Lines.{value_on, letter_on, line_of, texts};
ghost use Rattle.sdp.specs.Order.{groups};
ghost use Rattle.sdp.specs.Reading.{connection_of, media_of, second, value_of};

use crate::address::Address;
use crate::class::begins;
use crate::connection::address;
use crate::description::{Description, Media, MediaList};
use crate::line::{Line, Lines};
use crate::medium_line::{MediumParts, formats_of};
use crate::order::{front_of, less_all, take_one, upto_medium};
use crate::origin_line::OriginParts;
use std::alloc::{AllocError, Global};
use text::Text;

/// The value of a line.
pub(crate) fn value_on(line: &[u8]) -> &[u8]
    ensures { result.now ≡ value_on line.now }
{
    match line {
        [_, _, value @ ..] => value,
        _ => &[],
    }
}

fn letter_on(line: &[u8]) -> u8
    ensures { result ≡ letter_on line.now }
{
    match line {
        [letter, ..] => *letter,
        [] => 0,
    }
}

fn line_of(line: &[u8]) -> Line<'_>
    ensures { result ≡ line_of line.now }
{
    Line {
        letter: letter_on(line),
        value: Text::lent(value_on(line)),
    }
}

fn lines_of<'a>(alloc: Global, lines: &[&'a [u8]]) -> Result<Lines<'a>, AllocError>
    ensures { IfOk result (λ ls. ls ≡ map line_of (texts lines.now)) }
{
    let mut made = Vec::with_capacity(alloc, lines.len())?;
    for line in lines {
        made.push(line_of(line))?;
    }
    Ok(Lines::from_vec(made))
}

fn connection(line: Option<&[u8]>) -> Option<Address<'_>>
    ensures { result ≡ connection_of (option_copied line.entry) }
{
    match line {
        Some(line) => address(value_on(line)),
        None => None,
    }
}

fn info(line: Option<&[u8]>) -> Option<Text<'_>>
    ensures { result ≡ option_map value_on (option_copied line.entry) }
{
    match line {
        Some(line) => Some(Text::lent(value_on(line))),
        None => None,
    }
}

/// The medium of a line `m=` and the lines under it.
#[tactic(auto, unfolding(crate::specs::Reading::media_of))]
fn media_of<'a>(alloc: Global, first: &'a [u8], under: &[&'a [u8]]) -> Result<Media<'a>, AllocError>
    ensures { IfOk result (λ m. m ≡ media_of (record { medium = first.now; under = texts under.now })) }
{
    let parts = MediumParts::of(value_on(first));
    let (info_line, rest) = take_one(under, b"i");
    let (connection_line, after) = take_one(rest, b"c");
    let formats = formats_of(alloc, parts.formats)?;
    let after = lines_of(alloc, after)?;
    Ok(Media {
        kind: Text::lent(parts.kind),
        port: parts.port(),
        count: parts.count(),
        proto: Text::lent(parts.proto),
        formats,
        info: info(info_line),
        connection: connection(connection_line),
        after,
    })
}

fn all_media<'a>(alloc: Global, lines: &[&'a [u8]]) -> Result<MediaList<'a>, AllocError>
    ensures { IfOk result (λ ms. ms ≡ map media_of (groups (texts lines.now))) }
{
    let mut media = Vec::new(alloc);
    let mut rest = lines;
    while let [first, after @ ..] = rest {
        rest = after;
        if !begins(first, b"m") {
            continue;
        }
        media.push(media_of(alloc, first, upto_medium(after))?)?;
    }
    Ok(MediaList::from_vec(media))
}

/// The line after the first.
pub(crate) fn second<'a>(lines: &[&'a [u8]]) -> &'a [u8]
    ensures { result.now ≡ second (texts lines.now) }
{
    match lines {
        [_, line, ..] => line,
        _ => &[],
    }
}

fn behind_two<'a, 'b>(lines: &'a [&'b [u8]]) -> &'a [&'b [u8]]
    ensures { texts result.now ≡ drop 2 (texts lines.now) }
{
    match lines {
        [_, _, rest @ ..] => rest,
        _ => &[],
    }
}

/// The description of lines.
#[tactic(auto, unfolding(crate::specs::Reading::value_of))]
pub(crate) fn value_of<'a>(alloc: Global, lines: &[&'a [u8]]) -> Result<Description<'a>, AllocError>
    ensures { IfOk result (λ d. d ≡ value_of (texts lines.now)) }
{
    let rest = behind_two(upto_medium(lines));
    let (connection_line, after) = take_one(less_all(rest, b"siuep"), b"c");
    let before = lines_of(alloc, front_of(rest, b"siuep"))?;
    let after = lines_of(alloc, after)?;
    let media = all_media(alloc, lines)?;
    Ok(Description {
        origin: OriginParts::of(value_on(second(lines))).origin(),
        before,
        connection: connection(connection_line),
        after,
        media,
    })
}
