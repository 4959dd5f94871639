//! Lines for those who watch the server: a word, followed by keys with their values. Whatever a value contains, it
//! neither ends the line nor begins another key.

ghost use Rattle.std.specs.Prelude.{◌≡◌, ◌++◌, decimal, IfOk, OnOk, OnErr};
ghost use Rattle.std.specs.List.{flat_map};
ghost use Rattle.sip_uri.specs.Writing.{BeginsWith};
ghost use Rattle.note_lines.specs.Lines.{is_plain, last_digit, shown, shown_byte, max_word, dashed, dashed_text, key_text, field_text, line_end, number_field, place_field, place_text, seconds_text, text_field, time_field, word_text, words_field, words_text};

use itoa::Buffer;
use sip_uri::{Addr, put_ip4};
use std::alloc::{AllocError, Global};

/// How many bytes are shown of a word, a key or a number, and below it, of any other text.
const MAX_WORD: usize = 20;

const MAX_SHOWN: usize = 100;

/// A byte that is shown as it is: it is no space, ends no value, and needs no quotes.
fn is_plain(byte: u8) -> bool
    ensures { result ≡ is_plain byte }
{
    b' ' < byte && byte < 127 && !b"\"'=\\`".contains(&byte)
}

/// The last hexadecimal digit of a number.
fn last_digit(number: u8) -> u8
    ensures { result ≡ last_digit number }
{
    let digit = number % 16;
    if digit < 10 {
        b'0' + digit
    } else {
        b'a' - 10 + digit
    }
}

fn put_byte(out: &mut Vec<u8>, byte: u8) -> Result<(), AllocError>
    ensures ok { OnOk result (out.new.items ≡ out.old.items ++ shown_byte byte) }
    ensures err { OnErr result (BeginsWith out.old.items out.new.items) }
{
    if is_plain(byte) {
        out.push(byte)?;
        return Ok(());
    }
    out.extend_from_slice(&[b'\\', b'x', last_digit(byte / 16), last_digit(byte)])?;
    Ok(())
}

fn put_bytes(out: &mut Vec<u8>, bytes: &[u8]) -> Result<(), AllocError>
    ensures ok { OnOk result (out.new.items ≡ out.old.items ++ flat_map shown_byte bytes.now) }
    ensures err { OnErr result (BeginsWith out.old.items out.new.items) }
{
    for byte in bytes {
        put_byte(out, *byte)?;
    }
    Ok(())
}

/// At most `most` bytes of a text, and a mark if there are more.
fn put_shown(out: &mut Vec<u8>, most: usize, text: &[u8]) -> Result<(), AllocError>
    ensures ok { OnOk result (out.new.items ≡ out.old.items ++ shown most text.now) }
    ensures err { OnErr result (BeginsWith out.old.items out.new.items) }
{
    if text.len() <= most {
        return put_bytes(out, text);
    }
    put_bytes(out, &text[..most])?;
    out.extend_from_slice(b"...")?;
    Ok(())
}

fn put_decimal(out: &mut Vec<u8>, number: u64) -> Result<(), AllocError>
    ensures ok { OnOk result (out.new.items ≡ out.old.items ++ shown max_word (decimal number)) }
    ensures err { OnErr result (BeginsWith out.old.items out.new.items) }
{
    let mut buffer = Buffer::new();
    put_shown(out, MAX_WORD, buffer.format(number).as_bytes())
}

#[tactic(auto, unfolding(crate::specs::Lines::seconds_text))]
fn put_seconds(out: &mut Vec<u8>, millis: u64) -> Result<(), AllocError>
    ensures ok { OnOk result (out.new.items ≡ out.old.items ++ seconds_text millis) }
    ensures err { OnErr result (BeginsWith out.old.items out.new.items) }
{
    put_decimal(out, millis / 1000)?;
    out.push(b'.')?;
    put_decimal(out, millis / 100 % 10)?;
    out.push(b's')?;
    Ok(())
}

fn dashed(byte: u8) -> u8
    ensures { result ≡ dashed byte }
{
    if byte == b' ' { b'-' } else { byte }
}

fn put_dashed(out: &mut Vec<u8>, words: &[u8]) -> Result<(), AllocError>
    ensures ok { OnOk result (out.new.items ≡ out.old.items ++ dashed_text words.now) }
    ensures err { OnErr result (BeginsWith out.old.items out.new.items) }
{
    for byte in words {
        put_byte(out, dashed(*byte))?;
    }
    Ok(())
}

/// At most `most` bytes of words, with a `-` between them.
fn put_shown_words(out: &mut Vec<u8>, most: usize, words: &[u8]) -> Result<(), AllocError>
    ensures ok { OnOk result (out.new.items ≡ out.old.items ++ words_text most words.now) }
    ensures err { OnErr result (BeginsWith out.old.items out.new.items) }
{
    if words.len() <= most {
        return put_dashed(out, words);
    }
    put_dashed(out, &words[..most])
}

fn put_key(out: &mut Vec<u8>, key: &[u8]) -> Result<(), AllocError>
    ensures ok { OnOk result (out.new.items ≡ out.old.items ++ key_text key.now) }
    ensures err { OnErr result (BeginsWith out.old.items out.new.items) }
{
    out.push(b' ')?;
    put_shown(out, MAX_WORD, key)?;
    out.push(b'=')?;
    Ok(())
}

/// Begins a line. If memory runs out, a part may be written, here and below.
#[tactic(auto, unfolding(crate::specs::Lines::word_text))]
pub(crate) fn put_word(out: &mut Vec<u8>, word: &[u8]) -> Result<(), AllocError>
    ensures ok { OnOk result (out.new.items ≡ out.old.items ++ word_text word.now) }
    ensures err { OnErr result (BeginsWith out.old.items out.new.items) }
{
    put_shown(out, MAX_WORD, word)
}

/// Appends a number under its key.
#[tactic(auto, unfolding(crate::specs::Lines::field_text))]
pub(crate) fn put_number(out: &mut Vec<u8>, key: &[u8], number: u64) -> Result<(), AllocError>
    ensures ok { OnOk result (out.new.items ≡ out.old.items ++ field_text (number_field key.now number)) }
    ensures err { OnErr result (BeginsWith out.old.items out.new.items) }
{
    put_key(out, key)?;
    put_decimal(out, number)
}

/// Appends a text under its key.
#[tactic(auto, unfolding(crate::specs::Lines::field_text))]
pub(crate) fn put_text(out: &mut Vec<u8>, key: &[u8], text: &[u8]) -> Result<(), AllocError>
    ensures ok { OnOk result (out.new.items ≡ out.old.items ++ field_text (text_field key.now text.now)) }
    ensures err { OnErr result (BeginsWith out.old.items out.new.items) }
{
    put_key(out, key)?;
    put_shown(out, MAX_SHOWN, text)
}

/// Appends words under their key, with a `-` for each space between them.
#[tactic(auto, unfolding(crate::specs::Lines::field_text))]
pub(crate) fn put_words(out: &mut Vec<u8>, key: &[u8], words: &[u8]) -> Result<(), AllocError>
    ensures ok { OnOk result (out.new.items ≡ out.old.items ++ field_text (words_field key.now words.now)) }
    ensures err { OnErr result (BeginsWith out.old.items out.new.items) }
{
    put_key(out, key)?;
    put_shown_words(out, MAX_SHOWN, words)
}

/// Appends milliseconds under their key, as seconds.
#[tactic(auto, unfolding(crate::specs::Lines::field_text))]
pub(crate) fn put_time(out: &mut Vec<u8>, key: &[u8], millis: u64) -> Result<(), AllocError>
    ensures ok { OnOk result (out.new.items ≡ out.old.items ++ field_text (time_field key.now millis)) }
    ensures err { OnErr result (BeginsWith out.old.items out.new.items) }
{
    put_key(out, key)?;
    put_seconds(out, millis)
}

/// A place, as `192.0.2.11:5060`.
#[tactic(auto, unfolding(crate::specs::Lines::place_text))]
fn place_text(alloc: Global, place: Addr) -> Result<Vec<u8>, AllocError>
    ensures { IfOk result (λ text. text.items ≡ place_text place) }
{
    let mut text = Vec::new(alloc);
    put_ip4(&mut text, &place.ip)?;
    text.push(b':')?;
    text::put_number(&mut text, u64::from(place.port))?;
    Ok(text)
}

/// Appends a place under its key.
pub(crate) fn put_place(
    out: &mut Vec<u8>,
    alloc: Global,
    key: &[u8],
    place: Addr,
) -> Result<(), AllocError>
    ensures ok { OnOk result (out.new.items ≡ out.old.items ++ field_text (place_field key.now place)) }
    ensures err { OnErr result (BeginsWith out.old.items out.new.items) }
{
    let text = place_text(alloc, place)?;
    put_text(out, key, &text)
}

/// Ends a line.
pub(crate) fn end_line(out: &mut Vec<u8>) -> Result<(), AllocError>
    ensures ok { OnOk result (out.new.items ≡ out.old.items ++ line_end) }
    ensures err { OnErr result (BeginsWith out.old.items out.new.items) }
{
    out.push(b'\n')?;
    Ok(())
}
