//! Ranges of users: `100..139` means each number from the first to the last.

ghost use Rattle.std.specs.Prelude.{◌≡◌, ◌++◌, IfOk, OnOk};
ghost use Rattle.std.specs.Option.{option_copied};
ghost use Rattle.configuration.specs.Ranges.{last_of, is_like_range, ordered, range_between, range_of, numeral, count_of, fits, names_in, names_of, all_names, expanded};

use crate::user_list::MAX_USERS;
use std::alloc::{AllocError, Global};
use text::{Text, Texts, cut, is_run_of_digits, number_upto};

/// The maximum number of digits of a number in a range.
const MAX_RANGE_DIGITS: usize = 9;

/// The greatest number with this many digits.
const MAX_RANGE_NUMBER: u32 = 999_999_999;

/// The numbers of a range, each with the same number of digits.
#[derive(Clone, Copy)]
struct Range {
    digits: usize,
    first: u32,
    last: u32,
}

/// What comes after two dots, of which the first is the first dot of the text.
fn last_of(text: &[u8]) -> Option<&[u8]>
    ensures { option_copied result ≡ last_of text.now }
{
    match cut(text, b'.').1 {
        Some([b'.', last @ ..]) => Some(last),
        _ => None,
    }
}

/// Whether a text is digits, two dots and digits, as a range is.
pub(crate) fn is_like_range(text: &[u8]) -> bool
    ensures { result ≡ is_like_range text.now }
{
    match last_of(text) {
        Some(last) => is_run_of_digits(cut(text, b'.').0) && is_run_of_digits(last),
        None => false,
    }
}

fn ordered(digits: usize, first: u32, last: u32) -> Option<Range>
    ensures { result ≡ ordered digits first last }
{
    if first <= last {
        Some(Range {
            digits,
            first,
            last,
        })
    } else {
        None
    }
}

fn range_between(first: &[u8], last: &[u8]) -> Option<Range>
    ensures { result ≡ range_between first.now last.now }
{
    if 1 <= first.len() && first.len() == last.len() && first.len() <= MAX_RANGE_DIGITS {
        let from = number_upto(MAX_RANGE_NUMBER, first)?;
        let to = number_upto(MAX_RANGE_NUMBER, last)?;
        ordered(first.len(), from, to)
    } else {
        None
    }
}

/// The range that a text says.
fn range_of(text: &[u8]) -> Option<Range>
    ensures { result ≡ range_of text.now }
{
    range_between(cut(text, b'.').0, last_of(text)?)
}

/// Appends a number, written with `digits` digits.
fn put_numeral(out: &mut Vec<u8>, digits: usize, number: u64) -> Result<(), AllocError>
    ensures { OnOk result (out.new.items ≡ out.old.items ++ numeral digits number) }
{
    if digits == 0 {
        return Ok(());
    }
    put_numeral(out, digits - 1, number / 10)?;
    out.push(b'0' + (number % 10) as u8)?;
    Ok(())
}

fn numeral(alloc: Global, digits: usize, number: u64) -> Result<Text<'static>, AllocError>
    ensures { IfOk result (λ text. text ≡ numeral digits number) }
{
    let mut text = Vec::new(alloc);
    put_numeral(&mut text, digits, number)?;
    Ok(Text::from_vec(text))
}

/// Appends the numbers of a range to the names.
fn put_range(alloc: Global, names: &mut Vec<Text<'static>>, range: Range) -> Result<(), AllocError>
    ensures { OnOk result (names.new.items ≡ names.old.items ++ names_in range) }
{
    for number in u64::from(range.first)..u64::from(range.last) + 1 {
        names.push(numeral(alloc, range.digits, number)?)?;
    }
    Ok(())
}

/// Appends the names that a text of the list means.
fn put_names(
    alloc: Global,
    names: &mut Vec<Text<'static>>,
    text: &Text<'static>,
) -> Result<(), AllocError>
    ensures { OnOk result (names.new.items ≡ names.old.items ++ names_of text.now) }
{
    match range_of(text.as_bytes()) {
        Some(range) => put_range(alloc, names, range),
        None => {
            names.push(text.keep(alloc)?)?;
            Ok(())
        }
    }
}

fn all_names(alloc: Global, texts: &[Text<'static>]) -> Result<Texts<'static>, AllocError>
    ensures { IfOk result (λ names. names ≡ all_names texts.now) }
{
    let mut names = Vec::new(alloc);
    for text in texts {
        put_names(alloc, &mut names, text)?;
    }
    Ok(Texts::from_vec(names))
}

/// How many names a text of the list means.
fn count_of(text: &[u8]) -> u64
    ensures { result ≡ count_of text.now }
{
    match range_of(text) {
        Some(range) => (u64::from(range.last) + 1).saturating_sub(u64::from(range.first)),
        None => 1,
    }
}

/// Whether there is room for the names that the texts mean. Takes no memory.
fn fits(room: u64, texts: &[Text<'static>]) -> bool
    ensures { result ≡ fits room texts.now }
{
    let mut left = room;
    for text in texts {
        let count = count_of(text.as_bytes());
        if left < count {
            return false;
        }
        left -= count;
    }
    true
}

/// The names that the texts mean. If they are more than an office may have, the texts unchanged.
pub(crate) fn expanded(alloc: Global, texts: Texts<'static>) -> Result<Texts<'static>, AllocError>
    ensures { IfOk result (λ names. names ≡ expanded texts.entry) }
{
    if fits(MAX_USERS as u64, texts.as_slice()) {
        all_names(alloc, texts.as_slice())
    } else {
        Ok(texts)
    }
}
