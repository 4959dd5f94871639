//! The order of lines, by their first bytes (RFC 4566 section 5).

ghost use Rattle.std.specs.Prelude.{◌≡◌};
ghost use Rattle.std.specs.List.{list_all};
ghost use Rattle.std.specs.Option.{option_copied};
ghost use Rattle.sdp.specs.Lines.{texts};
ghost use Rattle.sdp.specs.Order.{first_of, less_one, front_of, less_all, begin, is_before, is_after, is_session, upto_medium, groups, is_media_after, is_group, is_ordered, after_under};

use crate::class::begins;

/// The first line, if it is of these types, and the other lines.
pub(crate) fn take_one<'a, 'b>(
    lines: &'a [&'b [u8]],
    types: &[u8],
) -> (Option<&'b [u8]>, &'a [&'b [u8]])
    ensures first { option_copied result.0 ≡ first_of types.now (texts lines.now) }
    ensures rest { texts result.1.now ≡ less_one types.now (texts lines.now) }
{
    let [first, rest @ ..] = lines else {
        return (None, lines);
    };
    if begins(first, types) {
        (Some(*first), rest)
    } else {
        (None, lines)
    }
}

fn less_one<'a, 'b>(lines: &'a [&'b [u8]], types: &[u8]) -> &'a [&'b [u8]]
    ensures { texts result.now ≡ less_one types.now (texts lines.now) }
{
    let (_, rest) = take_one(lines, types);
    rest
}

/// The lines without those at the front that are of these types.
pub(crate) fn less_all<'a, 'b>(lines: &'a [&'b [u8]], types: &[u8]) -> &'a [&'b [u8]]
    ensures { texts result.now ≡ less_all types.now (texts lines.now) }
{
    let mut rest = lines;
    while let [first, after @ ..] = rest {
        if !begins(first, types) {
            return rest;
        }
        rest = after;
    }
    rest
}

/// The lines at the front that are of these types.
pub(crate) fn front_of<'a, 'b>(lines: &'a [&'b [u8]], types: &[u8]) -> &'a [&'b [u8]]
    ensures { texts result.now ≡ front_of types.now (texts lines.now) }
{
    for at in 0..lines.len() {
        if !begins(lines[at], types) {
            return &lines[..at];
        }
    }
    lines
}

/// The lines up to the first `m=`.
pub(crate) fn upto_medium<'a, 'b>(lines: &'a [&'b [u8]]) -> &'a [&'b [u8]]
    ensures { texts result.now ≡ upto_medium (texts lines.now) }
{
    for at in 0..lines.len() {
        if begins(lines[at], b"m") {
            return &lines[..at];
        }
    }
    lines
}

fn begin(lines: &[&[u8]], types: &[u8]) -> bool
    ensures { result ≡ begin types.now (texts lines.now) }
{
    match lines {
        [first, ..] => begins(first, types),
        [] => false,
    }
}

#[tactic(auto, unfolding(crate::specs::Order::is_before))]
fn is_before(lines: &[&[u8]]) -> bool
    ensures { result ≡ is_before (texts lines.now) }
{
    let rest = less_one(less_one(less_one(lines, b"s"), b"i"), b"u");
    begin(lines, b"s") && less_all(less_all(rest, b"e"), b"p").is_empty()
}

#[tactic(auto, unfolding(crate::specs::Order::is_after))]
fn is_after(lines: &[&[u8]]) -> bool
    ensures { result ≡ is_after (texts lines.now) }
{
    let times = less_all(lines, b"b");
    let rest = less_one(less_one(less_all(times, b"tr"), b"z"), b"k");
    begin(times, b"t") && less_all(rest, b"a").is_empty()
}

fn is_session(lines: &[&[u8]]) -> bool
    ensures { result ≡ is_session (texts lines.now) }
{
    let [version, origin, rest @ ..] = lines else {
        return false;
    };
    let before = front_of(rest, b"siuep");
    let after = less_one(less_all(rest, b"siuep"), b"c");
    begins(version, b"v") && begins(origin, b"o") && is_before(before) && is_after(after)
}

#[tactic(auto, unfolding(crate::specs::Order::is_media_after))]
fn is_media_after(lines: &[&[u8]]) -> bool
    ensures { result ≡ is_media_after (texts lines.now) }
{
    let rest = less_one(less_all(lines, b"b"), b"k");
    less_all(rest, b"a").is_empty()
}

/// Whether the lines under an `m=` are in order.
fn is_under(lines: &[&[u8]]) -> bool
    ensures { result ≡ is_media_after (after_under (texts lines.now)) }
{
    is_media_after(less_one(less_one(lines, b"i"), b"c"))
}

fn are_groups(lines: &[&[u8]]) -> bool
    ensures { result ≡ list_all is_group (groups (texts lines.now)) }
{
    let mut rest = lines;
    while let [first, after @ ..] = rest {
        if begins(first, b"m") && !is_under(upto_medium(after)) {
            return false;
        }
        rest = after;
    }
    true
}

/// Whether the lines of a description are in order.
#[tactic(auto, unfolding(crate::specs::Order::is_ordered))]
pub(crate) fn is_ordered(lines: &[&[u8]]) -> bool
    ensures { result ≡ is_ordered (texts lines.now) }
{
    is_session(upto_medium(lines)) && are_groups(lines)
}
