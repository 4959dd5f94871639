//! The option tags of Require header fields.

ghost use Rattle.std.specs.Prelude.{◌≡◌, ◌++◌, map, filter, codes, IfOk, OnOk};
ghost use Rattle.std.specs.List.{flat_map};
ghost use Rattle.sip_message.specs.Lookup.{values_named};
ghost use Rattle.responses.specs.Tags.{is_some_text, tags_in, required_tags, behind_comma, joined_tags};

use sip_message::{Header, values_named};
use std::alloc::{AllocError, Global};
use text::{Text, pieces, trim_blanks};

fn push_tags<'a>(alloc: Global, tags: &mut Vec<&'a [u8]>, value: &'a [u8]) -> Result<(), AllocError>
    ensures { OnOk result (map (λ t. t.now) tags.new.items ≡ map (λ t. t.now) tags.old.items ++ tags_in value.now) }
{
    let found = pieces(alloc, value, b',')?;
    for piece in &found {
        let tag = trim_blanks(piece);
        if tag.is_empty() {
            continue;
        }
        tags.push(tag)?;
    }
    Ok(())
}

/// The values of the Require header fields, each as one text.
fn required_texts<'a>(alloc: Global, headers: &[Header<'a>]) -> Result<Vec<Text<'a>>, AllocError>
    ensures { IfOk result (λ v. v.items ≡ values_named (codes "Require") headers.now) }
{
    let values = values_named(alloc, headers, b"Require")?;
    let mut texts = Vec::new(alloc);
    for value in &values {
        texts.push(value.text(alloc)?)?;
    }
    Ok(texts)
}

fn tags_of<'m>(alloc: Global, texts: &'m [Text<'_>]) -> Result<Vec<&'m [u8]>, AllocError>
    ensures { IfOk result (λ v. map (λ t. t.now) v.items ≡ flat_map tags_in texts.now) }
{
    let mut tags = Vec::new(alloc);
    for text in texts {
        push_tags(alloc, &mut tags, text.as_bytes())?;
    }
    Ok(tags)
}

fn put_behind_comma(out: &mut Vec<u8>, tags: &[&[u8]]) -> Result<(), AllocError>
    ensures { OnOk result (out.new.items ≡ out.old.items ++ behind_comma (map (λ t. t.now) tags.now)) }
{
    for tag in tags {
        out.extend_from_slice(b", ")?;
        out.extend_from_slice(tag)?;
    }
    Ok(())
}

fn put_joined(out: &mut Vec<u8>, tags: &[&[u8]]) -> Result<(), AllocError>
    ensures { OnOk result (out.new.items ≡ out.old.items ++ joined_tags (map (λ t. t.now) tags.now)) }
{
    match tags {
        [] => Ok(()),
        [tag, others @ ..] => {
            out.extend_from_slice(tag)?;
            put_behind_comma(out, others)
        }
    }
}

/// The tags of all Require header fields, with a comma and a space between each two.
pub(crate) fn join_required_tags(
    alloc: Global,
    headers: &[Header<'_>],
) -> Result<Text<'static>, AllocError>
    ensures { IfOk result (λ t. t ≡ joined_tags (required_tags headers.now)) }
{
    let texts = required_texts(alloc, headers)?;
    let tags = tags_of(alloc, &texts)?;
    let mut out = Vec::new(alloc);
    put_joined(&mut out, &tags)?;
    Ok(Text::from_vec(out))
}
