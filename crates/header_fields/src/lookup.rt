//! Headers that are looked up by name, ignoring case (RFC 3261 section 7.3.1).

ghost use Rattle.std.specs.Prelude.{◌≡◌, map, IfOk};
ghost use Rattle.std.specs.Option.{option_copied};
ghost use Rattle.header_fields.specs.Lookup.{is_named, first_named, value_named, values_named};

use crate::field_value::FieldValue;
use crate::headers::Header;
use std::alloc::{AllocError, Global};
use text::same_without_case;

/// Whether the header has this name. Takes no memory.
pub fn is_named(header: &Header<'_>, name: &[u8]) -> bool
    ensures { result ≡ is_named name.now header.now }
{
    same_without_case(header.name.as_bytes(), name)
}

fn first_named<'m, 'a>(headers: &'m [Header<'a>], name: &[u8]) -> Option<&'m Header<'a>>
    ensures { option_copied result ≡ first_named name.now headers.now }
{
    headers.iter().find(|h| is_named(h, name))
}

/// The value of the first header of this name. Takes no memory.
pub fn first_value<'m, 'a>(headers: &'m [Header<'a>], name: &[u8]) -> Option<&'m FieldValue<'a>>
    ensures { option_copied result ≡ value_named name.now headers.now }
{
    match first_named(headers, name) {
        Some(header) => Some(&header.value),
        None => None,
    }
}

/// The values of all headers of this name, in order.
pub fn values_named<'m, 'a>(
    alloc: Global,
    headers: &'m [Header<'a>],
    name: &[u8],
) -> Result<Vec<&'m FieldValue<'a>>, AllocError>
    ensures { IfOk result (λ v. map (λ value. value.now) v.items ≡ values_named name.now headers.now) }
{
    let mut values = Vec::new(alloc);
    for header in headers {
        if is_named(header, name) {
            values.push(&header.value)?;
        }
    }
    Ok(values)
}
