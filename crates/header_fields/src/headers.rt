//! Header fields.

use crate::field_value::FieldValue;
use std::alloc::{AllocError, Global};
use std::marker::Model;
use text::Text;

/// A header field: its long name, even if it was compact, and its value (RFC 3261 section 7.3.1).
#[derive(Drop)]
pub struct Header<'a> {
    pub name: Text<'a>,
    pub value: FieldValue<'a>,
}

impl<'a> Header<'a> {
    ghost use Rattle.std.specs.Prelude.{◌≡◌, IfOk};
    ghost use Rattle.header_fields.specs.Lookup.{named};

    /// A header field of this name and value, as they are.
    pub fn of(alloc: Global, name: &[u8], value: &[u8]) -> Result<Header<'a>, AllocError>
        ensures { IfOk result (λ h. h ≡ named name.now value.now) }
    {
        let name = Text::from_slice(alloc, name)?;
        let value = FieldValue::whole(Text::from_slice(alloc, value)?);
        Ok(Header { name, value })
    }

    /// The same field, which borrows nothing.
    pub fn keep(&self, alloc: Global) -> Result<Header<'static>, AllocError>
        ensures { IfOk result (λ h. h ≡ self.now) }
    {
        Ok(Header {
            name: self.name.keep(alloc)?,
            value: self.value.keep(alloc)?,
        })
    }
}

/// Header fields in order, which contracts see as a list.
#[derive(Drop)]
pub struct Headers<'a> {
    entries: Vec<Header<'a>>,
}

impl<'a> Model for Headers<'a> {
    ghost use Rattle.std.specs.Prelude.{List};
    ghost use Rattle.header_fields.specs.declared.headers.Header.{Header};

    ghost Value = { List Header };

    ghost view = { λ h. h.entries.items };
}

impl<'a> Headers<'a> {
    ghost use Rattle.std.specs.Prelude.{◌≡◌, ◌++◌, ◌∷◌, [], IfOk, OnOk, OnErr};
    ghost use Rattle.header_fields.specs.Lookup.{named};

    /// The list of these headers. Takes no memory.
    pub fn from_vec(entries: Vec<Header<'a>>) -> Headers<'a>
        ensures { result ≡ entries.entry.items }
    {
        Headers { entries }
    }

    /// The headers. Takes no memory.
    pub fn into_vec(self) -> Vec<Header<'a>>
        ensures { result.items ≡ self.entry }
    {
        self.entries
    }

    /// The headers, lent. Takes no memory.
    pub fn as_slice(&self) -> &[Header<'a>]
        ensures { result.now ≡ self.now }
    {
        &self.entries
    }

    /// Appends a header.
    pub fn push(&mut self, header: Header<'a>) -> Result<(), AllocError>
        ensures unchanged { OnErr result (self.new ≡ self.old) }
        ensures put { OnOk result (self.new ≡ self.old ++ header.entry ∷ []) }
    {
        Ok(self.entries.push(header)?)
    }

    /// Appends a header with this name and value, as they are.
    pub fn add(&mut self, alloc: Global, name: &[u8], value: &[u8]) -> Result<(), AllocError>
        ensures unchanged { OnErr result (self.new ≡ self.old) }
        ensures put { OnOk result (self.new ≡ self.old ++ named name.now value.now ∷ []) }
    {
        let header = Header::of(alloc, name, value)?;
        self.push(header)
    }

    /// The same fields, which borrow nothing.
    pub fn keep(&self, alloc: Global) -> Result<Headers<'static>, AllocError>
        ensures { IfOk result (λ h. h ≡ self.now) }
    {
        let mut entries = Vec::new(alloc);
        for header in self.as_slice() {
            entries.push(header.keep(alloc)?)?;
        }
        Ok(Headers::from_vec(entries))
    }
}
