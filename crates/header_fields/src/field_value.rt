//! The value of a header field.

ghost use Rattle.std.specs.Prelude.{◌≡◌, ◌++◌, ℕ, List, IfOk, IfSome, OnOk};
ghost use Rattle.std.specs.Str.{str_eq_ignore_ascii_case};
ghost use Rattle.header_fields.specs.FieldValue.{said};
ghost use Rattle.header_fields.specs.Folded.{unfolded_text};

use crate::folds::{is_unfolded_without_case, put_unfolded};
use std::alloc::{AllocError, Global};
use std::marker::Model;
use text::{Text, same_without_case};

/// Where a value is.
#[derive(Drop)]
enum Form<'a> {
    Whole(Text<'a>),
    /// It is continued over lines, of which these are the bytes.
    Folded(&'a [u8]),
}

/// The value of a header field without blanks at its ends. Each line end in it, with the blanks around it, is read as
/// one space (RFC 3261 section 7.3.1). Contracts see it as a list of bytes, wherever it is.
pub struct FieldValue<'a> {
    form: Form<'a>,
}

impl Drop for FieldValue<'_> {
    fn drop(self) {
        let FieldValue { form: _ } = self;
    }
}

impl<'a> Model for FieldValue<'a> {
    ghost Value = { List ℕ };

    ghost view = { λ v. said v.form };
}

impl<'a> FieldValue<'a> {
    /// The value that is in one piece. Takes no memory.
    pub fn whole(text: Text<'a>) -> FieldValue<'a>
        ensures { result ≡ text.entry }
    {
        FieldValue {
            form: Form::Whole(text),
        }
    }

    /// The value in these lines.
    pub(crate) fn of_raw(raw: &'a [u8]) -> FieldValue<'a>
        ensures { result ≡ unfolded_text raw.now }
    {
        FieldValue {
            form: Form::Folded(raw),
        }
    }

    /// The bytes in the datagram, if the value is in one piece there. Takes no memory.
    pub fn in_place(&self) -> Option<&'a [u8]>
        ensures { IfSome result (λ bytes. bytes.now ≡ self.now) }
    {
        match &self.form {
            Form::Whole(text) => text.in_place(),
            Form::Folded(_) => None,
        }
    }

    /// The value as one text, which is lent if it is in one piece in the datagram.
    pub fn text(&self, alloc: Global) -> Result<Text<'a>, AllocError>
        ensures { IfOk result (λ t. t ≡ self.now) }
    {
        if let Some(bytes) = self.in_place() {
            return Ok(Text::lent(bytes));
        }
        let mut bytes = Vec::new(alloc);
        self.put(&mut bytes)?;
        Ok(Text::from_vec(bytes))
    }

    /// Appends the value. If memory runs out, a part of it may be written.
    pub fn put(&self, out: &mut Vec<u8>) -> Result<(), AllocError>
        ensures { OnOk result (out.new.items ≡ out.old.items ++ self.now) }
    {
        match &self.form {
            Form::Whole(text) => out.extend_from_slice(text.as_bytes()),
            Form::Folded(raw) => put_unfolded(out, raw),
        }
    }

    /// Whether it equals this text, ignoring the case of ASCII letters. Takes no memory.
    pub fn is_without_case(&self, other: &[u8]) -> bool
        ensures { result ≡ str_eq_ignore_ascii_case self.now other.now }
    {
        match &self.form {
            Form::Whole(text) => same_without_case(text.as_bytes(), other),
            Form::Folded(raw) => is_unfolded_without_case(raw, other),
        }
    }

    /// The same value, which borrows nothing.
    pub fn keep(&self, alloc: Global) -> Result<FieldValue<'static>, AllocError>
        ensures { IfOk result (λ v. v ≡ self.now) }
    {
        let mut bytes = Vec::new(alloc);
        self.put(&mut bytes)?;
        Ok(FieldValue::whole(Text::from_vec(bytes)))
    }
}
