//! What is there of a header field that may occur once.

ghost use Rattle.std.specs.Prelude.{◌≡◌, length, Ok, Err, IfOk, IfErr};
ghost use Rattle.std.specs.Option.{option_copied};
ghost use Rattle.sip_message.specs.Seen.{and_value, and_header, seen};
ghost use Rattle.sip_message.specs.Lookup.{one_seen, one_seen_at_most};

use crate::error::MessageError;
use crate::header_names::HeaderName;
use header_fields::{FieldValue, Header, is_named};

/// One field, more, or none.
#[derive(Clone, Copy)]
pub(crate) enum Seen<'m, 'a> {
    Nowhere,
    Once(&'m FieldValue<'a>),
    Again,
}

impl<'m, 'a> Seen<'m, 'a> {
    fn and_value(self, value: &'m FieldValue<'a>) -> Seen<'m, 'a>
        ensures { seen result ≡ and_value value.now (seen self.entry) }
    {
        match self {
            Seen::Nowhere => Seen::Once(value),
            Seen::Once(_) | Seen::Again => Seen::Again,
        }
    }

    /// Adds the next header field, if it has this name. The length of the field's own name is compared once for all
    /// names that it may have: most have another length.
    #[tactic(auto, using(crate::proofs::SeenLaws::other_length))]
    pub(crate) fn and_header(
        self,
        name: &[u8],
        header: &'m Header<'a>,
        name_length: usize,
    ) -> Seen<'m, 'a>
        requires { name_length ≡ length header.now.name }
        ensures { seen result ≡ and_header name.now header.now (seen self.entry) }
    {
        if name_length != name.len() || !is_named(header, name) {
            return self;
        }
        self.and_value(&header.value)
    }

    /// The value of a header field that occurs at most once. Takes no memory.
    pub(crate) fn at_most_one(
        self,
        which: HeaderName,
    ) -> Result<Option<&'m FieldValue<'a>>, MessageError>
        ensures found { IfOk result (λ v. one_seen_at_most which (seen self.entry) ≡ Ok (option_copied v)) }
        ensures refused { IfErr result (λ e. one_seen_at_most which (seen self.entry) ≡ Err e) }
    {
        match self {
            Seen::Nowhere => Ok(None),
            Seen::Once(value) => Ok(Some(value)),
            Seen::Again => Err(MessageError::Unreadable(which)),
        }
    }

    /// The value of a header field that occurs once. Takes no memory.
    pub(crate) fn exactly_one(self, which: HeaderName) -> Result<&'m FieldValue<'a>, MessageError>
        ensures found { IfOk result (λ v. one_seen which (seen self.entry) ≡ Ok v.now) }
        ensures refused { IfErr result (λ e. one_seen which (seen self.entry) ≡ Err e) }
    {
        match self {
            Seen::Nowhere => Err(MessageError::Missing(which)),
            Seen::Once(value) => Ok(value),
            Seen::Again => Err(MessageError::Unreadable(which)),
        }
    }
}
