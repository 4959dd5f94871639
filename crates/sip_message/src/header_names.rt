//! The names of the header fields that are read in every message.

use std::fmt;

/// The header fields that the server reads in every message, in the order in which they are checked.
#[derive(Clone, Copy, Debug)]
pub enum HeaderName {
    Via,
    From,
    To,
    CallId,
    CSeq,
    Contact,
    MaxForwards,
    ContentType,
    ContentLength,
}

impl fmt::Display for HeaderName {
    ghost use Rattle.std.specs.Prelude.{Some};
    ghost use Rattle.sip_message.specs.HeaderNames.{name_text};

    ghost output = { λ name. Some (name_text name) };

    fn fmt<W: fmt::Write>(&self, f: &mut fmt::Formatter<W>) -> fmt::Result {
        let name = match self {
            HeaderName::Via => "Via",
            HeaderName::From => "From",
            HeaderName::To => "To",
            HeaderName::CallId => "Call-ID",
            HeaderName::CSeq => "CSeq",
            HeaderName::Contact => "Contact",
            HeaderName::MaxForwards => "Max-Forwards",
            HeaderName::ContentType => "Content-Type",
            HeaderName::ContentLength => "Content-Length",
        };
        write!(f, "{name}")
    }
}
