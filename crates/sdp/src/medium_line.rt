//! The value of an `m=` line (RFC 4566 section 5.14).

ghost use Rattle.std.specs.Prelude.{◌≡◌, IfOk};
ghost use Rattle.std.specs.Option.{option_copied};
ghost use Rattle.text.specs.Class.{passes_if_there};
ghost use Rattle.sdp.specs.MediumLines.{is_port, is_count, formats_of};

use crate::class::{are_tokens, is_integer, is_number, is_proto, is_token};
use crate::origin_line::cut_space;
use std::alloc::{AllocError, Global};
use std::marker::Model;
use text::{Text, Texts, cut, number_upto};

/// `kind port/count protocol formats`
#[derive(Drop)]
pub(crate) struct MediumParts<'a> {
    pub kind: &'a [u8],
    pub port: &'a [u8],
    pub count: Option<&'a [u8]>,
    pub proto: &'a [u8],
    pub formats: &'a [u8],
}

impl<'a> Model for MediumParts<'a> {
    ghost use Rattle.std.specs.Option.{option_copied};
    ghost use Rattle.sdp.specs.MediumLines.{RawMedium};

    ghost Value = { RawMedium };

    ghost view = { λ m. record {
      kind = m.kind.now;
      port = m.port.now;
      count = option_copied m.count;
      proto = m.proto.now;
      formats = m.formats.now;
    } };
}

fn is_port(text: &[u8]) -> bool
    ensures { result ≡ is_port text.now }
{
    is_number(text) && number_upto(65535, text).is_some()
}

fn is_count(text: Option<&[u8]>) -> bool
    ensures { result ≡ passes_if_there is_count (option_copied text.entry) }
{
    match text {
        Some(text) => is_integer(text) && number_upto(65535, text).is_some(),
        None => true,
    }
}

impl<'a> MediumParts<'a> {
    ghost use Rattle.std.specs.Prelude.{◌≡◌};
    ghost use Rattle.sdp.specs.MediumLines.{raw_medium_of, is_raw_medium, port_of, count_of};

    /// The parts of a text: kind, port and protocol each end at the next space.
    #[tactic(auto, unfolding(crate::specs::MediumLines::raw_medium_of))]
    pub(crate) fn of(text: &'a [u8]) -> MediumParts<'a>
        ensures { result ≡ raw_medium_of text.now }
    {
        let (kind, rest) = cut_space(text);
        let (ports, rest) = cut_space(rest);
        let (proto, formats) = cut_space(rest);
        let (port, count) = cut(ports, b'/');
        MediumParts {
            kind,
            port,
            count,
            proto,
            formats,
        }
    }

    /// Whether each part is well formed.
    #[tactic(auto, unfolding(crate::specs::MediumLines::is_raw_medium))]
    pub(crate) fn is_well_formed(&self) -> bool
        ensures { result ≡ is_raw_medium self.now }
    {
        is_token(self.kind)
            && is_port(self.port)
            && is_count(self.count)
            && is_proto(self.proto)
            && are_tokens(self.formats)
    }

    pub(crate) fn port(&self) -> u16
        ensures { result ≡ port_of self.now }
    {
        number_upto(65535, self.port).unwrap_or(0) as u16
    }

    pub(crate) fn count(&self) -> Option<u16>
        ensures { result ≡ count_of self.now }
    {
        match self.count {
            Some(count) => number_upto(65535, count).map(|n| n as u16),
            None => None,
        }
    }
}

/// The formats of a text, with single spaces between them.
pub(crate) fn formats_of(alloc: Global, text: &[u8]) -> Result<Texts<'_>, AllocError>
    ensures { IfOk result (λ formats. formats ≡ formats_of text.now) }
{
    let mut formats = Vec::new(alloc);
    for format in text.split(|b| *b == b' ') {
        formats.push(Text::lent(format))?;
    }
    Ok(Texts::from_vec(formats))
}
