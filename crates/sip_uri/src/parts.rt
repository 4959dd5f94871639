//! The parts of a URI's text, after its scheme (RFC 3261 section 25.1).

ghost use Rattle.std.specs.Prelude.{◌≡◌, ◌==◌, ◌||◌, nat_lt};
ghost use Rattle.std.specs.List.{list_all, slice_split};
ghost use Rattle.std.specs.Option.{option_copied};
ghost use Rattle.text.specs.Class.{is_run_of};
ghost use Rattle.sip_uri.specs.Classes.{is_user_byte, is_param_byte, is_header_byte};
ghost use Rattle.sip_uri.specs.RawUri.{parts_from, is_param, is_params, is_header, is_headers, escapes_well};

use crate::class::{is_header_byte, is_param_byte, is_user_byte};
use crate::hosts::is_hostname;
use std::marker::Model;
use text::{cut, is_run_of_digits, number_upto};

/// `user@host:port;params?headers`
#[derive(Drop)]
pub struct Parts<'a> {
    pub user: Option<&'a [u8]>,
    pub host: &'a [u8],
    pub port: Option<&'a [u8]>,
    pub params: Option<&'a [u8]>,
    pub headers: Option<&'a [u8]>,
}

impl<'a> Model for Parts<'a> {
    ghost use Rattle.std.specs.Option.{option_copied};
    ghost use Rattle.sip_uri.specs.RawUri.{RawUri};

    ghost Value = { RawUri };

    ghost view = { λ p. record {
      user = option_copied p.user;
      host = p.host.now;
      port = option_copied p.port;
      params = option_copied p.params;
      headers = option_copied p.headers;
    } };
}

impl<'a> Parts<'a> {
    ghost use Rattle.std.specs.Prelude.{◌≡◌, is_some};
    ghost use Rattle.sip_uri.specs.Hosts.{ip4_of};
    ghost use Rattle.sip_uri.specs.RawUri.{raw_of, is_raw, has_good_escapes, has_good_port};

    /// The parts of a text: each ends at the first byte that begins the next one.
    #[tactic(auto, unfolding(crate::specs::RawUri::raw_of))]
    pub fn of(text: &'a [u8]) -> Parts<'a>
        ensures { result ≡ raw_of text.now }
    {
        let (user, rest) = match cut(text, b'@') {
            (user, Some(rest)) => (Some(user), rest),
            (_, None) => (None, text),
        };
        parts_from(user, rest)
    }

    /// Whether each part is well formed, except for escapes and the port's number.
    #[tactic(auto, unfolding(crate::specs::RawUri::is_raw, crate::specs::Hosts::is_host))]
    pub fn is_well_formed(&self, has_address: bool) -> bool
        requires { has_address ≡ is_some (ip4_of self.now.host) }
        ensures { result ≡ is_raw self.now }
    {
        self.user.is_none_or(is_user)
            && (has_address || is_hostname(self.host))
            && self.port.is_none_or(|p| is_run_of_digits(p))
            && self.params.is_none_or(is_params)
            && self.headers.is_none_or(is_headers)
    }

    #[tactic(auto, unfolding(crate::specs::RawUri::has_good_escapes))]
    pub fn has_good_escapes(&self) -> bool
        ensures { result ≡ has_good_escapes self.now }
    {
        self.user.is_none_or(escapes_are_good)
            && self.params.is_none_or(escapes_are_good)
            && self.headers.is_none_or(escapes_are_good)
    }

    #[tactic(auto, unfolding(crate::specs::RawUri::has_good_port))]
    pub fn has_good_port(&self) -> bool
        ensures { result ≡ has_good_port self.now }
    {
        match self.port {
            None => true,
            Some(port) => number_upto(65535, port).unwrap_or(0) > 0,
        }
    }
}

/// Whether the byte does not begin a port, parameters or headers. `<`, `=` and `>` count like `:`, `;` and `?`, so
/// that these are one range.
fn is_no_mark(b: u8) -> bool
    ensures { result ≡ (nat_lt b 58 || nat_lt 63 b) }
{
    b < b':' || b > b'?'
}

/// Whether the text is only a host, as in most URIs: no port, parameters or headers come after it.
fn has_no_mark(text: &[u8]) -> bool
    ensures { result ≡ list_all (λ b. nat_lt b 58 || nat_lt 63 b) text.now }
{
    text.iter().all(|b| is_no_mark(*b))
}

/// The parts after a user.
fn parts_from<'a>(user: Option<&'a [u8]>, rest: &'a [u8]) -> Parts<'a>
    ensures { result ≡ parts_from (option_copied user.entry) rest.now }
{
    if has_no_mark(rest) {
        return Parts {
            user,
            host: rest,
            port: None,
            params: None,
            headers: None,
        };
    }
    let (front, headers) = cut(rest, b'?');
    let (place, params) = cut(front, b';');
    let (host, port) = cut(place, b':');
    Parts {
        user,
        host,
        port,
        params,
        headers,
    }
}

fn all_user(text: &[u8]) -> bool
    ensures { result ≡ list_all is_user_byte text.now }
{
    text.iter().all(|b| is_user_byte(*b))
}

fn is_user(text: &[u8]) -> bool
    ensures { result ≡ is_run_of is_user_byte text.now }
{
    !text.is_empty() && all_user(text)
}

fn all_param(text: &[u8]) -> bool
    ensures { result ≡ list_all is_param_byte text.now }
{
    text.iter().all(|b| is_param_byte(*b))
}

fn all_header(text: &[u8]) -> bool
    ensures { result ≡ list_all is_header_byte text.now }
{
    text.iter().all(|b| is_header_byte(*b))
}

fn is_param(text: &[u8]) -> bool
    ensures { result ≡ is_param text.now }
{
    let (name, value) = cut(text, b'=');
    !name.is_empty()
        && all_param(name)
        && match value {
            None => true,
            Some(value) => !value.is_empty() && all_param(value),
        }
}

fn is_header(text: &[u8]) -> bool
    ensures { result ≡ is_header text.now }
{
    let (name, value) = cut(text, b'=');
    !name.is_empty()
        && all_header(name)
        && match value {
            None => false,
            Some(value) => all_header(value),
        }
}

fn is_params(text: &[u8]) -> bool
    ensures { result ≡ is_params text.now }
{
    text.split(|b| *b == b';').all(|p| is_param(p))
}

fn is_headers(text: &[u8]) -> bool
    ensures { result ≡ is_headers text.now }
{
    text.split(|b| *b == b'&').all(|p| is_header(p))
}

/// Whether each `%` is followed by two hexadecimal digits.
fn escapes_are_good(text: &[u8]) -> bool
    ensures { result ≡ escapes_well text.now }
{
    let mut rest = text;
    while let [first, after @ ..] = rest {
        if *first == b'%' {
            match after {
                [x, y, ..] if x.is_ascii_hexdigit() && y.is_ascii_hexdigit() => {}
                _ => return false,
            }
        }
        rest = after;
    }
    true
}
