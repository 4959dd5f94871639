//! Where the status page is served, which shows what the server does, as a table has it.

ghost use Rattle.std.specs.Prelude.{◌≡◌};
ghost use Rattle.toml.specs.View.{table_view};
ghost use Rattle.configuration.specs.Files.{status_at};
ghost use Rattle.configuration.specs.Status.{page_port, page_addr, is_loopback, page_at};

use crate::key::Key;
use crate::tables::{flag_at, text_at};
use sip_uri::{Addr, ip4};
use text::{cut, number_upto};
use toml::Table;

/// A port from 1 to 65535 in decimal, without a leading 0.
fn page_port(digits: &[u8]) -> Option<u16>
    ensures { result ≡ page_port digits.now }
{
    if digits.is_empty() || digits[0] == b'0' {
        return None;
    }
    number_upto(65535, digits).map(|port| port as u16)
}

/// The address of a text `ADDRESS:PORT`.
fn page_addr(text: &[u8]) -> Option<Addr>
    ensures { result ≡ page_addr text.now }
{
    let (ip, digits) = cut(text, b':');
    let digits = digits?;
    let ip = ip4(ip)?;
    let port = page_port(digits)?;
    Some(Addr { ip, port })
}

/// Whether only the machine itself can reach the address.
fn is_loopback(ip: &[u8; 4]) -> bool
    ensures { result ≡ is_loopback ip.now }
{
    ip[0] == 127
}

/// The address in a text: a loopback address, or any address if the page is open.
pub(crate) fn page_at(is_open: bool, text: &[u8]) -> Option<Addr>
    ensures { result ≡ page_at is_open text.now }
{
    let addr = page_addr(text)?;
    if is_open || is_loopback(&addr.ip) {
        Some(addr)
    } else {
        None
    }
}

/// Where the page is served, if it is.
pub(crate) fn status_at(table: &Table) -> Option<Addr>
    ensures { result ≡ status_at (table_view table.now) }
{
    let text = text_at(table, Key::Status)?;
    page_at(flag_at(table, Key::StatusOpen), text.as_bytes())
}
