//! Why a REGISTER is refused as a whole, before any of its contacts counts.

ghost use Rattle.std.specs.Prelude.{◌≡◌, ◌&&◌, nat_lt};
ghost use Rattle.std.specs.List.{list_any, list_all};
ghost use Rattle.registrar.specs.Registering.{present, is_older_than, is_star_misused, is_star_stale, is_bindable, is_bindable_at, is_zero};

use crate::binding::Binding;
use crate::contact_rules::is_older_than;
use crate::register::{Contact, Register};
use sip_uri::{Host, Uri, port_or_default};

fn is_zero(expires: Option<u32>) -> bool
    ensures { result ≡ is_zero expires }
{
    expires == Some(0)
}

pub(crate) fn is_star_misused(register: &Register<'_>) -> bool
    ensures { result ≡ is_star_misused register.now }
{
    register.star && !(register.contacts.as_slice().is_empty() && is_zero(register.expires))
}

fn is_older_than_any(register: &Register<'_>, bindings: &[Binding], now: u64) -> bool
    ensures { result ≡ list_any (λ b. nat_lt now b.expires_at && is_older_than register.now b) bindings.now }
{
    bindings
        .iter()
        .any(|b| b.is_present(now) && is_older_than(register, b))
}

/// Whether a star would remove a binding, and the REGISTER is no newer than it.
pub(crate) fn is_star_stale(register: &Register<'_>, bindings: &[Binding], now: u64) -> bool
    ensures { result ≡ is_star_stale register.now (present now bindings.now) }
{
    register.star && is_older_than_any(register, bindings, now)
}

fn is_bindable_uri(ip: [u8; 4], sip_port: u16, uri: &Uri<'_>) -> bool
    ensures { result ≡ is_bindable_at ip sip_port uri.now.port uri.now.host }
{
    match &uri.host {
        Host::Ip4(octets) => !(*octets == ip && port_or_default(uri.port) == sip_port),
        Host::Name(_) => false,
    }
}

fn is_bindable(ip: [u8; 4], sip_port: u16, contact: &Contact<'_>) -> bool
    ensures { result ≡ is_bindable ip sip_port contact.now }
{
    match &contact.uri {
        Some(uri) => is_bindable_uri(ip, sip_port, uri),
        None => false,
    }
}

pub(crate) fn all_bindable(ip: [u8; 4], sip_port: u16, contacts: &[Contact<'_>]) -> bool
    ensures { result ≡ list_all (is_bindable ip sip_port) contacts.now }
{
    contacts.iter().all(|c| is_bindable(ip, sip_port, c))
}
