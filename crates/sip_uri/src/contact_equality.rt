//! Which contacts are one binding.

ghost use Rattle.std.specs.Prelude.{◌≡◌, ◌↔◌, IsTrue};
ghost use Rattle.std.specs.Option.{option_copied};
ghost use Rattle.std.specs.Str.{str_eq_ignore_ascii_case, str_to_ascii_lowercase};
ghost use Rattle.sip_uri.specs.Binding.{same_text, same_host, param_named, same_value, same_param, same_binding, host_key, param_key, SameParam, SameBinding};

use crate::uri::{Host, Param, Uri};
use text::Text;

/// Whether two texts are the same, byte for byte, or both are missing.
pub fn same_text(a: Option<&Text>, b: Option<&Text>) -> bool
    ensures test { result ≡ same_text (option_copied a.entry) (option_copied b.entry) }
    ensures relation { IsTrue result ↔ (option_copied a.entry ≡ option_copied b.entry) }
{
    match (a, b) {
        (None, None) => true,
        (Some(a), Some(b)) => a == b,
        _ => false,
    }
}

fn same_without_case(a: &Text, b: &Text) -> bool
    ensures test { result ≡ str_eq_ignore_ascii_case a.now b.now }
    ensures relation { IsTrue result ↔ (str_to_ascii_lowercase a.now ≡ str_to_ascii_lowercase b.now) }
{
    text::same_without_case(a.as_bytes(), b.as_bytes())
}

/// Whether two hosts are the same: four octets, or a name ignoring case.
pub fn same_host(a: &Host, b: &Host) -> bool
    ensures test { result ≡ same_host a.now b.now }
    ensures relation { IsTrue result ↔ (host_key a.now ≡ host_key b.now) }
{
    match (a, b) {
        (Host::Ip4(a), Host::Ip4(b)) => a == b,
        (Host::Name(a), Host::Name(b)) => same_without_case(a, b),
        _ => false,
    }
}

/// The first parameter of this name, ignoring case.
pub fn param_named<'m, 'a>(params: &'m [Param<'a>], name: &[u8]) -> Option<&'m Param<'a>>
    ensures { option_copied result ≡ param_named name.now params.now }
{
    params
        .iter()
        .find(|p| text::same_without_case(p.name.as_bytes(), name))
}

fn same_value(a: &Param, b: &Param) -> bool
    ensures test { result ≡ same_value a.now.value b.now.value }
    ensures relation { IsTrue result ↔ (param_key a.now ≡ param_key b.now) }
{
    match (&a.value, &b.value) {
        (None, None) => true,
        (Some(a), Some(b)) => same_without_case(a, b),
        _ => false,
    }
}

fn same_param(a: &[Param], b: &[Param], name: &[u8]) -> bool
    ensures test { result ≡ same_param name.now a.now b.now }
    ensures relation { IsTrue result ↔ SameParam name.now a.now b.now }
{
    match (param_named(a, name), param_named(b, name)) {
        (None, None) => true,
        (Some(a), Some(b)) => same_value(a, b),
        _ => false,
    }
}

/// Whether two contacts are one binding: user, host and port as written agree, the host ignoring case. The parameters
/// `user`, `ttl`, `method`, `maddr` and `transport` are each missing in both, or equal ignoring case. Nothing else is
/// compared, which differs from RFC 3261 section 19.1.4 and makes this an equivalence.
#[tactic(auto, unfolding(crate::specs::Binding::same_binding))]
pub fn same_binding(a: &Uri, b: &Uri) -> bool
    ensures test { result ≡ same_binding a.now b.now }
    ensures relation { IsTrue result ↔ SameBinding a.now b.now }
{
    let (ps, qs) = (a.params.as_slice(), b.params.as_slice());
    same_text(a.user.as_ref(), b.user.as_ref())
        && same_host(&a.host, &b.host)
        && a.port == b.port
        && same_param(ps, qs, b"user")
        && same_param(ps, qs, b"ttl")
        && same_param(ps, qs, b"method")
        && same_param(ps, qs, b"maddr")
        && same_param(ps, qs, b"transport")
}
