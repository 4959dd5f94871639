//! Names of users and of the domain.

ghost use Rattle.std.specs.Prelude.{◌≡◌, nat_eq};
ghost use Rattle.std.specs.List.{list_all, list_any};
ghost use Rattle.std.specs.Cmp.Lexicographic.{pointwise};
ghost use Rattle.registrar.specs.Registering.{are_distinct};
ghost use Rattle.configuration.specs.Names.{is_name_byte, is_user, is_domain};

use crate::ranges::is_like_range;
use sip_uri::{ip4, is_host};
use text::Text;

/// The maximum length of a user, in bytes.
const MAX_USER_BYTES: usize = 64;

fn is_name_byte(b: u8) -> bool
    ensures { result ≡ is_name_byte b }
{
    b.is_ascii_alphanumeric() || b"-_.".contains(&b)
}

fn all_name_bytes(text: &[u8]) -> bool
    ensures { result ≡ list_all is_name_byte text.now }
{
    text.iter().all(|b| is_name_byte(*b))
}

/// Whether it is 1 to 64 letters, digits, `-`, `_` or `.`, and is not written as a range.
pub(crate) fn is_user(text: &[u8]) -> bool
    ensures { result ≡ is_user text.now }
{
    1 <= text.len() && text.len() <= MAX_USER_BYTES && all_name_bytes(text) && !is_like_range(text)
}

/// Whether each is such a name.
pub(crate) fn are_users(users: &[Text<'static>]) -> bool
    ensures { result ≡ list_all is_user users.now }
{
    users.iter().all(|user| is_user(user.as_bytes()))
}

/// Whether a user is among others.
pub(crate) fn is_among(user: &Text<'static>, others: &[Text<'static>]) -> bool
    ensures { result ≡ list_any (λ other. pointwise nat_eq other user.now) others.now }
{
    others
        .iter()
        .any(|other| other.as_bytes() == user.as_bytes())
}

/// Whether no user occurs twice.
pub(crate) fn are_distinct(users: &[Text<'static>]) -> bool
    ensures { result ≡ are_distinct users.now }
{
    let mut rest = users;
    while let [user, after @ ..] = rest {
        if is_among(user, after) {
            return false;
        }
        rest = after;
    }
    true
}

/// Whether the text is a host name (RFC 3261 section 25.1).
pub(crate) fn is_domain(text: &[u8]) -> bool
    ensures { result ≡ is_domain text.now }
{
    is_host(text) && ip4(text).is_none()
}
