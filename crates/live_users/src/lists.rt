//! Lists of users.

ghost use Rattle.std.specs.Prelude.{◌≡◌, nat_eq, not, count_by, IfOk};
ghost use Rattle.std.specs.List.{list_any};
ghost use Rattle.std.specs.Cmp.Lexicographic.{pointwise};
ghost use Rattle.live_users.specs.Lists.{is_among, missing_count};

use std::alloc::{AllocError, Global};
use text::Text;

/// Whether a user is among others.
fn is_among(user: &Text<'static>, others: &[Text<'static>]) -> bool
    ensures { result ≡ is_among others.now user.now }
{
    others
        .iter()
        .any(|other| other.as_bytes() == user.as_bytes())
}

/// How many of these are not among the others.
pub(crate) fn missing_count(users: &[Text<'static>], others: &[Text<'static>]) -> usize
    ensures { result ≡ missing_count users.now others.now }
{
    users.iter().filter(|user| !is_among(user, others)).count()
}

/// The same users, in a list of their own.
pub(crate) fn keep_all(
    alloc: Global,
    users: &[Text<'static>],
) -> Result<Vec<Text<'static>>, AllocError>
    ensures { IfOk result (λ kept. kept.items ≡ users.now) }
{
    let mut kept = Vec::new(alloc);
    for user in users {
        kept.push(user.keep(alloc)?)?;
    }
    Ok(kept)
}
