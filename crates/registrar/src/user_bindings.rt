//! What each user is bound to.

ghost use Rattle.std.specs.Prelude.{◌≡◌, map, IfOk};
ghost use Rattle.registrar.specs.Registrar.{without_bindings};

use crate::binding::Bindings;
use std::alloc::{AllocError, Global};
use text::{Text, Texts};

/// A user and its bindings, oldest first, including expired ones.
pub struct UserBindings {
    pub user: Text<'static>,
    pub bindings: Bindings,
}

impl Drop for UserBindings {
    fn drop(self) {
        let UserBindings {
            user: _,
            bindings: _,
        } = self;
    }
}

/// These users, without bindings.
pub(crate) fn without_bindings(
    alloc: Global,
    users: Texts<'static>,
) -> Result<Vec<UserBindings>, AllocError>
    ensures { IfOk result (λ entries. entries.items ≡ map without_bindings users.entry) }
{
    let mut entries = Vec::new(alloc);
    for user in users.into_vec() {
        let bindings = Bindings::from_vec(Vec::new(alloc));
        entries.push(UserBindings { user, bindings })?;
    }
    Ok(entries)
}
