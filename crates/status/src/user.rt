//! Who may register, and where they are bound.

use crate::entries::Entries;
use text::Text;

/// A contact that a user is bound to (RFC 3261 section 10).
pub struct BindingStatus {
    /// The contact's URI, as it is written.
    pub contact: Text<'static>,
    /// The remaining lifetime in whole seconds, rounded up.
    pub seconds_left: u64,
}

/// A user, with the bindings that have not expired, oldest first.
pub struct UserStatus {
    pub name: Text<'static>,
    pub bindings: Entries<BindingStatus>,
}

impl Drop for BindingStatus {
    fn drop(self) {
        let BindingStatus {
            contact: _,
            seconds_left: _,
        } = self;
    }
}

impl Drop for UserStatus {
    fn drop(self) {
        let UserStatus {
            name: _,
            bindings: _,
        } = self;
    }
}
