//! The bindings of a user.

use sip_uri::Uri;
use std::alloc::{AllocError, Global};
use std::marker::Model;
use text::Text;

/// A contact of a user, with the moment in milliseconds at which it expires, and the Call-ID and number of the
/// REGISTER that made or refreshed it last. Of two bindings of a user, the one whose `refreshed` is greater was
/// refreshed later; each REGISTER gives the numbers anew.
pub struct Binding {
    pub uri: Uri<'static>,
    pub expires_at: u64,
    pub call_id: Text<'static>,
    pub cseq: u32,
    pub refreshed: u32,
}

impl Drop for Binding {
    fn drop(self) {
        let Binding {
            uri: _,
            expires_at: _,
            call_id: _,
            cseq: _,
            refreshed: _,
        } = self;
    }
}

impl Binding {
    ghost use Rattle.std.specs.Prelude.{◌≡◌, ◌+◌, ◌-◌, ◌*◌, ◌<◌, ◌≤◌, nat_lt, IfOk};
    ghost use Rattle.std.specs.Int.{div_ceil};

    /// The same binding. Takes memory only for its texts.
    pub fn copy(&self, alloc: Global) -> Result<Binding, AllocError>
        ensures { IfOk result (λ copy. copy ≡ self.now) }
    {
        Ok(Binding {
            uri: self.uri.keep(alloc)?,
            expires_at: self.expires_at,
            call_id: self.call_id.keep(alloc)?,
            cseq: self.cseq,
            refreshed: self.refreshed,
        })
    }

    /// Whether it has not expired: it has expired at its very moment of expiry.
    pub fn is_present(&self, now: u64) -> bool
        ensures { result ≡ nat_lt now self.now.expires_at }
    {
        now < self.expires_at
    }

    /// The rest of its life in whole seconds, rounded up (RFC 3261 section 10.3, step 8).
    pub fn seconds_left(&self, now: u64) -> u64
        requires { now < self.now.expires_at }
        ensures seconds { result ≡ div_ceil (self.now.expires_at - now) 1000 }
        ensures covers { self.now.expires_at ≤ now + result * 1000 }
        ensures least { now + (result - 1) * 1000 < self.now.expires_at }
    {
        (self.expires_at - now).div_ceil(1000)
    }
}

/// Bindings, oldest first, which contracts see as a list.
pub struct Bindings {
    entries: Vec<Binding>,
}

impl Drop for Bindings {
    fn drop(self) {
        let Bindings { entries: _ } = self;
    }
}

impl Model for Bindings {
    ghost use Rattle.std.specs.Prelude.{List};
    ghost use Rattle.registrar.specs.declared.binding.Binding.{Binding};

    ghost Value = { List Binding };

    ghost view = { λ b. b.entries.items };
}

impl Bindings {
    ghost use Rattle.std.specs.Prelude.{◌≡◌};

    pub(crate) fn from_vec(entries: Vec<Binding>) -> Bindings
        ensures { result ≡ entries.items }
    {
        Bindings { entries }
    }

    /// The bindings, borrowed. Takes no memory.
    pub fn as_slice(&self) -> &[Binding]
        ensures { result.now ≡ self.now }
    {
        &self.entries
    }
}
