//! What a REGISTER asks.

use sip_uri::Uri;
use std::marker::Model;
use text::Text;

/// A value of Contact that is not a star: its URI, none where the value cannot be read as a URI of the scheme `sip`,
/// and the seconds that its own parameter `expires` gives.
pub struct Contact<'a> {
    pub uri: Option<Uri<'a>>,
    pub expires: Option<u32>,
}

impl Drop for Contact<'_> {
    fn drop(self) {
        let Contact { uri: _, expires: _ } = self;
    }
}

/// Contacts in order, which contracts see as a list.
#[derive(Drop)]
pub struct Contacts<'a> {
    entries: Vec<Contact<'a>>,
}

impl<'a> Model for Contacts<'a> {
    ghost use Rattle.std.specs.Prelude.{List};
    ghost use Rattle.registrar.specs.declared.register.Contact.{Contact};

    ghost Value = { List Contact };

    ghost view = { λ c. c.entries.items };
}

impl<'a> Contacts<'a> {
    ghost use Rattle.std.specs.Prelude.{◌≡◌};

    /// The list of these contacts. Takes no memory.
    pub fn from_vec(entries: Vec<Contact<'a>>) -> Contacts<'a>
        ensures { result ≡ entries.entry.items }
    {
        Contacts { entries }
    }

    /// The contacts. Takes no memory.
    pub fn into_vec(self) -> Vec<Contact<'a>>
        ensures { result.items ≡ self.entry }
    {
        self.entries
    }

    /// The contacts, borrowed.
    pub fn as_slice(&self) -> &[Contact<'a>]
        ensures { result.now ≡ self.now }
    {
        &self.entries
    }
}

/// A REGISTER (RFC 3261 section 10.2): the user that its To names, whether `*` is among its contacts, the other
/// contacts, a further `*` being one without a URI, the seconds of its header Expires, and its Call-ID and number.
pub struct Register<'a> {
    pub user: Option<Text<'a>>,
    pub star: bool,
    pub contacts: Contacts<'a>,
    pub expires: Option<u32>,
    pub call_id: Text<'a>,
    pub cseq: u32,
}

impl Drop for Register<'_> {
    fn drop(self) {
        let Register {
            user: _,
            star: _,
            contacts: _,
            expires: _,
            call_id: _,
            cseq: _,
        } = self;
    }
}
