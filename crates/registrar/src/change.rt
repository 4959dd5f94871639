//! What is to change in the registrar.

use crate::entries::Entries;
use crate::plan::Plan;
use std::marker::Model;

/// The office's users, each with what it is to be bound to. `Registrar::make_change` makes the change.
#[derive(Drop)]
pub struct Listing {
    entries: Entries,
}

impl Model for Listing {
    ghost use Rattle.registrar.specs.Registrar.{ListingContents};

    ghost Value = { ListingContents };

    ghost view = { λ l. l.entries };
}

impl Listing {
    ghost use Rattle.std.specs.Prelude.{◌≡◌};

    /// The listing of these entries. Takes no memory.
    pub(crate) fn from_entries(entries: Entries) -> Listing
        ensures { result ≡ entries }
    {
        Listing { entries }
    }

    /// The entries. Takes no memory.
    pub(crate) fn into_entries(self) -> Entries
        ensures { result ≡ self }
    {
        self.entries
    }
}

/// What a REGISTER, or a list of users, is to change.
#[derive(Drop)]
pub enum RegistrarChange {
    /// A user is to have these bindings.
    Binds(Plan),
    /// These are to be the users.
    Lists(Listing),
}
