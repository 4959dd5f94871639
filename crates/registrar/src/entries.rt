//! An entry for each user, and an index of them by the users' names.

ghost use Rattle.std.specs.Prelude.{◌≡◌, ◌<◌, length, map, find, position, slice_get, option_map, Some, IfOk, IfSome};
ghost use Rattle.std.specs.List.{list_any};
ghost use Rattle.std.specs.Cmp.Lexicographic.{pointwise};
ghost use Rattle.registrar.specs.Registrar.{is_for, bindings_of, entries_with, without_bindings};
ghost use Rattle.registrar.specs.Changes.{kept_entry, kept_entries};
ghost use Rattle.registrar.specs.Entries.{IsIndexed, is_at};

use crate::binding::{Binding, Bindings};
use crate::copies::copy_all;
use crate::user_bindings::{UserBindings, without_bindings};
use index::{Entry, Index, PrintKey};
use std::alloc::{AllocError, Global};
use std::marker::Model;
use text::{Text, Texts};

/// An entry for each user, in the order in which the users were given.
#[derive(Drop)]
pub(crate) struct Entries {
    users: Vec<UserBindings>,
    /// Of the prints.
    key: PrintKey,
    /// Under the print of a user's name, its place.
    names: Index,
}

impl Model for Entries {
    ghost use Rattle.registrar.specs.Registrar.{ListingContents};
    ghost use Rattle.registrar.specs.Entries.{IsIndexed};

    ghost Value = { ListingContents };

    ghost view = { λ e. record { entries = e.users.items; key = e.key } };

    ghost invariant = { λ e. IsIndexed e.key e.users.items e.names.entries };
}

impl Entries {
    ghost use Rattle.std.specs.Prelude.{nat_eq};

    /// These users, without bindings, who are looked up by prints under this key.
    pub(crate) fn new(
        alloc: Global,
        key: PrintKey,
        users: Texts<'static>,
    ) -> Result<Entries, AllocError>
        ensures { IfOk result (λ listing. listing ≡ record { entries = map without_bindings users.entry; key = key }) }
    {
        let users = without_bindings(alloc, users)?;
        let names = index_of(alloc, key, &users)?;
        Ok(Entries { users, key, names })
    }

    /// These users, who are looked up by the same prints, each with what it is bound to here.
    pub(crate) fn for_users(&self, alloc: Global, users: &[Text<'_>]) -> Result<Entries, AllocError>
        ensures { IfOk result (λ listing. listing ≡ record { entries = kept_entries self.now.entries users.now; key = self.now.key }) }
    {
        let users = self.kept_entries(alloc, users)?;
        let names = index_of(alloc, self.key, &users)?;
        Ok(Entries {
            users,
            key: self.key,
            names,
        })
    }

    fn kept_entries(
        &self,
        alloc: Global,
        users: &[Text<'_>],
    ) -> Result<Vec<UserBindings>, AllocError>
        ensures { IfOk result (λ entries. entries.items ≡ kept_entries self.now.entries users.now) }
    {
        let mut entries = Vec::new(alloc);
        for user in users {
            entries.push(self.kept_entry(alloc, user)?)?;
        }
        Ok(entries)
    }

    fn kept_entry(&self, alloc: Global, user: &Text<'_>) -> Result<UserBindings, AllocError>
        ensures { IfOk result (λ entry. entry ≡ kept_entry self.now.entries user.now) }
    {
        let bindings = copy_all(alloc, self.look_up(user).1)?;
        Ok(UserBindings {
            user: user.keep(alloc)?,
            bindings: Bindings::from_vec(bindings),
        })
    }

    /// The entries, borrowed. Takes no memory.
    pub(crate) fn as_slice(&self) -> &[UserBindings]
        ensures { result.now ≡ self.now.entries }
    {
        self.users.as_slice()
    }

    /// Whether this is one of the users, and what the user is bound to; nothing for anyone unknown. Takes no memory.
    pub(crate) fn look_up(&self, user: &Text<'_>) -> (bool, &[Binding])
        ensures known { result.0 ≡ list_any (λ u. pointwise nat_eq u user.now) (map (λ e. e.user) self.now.entries) }
        ensures bindings { result.1.now ≡ bindings_of self.now.entries user.now }
    {
        match self.place_of(user) {
            Some(place) => (true, self.users[place].bindings.as_slice()),
            None => (false, &[]),
        }
    }

    /// Puts what a user is bound to; changes nothing for anyone unknown. Takes no memory.
    pub(crate) fn put_bindings(&mut self, user: &Text<'_>, bindings: Bindings)
        ensures entries { self.new.entries ≡ entries_with user.now bindings self.old.entries }
        ensures key { self.new.key ≡ self.old.key }
    {
        if let Some(place) = self.place_of(user) {
            self.put_at(user, place, bindings);
        }
    }

    fn put_at(&mut self, user: &Text<'_>, place: usize, bindings: Bindings)
        requires { position (is_for user.now) self.old.entries ≡ Some place }
        ensures entries { self.new.entries ≡ entries_with user.now bindings self.old.entries }
        ensures key { self.new.key ≡ self.old.key }
    {
        self.users[place].bindings = bindings;
    }

    // The place of a user, which is looked for among those with the print of its name alone.
    fn place_of(&self, user: &Text<'_>) -> Option<usize>
        ensures place { result ≡ position (is_for user.now) self.now.entries }
        ensures bound { IfSome result (λ place. place < length self.now.entries) }
    {
        first_of(
            self.names.numbers(self.key.print_of(user.as_bytes())),
            &self.users,
            user,
        )
    }
}

// The index of these entries: from the last one on, so that each goes before those that are there.
fn index_of(alloc: Global, key: PrintKey, users: &[UserBindings]) -> Result<Index, AllocError>
    ensures { IfOk result (λ names. IsIndexed key users.now names.entries) }
{
    let mut names = Index::new(alloc);
    names.reserve(users.len())?;
    let mut left = users.len();
    while left > 0 {
        left -= 1;
        names.put(key.print_of(users[left].user.as_bytes()), left);
    }
    Ok(names)
}

fn is_at(users: &[UserBindings], place: usize, user: &Text<'_>) -> bool
    ensures { result ≡ is_at user.now (slice_get users.now place) }
{
    match users.get(place) {
        Some(entry) => entry.user.as_bytes() == user.as_bytes(),
        None => false,
    }
}

fn first_of(named: &[Entry], users: &[UserBindings], user: &Text<'_>) -> Option<usize>
    ensures { result ≡ option_map (λ e. e.number) (find (λ e. is_at user.now (slice_get users.now e.number)) named.now) }
{
    named
        .iter()
        .find(|entry| is_at(users, entry.number, user))
        .map(|entry| entry.number)
}
