//! Descriptions that borrow nothing: the one way to keep what a datagram said.

ghost use Rattle.std.specs.Prelude.{◌≡◌, IfOk};

use crate::address::Address;
use crate::description::{Description, Media, MediaList, Origin};
use crate::line::{Line, Lines};
use std::alloc::{AllocError, Global};
use text::{Text, Texts, both};

impl<'a> Address<'a> {
    /// The same address, which borrows nothing.
    pub fn keep(&self, alloc: Global) -> Result<Address<'static>, AllocError>
        ensures { IfOk result (λ a. a ≡ self.now) }
    {
        match self {
            Address::Ip4(octets) => Ok(Address::Ip4(*octets)),
            Address::Multicast(text) => Ok(Address::Multicast(text.keep(alloc)?)),
            Address::Ip6(text) => Ok(Address::Ip6(text.keep(alloc)?)),
            Address::Name(text) => Ok(Address::Name(text.keep(alloc)?)),
        }
    }
}

fn keep_connection(
    alloc: Global,
    connection: &Option<Address<'_>>,
) -> Result<Option<Address<'static>>, AllocError>
    ensures { IfOk result (λ c. c ≡ connection.now) }
{
    match connection {
        Some(address) => Ok(Some(address.keep(alloc)?)),
        None => Ok(None),
    }
}

fn keep_info(alloc: Global, info: &Option<Text<'_>>) -> Result<Option<Text<'static>>, AllocError>
    ensures { IfOk result (λ t. t ≡ info.now) }
{
    match info {
        Some(text) => Ok(Some(text.keep(alloc)?)),
        None => Ok(None),
    }
}

impl<'a> Line<'a> {
    /// The same line, which borrows nothing.
    pub fn keep(&self, alloc: Global) -> Result<Line<'static>, AllocError>
        ensures { IfOk result (λ l. l ≡ self.now) }
    {
        Ok(Line {
            letter: self.letter,
            value: self.value.keep(alloc)?,
        })
    }
}

impl<'a> Lines<'a> {
    /// The same lines, which borrow nothing.
    pub fn keep(&self, alloc: Global) -> Result<Lines<'static>, AllocError>
        ensures { IfOk result (λ ls. ls ≡ self.now) }
    {
        let lines = self.as_slice();
        let mut kept = Vec::with_capacity(alloc, lines.len())?;
        for line in lines {
            kept.push(line.keep(alloc)?)?;
        }
        Ok(Lines::from_vec(kept))
    }
}

/// The same formats, which borrow nothing.
pub fn keep_formats(alloc: Global, formats: &Texts<'_>) -> Result<Texts<'static>, AllocError>
    ensures { IfOk result (λ fs. fs ≡ formats.now) }
{
    let formats = formats.as_slice();
    let mut kept = Vec::with_capacity(alloc, formats.len())?;
    for format in formats {
        kept.push(format.keep(alloc)?)?;
    }
    Ok(Texts::from_vec(kept))
}

impl<'a> Origin<'a> {
    /// The same origin, which borrows nothing.
    pub fn keep(&self, alloc: Global) -> Result<Origin<'static>, AllocError>
        ensures { IfOk result (λ o. o ≡ self.now) }
    {
        let owner = both(self.username.keep(alloc), self.id.keep(alloc));
        let place = both(self.address_type.keep(alloc), self.address.keep(alloc));
        let network = both(self.network_type.keep(alloc), place);
        let rest = both(self.version.keep(alloc), network);
        let ((username, id), (version, (network_type, (address_type, address)))) = both(
            owner, rest,
        )?;
        Ok(Origin {
            username,
            id,
            version,
            network_type,
            address_type,
            address,
        })
    }
}

impl<'a> Media<'a> {
    /// The same medium, which borrows nothing.
    pub fn keep(&self, alloc: Global) -> Result<Media<'static>, AllocError>
        ensures { IfOk result (λ m. m ≡ self.now) }
    {
        let what = both(self.kind.keep(alloc), self.proto.keep(alloc));
        let said = both(
            keep_formats(alloc, &self.formats),
            keep_info(alloc, &self.info),
        );
        let rest = both(
            keep_connection(alloc, &self.connection),
            self.after.keep(alloc),
        );
        let ((kind, proto), ((formats, info), (connection, after))) = both(what, both(said, rest))?;
        Ok(Media {
            kind,
            port: self.port,
            count: self.count,
            proto,
            formats,
            info,
            connection,
            after,
        })
    }
}

impl<'a> MediaList<'a> {
    /// The same media, which borrow nothing.
    pub fn keep(&self, alloc: Global) -> Result<MediaList<'static>, AllocError>
        ensures { IfOk result (λ ms. ms ≡ self.now) }
    {
        let media = self.as_slice();
        let mut kept = Vec::with_capacity(alloc, media.len())?;
        for medium in media {
            kept.push(medium.keep(alloc)?)?;
        }
        Ok(MediaList::from_vec(kept))
    }
}

impl<'a> Description<'a> {
    /// The same description, which borrows nothing.
    pub fn keep(&self, alloc: Global) -> Result<Description<'static>, AllocError>
        ensures { IfOk result (λ d. d ≡ self.now) }
    {
        let first = both(self.origin.keep(alloc), self.before.keep(alloc));
        let place = keep_connection(alloc, &self.connection);
        let rest = both(self.after.keep(alloc), self.media.keep(alloc));
        let ((origin, before), (connection, (after, media))) = both(first, both(place, rest))?;
        Ok(Description {
            origin,
            before,
            connection,
            after,
            media,
        })
    }
}
