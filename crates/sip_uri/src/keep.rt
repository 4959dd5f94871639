//! Values that borrow nothing: the one way to keep what a datagram said.

ghost use Rattle.std.specs.Prelude.{◌≡◌, IfOk};

use crate::uri::{Host, NameAddr, Param, Params, Uri};
use std::alloc::{AllocError, Global};
use text::{Text, both};

/// The same text, if there is one, which borrows nothing.
pub fn keep_text(
    alloc: Global,
    text: &Option<Text<'_>>,
) -> Result<Option<Text<'static>>, AllocError>
    ensures { IfOk result (λ t. t ≡ text.now) }
{
    match text {
        Some(text) => Ok(Some(text.keep(alloc)?)),
        None => Ok(None),
    }
}

impl<'a> Host<'a> {
    /// The same host, which borrows nothing.
    pub fn keep(&self, alloc: Global) -> Result<Host<'static>, AllocError>
        ensures { IfOk result (λ h. h ≡ self.now) }
    {
        match self {
            Host::Ip4(octets) => Ok(Host::Ip4(*octets)),
            Host::Name(name) => Ok(Host::Name(name.keep(alloc)?)),
        }
    }
}

impl<'a> Param<'a> {
    /// The same parameter, which borrows nothing.
    pub fn keep(&self, alloc: Global) -> Result<Param<'static>, AllocError>
        ensures { IfOk result (λ p. p ≡ self.now) }
    {
        Ok(Param {
            name: self.name.keep(alloc)?,
            value: keep_text(alloc, &self.value)?,
        })
    }
}

impl<'a> Params<'a> {
    /// The same parameters, which borrow nothing.
    pub fn keep(&self, alloc: Global) -> Result<Params<'static>, AllocError>
        ensures { IfOk result (λ ps. ps ≡ self.now) }
    {
        let params = self.as_slice();
        let mut entries = Vec::with_capacity(alloc, params.len())?;
        for param in params {
            entries.push(param.keep(alloc)?)?;
        }
        Ok(Params::from_vec(entries))
    }
}

impl<'a> Uri<'a> {
    /// The same URI, which borrows nothing.
    pub fn keep(&self, alloc: Global) -> Result<Uri<'static>, AllocError>
        ensures { IfOk result (λ u. u ≡ self.now) }
    {
        let place = both(keep_text(alloc, &self.user), self.host.keep(alloc));
        let rest = both(self.params.keep(alloc), self.headers.keep(alloc));
        let ((user, host), (params, headers)) = both(place, rest)?;
        Ok(Uri {
            user,
            host,
            port: self.port,
            params,
            headers,
        })
    }
}

impl<'a> NameAddr<'a> {
    /// The same name and address, which borrow nothing.
    pub fn keep(&self, alloc: Global) -> Result<NameAddr<'static>, AllocError>
        ensures { IfOk result (λ n. n ≡ self.now) }
    {
        let name = both(keep_text(alloc, &self.display), self.uri.keep(alloc));
        let ((display, uri), params) = both(name, self.params.keep(alloc))?;
        Ok(NameAddr {
            display,
            uri,
            params,
        })
    }
}
