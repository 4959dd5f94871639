//! Addresses to which the system refuses to send: as that begins for one, and as it ends.

ghost use Rattle.std.specs.Prelude.{◌≡◌, [], IfOk};
ghost use Rattle.sockets.specs.Refusals.{begun, behind_refusal, behind_sent, ended, is_at, place_of};

use sip_uri::Addr;
use std::alloc::{AllocError, Global};
use std::io::ErrorKind;
use std::marker::Model;

/// How many are kept at most: beyond that the earliest is forgotten, and may begin again.
const MAX_REFUSALS: usize = 16;

/// An address to which the system refuses to send, and the system's first reason.
#[derive(Clone, Copy)]
pub struct Refusal {
    pub to: Addr,
    pub why: ErrorKind,
}

/// The current refusals. Contracts see them in the order in which they began.
#[derive(Drop)]
pub struct Refusals {
    standing: Vec<Refusal>,
}

impl Model for Refusals {
    ghost use Rattle.std.specs.Prelude.{◌≤◌, List, length, vec_capacity};
    ghost use Rattle.sockets.specs.Refusals.{max_refusals};
    ghost use Rattle.sockets.specs.declared.refusals.Refusal.{Refusal};

    ghost Value = { List Refusal };

    ghost view = { λ s. s.standing.items };

    ghost invariant = { λ s. (length s.standing.items ≤ max_refusals) × (max_refusals ≤ vec_capacity s.standing) };
}

fn is_at(refusal: &Refusal, to: Addr) -> bool
    ensures { result ≡ is_at to refusal.now }
{
    refusal.to.ip == to.ip && refusal.to.port == to.port
}

fn place_of(refusals: &[Refusal], to: Addr) -> Option<usize>
    ensures { result ≡ place_of to refusals.now }
{
    refusals.iter().position(|refusal| is_at(refusal, to))
}

impl Refusals {
    /// No refusals. All room is made here.
    pub fn new(alloc: Global) -> Result<Refusals, AllocError>
        ensures { IfOk result (λ refusals. refusals ≡ []) }
    {
        let mut standing = Vec::new(alloc);
        standing.reserve(MAX_REFUSALS)?;
        Ok(Refusals { standing })
    }

    /// A datagram went to this address: returns the refusal that this ended. Takes no memory.
    pub fn sent(&mut self, to: Addr) -> Option<Refusal>
        ensures told { result ≡ ended self.old (place_of to self.old) }
        ensures left { self.new ≡ behind_sent self.old (place_of to self.old) }
    {
        let place = place_of(&self.standing, to)?;
        Some(self.standing.remove(place))
    }

    /// A datagram to this address was refused: returns the refusal that this began, if there was none for it. Takes
    /// no memory.
    pub fn refused(&mut self, to: Addr, why: ErrorKind) -> Option<Refusal>
        ensures told { result ≡ begun (record { to = to; why = why }) (place_of to self.old) }
        ensures left { self.new ≡ behind_refusal self.old (record { to = to; why = why }) (place_of to self.old) }
    {
        if place_of(&self.standing, to).is_some() {
            return None;
        }
        if self.standing.len() >= MAX_REFUSALS {
            self.standing.remove(0);
        }
        let refusal = Refusal { to, why };
        let _ = self.standing.push(refusal);
        Some(refusal)
    }
}
