//! A session and an open offer, as the server has them for both legs.

use crate::end::End;
use crate::seat::Seat;
use boxed::Boxed;
use port_pool::{Change, Pair};
use sdp::Description;
use std::marker::Model;

/// The pairs of media in order, which contracts see as a list: none for a medium without pairs.
pub struct Seats {
    seats: Vec<Option<Seat>>,
}

impl Drop for Seats {
    fn drop(self) {
        let Seats { seats: _ } = self;
    }
}

impl Model for Seats {
    ghost use Rattle.std.specs.Prelude.{List, Option};
    ghost use Rattle.call_media.specs.declared.seat.Seat.{Seat};

    ghost Value = { List (Option Seat) };

    ghost view = { λ s. s.seats.items };
}

impl Seats {
    ghost use Rattle.std.specs.Prelude.{◌≡◌};

    pub(crate) fn from_vec(seats: Vec<Option<Seat>>) -> Seats
        ensures { result ≡ seats.items }
    {
        Seats { seats }
    }

    /// The pairs, borrowed. Takes no memory.
    pub fn as_slice(&self) -> &[Option<Seat>]
        ensures { result.now ≡ self.now }
    {
        &self.seats
    }
}

/// Pairs in order, which contracts see as a list.
pub struct Pairs {
    pairs: Vec<Pair>,
}

impl Drop for Pairs {
    fn drop(self) {
        let Pairs { pairs: _ } = self;
    }
}

impl Model for Pairs {
    ghost use Rattle.std.specs.Prelude.{List};
    ghost use Rattle.port_pool.specs.declared.pair.Pair.{Pair};

    ghost Value = { List Pair };

    ghost view = { λ p. p.pairs.items };
}

impl Pairs {
    ghost use Rattle.std.specs.Prelude.{◌≡◌};

    pub(crate) fn from_vec(pairs: Vec<Pair>) -> Pairs
        ensures { result ≡ pairs.items }
    {
        Pairs { pairs }
    }

    /// The pairs, borrowed. Takes no memory.
    pub fn as_slice(&self) -> &[Pair]
        ensures { result.now ≡ self.now }
    {
        &self.pairs
    }
}

/// An offer that was passed on and has no answer yet.
#[derive(Drop)]
pub struct OpenOffer {
    /// The end that offers.
    pub offerer: End,
    /// The pairs of its media, medium by medium.
    pub seats: Seats,
    /// As the offerer gave it.
    pub offer_taken: Boxed<Description<'static>>,
    /// As the other end got it.
    pub offer_sent: Boxed<Description<'static>>,
}

/// The descriptions of the last exchange, which both ends follow.
pub struct Session {
    /// The end that offered.
    pub offerer: End,
    pub offer_taken: Boxed<Description<'static>>,
    /// The answer, as the offerer got it.
    pub answer_sent: Boxed<Description<'static>>,
    /// The offer, as the answerer got it.
    pub offer_sent: Boxed<Description<'static>>,
    pub answer_taken: Boxed<Description<'static>>,
    /// The pairs that its media use.
    pub pairs: Pairs,
}

impl Drop for Session {
    fn drop(self) {
        let Session {
            offerer: _,
            offer_taken: _,
            answer_sent: _,
            offer_sent: _,
            answer_taken: _,
            pairs: _,
        } = self;
    }
}

/// What puts the rows of a session in place of its call's former ones, and the pairs that they are of.
#[derive(Drop)]
pub struct SessionRows {
    pub pairs: Pairs,
    pub changes: Vec<Change>,
}
