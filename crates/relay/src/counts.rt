//! How many datagrams of each port a worker passed on, which other threads read without a lock.

ghost use Rattle.std.specs.Prelude.{◌≡◌, [], IfOk};
ghost use Rattle.std.specs.Arc.{arc_value};
ghost use Rattle.relay.specs.Counts.{GoOn, number_of, one_more_of, port_count};

use atomic_table::{Play, Seat, Table, TableRule};
use std::alloc::{AllocError, Global};
use std::collections::LinkedList;
use std::marker::Model;
use std::sync::Arc;

/// A number for each port, so that every port is in range.
const PORTS: usize = 65_536;

/// The ports of the datagrams that were counted, in order, as a thread knows of them. No value of it is made.
pub type Ports = LinkedList<u16>;

/// Each word is how often its port was counted.
pub struct EachPort;

impl TableRule<(), Ports, ()> for EachPort {
    ghost use Rattle.std.specs.Prelude.{[]};
    ghost use Rattle.relay.specs.Counts.{Keeps};

    ghost holds = { λ _. Keeps };

    ghost first = { λ _. [] };
}

struct Add;

impl Play<(), Ports> for Add {
    ghost use Rattle.relay.specs.Counts.{Adds};

    ghost then = { Adds };
}

struct Read;

impl Play<(), Ports> for Read {
    ghost use Rattle.relay.specs.Counts.{Reads};

    ghost then = { Reads };
}

struct ReadOwn;

impl Play<(), Ports> for ReadOwn {
    ghost use Rattle.relay.specs.Counts.{ReadsOwn};

    ghost then = { ReadsOwn };
}

struct Sit;

impl Play<(), Ports> for Sit {
    ghost use Rattle.relay.specs.Counts.{Sits};

    ghost then = { Sits };
}

pub(crate) type Numbers = Table<(), Ports, (), EachPort, Global>;

/// The end of a worker, which counts. Contracts see the ports that it counted, in order.
#[derive(Drop)]
pub struct Counter {
    numbers: Arc<Numbers>,
    seat: Seat<(), Ports>,
}

impl Model for Counter {
    ghost use Rattle.std.specs.Prelude.{◌≡◌};
    ghost use Rattle.std.specs.Arc.{arc_value};
    ghost use Rattle.relay.specs.Counts.{Counted, port_count};

    ghost Value = { Counted };

    ghost view = { λ c. record { table = c.seat.table_id; ports = c.seat.me.0 } };

    ghost invariant = { λ c. ((arc_value c.numbers).shared.table_id.words ≡ port_count) × (c.seat.table_id ≡ (arc_value c.numbers).shared.table_id) × (c.seat.id ≡ 0) };
}

/// An end that reads. Contracts see the ports that it knows were counted: each reading may know of more, but only of
/// those that the worker counted.
#[derive(Drop)]
pub struct PortCounts {
    numbers: Arc<Numbers>,
    seat: Seat<(), Ports>,
}

impl Model for PortCounts {
    ghost use Rattle.std.specs.Prelude.{◌≡◌};
    ghost use Rattle.std.specs.Arc.{arc_value};
    ghost use Rattle.relay.specs.Counts.{Counted, port_count};

    ghost Value = { Counted };

    ghost view = { λ c. record { table = c.seat.table_id; ports = c.seat.me.0 } };

    ghost invariant = { λ c. ((arc_value c.numbers).shared.table_id.words ≡ port_count) × (c.seat.table_id ≡ (arc_value c.numbers).shared.table_id) };
}

impl Counter {
    /// Nothing was counted.
    pub(crate) fn new(alloc: Global) -> Result<Counter, AllocError>
        ensures { IfOk result (λ c. c.ports ≡ []) }
    {
        let zeros = vec![in alloc; 0; PORTS]?;
        let (table, seat) = Table::of_words(alloc, zeros.as_slice(), &())?;
        Ok(Counter {
            numbers: Arc::new(alloc, table)?,
            seat,
        })
    }

    /// Counts a datagram of this port. It waits for nobody and takes no memory.
    pub(crate) fn count(&mut self, port: u16)
        ensures { self.new ≡ one_more_of port self.old }
    {
        let place = usize::from(port);
        self.numbers
            .shared
            .fetch_add::<Add>(&mut self.seat, place, 1);
    }

    /// How many datagrams of this port were counted.
    pub fn number(&mut self, port: u16) -> u64
        ensures number { result ≡ number_of port self.old.ports }
        ensures same { self.new ≡ self.old }
    {
        let place = usize::from(port);
        self.numbers.shared.load::<ReadOwn>(&mut self.seat, place)
    }

    /// An end for another thread, which knows of nothing yet.
    pub fn reader(&self) -> Result<PortCounts, AllocError>
        ensures table { IfOk result (λ r. r.table ≡ self.now.table) }
        ensures ports { IfOk result (λ r. r.ports ≡ []) }
    {
        let numbers = Arc::try_clone(&self.numbers)?;
        let seat = numbers.shared.load_new_seat::<Sit>(0).1;
        Ok(PortCounts { numbers, seat })
    }
}

impl PortCounts {
    /// How many datagrams of this port the worker had passed on, at a moment no earlier than that of the last
    /// reading. It waits for nobody, takes no memory, and makes nobody wait.
    pub fn number(&mut self, port: u16) -> u64
        ensures number { result ≡ number_of port self.new.ports }
        ensures later { GoOn self.new.ports self.old.ports }
        ensures table { self.new.table ≡ self.old.table }
    {
        let place = usize::from(port);
        self.numbers.shared.load::<Read>(&mut self.seat, place)
    }
}
