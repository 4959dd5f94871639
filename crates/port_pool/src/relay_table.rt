//! The relay table: one slot for each port, so that a change takes no memory.

ghost use Rattle.std.specs.Prelude.{◌≡◌, IfOk};
ghost use Rattle.std.specs.FinMap as map;
ghost use Rattle.port_pool.specs.RelayTable.{changed, changed_by};

use crate::changes::Change;
use crate::hop::Hop;
use std::alloc::{AllocError, Global};
use std::marker::Model;

/// The number of ports.
const PORTS: usize = 65_536;

/// Where the datagrams of each port of the server go: a finite map from a port to a place and a sending port. It is
/// made once, with room for a row at every port.
pub struct RelayTable {
    slots: Vec<Option<Hop>>,
}

impl Drop for RelayTable {
    fn drop(self) {
        let RelayTable { slots: _ } = self;
    }
}

impl Model for RelayTable {
    ghost use Rattle.std.specs.Prelude.{◌≡◌, length};
    ghost use Rattle.std.specs.FinMap as map;
    ghost use Rattle.port_pool.specs.Limits.{ports};
    ghost use Rattle.port_pool.specs.RelayTable.{Rows, coded_rows, rows_from};

    ghost Value = { Rows };

    ghost coded = { coded_rows };

    ghost view = { λ t. map.from_entries (rows_from 0 t.slots.items) };

    ghost invariant = { λ t. length t.slots.items ≡ ports };
}

impl RelayTable {
    /// A table without rows.
    #[tactic(auto, using(crate::proofs::SlotLaws::slots_as_rows))]
    pub fn new(alloc: Global) -> Result<RelayTable, AllocError>
        ensures { IfOk result (λ t. t ≡ map.empty) }
    {
        Ok(RelayTable {
            slots: vec![in alloc; None; PORTS]?,
        })
    }

    /// Where the datagrams of a port go, if it has a row. Takes no memory.
    #[tactic(auto, using(crate::proofs::SlotLaws::slots_as_rows))]
    pub fn hop(&self, port: u16) -> Option<Hop>
        ensures { result ≡ map.get self.now port }
    {
        self.slots[usize::from(port)]
    }

    /// Replaces the row of a port, if any, or removes it. Takes no memory.
    #[tactic(auto, using(crate::proofs::SlotLaws::slots_as_rows))]
    pub fn change(&mut self, change: &Change)
        ensures { self.new ≡ changed self.old change.now }
    {
        match change {
            Change::Put(port, hop) => self.slots[usize::from(*port)] = Some(*hop),
            Change::Remove(port) => self.slots[usize::from(*port)] = None,
        }
    }

    /// Makes these changes in turn. Takes no memory.
    pub(crate) fn change_all(&mut self, changes: &[Change])
        ensures { self.new ≡ changed_by self.old changes.now }
    {
        for change in changes {
            self.change(change);
        }
    }
}
