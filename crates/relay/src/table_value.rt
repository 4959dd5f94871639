//! The value that is published: a table, and the number of lists that made it.
ghost use Rattle.std.specs.Prelude.{◌≡◌, IfOk, []};
ghost use Rattle.std.specs.FinMap as map;
ghost use Rattle.port_pool.specs.RelayTable.{changed_by};
ghost use Rattle.relay.specs.Published.{contents, after_list};

use crate::changes::Changes;
use left_right::Absorb;
use port_pool::{Change, RelayTable};
use std::alloc::{AllocError, Global};
use std::snapshot::Snapshot;

#[derive(Drop)]
pub struct Published {
    pub table: RelayTable,
    pub count: u64,
    /// The list that was applied last. Only clauses read it.
    pub last: Snapshot<Changes>,
}

impl Published {
    /// The empty table, made of no list.
    pub fn new(alloc: Global) -> Result<Published, AllocError>
        ensures { IfOk result (λ p. contents p ≡ (map.empty, 0, [])) }
    {
        Ok(Published {
            table: RelayTable::new(alloc)?,
            count: 0,
            last: Snapshot::of(&Changes::empty(alloc)),
        })
    }
}

impl Absorb<Changes> for Published {
    type State = (RelayTable, u64, Changes);

    ghost state = { contents };

    ghost applied = { after_list };

    ghost never_fails = { Unit {0} };

    fn absorb_first(&mut self, operation: &Changes, _other: &Published) -> Result<(), AllocError> {
        change_all(&mut self.table, operation.as_slice());
        self.count = self.count.wrapping_add(1);
        self.last = Snapshot::of(operation);
        Ok(())
    }
}

/// Makes these changes in turn. Takes no memory.
fn change_all(table: &mut RelayTable, changes: &[Change])
    ensures { table.new ≡ changed_by table.old changes.now }
{
    for change in changes {
        table.change(change);
    }
}
