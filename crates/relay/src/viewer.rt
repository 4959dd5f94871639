//! The end that looks ports up.
ghost use Rattle.std.specs.Prelude.{◌≡◌, ◌<◌, ◌≤◌, length, IfSome, IfNone, ◌⊎◌};
ghost use Rattle.std.specs.FinMap as map;
ghost use Rattle.relay.specs.Lists.{table_after};
ghost use Rattle.relay.specs.Lists.{StartsWith, BeginAlike};
ghost use Rattle.left_right.specs.Sides as sides;

use crate::rule::{Known, Look, Prefixes};
use crate::table_value::Published;
use core::mem::replace_with;
use left_right::reader::{Factory, Reader};
use port_pool::Hop;
use std::marker::Model;

pub type TableReader = Reader<Published, Known, Prefixes>;

pub(crate) type TableFactory = Factory<Published, Known, Prefixes>;

/// What knows of lists.
pub trait Sighted {
    ghost use Rattle.relay.specs.Lists.{Lists};

    ghost known: { Self → Lists };
}

impl Sighted for TableReader {
    ghost use Rattle.left_right.specs.Sides as sides;

    ghost known = { λ r. sides.view r.place };
}

/// A reader with the number of lists that it knows of. It is generic, since the check finds that a generic struct may
/// go to another thread, and does not if the reader's type is written out.
#[derive(Drop)]
pub struct Sight<T: Sighted> {
    pub(crate) reader: T,
    pub(crate) number: u64,
}

impl<T: Sighted> Model for Sight<T> {
    ghost use Rattle.std.specs.Prelude.{◌≡◌, length};
    ghost use Rattle.relay.specs.Lists.{Lists};

    ghost Value = { Lists };

    ghost view = { λ v. T.known v.reader };

    ghost invariant = { λ v. v.number ≡ length (T.known v.reader) };
}

/// A reader of the published table. Contracts see the lists that it knows of: each look-up sees these and may see more.
pub type Viewer = Sight<TableReader>;

// Looks a port up.
fn look(reader: TableReader, port: u16) -> (TableReader, Option<(u64, Option<Hop>)>)
    ensures known { StartsWith (sides.view result.0.place) (sides.view reader.place) }
    ensures number { IfSome result.1 (λ r. r.0 ≡ length (sides.view result.0.place)) }
    ensures row { IfSome result.1 (λ r. r.1 ≡ map.get (table_after (sides.view result.0.place)) port) }
    ensures none { IfNone result.1 (sides.view result.0.place ≡ sides.view reader.place) }
{
    match reader.enter_as::<Look>() {
        Ok(reading) => {
            let shown = reading.get();
            let found = (shown.count, shown.table.hop(port));
            (reading.leave(), Some(found))
        }
        Err(reader) => (reader, None),
    }
}

impl Viewer {
    /// The number of lists that are seen, and the row of their table at the port. None if the board is closed.
    pub fn route(&mut self, port: u16) -> Option<(u64, Option<Hop>)>
        ensures later { StartsWith self.new self.old }
        ensures number { IfSome result (λ r. r.0 ≡ length self.new) }
        ensures row { IfSome result (λ r. r.1 ≡ map.get (table_after self.new) port) }
        ensures none { IfNone result (self.new ≡ self.old) }
    {
        let found = replace_with(&mut self.reader, port, look);
        if let Some((number, _)) = found {
            self.number = number;
        }
        found
    }

    /// Learns the lists of the stamp, and uses the stamp up. The stamp is of the same board, so the lists of one
    /// begin those of the other.
    pub fn learn(&mut self, stamp: Stamp)
        ensures one { (self.new ≡ self.old) ⊎ (self.new ≡ stamp) }
        ensures number { (length self.old ≤ length self.new) × (length stamp ≤ length self.new) }
        ensures both { BeginAlike self.old stamp → StartsWith self.new self.old × StartsWith self.new stamp }
    {
        let Stamp { viewer } = stamp;
        if self.number < viewer.number {
            *self = viewer;
        }
    }
}

/// Lists that were published, for a viewer to learn of.
#[derive(Drop)]
pub struct Stamp {
    pub(crate) viewer: Viewer,
}

impl Model for Stamp {
    ghost use Rattle.relay.specs.Lists.{Lists};

    ghost Value = { Lists };

    ghost view = { λ s. s.viewer };
}
