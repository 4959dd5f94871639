//! A list of changes that is published at once.
ghost use Rattle.std.specs.Prelude.{◌≡◌, [], IfOk};

use port_pool::Change;
use std::alloc::{AllocError, Global};
use std::marker::Model;

/// Contracts see the list.
#[derive(Drop)]
pub struct Changes {
    items: Vec<Change>,
}

impl Model for Changes {
    ghost use Rattle.std.specs.Prelude.{List};
    ghost use Rattle.port_pool.specs.declared.changes.Change.{Change};

    ghost Value = { List Change };

    ghost view = { λ c. c.items.items };
}

impl Changes {
    pub fn empty(alloc: Global) -> Changes
        ensures { result ≡ [] }
    {
        Changes {
            items: Vec::new(alloc),
        }
    }

    pub fn list_copy(alloc: Global, changes: &[Change]) -> Result<Changes, AllocError>
        ensures { IfOk result (λ c. c ≡ changes.now) }
    {
        Ok(Changes {
            items: Vec::from_slice(alloc, changes)?,
        })
    }

    pub fn as_slice(&self) -> &[Change]
        ensures { result.now ≡ self.now }
    {
        self.items.as_slice()
    }
}
