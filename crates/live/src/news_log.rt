//! News that was handed in, only for clauses.

ghost use Rattle.std.specs.Prelude.{◌≡◌, ◌∷◌, ◌++◌, [], OnErr, OnOk};
ghost use Rattle.live.specs.News.{logged};

use crate::news::News;
use std::alloc::{AllocError, Global};
use std::snapshot::Snapshot;

/// News in the order in which it was noted. A program learns nothing from this, and it has no bytes: an operator uses
/// it in its clauses to say what it handed in.
#[derive(Drop)]
pub struct NewsLog {
    entries: Vec<Snapshot<News>>,
}

impl NewsLog {
    /// Nothing was noted. Takes no memory.
    pub fn new(alloc: Global) -> NewsLog
        ensures { logged result ≡ [] }
    {
        NewsLog {
            entries: Vec::new(alloc),
        }
    }

    /// Notes news after the earlier ones.
    pub fn note(&mut self, news: &News) -> Result<(), AllocError>
        ensures ok { OnOk result (logged self.new ≡ logged self.old ++ news.now ∷ []) }
        ensures err { OnErr result (logged self.new ≡ logged self.old) }
    {
        match self.entries.push(Snapshot::of(news)) {
            Ok(()) => Ok(()),
            Err(_) => Err(AllocError),
        }
    }
}
