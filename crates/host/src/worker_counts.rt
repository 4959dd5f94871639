//! What the workers of the media count.

ghost use Rattle.std.specs.Prelude.{[], IfOk, ◌≡◌};

use call_traffic::{PortCounter, ReadingLog};
use relay::{MediaSocket, PortCounts, Worker};
use std::alloc::{AllocError, Global};

/// How many datagrams of each port were passed on, by all workers.
#[derive(Drop)]
pub struct WorkerCounts {
    readers: Vec<PortCounts>,
    /// The readings that it gave. Only clauses read them.
    told: ReadingLog,
}

impl WorkerCounts {
    /// The counts of these workers.
    pub fn new<S: MediaSocket>(
        alloc: Global,
        workers: &[Worker<S>],
    ) -> Result<WorkerCounts, AllocError>
        ensures { IfOk result (λ counts. counts.told.entries ≡ []) }
    {
        let mut readers = Vec::new(alloc);
        for worker in workers {
            readers.push(worker.counter.reader()?)?;
        }
        Ok(WorkerCounts {
            readers,
            told: ReadingLog::new(),
        })
    }
}

/// How many datagrams of a port all workers passed on. The number wraps.
fn number_of(readers: &mut [PortCounts], port: u16) -> u64 {
    let mut number: u64 = 0;
    for reader in readers.iter_mut() {
        number = number.wrapping_add(reader.number(port));
    }
    number
}

impl PortCounter for WorkerCounts {
    ghost readings = { λ counts. counts.told.entries };

    fn number(&mut self, port: u16) -> u64 {
        let number = number_of(&mut self.readers, port);
        self.told.note(port, number);
        number
    }
}
