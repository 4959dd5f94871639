//! Media workers, each on the sockets of its pairs.

ghost use Rattle.std.specs.Prelude.{◌≡◌, map, IfOk};
ghost use Rattle.sockets.specs.Traffic.{no_traffic};

use crate::last_call::LastCall;
use crate::log::Log;
use crate::media::MediaSockets;
use crate::ports::RelaySockets;
use crate::ready::Ready;
use mio::Poll;
use mio::net::UdpSocket;
use relay::{Viewer, Worker};
use std::alloc::{AllocError, Global};
use std::sync::Arc;

/// The worker for a viewer, on the sockets for which this waits.
fn worker_of(
    alloc: Global,
    first: u16,
    sockets: &Arc<Vec<UdpSocket>>,
    poll: Poll,
    viewer: Viewer,
) -> Result<Worker<MediaSockets>, AllocError>
    ensures viewer { IfOk result (λ worker. worker.viewer ≡ viewer) }
    ensures unused { IfOk result (λ worker. worker.socket ≡ no_traffic) }
{
    let socket = MediaSockets {
        sockets: Arc::try_clone(sockets)?,
        first,
        ready: Ready::new(alloc, poll, sockets.len())?,
        last: LastCall::new(),
        taken: Log::new(),
        asked: Log::new(),
        sent: Log::new(),
        room: 0,
    };
    match Worker::new(alloc, viewer, socket) {
        Ok(worker) => Ok(worker),
        Err(refused) => {
            drop(refused);
            Err(AllocError)
        }
    }
}

/// A worker for each viewer, with what waits for its sockets. Err if memory is refused, or if the sockets are shared
/// by fewer workers than there are viewers. All sockets are closed then, and the viewers are gone.
pub fn workers_of(
    alloc: Global,
    relay: RelaySockets,
    viewers: Vec<Viewer>,
) -> Result<Vec<Worker<MediaSockets>>, AllocError>
    ensures viewers { IfOk result (λ workers. map (λ w. w.viewer) workers.items ≡ viewers.items) }
    ensures unused { IfOk result (λ workers. map (λ w. w.socket) workers.items ≡ map (λ _. no_traffic) viewers.items) }
{
    let RelaySockets {
        first,
        sockets,
        polls,
    } = relay;
    let mut workers = Vec::new(alloc);
    let mut polls = polls.into_iter();
    for viewer in viewers {
        let Some(poll) = polls.next() else {
            return Err(AllocError);
        };
        workers.push(worker_of(alloc, first, &sockets, poll, viewer)?)?;
    }
    Ok(workers)
}
