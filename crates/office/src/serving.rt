//! The board, and what is served on it.

ghost use Rattle.std.specs.Prelude.{◌≡◌, []};
ghost use Rattle.live.specs.Turns.{HasTable};

use crate::parts::{Beside, Parts};
use crate::threads::{Plan, each_alone, serve_all};
use agent::Tally;
use call_traffic::MediaLog;
use configuration::Config;
use host::{Announcer, SipWire, WorkerCounts};
use live::{Clock as Moments, Signalling};
use operator::OfficeOperator;
use relay::{Board, Unopened, Viewer};
use server::HostFault;
use sockets::{worker_count, workers_of};
use std::sync::Wait;
use std::thread::Threads;

/// How events were answered, and how it ended.
pub(crate) type Served = (Tally, Result<(), HostFault>);

/// The board of a signalling that is over.
fn board_of<W: Drop>(signalling: Signalling<W>) -> Board {
    let Signalling {
        alloc: _,
        agent,
        board,
        wire,
        salts: _,
        buffer,
    } = signalling;
    drop(agent);
    drop(wire);
    drop(buffer);
    board
}

/// Serves with what stands beside the board and the socket for SIP.
fn serve_beside<R: Threads + Wait + Sync, A: Announcer + Drop, M: Moments + Drop>(
    rt: &R,
    config: &Config,
    signalling: &mut Signalling<SipWire>,
    beside: Beside<A, M>,
    viewers: Vec<Viewer>,
) -> Result<Served, HostFault>
    requires { HasTable signalling.old.board signalling.old.agent }
{
    let alloc = signalling.alloc;
    let Beside {
        announcer,
        mut watch,
        relay,
        lines,
        writer,
        desks,
        page,
        turns,
    } = beside;
    let workers = workers_of(alloc, relay, viewers).map_err(|_| HostFault::OutOfMemory)?;
    let counts = WorkerCounts::new(alloc, &workers).map_err(|_| HostFault::OutOfMemory)?;
    let workers = each_alone(alloc, workers).map_err(|_| HostFault::OutOfMemory)?;
    let media = MediaLog::new(alloc, counts);
    let mut operator = OfficeOperator::new(alloc, config, lines, media, desks);
    let plan = Plan {
        announcer,
        writer,
        page,
        workers,
        turns,
    };
    let ended = serve_all(rt, plan, signalling, &mut watch, &mut operator);
    Ok((signalling.agent.tally(), ended))
}

/// Serves on a board to which nothing was published, which is returned.
fn serve_parts<R: Threads + Wait + Sync, A: Announcer + Drop, M: Moments + Drop>(
    rt: &R,
    config: &Config,
    parts: Parts<A, M>,
    board: Board,
    viewers: Vec<Viewer>,
) -> (Board, Result<Served, HostFault>)
    requires { board ≡ [] }
{
    let Parts {
        alloc,
        start,
        wire,
        beside,
    } = parts;
    match Signalling::new(alloc, config, board, wire, start) {
        Ok(mut signalling) => {
            let served = serve_beside(rt, config, &mut signalling, beside, viewers);
            (board_of(signalling), served)
        }
        Err((board, _)) => (board, Err(HostFault::OutOfMemory)),
    }
}

/// Serves on a board of its own, which is closed at the end whatever happened.
pub(crate) fn serve_on_board<R: Threads + Wait + Sync, A: Announcer + Drop, M: Moments + Drop>(
    rt: &R,
    config: &Config,
    parts: Parts<A, M>,
) -> Result<Served, HostFault> {
    let (board, served) = match Board::new(parts.alloc, worker_count(config)) {
        Ok((board, viewers)) => serve_parts(rt, config, parts, board, viewers),
        Err(Unopened::NoViewer(board)) => (board, Err(HostFault::OutOfMemory)),
        Err(Unopened::Memory) => return Err(HostFault::OutOfMemory),
    };
    board.close(rt);
    served
}
