//! The threads of a server: the signalling in this one, and all else beside it.

ghost use Rattle.live.specs.Turns.{HasTable};

use crate::page_thread::{Page, serve_page};
use host::Announcer;
use live::{Clock as Moments, End, Operator, Signalling, Wire};
use log_pipe::LogWriter;
use relay::{Worker, serve_media};
use server::HostFault;
use sockets::MediaSockets;
use std::alloc::{AllocError, Global};
use std::sync::Wait;
use std::sync::atomic::{AtomicBool, AtomicUsize, Ordering};
use std::thread;
use std::thread::Threads;

/// A worker, for a thread of its own.
type OneWorker = Vec<Worker<MediaSockets>>;

/// What runs beside the signalling, each in a thread of its own, and for how many rounds.
#[derive(Drop)]
pub(crate) struct Plan<A> {
    /// What is told once each thread is made.
    pub(crate) announcer: A,
    pub(crate) writer: LogWriter,
    pub(crate) page: Option<Page>,
    pub(crate) workers: Vec<OneWorker>,
    pub(crate) turns: Option<u64>,
}

/// What the threads share.
#[derive(Drop)]
struct Flags {
    /// The signalling and the workers end.
    stop: AtomicBool,
    /// All else ends.
    is_over: AtomicBool,
    /// A worker was refused memory.
    is_refused: AtomicBool,
    /// How many workers began.
    begun: AtomicUsize,
}

impl Flags {
    fn new() -> Flags {
        Flags {
            stop: AtomicBool::new(false),
            is_over: AtomicBool::new(false),
            is_refused: AtomicBool::new(false),
            begun: AtomicUsize::new(0),
        }
    }

    /// Ends every thread.
    fn end(&self) {
        self.stop.store(true, Ordering::SeqCst);
        self.is_over.store(true, Ordering::SeqCst);
    }
}

/// Each worker alone.
pub(crate) fn each_alone(
    alloc: Global,
    workers: Vec<Worker<MediaSockets>>,
) -> Result<Vec<OneWorker>, AllocError> {
    let mut all = Vec::with_capacity(alloc, workers.len())?;
    for worker in workers {
        let mut one = Vec::with_capacity(alloc, 1)?;
        one.push(worker)?;
        all.push(one)?;
    }
    Ok(all)
}

/// Runs a worker until its end, which ends the signalling too.
fn relay_media<R: Threads + Wait + Sync>(rt: &R, worker: OneWorker, flags: &Flags) {
    let served = serve_media(rt, worker, &flags.begun, &flags.stop);
    flags.stop.store(true, Ordering::SeqCst);
    if served.is_err() {
        flags.is_refused.store(true, Ordering::SeqCst);
    }
}

/// How the end of the signalling counts: its flag was set from outside only if a worker ended.
fn outcome(end: End, is_refused: bool) -> Result<(), HostFault> {
    match end {
        End::Turns => Ok(()),
        End::Stopped if is_refused => Err(HostFault::OutOfMemory),
        End::Stopped | End::Socket => Err(HostFault::Socket),
        End::Memory => Err(HostFault::OutOfMemory),
    }
}

/// Runs the signalling until its end, beside a thread for the log, one for the page, and one for each worker. If the
/// system refuses a thread, nothing is served.
pub(crate) fn serve_all<
    R: Threads + Wait + Sync,
    A: Announcer + Drop,
    W: Wire,
    M: Moments,
    O: Operator,
>(
    rt: &R,
    plan: Plan<A>,
    signalling: &mut Signalling<W>,
    watch: &mut M,
    operator: &mut O,
) -> Result<(), HostFault>
    requires { HasTable signalling.old.board signalling.old.agent }
{
    let Plan {
        announcer,
        mut writer,
        page,
        workers,
        turns,
    } = plan;
    let flags = Flags::new();
    let shared = &flags;
    let end = thread::scope(
        thread::scope_env(),
        rt,
        |scope| -> End
            requires { HasTable signalling.now.board signalling.now.agent }
        {
            let mut are_made = scope.spawn(move || writer.run(rt, &shared.is_over)).is_ok();
            if let Some(page) = page {
                are_made &= scope
                    .spawn(move || serve_page(rt, page, &shared.is_over))
                    .is_ok();
            }
            for worker in workers {
                are_made &= scope.spawn(move || relay_media(rt, worker, shared)).is_ok();
            }
            if !are_made {
                shared.end();
                return End::Memory;
            }
            announcer.announce();
            let end = live::serve(rt, signalling, watch, operator, &shared.stop, turns);
            shared.end();
            end
        },
    );
    outcome(end, flags.is_refused.load(Ordering::SeqCst))
}
