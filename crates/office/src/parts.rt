//! What a server is made of, before it has a board.

use crate::opening::Opened;
use crate::page_thread::Page;
use configuration::Config;
use host::{Announcement, SipWire, SystemClock, fault_of};
use live_users::{FileEnds, UserDesk};
use log_pipe::{LogLines, LogPipe, LogWriter, log_pipe_ends};
use operator::Desks;
use page_desk::{StatusDesk, desks};
use page_server::PageServer;
use server::{HostFault, VERSION};
use sockets::{RelaySockets, Sockets};
use std::alloc::{AllocError, Global};
use std::rt::Clock;
use std::time::Duration;

/// What serves beside the board and the socket for SIP.
#[derive(Drop)]
pub(crate) struct Beside<A, M> {
    pub(crate) announcer: A,
    pub(crate) watch: M,
    pub(crate) relay: RelaySockets,
    pub(crate) lines: LogLines,
    pub(crate) writer: LogWriter,
    pub(crate) desks: Desks,
    pub(crate) page: Option<Page>,
    /// For how many rounds telephones are served, if not for good.
    pub(crate) turns: Option<u64>,
}

/// What a server is made of.
#[derive(Drop)]
pub(crate) struct Parts<A, M> {
    pub(crate) alloc: Global,
    /// The time since 1970 at the start.
    pub(crate) start: Duration,
    pub(crate) wire: SipWire,
    pub(crate) beside: Beside<A, M>,
}

/// The end of the signalling, and what the page's thread has, if there is a page.
fn page_of(
    alloc: Global,
    server: Option<PageServer>,
    started: u64,
) -> Result<(Option<StatusDesk>, Option<Page>), AllocError> {
    let Some(server) = server else {
        return Ok((None, None));
    };
    let (status, desk) = desks(alloc, VERSION, started)?;
    Ok((Some(status), Some(Page { server, desk })))
}

/// What the signalling has of the configuration's file, if a thread looks at it.
fn user_desk(
    alloc: Global,
    file: Option<FileEnds>,
    config: &Config,
) -> Result<Option<UserDesk>, AllocError> {
    match file {
        Some(file) => Ok(Some(UserDesk::new(alloc, file, config.users.as_slice())?)),
        None => Ok(None),
    }
}

impl<'a, R: Clock + AllocGlobal> Parts<Announcement<'a, R>, SystemClock<'a, R>> {
    /// The parts of a server with these sockets, and with a thread that looks at the file of its configuration, if
    /// there is one.
    pub(crate) fn new(
        rt: &'a R,
        config: &'a Config,
        opened: Opened,
        file: Option<FileEnds>,
        turns: Option<u64>,
    ) -> Result<Parts<Announcement<'a, R>, SystemClock<'a, R>>, HostFault> {
        let alloc = rt.alloc();
        let watch = SystemClock::new(rt).map_err(|error| fault_of(error.kind()))?;
        let start = rt.since_1970().map_err(|error| fault_of(error.kind()))?;
        let Opened {
            sockets: Sockets { sip, relay },
            page: server,
        } = opened;
        let LogPipe {
            events: lines,
            sending,
            writer,
        } = log_pipe_ends(alloc).map_err(|_| HostFault::OutOfMemory)?;
        let (status, page) = page_of(alloc, server, start.as_secs()).map_err(
            |_| HostFault::OutOfMemory,
        )?;
        let users = user_desk(alloc, file, config).map_err(|_| HostFault::OutOfMemory)?;
        let wire = SipWire::new(alloc, config.log, sending, sip).map_err(
            |_| HostFault::OutOfMemory,
        )?;
        Ok(Parts {
            alloc,
            start,
            wire,
            beside: Beside {
                announcer: Announcement { rt, config },
                watch,
                relay,
                lines,
                writer,
                desks: Desks {
                    page: status,
                    users,
                },
                page,
                turns,
            },
        })
    }
}
