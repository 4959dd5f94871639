//! The status of the server, for the page.

use agent::Agent;
use agent_status::status_of;
use call_traffic::{MediaLog, PortCounter};
use page_desk::StatusDesk;
use status::Status;
use std::alloc::{AllocError, Global};

fn snapshot<C: PortCounter>(
    alloc: Global,
    agent: &Agent,
    media: &mut MediaLog<C>,
    now: u64,
) -> Result<Status, AllocError> {
    let traffic = media.traffic()?;
    status_of(alloc, agent, &traffic, media.datagrams(), now)
}

/// Passes on the current time, in milliseconds, and a snapshot of this moment, if one was asked for and it is time for
/// one. If memory is refused, none is made.
pub(crate) fn show<C: PortCounter>(
    alloc: Global,
    desk: &mut StatusDesk,
    agent: &Agent,
    media: &mut MediaLog<C>,
    now: u64,
) {
    if desk.look(now)
        && let Ok(status) = snapshot(alloc, agent, media, now)
    {
        desk.put_status(status);
    }
}
