//! What a server opens before it serves.

use configuration::Config;
use host::{Refusal, lacks_descriptors};
use page_server::PageServer;
use sockets::{Sockets, Unbound, bind};
use std::fs::Files;
use std::net::Net;

/// The sockets of a configuration, and that of its page, if it has one.
#[derive(Drop)]
pub(crate) struct Opened {
    pub(crate) sockets: Sockets,
    pub(crate) page: Option<PageServer>,
}

/// The sockets for SIP and media.
fn open_sockets<R: Net + Files + AllocGlobal>(rt: &R, config: &Config) -> Result<Sockets, Refusal> {
    match lacks_descriptors(rt, config) {
        Some(few) => Err(Refusal::Descriptors(few)),
        None => bind(rt, rt.alloc(), config).map_err(Refusal::Unbound),
    }
}

/// The socket of the page, if one is configured.
fn open_page<R: Net + AllocGlobal>(rt: &R, config: &Config) -> Result<Option<PageServer>, Refusal> {
    let Some(place) = config.status else {
        return Ok(None);
    };
    match PageServer::bind(rt, rt.alloc(), place) {
        Ok(server) => Ok(Some(server)),
        Err(error) => Err(Refusal::Unbound(Unbound {
            place: Some(place),
            kind: error.kind(),
            code: error.raw_os_error(),
        })),
    }
}

/// All sockets of a configuration, or why there are none.
pub(crate) fn open_all<R: Net + Files + AllocGlobal>(
    rt: &R,
    config: &Config,
) -> Result<Opened, Refusal> {
    Ok(Opened {
        sockets: open_sockets(rt, config)?,
        page: open_page(rt, config)?,
    })
}
