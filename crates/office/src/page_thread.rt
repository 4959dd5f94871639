//! The thread of the page.

use page_desk::PageDesk;
use page_server::PageServer;
use std::sync::Wait;
use std::sync::atomic::{AtomicBool, Ordering};

/// How many milliseconds it waits for a request.
const WAIT: u64 = 100;

/// After this many waits in a row that the system refused, the page is no longer served.
const MAX_REFUSED: u32 = 100;

/// What the thread of the page has.
#[derive(Drop)]
pub(crate) struct Page {
    pub(crate) server: PageServer,
    pub(crate) desk: PageDesk,
}

/// Serves the page until the flag is set.
pub(crate) fn serve_page<R: Wait>(rt: &R, page: Page, is_over: &AtomicBool) {
    let Page {
        mut server,
        mut desk,
    } = page;
    let mut refused: u32 = 0;
    for _ in rt.forever() {
        if is_over.load(Ordering::SeqCst) || refused >= MAX_REFUSED {
            return;
        }
        let now = desk.take();
        refused = match server.turn(&mut desk, now, WAIT) {
            Ok(()) => 0,
            Err(_) => refused + 1,
        };
    }
}
