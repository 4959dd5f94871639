//! An event, as its line needs it.

use crate::media_counts::MediaCounts;
use calls::StandingCall;
use plans::Note;
use registrar::Registrar;
use sip_uri::Addr;
use text::Text;

/// An event that the server took, and what its line says of it.
#[derive(Clone, Copy)]
pub struct NotedEvent<'a> {
    /// What it was about.
    pub note: Note,
    /// The current calls, after the event.
    pub calls: &'a [StandingCall],
    pub registrar: &'a Registrar,
    /// The user whose bindings it set.
    pub user: Option<&'a Text<'static>>,
    /// The agent's moment in milliseconds, at which it took the event.
    pub moment: u64,
    /// Where the event came from, if it was a datagram.
    pub source: Option<Addr>,
    /// The counts of the media of a call that it ended, if anyone counts them.
    pub media: Option<MediaCounts>,
}
