//! What actions are dressed with.

use dialogs::Dialog;
use events::Sent;
use sdp::Description;
use sip_message::Parts;
use sip_uri::Addr;
use transactions::Transaction;

/// A request of an end's, which waits for a response of the server's.
#[derive(Clone, Copy)]
pub struct Asker<'m, 'a> {
    /// The number of its transaction.
    pub id: usize,
    pub parts: &'m Parts<'a>,
    /// Where it came from.
    pub source: Addr,
    /// The tag that To has in its responses, where its own To has none.
    pub tag: &'m [u8],
}

/// All that actions may need. Actions that need something missing are left out.
#[derive(Clone, Copy)]
pub struct Scene<'m, 'a> {
    /// Where the server is reached.
    pub server: Addr,
    /// The salt of the event.
    pub salt: u64,
    /// How many tokens were made before the first of these actions.
    pub tokens: u64,
    /// The INVITE or UPDATE of the offerer that waits for its final response.
    pub offer: Option<Asker<'m, 'a>>,
    /// The BYE or CANCEL that is answered now.
    pub request: Option<Asker<'m, 'a>>,
    /// The dialog with the caller.
    pub caller: Option<&'m Dialog>,
    /// The dialog with the callee: at a call's first INVITE its new leg.
    pub callee: Option<&'m Dialog>,
    /// The client transaction of the INVITE that was passed on.
    pub passed: Option<&'m Transaction>,
    /// The offer or the answer, as the server sends it on.
    pub description: Option<&'m Description<'a>>,
    /// The 200 that is sent again.
    pub again: Option<&'m Sent>,
    /// Max-Forwards of the offer, as it came.
    pub hops: u8,
}
