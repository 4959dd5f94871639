//! What is known of a dialog.

use crate::identifiers::DialogId;
use sip_uri::Uri;
use text::Text;

/// An end of a dialog, as From and To name it: display and URI, without the tag.
pub struct Party {
    pub display: Option<Text<'static>>,
    pub uri: Uri<'static>,
}

impl Drop for Party {
    fn drop(self) {
        let Party { display: _, uri: _ } = self;
    }
}

/// The state of a dialog (RFC 3261 section 12). No route set is kept: the server sends each request to the target.
#[derive(Drop)]
pub struct Dialog {
    pub id: DialogId,
    /// The local URI, with its display.
    pub ours: Party,
    /// The remote URI, with its display.
    pub theirs: Party,
    /// The remote target, to which the next request goes.
    pub target: Uri<'static>,
    /// The number of our last request, if there was one: below 2^31.
    pub local_number: Option<u32>,
    /// The number of the other end's last request, if there was one: below 2^31.
    pub remote_number: Option<u32>,
}
