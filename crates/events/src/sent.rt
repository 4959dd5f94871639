//! What the server sends.

use sip_uri::Addr;
use text::Text;

/// A datagram that is sent. Contracts see its bytes as a list.
pub struct Sent {
    pub to: Addr,
    pub bytes: Text<'static>,
}

impl Drop for Sent {
    fn drop(self) {
        let Sent { to: _, bytes: _ } = self;
    }
}
