//! Datagrams of a trace, already read.

use sdp::Description;
use text::Text;

/// Whether a datagram came in or went out.
#[derive(Clone, Copy)]
pub enum Direction {
    Taken,
    Sent,
}

/// What a message is (RFC 3261 section 7): a request, or a response with its status.
#[derive(Clone, Copy)]
pub enum Kind {
    Request,
    Response(u16),
}

/// A message as the grammar reads it, whether or not the server refused it.
pub struct Message {
    pub kind: Kind,
    /// The branch of the top Via.
    pub branch: Text<'static>,
    pub call_id: Text<'static>,
    /// The tag of From, empty where there is none.
    pub from_tag: Text<'static>,
    /// The tag of To, empty where there is none.
    pub to_tag: Text<'static>,
    /// The number of CSeq.
    pub number: u32,
    /// The method of CSeq, which is that of the request.
    pub method: Text<'static>,
    /// The body, where it is a description.
    pub description: Option<Description<'static>>,
    /// The whole message, as it was on the wire.
    pub bytes: Text<'static>,
}

impl Drop for Message {
    fn drop(self) {
        let Message {
            kind: _,
            branch: _,
            call_id: _,
            from_tag: _,
            to_tag: _,
            number: _,
            method: _,
            description: _,
            bytes: _,
        } = self;
    }
}

/// A datagram of a trace. The event is the number of the step in which it was taken or sent.
pub struct Datagram {
    pub event: u64,
    pub direction: Direction,
    pub message: Message,
}

impl Drop for Datagram {
    fn drop(self) {
        let Datagram {
            event: _,
            direction: _,
            message: _,
        } = self;
    }
}

/// What names a dialog at this server (RFC 3261 section 12): an absent tag is the empty text.

pub struct Dialog {
    pub call_id: Text<'static>,
    /// The tag that this server gave.
    pub ours: Text<'static>,
    /// The tag that the other end gave.
    pub theirs: Text<'static>,
}

impl Drop for Dialog {
    fn drop(self) {
        let Dialog {
            call_id: _,
            ours: _,
            theirs: _,
        } = self;
    }
}
