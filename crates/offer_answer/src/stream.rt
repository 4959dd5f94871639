//! Streams of media.

use sip_uri::Addr;
use text::{Text, Texts};

/// What goes to one end of a stream.
#[derive(Drop)]
pub struct Side {
    /// Whether media are sent that way.
    pub on: bool,
    /// The formats in which they may be sent, in order of preference.
    pub formats: Texts<'static>,
    /// Where they are sent to, if anywhere.
    pub to: Option<Addr>,
}

/// One medium of an offer and its answer.
#[derive(Drop)]
pub enum Stream {
    /// One of the two has port 0.
    Rejected,
    /// The medium is used.
    Used {
        kind: Text<'static>,
        proto: Text<'static>,
        to_answerer: Side,
        to_offerer: Side,
    },
}
