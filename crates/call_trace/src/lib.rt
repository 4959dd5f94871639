//! What a trace of messages means: which datagrams belong to which dialog (RFC 3261), which offer and answer make an
//! exchange (RFC 3264), which exchanges were passed together, which dialogs are calls and live, where an offer is open,
//! and what the media promise is. Messages are read already, and nothing here knows of the server. Each definition
//! comes with a plain program that computes it: lists, no cleverness.
#![tactic(auto)]

mod call;
mod calls;
mod datagram;
mod dialog_laws;
mod dialogs;
mod exchange;
mod kinds;
mod last_exchanges;
mod laws;
mod lives;
mod move_laws;
mod offers;
mod pass_on;
mod reply_words;
mod search;

pub use call::{Call, Offer, Session, Settled, Stage};
pub use calls::is_call;
pub use datagram::{Datagram, Dialog, Direction, Kind, Message};
pub use dialog_laws::{calls_are_spared, dialogs_are_known};
pub use dialogs::{dialog_of, is_named};
pub use exchange::{Places, is_exchange, is_last};
pub use last_exchanges::are_last;
pub use laws::{calls_stay, exchanges_stay, relayed_is_promised};
pub use lives::{has_begun, has_ended, is_live};
pub use move_laws::{calls_are_moves, moves_are_promised, moves_keep, standing_is_promised};
pub use offers::is_open;
pub use pass_on::{are_passed_together, is_passed_on};
pub use reply_words::replies;
