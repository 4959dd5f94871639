//! Dialogs (RFC 3261 section 12): which messages belong together, in which order they count, and where the next request
//! goes. Nothing here knows about transactions, timers, sockets or descriptions.
#![tactic(auto)]

mod contact;
mod copies;
mod creation;
mod error;
mod identifiers;
mod laws;
mod method;
mod requests;
mod sequence;
mod state;

pub use contact::contact_uri;
pub use creation::party_named;
pub use error::DialogError;
pub use identifiers::DialogId;
pub use laws::{
    contacts_are_read, dialogs_are_sound, invites_name_a_contact, requests_are_written,
};
pub use method::Method;
pub use requests::{Extras, NextRequest};
pub use sequence::is_above;
pub use state::{Dialog, Party};
