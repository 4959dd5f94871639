//! How messages of the session initiation protocol are written (RFC 3261 sections 7, 8.2.6, 18.2 and 21, RFC 3581):
//! the bytes of a message, the response to a request, and where that goes. What is written for a message of the
//! written form is read as that message. Nothing here knows of sockets, time, transactions or users.
#![tactic(auto)]

mod laws;
mod marked_text;
mod reasons;
mod received;
mod reply;
mod reply_text;
mod request_text;
mod requests;
mod room;
mod socket_address;
mod unkept;
mod write;

pub use laws::written_is_read;
pub use reply::{reply_address, reply_to, tag_param, via_headers};
pub use reply_text::{Reply, write_reply};
pub use request_text::{Outline, write_outline};
pub use requests::{Draft, build_request, name_with_tag, parts_with_names, server_via};
pub use socket_address::put_socket_address;
pub use unkept::{EndName, Unkept, write_unkept};
pub use write::{write_message, write_request, write_response};
