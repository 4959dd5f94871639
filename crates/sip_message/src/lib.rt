//! Messages of the session initiation protocol (RFC 3261 sections 7, 8, 18, 20 and 25.1, RFC 3581): what a datagram
//! says. Reading is specified for every text: a message is found exactly if the bytes are one, and a refusal names
//! the first fault. Nothing here knows of writing, sockets, time, transactions or users.
#![tactic(auto)]

mod answerable_parts;
mod call_id;
mod contact;
mod content;
mod content_length;
mod cseq;
mod error;
mod header_names;
mod keep;
mod laws;
mod lookup;
mod max_forwards;
mod media_type;
mod message;
mod party;
mod read;
mod seen;
mod start;
mod values;
mod via;
mod words;

pub use answerable_parts::answerable;
pub use contact::{ContactNeed, ContactValue, contact_values, contacts, headers_in};
pub use content::{has_description_type, is_uncoded};
pub use cseq::{CSeq, Sequence};
pub use error::MessageError;
// Clauses of the crates above name the type of a header by the module `headers`.
pub use header_fields::{FieldValue, Header, Headers, first_value, headers, values_named};
pub use header_names::HeaderName;
pub use laws::one_message;
pub use max_forwards::MAX_FORWARDS;
pub use message::{Message, Parts, Request, Response, parts_with};
pub use party::{Ends, Party, has_tag};
pub use read::read_message;
pub use start::{RequestLine, Start, StatusLine};
pub use via::{Via, Vias};
pub use words::{Class, class_of, content_type, is_method, tag_text, tag_value, top_branch};
