//! The responses of the server's own (RFC 3261 sections 8.2, 10.3 and 11.2): what a request asks for, and what its
//! answer has besides what every response repeats. Nothing here knows about transactions, dialogs or calls.
#![tactic(auto)]

mod own_responses;
mod register;
mod tags;
mod tokens;
mod words;

pub use own_responses::{
    STATELESS, allow_header, contact_headers, refusal_headers, response_with, status_of,
    unsupported_header,
};
pub use register::register_of;
pub use tokens::token;
pub use words::{has_fit_branch, has_header, is_declined_method, is_method, is_offered_method};
