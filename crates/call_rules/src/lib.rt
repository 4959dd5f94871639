//! What a request inside a call, a response to a request of the server's, the end of such a request's time, and a body
//! mean for the live calls, before one of them takes it. Everything here only looks: no call changes, and nothing is
//! sent.
#![tactic(auto)]

mod content;
mod methods;
mod offers;
mod reach;
mod requests;
mod responses;

pub use content::{ContentRule, body_description, content_rule, taken_description};
pub use offers::{OfferRule, offer_rule, plain_rule};
pub use reach::{contact_address, is_reached, is_unreachable};
pub use requests::{DialogRule, dialog_rule, with_remote_number};
pub use responses::{ResponseRule, response_rule, timeout_rule};
