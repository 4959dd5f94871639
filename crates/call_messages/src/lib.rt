//! What a call says to its two ends (RFC 3261 sections 8, 9, 12 to 15, RFC 3311): the messages of both legs, and each
//! action of a call as the messages that it results in. Nothing here knows in which order a request is checked, which
//! calls are live or which ports are free.
#![tactic(auto)]

mod action_messages;
mod callee_leg;
mod dress_result;
mod end_responses;
mod fields;
mod one_action;
mod requests;
mod scene;

pub use callee_leg::new_leg;
pub use dress_result::Dressed;
pub use end_responses::{answer, okay, provisional, refusal, retry_later, trying};
pub use fields::{contact_header, retry_alone};
pub use one_action::Saying;
pub use requests::{ack, bye, offer};
pub use scene::{Asker, Scene};
