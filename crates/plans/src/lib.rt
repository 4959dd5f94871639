//! What each rule results in, as one value: what is answered and sent, and what changes in the transactions, the
//! registrar, the calls and the ACKs that are sent again. It works on a borrowed office, so nothing changes here.
//! Nothing here knows about the order of checks.
#![tactic(auto)]

mod acks;
mod call_rows;
mod effects_of_events;
mod note;
mod offer_rows;
mod office;
mod plan;
mod reason;
mod replies;
mod response_rows;
mod rule;
mod setting;
mod taken;

pub use acks::{AckChange, KeptAck};
pub use effects_of_events::Doing;
pub use note::{Note, note_of_taken};
pub use offer_rows::reason_of_content;
pub use office::Office;
pub use plan::{Plan, one_change};
pub use reason::Reason;
pub use rule::{CallRule, Reply};
pub use setting::Setting;
pub use taken::{Taken, Why};
