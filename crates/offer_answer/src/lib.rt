//! What an offer and an answer of descriptions mean (RFC 3264), directly and through a relay; which the server refuses;
//! and what it sends in place of those that it took. That the two meanings are the same is a law for all
//! descriptions. Nothing here knows about calls or messages.
#![tactic(auto)]

mod checks;
mod direct;
mod fault;
mod formats;
mod laws;
mod range;
mod sent_description;
mod session;
mod stream;

pub use checks::{check_answer, check_offer};
pub use direct::{destination, meaning};
pub use fault::{AnswerFault, OfferFault};
pub use formats::rtpmap_of;
pub use laws::{
    alike_is_equivalence, fewer_rows, held_call, hold_passes, joined_is_direct, plain_call,
    relayed_is_direct, rows_lead, rows_of_session_stand, sent_is_read,
};
pub use range::OwnRange;
pub use sent_description::{ServerOrigin, readdress};
pub use session::{plan_session, session_lines, session_pairs};
pub use stream::{Side, Stream};
