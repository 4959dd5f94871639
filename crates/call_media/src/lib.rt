//! The media of a call (RFC 3264): which pair of ports faces which end, medium by medium. Nothing here knows about
//! messages, phases or sockets.
#![tactic(auto)]

mod answer_plan;
mod changes;
mod end;
mod laws;
mod offer_plan;
mod previous;
mod refusal;
mod seat;
mod seats;
mod session;
mod state;
mod versions;

pub use answer_plan::PlannedAnswer;
pub use end::End;
pub use laws::{seats_are_apart, session_is_direct, spared_call_serves};
pub use offer_plan::PlannedOffer;
pub use refusal::{AnswerRefusal, OfferRefusal};
pub use seat::Seat;
pub use seats::{pairs_needed, ports_to_answerer, ports_to_offerer, seat_media, seats_in_use};
pub use session::{OpenOffer, Pairs, Seats, Session, SessionRows};
pub use state::CallMedia;
pub use versions::Versions;
