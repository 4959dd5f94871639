//! What a call does for an event, as one value: the change among the calls, the messages, and the ACK that is sent
//! again. A step is planned with nothing changed. Nothing here knows about the order of checks, bytes that came, or
//! sockets.
#![tactic(auto)]

mod answer_dialog;
mod arrival;
mod call_step;
mod forks;
mod inputs;
mod later_offers;
mod messages;
mod new_call;
mod numbers;
mod occasion;
mod scene;

pub use answer_dialog::answers_leg;
pub use arrival::ReceivedRequest;
pub use call_step::CallStep;
pub use forks::{fork, late_ack};
pub use inputs::takes;
pub use later_offers::offers;
pub use new_call::first_call;
pub use numbers::{counts, counts_in_call, refreshes};
pub use occasion::Occasion;
pub use scene::offerer_tag;
