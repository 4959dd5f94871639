//! The call: two legs and one session (RFC 3261 sections 9, 13, 14 and 15, RFC 3264, RFC 3311). Each end's requests and
//! responses, and the timers of the call, are signals; for a phase and a signal the table says what is done, in order,
//! and what comes next. Nothing here knows about bytes, transactions or sockets.
#![tactic(auto)]

mod action;
mod answered;
mod asked;
mod at_once;
mod call;
mod cancelling;
mod carry_out;
mod clash;
mod ending;
mod input;
mod laws;
mod note;
mod plan;
mod planner;
mod reasked;
mod refusal;
mod refusal_status;
mod row;
mod settled;
mod signal;
mod stage;
mod table;
mod updating;

pub use action::{Action, Actions, CallTimer};
pub use call::Call;
pub use call_media::End;
pub use clash::{Clash, clash_at, clash_without_offer};
pub use input::Input;
pub use laws::{
    lines_have_notes, session_is_direct, session_is_of_its_exchange, spared_call_is_served,
};
pub use note::{CallNote, NoteOfCall};
pub use plan::{Done, MediaPlan, Numbers, Plan};
pub use refusal::CallRefusal;
pub use refusal_status::status_passed_on;
pub use row::Row;
pub use signal::{OfferMethod, Signal};
pub use stage::{Cancelled, Phase, Stage, Standing};
pub use table::{first_row, row_at};
