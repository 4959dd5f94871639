//! What a step of the agent does, over its rows: why an event counts as if it had not come, what the REGISTERs of its
//! events are answered, and what is sent, and to whom, for each event that a call takes: offers, their answers, BYE,
//! CANCEL, provisional responses and timers. Nothing here runs.
#![tactic(auto)]

mod acks;
mod answers;
mod drops;
mod ends;
mod forks;
mod hangups;
mod lifetimes;
mod offers;
mod provisionals;
mod refusals;
mod registrations;
mod repeats;
mod replies;
mod rulings;
mod timeouts;
mod whole;

pub use acks::answers_wait_for_their_acks;
pub use answers::{
    fit_answers_are_passed_on, fit_answers_go_back, refusals_are_passed_on, unfit_answers_end_calls,
};
pub use drops::{nothing_is_dropped_unasked, what_is_not_done_sends_nothing};
pub use ends::calls_speak_to_their_ends;
pub use forks::forks_are_ended;
pub use hangups::{byes_are_passed_on, cancels_are_passed_on, second_cancels_go_no_further};
pub use lifetimes::calls_end_with_their_lifetimes;
pub use offers::{
    first_invites_are_passed_on, first_invites_go_where_bound, later_requests_are_served,
    later_requests_go_across,
};
pub use provisionals::provisionals_are_passed_on;
pub use refusals::{refusals_go_back, unclaimed_responses_get_an_ack_at_most};
pub use registrations::registers_are_counted;
pub use repeats::{repeats_get_what_went_before, timers_send_what_went_before};
pub use replies::own_responses_go_back;
pub use rulings::{awaited_responses_go_by_their_class, plain_byes_leave, plain_invites_begin};
pub use timeouts::unanswered_offers_end;
pub use whole::whatever_goes_has_a_reason;
