//! After any events of a new agent the calls of their trace stand, show the agent's, and keep the whole media promise.
//! Nothing here runs.
#![tactic(auto)]

mod action_words;
mod agent_trace;
mod answer_moves;
mod answers;
mod answers_known;
mod byes;
mod call_moves;
mod call_stages;
mod event_moves;
mod fit_steps;
mod late;
mod lines;
mod machines;
mod media_promise;
mod new_dialogs;
mod new_requests;
mod numbers;
mod numbers_rise;
mod offer_requests;
mod offers;
mod offers_on;
mod repeats;
mod requests;
mod requests_on;
mod response_signals;
mod responses_on;
mod scene_legs;
mod scene_requests;
mod settles_on;
mod signals;
mod steps;
mod takes_on;
mod untouched_calls;

pub use action_words::actions_are_heard;
pub use agent_trace::agents_stand;
pub use answer_moves::moves_answer_open_offers;
pub use answers::answers_are_moves;
pub use answers_known::answers_are_known;
pub use byes::byes_are_known;
pub use call_moves::calls_go_on;
pub use call_stages::listed_calls_stand;
pub use event_moves::events_are_moves;
pub use fit_steps::{fit_steps_are_lines, successes_send_nothing};
pub use late::{late_responses_move_none, later_dialogs_stay, passed_responses_move_none};
pub use lines::{hidden_lines_move_none, lines_are_moves};
pub use machines::machines_are_known;
pub use media_promise::agents_keep_the_promise;
pub use new_dialogs::dialogs_that_come_fit;
pub use new_requests::new_requests_stand;
pub use numbers::numbers_are_left;
pub use numbers_rise::taken_numbers_rise;
pub use offer_requests::requests_are_offers;
pub use offers::offers_are_moves;
pub use offers_on::offers_go_on;
pub use repeats::repeats_move_none;
pub use requests::requests_move_none;
pub use requests_on::requests_go_on;
pub use response_signals::signals_come_of_responses;
pub use responses_on::responses_go_on;
pub use scene_legs::scenes_have_their_legs;
pub use scene_requests::scenes_have_their_requests;
pub use settles_on::answers_go_on;
pub use signals::signals_come;
pub use steps::{answers_go_again, lines_go_on, signal_steps_are_lines, signals_go_on};
pub use takes_on::{steps_are_heard, takes_go_on, timers_go_on};
pub use untouched_calls::{
    calls_left_stay_shown, listed_calls_have_spots, open_offers_stay_unanswered,
};
