//! What the agent knows after any events, as laws over the outcome of each event: of its own messages, of its pool of
//! ports and relay table, of what it sends, which reads back, and of the trace of all that. Nothing here runs.
#![tactic(auto)]

mod acks;
mod actions;
mod bodies;
mod callee_dialogs;
mod clients;
mod datagrams;
mod kinds;
mod knowledge;
mod known;
mod message_views;
mod new_tokens;
mod numbers;
mod offer_carriage;
mod open_offers;
mod open_requests;
mod pending_offers;
mod quiet;
mod repeats;
mod reply_traces;
mod sends;
mod sessions;
mod sound;
mod sources;
mod steps;
mod tokens;
mod trace_calls;
mod written;

pub use acks::acks_are_kept;
pub use actions::actions_are_said;
pub use bodies::{
    address_has_four_octets, descriptions_are_known, descriptions_are_read, descriptions_read_back,
};
pub use callee_dialogs::answered_calls_have_callees;
pub use clients::clients_are_sound;
pub use datagrams::{open_offers_keep_their_requests, responses_are_read};
pub use kinds::sends_are_of_kinds;
pub use knowledge::messages_are_known;
pub use known::traces_are_known;
pub use message_views::{actions_are_seen, requests_are_seen, responses_are_seen, steps_are_seen};
pub use new_tokens::next_tokens_are_unused;
pub use numbers::numbers_rise;
pub use offer_carriage::open_offers_are_carried;
pub use open_offers::open_offers_were_asked;
pub use open_requests::open_offers_have_requests;
pub use pending_offers::offers_are_awaited;
pub use quiet::{replies_are_plain, rules_reply_quietly, what_no_call_takes_is_quiet};
pub use repeats::what_goes_again_was_sent;
pub use reply_traces::replies_stand_in_traces;
pub use sends::sends_are_read;
pub use sessions::{calls_are_served, served_as_told};
pub use sound::dialogs_are_kept_sound;
pub use sources::{configuration_names_an_address, event_comes_from_source};
pub use steps::{comings_are_sound, steps_are_said};
pub use tokens::{tokens_are_drawn_once, tokens_of_other_counts_differ};
pub use trace_calls::traced_calls_are_served;
pub use written::{cancels_are_written, requests_are_written};
