//! Transactions of the session initiation protocol (RFC 3261 section 17, with the Accepted states of RFC 6026): which
//! request is new, what is sent again and when, and which response belongs to which request. Nothing here knows about
//! dialogs, calls or users.
#![tactic(auto)]

mod apply;
mod change;
mod error;
mod foresee;
mod free_numbers;
mod laws;
mod matches;
mod outcome;
mod own_request;
mod places;
mod print;
mod rules;
mod same_branch;
mod slot;
mod slots;
mod table;
mod timer_changes;
mod transaction;
mod verdicts;
mod waiting;

pub use change::{Change, Entry};
pub use error::TableError;
pub use foresee::{Foreseen, ForeseenFire};
pub use laws::{
    answers_are_repeated, once, others_are_untouched, replies, requests_are_given_up, servers,
    sources_are_numbered,
};
pub use outcome::{Fired, Outgoing, Reception, Started, Verdict};
pub use own_request::OwnRequest;
pub use rules::TableRules;
pub use same_branch::{ack_of, cancel_of};
pub use table::Table;
pub use transaction::{TimerId, Transaction};
