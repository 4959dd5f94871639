//! The registrar: which contacts each user of the office is bound to (RFC 3261 section 10.3).
//!
//! A user has a list of bindings. A REGISTER changes it by all of its contacts, or doesn't change it. A list of users
//! says who the users are from then on.
#![tactic(auto)]

mod binding;
mod binding_rules;
mod change;
mod contact_rules;
mod copies;
mod draft;
mod entries;
mod laws;
mod plan;
mod refusal;
mod register;
mod register_rules;
mod registrar;
mod targets;
mod user_bindings;

pub use binding::{Binding, Bindings};
pub use binding_rules::BindingRules;
pub use change::{Listing, RegistrarChange};
pub use laws::{laws_of_binding_rules, laws_of_bindings};
pub use plan::Plan;
pub use refusal::Refusal;
pub use register::{Contact, Contacts, Register};
pub use registrar::Registrar;
pub use user_bindings::UserBindings;
