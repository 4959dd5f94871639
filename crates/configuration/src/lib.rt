//! How an office is configured: its values, the rules that they keep, and the file that holds them (TOML).
//!
//! A configuration is a plain value, which may break the rules: `check` returns the first that is broken.
#![tactic(auto)]

mod config;
mod entries;
mod error;
mod example;
mod fault;
mod fields;
mod flaw;
mod judge;
mod key;
mod key_flaws;
mod laws;
mod level;
mod lines;
mod names;
mod numbers;
mod ranges;
mod read;
mod rule_flaws;
mod rules;
mod skip;
mod status;
mod tables;
mod user_list;
mod words;

pub use config::Config;
pub use error::ConfigError;
pub use example::example_config;
pub use fault::{ConfigFault, fault_of};
pub use flaw::Flaw;
pub use key::Key;
pub use laws::{laws_of_keys, laws_of_ranges, laws_of_user_lists};
pub use level::LogLevel;
pub use read::read_config;
pub use rule_flaws::check;
pub use user_list::is_user_list;
