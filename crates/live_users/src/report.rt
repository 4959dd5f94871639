//! What is reported of a configuration's file.

use configuration::ConfigFault;
use text::Texts;

/// What is reported of a configuration's file.
#[derive(Drop)]
pub enum FileReport {
    /// Its users differ from those that were reported last: this many were added, and this many removed.
    Users {
        users: Texts<'static>,
        added: usize,
        removed: usize,
    },
    /// It is right again, and its users are the same.
    RightAgain,
    /// It says no configuration, or one that breaks a rule: why, and where. None where it can't be read.
    Refused(Option<ConfigFault>),
}
