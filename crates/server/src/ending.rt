//! How a run of the program ended.

use crate::fault::Fault;
use crate::reason::Reason;
use crate::words::CommandError;

/// How a run ended: what the shell and the user see.
#[derive(Drop)]
pub enum Ending {
    /// All went well, even if nothing was written.
    Done,
    /// The command line was refused. No stream was touched.
    Refused(CommandError),
    /// What was asked for could not be completed.
    Broken(Fault),
}

impl Ending {
    ghost use Rattle.std.specs.Prelude.{◌≡◌, option_map};
    ghost use Rattle.server.specs.Endings.{ending_help_of, ending_reason_of, ending_status_of, ending_words_of};

    /// The exit status.
    pub fn status(&self) -> u8
        ensures { result ≡ ending_status_of self.now }
    {
        match self {
            Ending::Done => 0,
            Ending::Refused(error) => error.status(),
            Ending::Broken(fault) => fault.status(),
        }
    }

    /// The words for standard error, without a line end; none if all went well.
    pub fn words(&self) -> Option<&'static str>
        ensures { option_map (λ w. w.now) result ≡ ending_words_of self.now }
    {
        match self {
            Ending::Done => None,
            Ending::Refused(error) => Some(error.words()),
            Ending::Broken(fault) => Some(fault.words()),
        }
    }

    /// The reason, for a second line, if more is known.
    pub fn reason(&self) -> Option<Reason<'_>>
        ensures { option_map (λ reason. reason.fault.now) result ≡ ending_reason_of self.now }
    {
        match self {
            Ending::Done | Ending::Refused(_) => None,
            Ending::Broken(fault) => fault.reason(),
        }
    }

    /// The help that was asked for, for standard output.
    pub fn help(&self) -> Option<&str>
        ensures { option_map (λ text. text.now) result ≡ ending_help_of self.now }
    {
        match self {
            Ending::Refused(error) => error.help(),
            Ending::Done | Ending::Broken(_) => None,
        }
    }
}
