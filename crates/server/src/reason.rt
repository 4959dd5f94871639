//! Why a run could not be completed, in words.

use crate::fault::Fault;
use std::fmt;

/// The words for standard error that say why, on one line and without its end.
#[derive(Clone, Copy)]
pub struct Reason<'f> {
    pub(crate) fault: &'f Fault,
}

impl fmt::Display for Reason<'_> {
    fn fmt<W: fmt::Write>(&self, f: &mut fmt::Formatter<W>) -> fmt::Result {
        match self.fault {
            Fault::Config(Some(fault)) => write!(f, "{fault}"),
            Fault::Config(None) => f.write_str("the file of the configuration cannot be read"),
            Fault::Script(at) => write!(
                f,
                "offset {at}: no event begins; a line 'D now salt ip port length', 'T now salt', 'Q now salt number' or 'U now salt names' is asked"
            ),
            Fault::Input | Fault::Output | Fault::Socket | Fault::OutOfMemory => Ok(()),
        }
    }
}
