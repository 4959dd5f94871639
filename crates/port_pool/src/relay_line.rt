//! A line of a call's rows.

use crate::hop::Hop;

/// The row that a port of a call is to have, if any.
#[derive(Clone, Copy)]
pub struct RelayLine {
    pub port: u16,
    pub hop: Option<Hop>,
}
