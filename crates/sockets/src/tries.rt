//! How often a socket is read before the system is asked whether anything is there.

/// How many receives are tried in a row at most.
const MAX_TRIES: u32 = 64;

/// How often in a row all of them have to find a datagram before twice as many are tried.
const TIMES_FULL: u32 = 16;

/// How many receives are tried after a question, how many of them are left, and how often in a row all of them found
/// a datagram. A receive that finds nothing is wasted, and so is each question when much comes. So one receive is
/// tried at first, twice as many if all found something for a while, and half as many if one did not.
#[derive(Clone, Copy)]
pub(crate) struct Tries {
    most: u32,
    left: u32,
    full: u32,
}

impl Tries {
    /// The system has to be asked.
    pub(crate) fn new() -> Tries {
        Tries {
            most: 1,
            left: 0,
            full: 0,
        }
    }

    /// Whether a receive is tried before the system is asked.
    pub(crate) fn are_left(self) -> bool {
        self.left > 0
    }

    /// The system was asked whether anything is there.
    pub(crate) fn behind_question(self, is_there: bool) -> Tries {
        Tries {
            left: if is_there { self.most } else { 0 },
            ..self
        }
    }

    /// A receive found a datagram.
    pub(crate) fn behind_datagram(self) -> Tries {
        let left = self.left.saturating_sub(1);
        if left > 0 {
            return Tries { left, ..self };
        }
        if self.full < TIMES_FULL {
            let full = self.full.saturating_add(1);
            return Tries { left, full, ..self };
        }
        Tries {
            most: self.most.saturating_mul(2).min(MAX_TRIES),
            left,
            full: 0,
        }
    }

    /// A receive found nothing.
    pub(crate) fn behind_nothing(self) -> Tries {
        Tries {
            most: (self.most / 2).max(1),
            left: 0,
            full: 0,
        }
    }
}
