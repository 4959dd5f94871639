//! What changes among the calls.

use crate::standing_call::{StandingCall, TakenOffer};
use boxed::Boxed;
use call_core::{End, Plan};
use dialogs::Dialog;
use events::Sent;

/// The dialog with an end.
#[derive(Drop)]
pub struct LegDialog {
    pub end: End,
    pub dialog: Boxed<Dialog>,
}

/// What is put beside a call with what was planned for it.
#[derive(Drop)]
pub struct Beside {
    /// This dialog is put in place of the one with its end.
    pub leg: Option<LegDialog>,
    /// This offer is the one that was taken last.
    pub taken: Option<TakenOffer>,
    /// This 200 is the one that is sent again. The offerer is reached from then on where its offer said (RFC 3261
    /// section 12.2.2).
    pub answer: Option<Sent>,
}

impl Beside {
    ghost use Rattle.std.specs.Prelude.{◌≡◌, is_some};

    /// Whether a dialog is put. Takes no memory.
    pub(crate) fn puts_dialog(&self) -> bool
        ensures { result ≡ is_some self.now.leg }
    {
        self.leg.is_some()
    }
}

/// What changes among the calls: planned with nothing changed, and entered later on the same values.
#[derive(Drop)]
pub enum CallChange {
    /// Nothing.
    Unchanged,
    /// This call begins, and does what was planned for it.
    Begins(Boxed<StandingCall>, Boxed<Plan>),
    /// The call at this place does what was planned for it. Where it is still live then, this is put beside it.
    Carries {
        place: usize,
        beside: Boxed<Beside>,
        plan: Boxed<Plan>,
    },
    /// This dialog is put in place of the one with its end.
    Puts {
        place: usize,
        leg: LegDialog,
    },
}
