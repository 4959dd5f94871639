//! What a call would do: planned with nothing changed, and carried out later on the same values.

ghost use Rattle.std.specs.Prelude.{◌≡◌};
ghost use Rattle.call_core.specs.Calls.{none_counted, numbers_to};

use crate::action::Actions;
use crate::stage::Standing;
use call_media::{End, PlannedAnswer, PlannedOffer};
use port_pool::Change;
use sdp::Description;

/// What happens to the media of a call, and to the pool with them.
#[derive(Drop)]
pub enum MediaPlan {
    /// Nothing.
    Keeps,
    /// This offer is passed on. `offer.offer_sent` is what goes to the other end.
    Holds(PlannedOffer),
    /// This answer is passed on. `sent` is what goes to the offerer.
    Puts(PlannedAnswer),
    /// The open offer is given up, if there is one.
    Withdraws,
    /// All pairs rest, and these removals take all rows away.
    Ends(Vec<Change>),
}

impl MediaPlan {
    ghost use Rattle.std.specs.Option.{option_copied};
    ghost use Rattle.call_core.specs.Plans.{description_sent};

    /// The offer or the answer that is passed on, as the server sends it. Takes no memory.
    pub fn description(&self) -> Option<&Description<'static>>
        ensures { option_copied result ≡ description_sent self.now }
    {
        match self {
            MediaPlan::Holds(planned) => Some(planned.offer.offer_sent.get()),
            MediaPlan::Puts(planned) => Some(planned.sent.get()),
            MediaPlan::Keeps | MediaPlan::Withdraws | MediaPlan::Ends(_) => None,
        }
    }
}

/// The numbers of requests that count in the dialogs of a call, if one is sent there.
#[derive(Clone, Copy)]
pub struct Numbers {
    pub to_caller: Option<u32>,
    pub to_callee: Option<u32>,
}

impl Numbers {
    pub(crate) fn none() -> Numbers
        ensures { result ≡ none_counted }
    {
        Numbers {
            to_caller: None,
            to_callee: None,
        }
    }

    pub(crate) fn to(end: End, number: Option<u32>) -> Numbers
        ensures { result ≡ numbers_to end number }
    {
        match end {
            End::Caller => Numbers {
                to_caller: number,
                to_callee: None,
            },
            End::Callee => Numbers {
                to_caller: None,
                to_callee: number,
            },
        }
    }
}

/// What a call would do for an input.
#[derive(Drop)]
pub struct Plan {
    /// What is done, in order.
    pub actions: Actions,
    /// The call's standing then; none where it is gone.
    pub next: Option<Standing>,
    /// The number of the INVITE or UPDATE that is sent, if one is sent in a dialog.
    pub numbers: Numbers,
    pub media: MediaPlan,
}

/// What a call did.
#[derive(Drop)]
pub struct Done {
    /// What is to be sent and set, in order.
    pub actions: Actions,
    /// The changes of the relay table, by rising port.
    pub changes: Vec<Change>,
}
