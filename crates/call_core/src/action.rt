//! What a call does.

use crate::signal::OfferMethod;
use call_media::End;
use std::alloc::{AllocError, Global};
use std::marker::Model;

/// A timer of a call.
#[derive(Clone, Copy, Debug, PartialEq, Eq, PartialOrd, Ord)]
pub enum CallTimer {
    /// How long the other end may ring, or may take after a CANCEL.
    Limit,
    /// When the 2xx is sent again.
    Repeat,
    /// How long the ACK may take.
    Wait,
    /// How long the call may last from its first answer on.
    Lifetime,
}

/// Something that a call does. Each message goes to the end that is named.
#[derive(Clone, Copy, Debug)]
pub enum Action {
    /// 100 to the INVITE that is passed on.
    Trying(End),
    /// The offer, as the server sends it on, in a request of this method.
    Offer(End, OfferMethod),
    /// A provisional response that is passed on, without a body.
    Provisional(End, u16),
    /// The ACK of a 2xx.
    Ack(End),
    /// 200 to the offer, with the answer as the server sends it on.
    Answer(End),
    /// The same 200 again.
    AnswerAgain(End),
    /// A final response to the offer that is not a 2xx.
    Refusal(End, u16),
    /// 200 to a BYE or a CANCEL.
    Okay(End),
    /// CANCEL of the INVITE that was passed on.
    Cancel(End),
    Bye(End),
    /// The rows of the exchange replace the call's former ones, and the pairs that it doesn't use rest.
    PutRows,
    /// The pairs that were reserved for the open offer rest.
    Release,
    /// All pairs of the call rest, and its rows go.
    RemoveRows,
    /// A timer is set, or set anew, to this many milliseconds after the event.
    Set(CallTimer, u64),
    /// A timer stops, if it was set.
    Stop(CallTimer),
    /// The INVITE that was passed on, which waits for a final response, is given up.
    Abandon(End),
}

/// Actions in order, which contracts see as a list.
pub struct Actions {
    actions: Vec<Action>,
}

impl Drop for Actions {
    fn drop(self) {
        let Actions { actions: _ } = self;
    }
}

impl Model for Actions {
    ghost use Rattle.std.specs.Prelude.{List};
    ghost use Rattle.call_core.specs.declared.action.Action.{Action};

    ghost Value = { List Action };

    ghost view = { λ a. a.actions.items };
}

impl Actions {
    ghost use Rattle.std.specs.Prelude.{◌≡◌, IfOk, []};

    /// No action.
    pub(crate) fn none(alloc: Global) -> Actions
        ensures { result ≡ [] }
    {
        Actions {
            actions: Vec::new(alloc),
        }
    }

    /// The list of these actions.
    pub(crate) fn of(alloc: Global, actions: &[Action]) -> Result<Actions, AllocError>
        ensures { IfOk result (λ list. list ≡ actions.now) }
    {
        let actions = Vec::from_slice(alloc, actions)?;
        Ok(Actions { actions })
    }

    /// The actions, borrowed. Takes no memory.
    pub fn as_slice(&self) -> &[Action]
        ensures { result.now ≡ self.now }
    {
        &self.actions
    }
}
