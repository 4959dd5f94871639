//! What an event results in for all that the agent has.

ghost use Rattle.std.specs.Prelude.{◌≡◌, ◌++◌, ℕ, IfOk, List, None, Some};
ghost use Rattle.calls.specs.State.{Standing};
ghost use Rattle.plans.specs.declared.acks.KeptAck.{KeptAck};
ghost use Rattle.calls.specs.Changes.{unchanged, without_timer};
ghost use Rattle.call_steps.specs.Effects as steps;
ghost use Rattle.plans.specs.declared.taken.Taken.TheVariants.{Done};
ghost use Rattle.plans.specs.CallRows.{acks_with, puts_if, with_step};
ghost use Rattle.plans.specs.Effect.{CanEnter, Fits, acks_after, alone, effect, fired_off, without_ack};
ghost use Rattle.plans.specs.Note.{note_of_call};
ghost use Rattle.plans.specs.Plan.{goes};

use crate::acks::{AckChange, KeptAck};
use crate::note::note_of_call;
use crate::plan::Plan;
use crate::taken::Taken;
use call_core::NoteOfCall;
use call_messages::Dressed;
use call_steps::CallStep;
use calls::{CallChange, CallTimerId, LegDialog};
use events::Sent;
use std::alloc::AllocError;
use transactions::{Change, Outgoing};

/// What an event results in: its plan, and what changes among the calls and the ACKs that are sent again. All that
/// takes memory has been done, except the room of the lists that it goes into.
#[derive(Drop)]
pub struct Doing {
    pub plan: Plan,
    pub calls: CallChange,
    /// The timer of a call that fires.
    pub fired: Option<CallTimerId>,
    pub acks: AckChange,
    /// How many tokens are made for the calls, besides those of the plan.
    pub made: u64,
}

impl Doing {
    /// It concerns no call. Takes no memory.
    pub fn alone(plan: Plan) -> Doing
        ensures row { (calls : Standing) (acks : List KeptAck) (now : ℕ) → effect calls acks now result ≡ alone calls acks plan }
        ensures fits { (calls : Standing) (now : ℕ) → Fits calls now result }
    {
        Doing {
            plan,
            calls: CallChange::Unchanged,
            fired: None,
            acks: AckChange::Stay,
            made: 0,
        }
    }

    /// The transaction with this number ended. Takes no memory.
    pub fn ends(plan: Plan, id: usize) -> Doing
        ensures row { (calls : Standing) (acks : List KeptAck) (now : ℕ) →
            effect calls acks now result ≡ record { plan = plan; calls = unchanged calls; acks = without_ack id acks } }
        ensures fits { (calls : Standing) (now : ℕ) → Fits calls now result }
    {
        Doing {
            plan,
            calls: CallChange::Unchanged,
            fired: None,
            acks: AckChange::Ends(id),
            made: 0,
        }
    }

    /// A timer of a call fires, and this concerns no call. Takes no memory.
    pub(crate) fn of_fired_timer(plan: Plan, timer: CallTimerId) -> Doing
        ensures row { (calls : Standing) (acks : List KeptAck) (now : ℕ) →
            effect calls acks now result ≡ alone (without_timer timer calls) acks plan }
        ensures fits { (calls : Standing) (now : ℕ) → Fits calls now result }
    {
        Doing {
            plan,
            calls: CallChange::Unchanged,
            fired: Some(timer),
            acks: AckChange::Stay,
            made: 0,
        }
    }

    /// This dialog is put beside the call at this place, where there is one. Takes no memory.
    pub(crate) fn puts(plan: Plan, place: usize, leg: Option<LegDialog>) -> Doing
        ensures row { (calls : Standing) (acks : List KeptAck) (now : ℕ) →
            effect calls acks now result ≡ record { plan = plan; calls = unchanged (puts_if calls place leg); acks = acks } }
        ensures fits { (calls : Standing) (now : ℕ) → Fits calls now result }
    {
        let calls = match leg {
            None => CallChange::Unchanged,
            Some(leg) => CallChange::Puts { place, leg },
        };
        Doing {
            plan,
            calls,
            fired: None,
            acks: AckChange::Stay,
            made: 0,
        }
    }

    /// A step of a call, after what the transactions do.
    pub(crate) fn of_step(before: Before, step: CallStep) -> Result<Doing, AllocError>
        ensures row { (calls : Standing) (acks : List KeptAck) (now : ℕ) →
            IfOk result (λ d. effect calls acks now d ≡ with_step acks before.begun.items before.send before.id (steps.effect calls now step)) }
        ensures fits { (calls : Standing) (now : ℕ) → CanEnter calls now step → IfOk result (Fits calls now) }
    {
        Doing::of_fired_step(None, before, step)
    }

    /// A step of a call whose timer fires.
    pub(crate) fn of_fired_step(
        fired: Option<CallTimerId>,
        before: Before,
        step: CallStep,
    ) -> Result<Doing, AllocError>
        ensures row { (calls : Standing) (acks : List KeptAck) (now : ℕ) →
            IfOk result (λ d. effect calls acks now d ≡ with_step acks before.begun.items before.send before.id (steps.effect (fired_off fired calls) now step)) }
        ensures fits { (calls : Standing) (now : ℕ) → CanEnter (fired_off fired calls) now step → IfOk result (Fits calls now) }
    {
        let Before { begun, send, id } = before;
        let CallStep {
            change,
            dressed,
            ack,
            note,
        } = step;
        let Dressed {
            changes,
            sends,
            made,
        } = dressed;
        match plan_of(begun, send, changes, sends, note) {
            Ok(plan) => Ok(Doing {
                plan,
                calls: change,
                fired,
                acks: kept(id, ack),
                made,
            }),
            Err(error) => {
                drop(change);
                drop(ack);
                Err(error)
            }
        }
    }
}

/// What the transactions do before a step of a call.
#[derive(Drop)]
pub(crate) struct Before {
    /// Their changes so far.
    pub begun: Vec<Change>,
    /// What they send by themselves.
    pub send: Option<Outgoing>,
    /// The transaction of the INVITE whose ACK is kept.
    pub id: Option<usize>,
}

impl Before {
    pub(crate) fn alone(begun: Vec<Change>) -> Before
        ensures begun { result.begun.items ≡ begun.items }
        ensures send { result.send ≡ None }
        ensures id { result.id ≡ None }
    {
        Before {
            begun,
            send: None,
            id: None,
        }
    }

    pub(crate) fn with_sent(begun: Vec<Change>, send: Option<Outgoing>) -> Before
        ensures begun { result.begun.items ≡ begun.items }
        ensures send { result.send ≡ send }
        ensures id { result.id ≡ None }
    {
        Before {
            begun,
            send,
            id: None,
        }
    }

    pub(crate) fn with_kept(begun: Vec<Change>, send: Option<Outgoing>, id: usize) -> Before
        ensures begun { result.begun.items ≡ begun.items }
        ensures send { result.send ≡ send }
        ensures id { result.id ≡ Some id }
    {
        Before {
            begun,
            send,
            id: Some(id),
        }
    }
}

/// The ACK of a 2xx is kept by the number of its INVITE's transaction.
fn kept(id: Option<usize>, ack: Option<Sent>) -> AckChange
    ensures { (acks : List KeptAck) → acks_after acks result ≡ acks_with acks id ack }
{
    match (id, ack) {
        (Some(id), Some(sent)) => AckChange::Keeps(KeptAck { id, sent }),
        (None, ack) => {
            drop(ack);
            AckChange::Stay
        }
        (Some(_), None) => AckChange::Stay,
    }
}

/// What the transactions send by themselves, and after it what a step sends.
fn with_first(send: Option<Outgoing>, mut sends: Vec<Sent>) -> Result<Vec<Sent>, AllocError>
    ensures { IfOk result (λ all. all.items ≡ goes send ++ sends.items) }
{
    if let Some(Outgoing { to, bytes }) = send {
        sends.insert(0, Sent { to, bytes })?;
    }
    Ok(sends)
}

/// The plan of a step, after what the transactions do.
fn plan_of(
    mut begun: Vec<Change>,
    send: Option<Outgoing>,
    mut changes: Vec<Change>,
    sends: Vec<Sent>,
    note: Option<NoteOfCall>,
) -> Result<Plan, AllocError>
    ensures { IfOk result (λ p. p ≡ record { taken = Done; changes = begun.items ++ changes.items; sends = goes send ++ sends.items; registration = None; made = 0; note = note_of_call note }) }
{
    let sends = with_first(send, sends)?;
    begun.append(&mut changes)?;
    Ok(Plan {
        taken: Taken::Done,
        changes: begun,
        sends,
        registration: None,
        made: 0,
        note: note_of_call(note),
    })
}
