//! The messages of a step, and those of them that are kept.

ghost use Rattle.std.specs.Prelude.{◌≡◌, ◌==◌, ◌≤◌, ◌+◌, ◌^◌, ◌&&◌, not, IfOk, OnOk, None, find, if◌then◌else◌, length, option_to_list};
ghost use Rattle.std.specs.Option.{option_copied};
ghost use Rattle.call_steps.specs.Messages.{ack_kept, answer_kept, first_sent, is_abandon, is_ack, is_answer, messages};
ghost use Rattle.call_messages.specs.Dressed.{no_message};
ghost use Rattle.call_steps.specs.Values.{dressed_in, scene_value};

use call_core::Action;
use call_messages::{Dressed, Scene};
use events::Sent;
use std::alloc::{AllocError, Global};
use transactions::Change;

/// The messages of a step, with copies of those that are sent again.
#[derive(Drop)]
pub struct StepMessages {
    pub dressed: Dressed,
    /// The 200 with the answer.
    pub answer: Option<Sent>,
    /// The ACK of a 2xx.
    pub ack: Option<Sent>,
}

impl StepMessages {
    /// No message. Takes no memory.
    fn none(alloc: Global) -> StepMessages
        ensures { result ≡ record { dressed = no_message; answer = None; ack = None } }
    {
        StepMessages {
            dressed: Dressed::no_message(alloc),
            answer: None,
            ack: None,
        }
    }

    /// Keeps what an action sends, where it is the 200 with the answer or the ACK that is sent again.
    fn keep(
        &mut self,
        alloc: Global,
        answers: bool,
        acknowledges: bool,
        send: Option<&Sent>,
    ) -> Result<(), AllocError>
        ensures { OnOk result (self.new ≡ record self.old {
          answer = if answers then first_sent (option_to_list (option_copied send.entry)) else self.old.answer;
          ack = if acknowledges then first_sent (option_to_list (option_copied send.entry)) else self.old.ack;
        }) }
    {
        if answers {
            self.answer = first_sent(alloc, send)?;
        }
        if acknowledges {
            self.ack = first_sent(alloc, send)?;
        }
        Ok(())
    }
}

fn is_answer(action: Action) -> bool
    ensures { result ≡ is_answer action }
{
    match action {
        Action::Answer(_) => true,
        _ => false,
    }
}

fn is_ack(action: Action) -> bool
    ensures { result ≡ is_ack action }
{
    match action {
        Action::Ack(_) => true,
        _ => false,
    }
}

fn is_abandon(action: Action) -> bool
    ensures { result ≡ is_abandon action }
{
    match action {
        Action::Abandon(_) => true,
        _ => false,
    }
}

fn abandon_among(actions: &[Action]) -> Option<&Action>
    ensures { option_copied result ≡ find is_abandon actions.now }
{
    actions.iter().find(|action| is_abandon(**action))
}

// ---- what is kept

fn first_sent(alloc: Global, send: Option<&Sent>) -> Result<Option<Sent>, AllocError>
    ensures { IfOk result (λ sent. sent ≡ first_sent (option_to_list (option_copied send.entry))) }
{
    let Some(sent) = send else {
        return Ok(None);
    };
    let bytes = sent.bytes.keep(alloc)?;
    Ok(Some(Sent { to: sent.to, bytes }))
}

/// Whether an action is an answer, and the first among some.
fn answers_first(answered: bool, action: Action) -> bool
    ensures { result ≡ (not answered && is_answer action) }
{
    !answered && is_answer(action)
}

/// Whether an action at this place is an ACK, and the first among some.
fn acknowledges_first(at: usize, action: Action) -> bool
    ensures { result ≡ (at == 0 && is_ack action) }
{
    at == 0 && is_ack(action)
}

/// The messages of these actions, with copies of those that are sent again: the 200 with the answer, and an ACK that
/// is the first.
#[tactic(auto, using(crate::proofs::SceneLaws::dressed_lent))]
fn with_copies(
    alloc: Global,
    scene: &Scene<'_, '_>,
    actions: &[Action],
) -> Result<StepMessages, AllocError>
    requires few { scene.now.tokens ≤ 2 ^ 63 + 255 }
    ensures dressed { IfOk result (λ m. m.dressed ≡ dressed_in (scene_value scene.now) actions.now) }
    ensures answer { IfOk result (λ m. m.answer ≡ answer_kept (scene_value scene.now) (find is_answer actions.now)) }
    ensures ack { IfOk result (λ m. m.ack ≡ ack_kept (scene_value scene.now) actions.now) }
    ensures few { IfOk result (λ m. m.dressed.made ≤ length actions.now) }
{
    let mut said = StepMessages::none(alloc);
    let mut answered = false;
    for at in 0..actions.len() {
        let saying = scene.dress_one(alloc, scene.tokens + said.dressed.made, actions[at])?;
        let answers = answers_first(answered, actions[at]);
        let acknowledges = acknowledges_first(at, actions[at]);
        said.keep(alloc, answers, acknowledges, saying.send.as_ref())?;
        answered |= answers;
        saying.put_behind(&mut said.dressed)?;
    }
    Ok(said)
}

/// The messages of these actions, where this INVITE was passed on and still waits for a final response.
#[tactic(auto, unfolding(crate::specs::Messages::messages))]
pub(crate) fn messages(
    alloc: Global,
    scene: &Scene<'_, '_>,
    passed: Option<usize>,
    actions: &[Action],
) -> Result<StepMessages, AllocError>
    requires few { scene.now.tokens ≤ 2 ^ 63 + 255 }
    ensures messages { IfOk result (λ m. m ≡ messages (scene_value scene.now) passed actions.now) }
    ensures few { IfOk result (λ m. m.dressed.made ≤ length actions.now) }
{
    let mut said = with_copies(alloc, scene, actions)?;
    if let (Some(id), Some(_)) = (passed, abandon_among(actions)) {
        said.dressed.changes.push(Change::abandons(id))?;
    }
    Ok(said)
}
