//! A 2xx that no call takes.

ghost use Rattle.std.specs.Prelude.{◌≡◌, ◌<◌, ◌≤◌, ◌^◌, ℕ, IfOk, option_map};
ghost use Rattle.sip_message.specs.Contact.{contacts_of};
ghost use Rattle.dialogs.specs.Making.{reached_at};
ghost use Rattle.calls.specs.Changes.{FitsChange, entered};
ghost use Rattle.calls.specs.State.{Standing};
ghost use Rattle.call_steps.specs.Effects.{effect};
ghost use Rattle.call_steps.specs.Rows.{fork_messages, fork_row, forked, late_messages, late_row, later_dialog, with_their_tag};
ghost use Rattle.call_steps.specs.Scenes.{fork_scene};
ghost use Rattle.call_steps.specs.Values.{scene_value};

use crate::answer_dialog::callee_dialog;
use crate::call_step::CallStep;
use crate::messages::{StepMessages, messages};
use crate::occasion::Occasion;
use call_core::{Action, End};
use call_messages::Scene;
use calls::CallChange;
use dialogs::{Dialog, DialogId};
use sip_message::{Response, tag_text};
use std::alloc::{AllocError, Global};
use text::Text;
use transactions::Transaction;

/// What the messages in this dialog are dressed with.
fn fork_scene(occasion: Occasion, leg: &Dialog) -> Scene<'_, 'static>
    ensures scene { scene_value result ≡ fork_scene occasion leg.now }
    ensures tokens { result.tokens ≡ occasion.tokens }
{
    Scene {
        server: occasion.server,
        salt: occasion.salt,
        tokens: occasion.tokens,
        offer: None,
        request: None,
        caller: None,
        callee: Some(leg),
        passed: None,
        description: None,
        again: None,
        hops: 0,
    }
}

fn fork_messages(
    alloc: Global,
    occasion: Occasion,
    leg: &Dialog,
) -> Result<StepMessages, AllocError>
    requires few { occasion.tokens ≤ 2 ^ 63 }
    ensures messages { IfOk result (λ m. m ≡ fork_messages occasion leg.now) }
    ensures few { IfOk result (λ m. m.dressed.made ≤ 2) }
{
    let scene = fork_scene(occasion, leg);
    messages(
        alloc,
        &scene,
        None,
        &[Action::Ack(End::Callee), Action::Bye(End::Callee)],
    )
}

/// No call changes.
fn of_fork(said: StepMessages) -> CallStep
    ensures row { (calls : Standing) (now : ℕ) → effect calls now result ≡ forked calls said }
    ensures fits { (calls : Standing) (now : ℕ) → FitsChange calls now result.change }
    ensures begun { (calls : Standing) (now : ℕ) → (entered calls now result.change).standing.begun ≡ calls.begun }
    ensures dressed { result.dressed ≡ said.dressed }
{
    let StepMessages {
        dressed,
        answer,
        ack,
    } = said;
    drop(answer);
    CallStep {
        change: CallChange::Unchanged,
        dressed,
        ack,
        note: None,
    }
}

/// What a 2xx that no call takes, to an INVITE of the server's own, results in: ACK, and BYE after it, in the dialog
/// that it makes (RFC 3261 section 13.2.2.4); nothing, where its Contact doesn't say where the callee is reached. No
/// call changes.
#[tactic(auto, unfolding(crate::specs::Rows::fork_row))]
pub fn fork(
    alloc: Global,
    occasion: Occasion,
    asked: &Transaction,
    response: &Response<'_>,
) -> Result<CallStep, AllocError>
    requires few { occasion.tokens ≤ 2 ^ 63 }
    ensures row { (calls : Standing) (now : ℕ) → IfOk result (λ step. effect calls now step ≡ fork_row calls occasion asked.now.parts response.now) }
    ensures fits { (calls : Standing) (now : ℕ) → IfOk result (λ step. FitsChange calls now step.change) }
    ensures few { IfOk result (λ step. step.dressed.made < 2 ^ 63) }
    ensures begun { (calls : Standing) (now : ℕ) → IfOk result (λ step. (entered calls now step.change).standing.begun ≡ calls.begun) }
{
    let Some(leg) = callee_dialog(alloc, asked, response)? else {
        return Ok(CallStep::nothing(alloc));
    };
    let said = fork_messages(alloc, occasion, &leg);
    drop(leg);
    Ok(of_fork(said?))
}

fn with_their_tag(dialog: Dialog, tag: Text<'static>) -> Dialog
    ensures { result ≡ with_their_tag tag.entry dialog }
{
    let Dialog {
        id,
        ours,
        theirs,
        target,
        local_number,
        remote_number,
    } = dialog;
    let DialogId {
        call_id,
        ours: our_tag,
        theirs: former,
    } = id;
    drop(former);
    Dialog {
        id: DialogId {
            call_id,
            ours: our_tag,
            theirs: tag,
        },
        ours,
        theirs,
        target,
        local_number,
        remote_number,
    }
}

/// The dialog of a later INVITE, whose own tag To has.
fn later_dialog(
    alloc: Global,
    asked: &Transaction,
    response: &Response<'_>,
) -> Result<Option<Dialog>, AllocError>
    ensures { IfOk result (λ d. d ≡ option_map (later_dialog asked.now.parts response.now) (reached_at (contacts_of response.now.headers))) }
{
    let tag = Text::from_slice(alloc, tag_text(asked.parts.to.params.as_slice()))?;
    let Some(dialog) = callee_dialog(alloc, asked, response)? else {
        return Ok(None);
    };
    Ok(Some(with_their_tag(dialog, tag)))
}

fn late_messages(
    alloc: Global,
    occasion: Occasion,
    leg: &Dialog,
) -> Result<StepMessages, AllocError>
    requires few { occasion.tokens ≤ 2 ^ 63 }
    ensures messages { IfOk result (λ m. m ≡ late_messages occasion leg.now) }
    ensures few { IfOk result (λ m. m.dressed.made ≤ 1) }
{
    let scene = fork_scene(occasion, leg);
    messages(alloc, &scene, None, &[Action::Ack(End::Callee)])
}

/// What a 2xx to a later INVITE of the server's own, whose call is gone, results in: only an ACK, with that INVITE's
/// own To (RFC 3261 section 13.2.2.4); nothing, where its Contact doesn't say where its sender is reached. No call
/// changes.
#[tactic(auto, unfolding(crate::specs::Rows::late_row))]
pub fn late_ack(
    alloc: Global,
    occasion: Occasion,
    asked: &Transaction,
    response: &Response<'_>,
) -> Result<CallStep, AllocError>
    requires few { occasion.tokens ≤ 2 ^ 63 }
    ensures row { (calls : Standing) (now : ℕ) → IfOk result (λ step. effect calls now step ≡ late_row calls occasion asked.now.parts response.now) }
    ensures fits { (calls : Standing) (now : ℕ) → IfOk result (λ step. FitsChange calls now step.change) }
    ensures few { IfOk result (λ step. step.dressed.made < 2 ^ 63) }
    ensures begun { (calls : Standing) (now : ℕ) → IfOk result (λ step. (entered calls now step.change).standing.begun ≡ calls.begun) }
{
    let Some(leg) = later_dialog(alloc, asked, response)? else {
        return Ok(CallStep::nothing(alloc));
    };
    let said = late_messages(alloc, occasion, &leg);
    drop(leg);
    Ok(of_fork(said?))
}
