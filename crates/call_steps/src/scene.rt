//! What a call's actions are dressed with.

ghost use Rattle.std.specs.Prelude.{◌≡◌, ◌≤◌, ◌^◌, ℕ, IfOk, None, if◌then◌else◌, length, option_map};
ghost use Rattle.std.specs.List.{list_any};
ghost use Rattle.std.specs.Option.{option_copied};
ghost use Rattle.port_pool.specs.Pool.{Contents};
ghost use Rattle.transactions.specs.Slots.{at};
ghost use Rattle.call_core.specs.Calls.{dialog_of};
ghost use Rattle.call_core.specs.Plans.{carried};
ghost use Rattle.call_steps.specs.Messages.{ends_offer};
ghost use Rattle.call_steps.specs.Rows.{messages_of};
ghost use Rattle.call_steps.specs.Scenes.{asker_by, asker_in, at_id, dialog_in, offerer_tag, passed_id, scene, tag_or, tag_to, tag_with};
ghost use Rattle.call_steps.specs.Values.{asker_value, coming_value, scene_value};

use crate::arrival::Coming;
use crate::messages::{StepMessages, messages};
use crate::occasion::Occasion;
use call_core::{Action, Call, End, Plan};
use call_messages::{Asker, Scene};
use calls::{LegDialog, StandingCall, offerer_of};
use dialogs::Dialog;
use sdp::Description;
use std::alloc::{AllocError, Global};
use text::Text;
use transactions::{Table, Transaction};

// ---- dialogs

fn caller_tag(call: &Call) -> &Text<'static>
    ensures { result.now ≡ call.now.caller.id.ours }
{
    match call.dialog(End::Caller) {
        Some(dialog) => &dialog.id.ours,
        None => unreachable!(),
    }
}

fn tag_or<'c>(tag: &'c Text<'static>, dialog: Option<&'c Dialog>) -> &'c Text<'static>
    ensures { result.now ≡ tag_or tag.now (option_copied dialog.entry) }
{
    match dialog {
        None => tag,
        Some(dialog) => &dialog.id.ours,
    }
}

pub(crate) fn tag_with(call: &Call, end: End) -> &Text<'static>
    ensures { result.now ≡ tag_with end call.now }
{
    match end {
        End::Caller => caller_tag(call),
        End::Callee => tag_or(caller_tag(call), call.dialog(End::Callee)),
    }
}

/// The server's tag in the dialog with the offerer, whose offer was taken last: the one that To has in the responses to
/// that offer. Takes no memory.
pub fn offerer_tag(call: &Call) -> &[u8]
    ensures { result.now ≡ offerer_tag call.now }
{
    tag_with(call, offerer_of(call.standing())).as_bytes()
}

/// A dialog that comes with the event is put in place of the call's own.
fn dialog_in<'c>(call: &'c Call, leg: Option<&'c LegDialog>, end: End) -> Option<&'c Dialog>
    ensures { option_copied result ≡ dialog_in end (option_copied leg.entry) call.now }
{
    let Some(leg) = leg else {
        return call.dialog(end);
    };
    match (end, leg.end) {
        (End::Caller, End::Caller) => Some(leg.dialog.get()),
        (End::Callee, End::Callee) => Some(leg.dialog.get()),
        (End::Caller, End::Callee) => call.dialog(End::Caller),
        (End::Callee, End::Caller) => call.dialog(End::Callee),
    }
}

// ---- transactions

/// The tag of From in what the server asks this end.
fn tag_to(call: &StandingCall, end: End) -> &Text<'static>
    ensures { result.now ≡ tag_to end call.now }
{
    match end {
        End::Caller => caller_tag(&call.call),
        End::Callee => &call.callee_tag,
    }
}

/// The INVITE that was passed on, while it waits for a final response.
fn passed_id(table: &Table, call: &StandingCall) -> Option<usize>
    ensures { result ≡ passed_id table.now call.now }
{
    let offerer = offerer_of(call.call.standing());
    table.waiting_invite(tag_to(call, offerer.other()))
}

fn transaction_at(table: &Table, id: Option<usize>) -> Option<&Transaction>
    ensures { option_copied result ≡ at_id table.now.slots id }
{
    table.transaction(id?)
}

/// The offer that was taken last, while its transaction is live.
fn asker_by<'c, 'a>(
    call: &'c StandingCall,
    transaction: Option<&'c Transaction>,
) -> Option<Asker<'c, 'a>>
    ensures { option_map asker_value result ≡ asker_by call.now (option_copied transaction.entry) }
{
    let transaction = transaction?;
    Some(Asker {
        id: call.asked.id,
        parts: &transaction.parts,
        source: call.asked.source,
        tag: offerer_tag(&call.call),
    })
}

/// The offer that comes with the event, or the one before.
fn asker_in<'c, 'a>(
    asker: Option<Asker<'c, 'a>>,
    call: &'c StandingCall,
    transaction: Option<&'c Transaction>,
) -> Option<Asker<'c, 'a>>
    ensures { option_map asker_value result ≡ asker_in (option_map asker_value asker.entry) call.now (option_copied transaction.entry) }
{
    match asker {
        None => asker_by(call, transaction),
        Some(asker) => Some(asker),
    }
}

// ---- the scene

/// A request, borrowed again.
fn asker_again<'s, 'a>(asker: &'s Option<Asker<'_, 'a>>) -> Option<Asker<'s, 'a>>
    ensures { option_map asker_value result ≡ option_map asker_value asker.now }
{
    let asker = asker.as_ref()?;
    Some(Asker {
        id: asker.id,
        parts: &*asker.parts,
        source: asker.source,
        tag: &*asker.tag,
    })
}

/// What the messages of a plan are dressed with, where this INVITE was passed on and still waits for a final response.
fn scene<'m, 'a>(
    table: &'m Table,
    occasion: Occasion,
    coming: &'m Coming<'_, 'a>,
    call: &'m StandingCall,
    description: Option<&'m Description<'a>>,
    passed: Option<usize>,
) -> Scene<'m, 'a>
    ensures scene { scene_value result ≡ record (scene table.now occasion (coming_value coming.now) call.now (option_copied description.entry)) {
      passed = at_id table.now.slots passed;
    } }
    ensures tokens { result.tokens ≡ occasion.tokens }
{
    let leg = coming.leg.as_ref();
    Scene {
        server: occasion.server,
        salt: occasion.salt,
        tokens: occasion.tokens,
        offer: asker_in(
            asker_again(&coming.offer),
            call,
            table.transaction(call.asked.id),
        ),
        request: asker_again(&coming.request),
        caller: dialog_in(&call.call, leg, End::Caller),
        callee: dialog_in(&call.call, leg, End::Callee),
        passed: transaction_at(table, passed),
        description,
        again: call.answer.as_ref(),
        hops: coming.hops,
    }
}

/// Whether an action ends an offer that was passed on.
fn ends_offer(action: Action) -> bool
    ensures { result ≡ ends_offer action }
{
    match action {
        Action::Cancel(_) | Action::Abandon(_) => true,
        _ => false,
    }
}

fn any_ends_offer(actions: &[Action]) -> bool
    ensures { result ≡ list_any ends_offer actions.now }
{
    actions.iter().any(|action| ends_offer(*action))
}

/// The INVITE that was passed on, which is looked up only where an action ends it.
fn passed_for(table: &Table, call: &StandingCall, actions: &[Action]) -> Option<usize>
    ensures { result ≡ (if list_any ends_offer actions.now then passed_id table.now call.now else None) }
{
    if any_ends_offer(actions) {
        return passed_id(table, call);
    }
    None
}

/// The messages of what was planned for a call.
pub(crate) fn messages_of(
    alloc: Global,
    table: &Table,
    occasion: Occasion,
    coming: &Coming<'_, '_>,
    call: &StandingCall,
    plan: &Plan,
) -> Result<StepMessages, AllocError>
    requires few { occasion.tokens ≤ 2 ^ 63 }
    ensures messages { (pool : Contents) (now : ℕ) → IfOk result (λ m. m ≡ messages_of table.now occasion (coming_value coming.now) call.now
        (carried call.now.call pool now plan.now)) }
    ensures few { IfOk result (λ m. m.dressed.made ≤ length plan.now.actions) }
{
    let actions = plan.actions.as_slice();
    let passed = passed_for(table, call, actions);
    let scene = scene(
        table,
        occasion,
        coming,
        call,
        plan.media.description(),
        passed,
    );
    messages(alloc, &scene, passed, actions)
}
