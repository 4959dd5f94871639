//! What a step does to the agent's parts and to the list of what is sent: all of it or nothing.

ghost use Rattle.std.specs.Prelude.{◌≡◌, ◌<◌, ◌≤◌, ◌^◌, ◌++◌, option_and_then, OnOk, OnErr};
ghost use Rattle.registrar.specs.Changes.{user_of_change};
ghost use Rattle.calls.specs.State.{standing};
ghost use Rattle.plans.specs.Effect.{fired_off};
ghost use Rattle.event_rows.specs.Lifetimes.{lifetime_begun, with_lifetime};
ghost use Rattle.transactions.specs.Changes.{entered_all};
ghost use Rattle.event_rows.specs.State.{registered_by};

use call_core::{CallNote, CallTimer, NoteOfCall};
use calls::{CallTimerId, Calls};
use events::Sent;
use plans::Note;
use registrar::{Registrar, RegistrarChange};
use std::alloc::AllocError;
use text::Text;
use transactions::{Change, Table};

/// Puts these after what is in the list; where the list is empty, they are the list.
fn put_behind(sent: &mut Vec<Sent>, mut sends: Vec<Sent>) -> Result<(), AllocError>
    ensures ok { OnOk result (sent.new.items ≡ sent.old.items ++ sends.items) }
    ensures err { OnErr result (sent.new.items ≡ sent.old.items) }
{
    if sent.is_empty() {
        *sent = sends;
        return Ok(());
    }
    sent.append(&mut sends)
}

/// What is sent goes after what is in the list, and the changes of the transactions are entered. Where memory is
/// refused, neither happens.
pub(crate) fn commit(
    table: &mut Table,
    sent: &mut Vec<Sent>,
    changes: Vec<Change>,
    sends: Vec<Sent>,
    now: u64,
) -> Result<(), AllocError>
    requires { now < 2 ^ 60 }
    ensures table { OnOk result (table.new ≡ entered_all now table.old changes.items) }
    ensures sends { OnOk result (sent.new.items ≡ sent.old.items ++ sends.items) }
    ensures err_table { OnErr result (table.new ≡ table.old) }
    ensures err_sends { OnErr result (sent.new.items ≡ sent.old.items) }
{
    let length = sent.len();
    put_behind(sent, sends)?;
    if let Err(error) = table.apply(changes, now) {
        sent.truncate(length);
        return Err(error);
    }
    Ok(())
}

/// Makes the change of the registrar, if there is one, and returns the user whose bindings it sets. Takes no memory.
pub(crate) fn enter(
    registrar: &mut Registrar,
    registration: Option<RegistrarChange>,
) -> Option<Text<'static>>
    ensures registrar { registrar.new ≡ registered_by registrar.old registration }
    ensures user { result ≡ option_and_then user_of_change registration }
{
    match registration {
        None => None,
        Some(change) => registrar.make_change(change),
    }
}

/// The timer that fired is no longer set. Takes no memory.
pub(crate) fn stop(calls: &mut Calls, fired: Option<CallTimerId>)
    ensures standing { standing calls.new ≡ fired_off fired (standing calls.old) }
    ensures pool { calls.new.pool ≡ calls.old.pool }
    ensures room { calls.old.room ≤ calls.new.room }
    ensures timer_room { calls.old.timer_room ≤ calls.new.timer_room }
    ensures key { calls.new.key ≡ calls.old.key }
{
    if let Some(timer) = fired {
        calls.stop_timer(timer);
    }
}

/// The number of the call whose first answer this reports.
fn lifetime_begun(note: Note) -> Option<u64>
    ensures { result ≡ lifetime_begun note }
{
    match note {
        Note::Call(
            NoteOfCall {
                number,
                note: CallNote::Answered,
            },
        ) => Some(number),
        _ => None,
    }
}

/// The call that was answered for the first time may last this many milliseconds. Takes no memory.
pub(crate) fn limit(calls: &mut Calls, lifetime: Option<u64>, now: u64, note: Note)
    requires { 0 < calls.old.timer_room }
    ensures standing { standing calls.new ≡ with_lifetime lifetime now note (standing calls.old) }
    ensures key { calls.new.key ≡ calls.old.key }
{
    if let (Some(lifetime), Some(number)) = (lifetime, lifetime_begun(note)) {
        let timer = CallTimer::Lifetime;
        calls.set_timer(CallTimerId { number, timer }, now.saturating_add(lifetime));
    }
}
