//! Changes as they are entered: first the room that they take, which may be refused, then the changes, which cannot.

ghost use Rattle.std.specs.Prelude.{ℕ, ◌≡◌, ◌+◌, ◌*◌, ◌<◌, ◌≤◌, ◌^◌, OnOk, OnErr, IfSome, IsTrue, IsSome, Some, None, is_some, true, length, option_map, slice_set, vec_len};
ghost use Rattle.transactions.specs.declared.rules.TableRules.{TableRules};
ghost use Rattle.transactions.specs.declared.transaction.Transaction.{Transaction};
ghost use Rattle.transaction_machines.specs.Lines.{follows, is_answer, starts_with_lines};
ghost use Rattle.transactions.specs.Fireable.{IsFireable, has_sent};
ghost use Rattle.transactions.specs.KnownPrints.{IsPrintOf};
ghost use Rattle.transactions.specs.Slots.{at, free_number};
ghost use Rattle.transaction_machines.specs.Steps.{IsShort};
ghost use Rattle.transactions.specs.Transactions.{went};
ghost use Rattle.transactions.specs.Contents.{stepped, table_at, placed, opened};
ghost use Rattle.transactions.specs.Changes.{entered, entered_all, starts_count, line_timers, timers_of, places_of, needs_room};

use crate::change::{Change, Entry};
use crate::places::Places;
use crate::print::BranchPrint;
use crate::rules::TableRules;
use crate::slot::Slot;
use crate::slots::transaction_at;
use crate::timer_changes::{set_all, stop};
use crate::transaction::{TimerId, Transaction};
use crate::waiting::starts_within;
use boxed::Boxed;
use std::alloc::AllocError;
use text::Text;
use timers::Timers;
use transaction_machines::{Input, Starts, State, Step, advance};

fn starts_count(starts: Starts) -> usize
    ensures { result ≡ starts_count starts }
{
    match starts {
        Starts::NoTimer => 0,
        Starts::One(_) => 1,
        Starts::Two(_, _) => 2,
    }
}

// How many timers transaction id starts when it gets this input.
fn line_timers(slots: &[Slot], id: usize, input: Input) -> usize
    ensures { result ≡ line_timers slots.now id input }
{
    let Some(transaction) = transaction_at(slots, id) else {
        return 0;
    };
    let Some(step) = advance(transaction.state, input) else {
        return 0;
    };
    starts_count(step.starts)
}

// How many timers a change starts.
fn timers_of(slots: &[Slot], change: &Change) -> usize
    ensures { result ≡ timers_of slots.now change.now }
{
    match &change.entry {
        Entry::Opens(_, starts) => starts_count(*starts),
        Entry::Tells(id, input, _) => line_timers(slots, *id, *input),
        Entry::Answers(id, class, _) => line_timers(slots, *id, Input::Answer(*class)),
        Entry::Leaves => 0,
    }
}

// How many transactions a change begins.
fn places_of(change: &Change) -> usize
    ensures { result ≡ places_of change.now }
{
    match &change.entry {
        Entry::Opens(_, _) => 1,
        Entry::Tells(_, _, _) => 0,
        Entry::Answers(_, _, _) => 0,
        Entry::Leaves => 0,
    }
}

/// Room for one change, and at most what it takes.
pub(crate) fn make_room_for(
    places: &mut Places,
    timers: &mut Timers<TimerId>,
    change: &Change,
) -> Result<(), AllocError>
    ensures slots { places.new.slots ≡ places.old.slots }
    ensures key { places.new.key ≡ places.old.key }
    ensures timers { timers.new.timers ≡ timers.old.timers }
    ensures places_room { OnOk result (places_of change.now ≤ places.new.room) }
    ensures timers_room { OnOk result (timers_of places.old.slots change.now ≤ timers.new.room) }
    // Nothing is refused that takes no room.
    ensures needed { OnErr result (needs_room places.old.slots change.now ≡ true) }
{
    let most = timers_of(places.slots(), change);
    places.reserve(places_of(change))?;
    timers.reserve(most)
}

/// Room for a number of changes: a transaction and two timers each.
pub(crate) fn make_room(
    places: &mut Places,
    timers: &mut Timers<TimerId>,
    count: usize,
) -> Result<(), AllocError>
    ensures slots { places.new.slots ≡ places.old.slots }
    ensures key { places.new.key ≡ places.old.key }
    ensures timers { timers.new.timers ≡ timers.old.timers }
    ensures places_room { OnOk result (count ≤ places.new.room) }
    ensures timers_room { OnOk result (2 * count ≤ timers.new.room) }
{
    let Some(most) = count.checked_mul(2) else {
        return Err(AllocError);
    };
    places.reserve(count)?;
    timers.reserve(most)
}

/// All changes, in order. There is room for them. An INVITE that begins a dialog waits at most this many milliseconds
/// for its first response.
pub(crate) fn enter_all(
    places: &mut Places,
    timers: &mut Timers<TimerId>,
    changes: Vec<Change>,
    rules: TableRules,
    now: u64,
)
    requires moment { now < 2 ^ 60 }
    requires fireable { IsFireable places.old.slots timers.old.timers }
    requires places_room { length changes.items ≤ places.old.room }
    requires timers_room { 2 * length changes.items ≤ timers.old.room }
    ensures table { record { slots = places.new.slots; timers = timers.new.timers; rules = rules; key = places.new.key } ≡ entered_all now (record { slots = places.old.slots; timers = timers.old.timers; rules = rules; key = places.old.key }) changes.items }
    ensures fireable { IsFireable places.new.slots timers.new.timers }
{
    for change in changes {
        enter(places, timers, change, rules, now);
    }
}

/// One change. There is room for it.
pub(crate) fn enter(
    places: &mut Places,
    timers: &mut Timers<TimerId>,
    change: Change,
    rules: TableRules,
    now: u64,
)
    requires moment { now < 2 ^ 60 }
    requires fireable { IsFireable places.old.slots timers.old.timers }
    requires places_room { places_of change ≤ places.old.room }
    requires timers_room { timers_of places.old.slots change ≤ timers.old.room }
    ensures table { record { slots = places.new.slots; timers = timers.new.timers; rules = rules; key = places.new.key } ≡ entered now (record { slots = places.old.slots; timers = timers.old.timers; rules = rules; key = places.old.key }) change }
    ensures fireable { IsFireable places.new.slots timers.new.timers }
    ensures places_room { places.old.room ≤ places.new.room + 1 }
    ensures timers_room { timers.old.room ≤ timers.new.room + 2 }
{
    let Change { entry, known } = change;
    match entry {
        Entry::Opens(transaction, starts) => {
            open(places, timers, transaction, known, starts, rules, now);
        }
        Entry::Tells(id, input, fresh) => tell(places, timers, id, input, fresh, now),
        Entry::Answers(id, class, bytes) => {
            tell(places, timers, id, Input::Answer(class), Some(bytes), now);
        }
        Entry::Leaves => {}
    }
}

// A new transaction, under the least number that is free.
fn open(
    places: &mut Places,
    timers: &mut Timers<TimerId>,
    transaction: Boxed<Transaction>,
    known: Option<BranchPrint>,
    starts: Starts,
    rules: TableRules,
    now: u64,
)
    requires moment { now < 2 ^ 60 }
    requires short { IsShort starts }
    requires lines { IsTrue (starts_with_lines transaction.state starts) }
    requires sent { IsTrue (has_sent (Some transaction)) }
    requires known { IsPrintOf known transaction.parts.vias }
    requires fireable { IsFireable places.old.slots timers.old.timers }
    requires places_room { 0 < places.old.room }
    requires timers_room { starts_count starts ≤ timers.old.room }
    ensures table { record { slots = places.new.slots; timers = timers.new.timers; rules = rules; key = places.new.key } ≡ opened (record { slots = places.old.slots; timers = timers.old.timers; rules = rules; key = places.old.key }) transaction starts now }
    ensures fireable { IsFireable places.new.slots timers.new.timers }
    ensures places_room { places.old.room ≤ places.new.room + 1 }
    ensures timers_room { timers.old.room ≤ timers.new.room + 2 }
{
    let within = starts_within(rules.first_wait, &transaction.get().parts, starts);
    let id = places.open(transaction, known);
    set_all(timers, id, within, now);
}

// A transaction gets an input, with what it is to send. Where it has no line, or doesn't exist, nothing is done.
fn tell(
    places: &mut Places,
    timers: &mut Timers<TimerId>,
    id: usize,
    input: Input,
    fresh: Option<Text<'static>>,
    now: u64,
)
    requires moment { now < 2 ^ 60 }
    requires given { is_answer input ≡ true → is_some fresh ≡ true }
    requires fireable { IsFireable places.old.slots timers.old.timers }
    requires timers_room { line_timers places.old.slots id input ≤ timers.old.room }
    ensures table { (rules : TableRules) → record { slots = places.new.slots; timers = timers.new.timers; rules = rules; key = places.new.key } ≡ table_at (record { slots = places.old.slots; timers = timers.old.timers; rules = rules; key = places.old.key }) id (at places.old.slots id) input fresh.entry now }
    ensures fireable { IsFireable places.new.slots timers.new.timers }
    ensures places_room { places.old.room ≤ places.new.room + 1 }
    ensures timers_room { timers.old.room ≤ timers.new.room + 2 }
{
    let Some(transaction) = transaction_at(places.slots(), id) else {
        return;
    };
    let state = transaction.state;
    let Some(step) = advance(state, input) else {
        return;
    };
    carry_out(places, timers, id, state, step, fresh, now);
}

// A step of transaction id, which is in this state, with what is fresh.
fn carry_out(
    places: &mut Places,
    timers: &mut Timers<TimerId>,
    id: usize,
    state: State,
    step: Step,
    fresh: Option<Text<'static>>,
    now: u64,
)
    requires there { IsSome (at places.old.slots id) }
    requires state { IfSome (at places.old.slots id) (λ t. t.state ≡ state) }
    requires moment { now < 2 ^ 60 }
    requires short { IsShort step.starts }
    requires follows { (t : Transaction) → at places.old.slots id ≡ Some t → IsTrue (follows t.state (is_some fresh) step) }
    requires fireable { IsFireable places.old.slots timers.old.timers }
    requires timers_room { starts_count step.starts ≤ timers.old.room }
    ensures table { (rules : TableRules) (t : Transaction) → at places.old.slots id ≡ Some t → record { slots = places.new.slots; timers = timers.new.timers; rules = rules; key = places.new.key } ≡ stepped (record { slots = places.old.slots; timers = timers.old.timers; rules = rules; key = places.old.key }) id t step fresh.entry now }
    ensures fireable { IsFireable places.new.slots timers.new.timers }
    ensures places_room { places.old.room ≤ places.new.room + 1 }
    ensures timers_room { timers.old.room ≤ timers.new.room + 2 }
{
    places.write(id, step.next, fresh);
    stop(timers, id, state, step.stops);
    set_all(timers, id, step.starts, now);
}
