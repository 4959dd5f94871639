//! The agent, and its step.

ghost use Rattle.std.specs.Prelude.{◌≡◌, ◌<◌, ◌≤◌, ◌^◌, ◌++◌, [], ℕ, IfOk, List, OnOk, OnErr, None};
ghost use Rattle.std.specs.Option.{option_copied};
ghost use Rattle.call_trace.specs.declared.datagram.Datagram.{Datagram};
ghost use Rattle.port_pool.specs.Holdings.{holder_at};
ghost use Rattle.port_pool.specs.PairCounts.{pair_counts};
ghost use Rattle.port_pool.specs.RelayTable.{changed_by};
ghost use Rattle.plans.specs.Effect.{Fits, effect};
ghost use Rattle.media_laws.specs.Keeping.{HoldsFor, RelaysLive};
ghost use Rattle.media_laws.specs.Living.{ListsLive};
ghost use Rattle.media_laws.specs.Standing.{AgentStands, SaysMessages, StandsOn};
ghost use Rattle.transactions.specs.Slots.{serving};
ghost use Rattle.event_rows.specs.Rows.{after, moment_after, next_due, only_counts, row, what_row};
ghost use Rattle.event_rows.specs.State.{after_count, after_event, office};

use crate::acks::keep;
use crate::commit::{commit, enter, limit, stop};
use crate::moments::earlier;
use calls::{Calls, StandingCall};
use event_plans::plan_event;
use event_rows::Tally;
use events::{Event, Sent};
use media_laws::agents_stand;
use message_laws::event_comes_from_source;
use offer_answer::OwnRange;
use plans::{Doing, KeptAck, Note, Office, Plan, Taken};
use port_pool::{Change, PairCounts, RelayTable};
use registrar::Registrar;
use sip_uri::Addr;
use std::alloc::{AllocError, Global};
use std::marker::Model;
use text::Text;
use transactions::Table;

/// The server as one value: a step takes an event, and returns what is sent.
pub struct Agent {
    pub(crate) alloc: Global,
    pub(crate) registrar: Registrar,
    pub(crate) table: Table,
    pub(crate) calls: Calls,
    /// The ACKs of 2xx that are sent again.
    pub(crate) acks: Vec<KeptAck>,
    /// What the last event changed in the relay table.
    pub(crate) changes: Vec<Change>,
    /// Where the server is reached.
    pub(crate) server: Addr,
    /// The server's address and relay ports.
    pub(crate) range: OwnRange,
    /// The least number of seconds that a binding has to last.
    pub(crate) least: u32,
    /// The milliseconds that a call may last from its first answer on, where that is limited.
    pub(crate) lifetime: Option<u64>,
    /// The greatest moment so far, in milliseconds.
    pub(crate) moment: u64,
    /// How many tokens were made.
    pub(crate) tokens: u64,
    pub(crate) tally: Tally,
    /// What the last event was about.
    pub(crate) note: Note,
    /// The user whose bindings it set.
    pub(crate) registered: Option<Text<'static>>,
}

impl Drop for Agent {
    fn drop(self) {
        let Agent {
            alloc: _,
            registrar: _,
            table: _,
            calls: _,
            acks: _,
            changes: _,
            server: _,
            range: _,
            least: _,
            lifetime: _,
            moment: _,
            tokens: _,
            tally: _,
            note: _,
            registered: _,
        } = self;
    }
}

impl Model for Agent {
    ghost use Rattle.std.specs.Coded.{codes};
    ghost use Rattle.port_pool.specs.Pool.{coded_contents};
    ghost use Rattle.calls.specs.State.{standing};
    ghost use Rattle.event_rows.specs.State.{Contents, IsCounted};

    ghost Value = { Contents };

    ghost coded = { Prim.hlevel (codes, coded_contents) };

    ghost view = { λ a. record { registrar = a.registrar; table = a.table; calls = standing a.calls; acks = a.acks.items; changes = a.changes.items; server = a.server; range = a.range; least = a.least; lifetime = a.lifetime; moment = a.moment; tokens = a.tokens; tally = a.tally; note = a.note; registered = a.registered; calls_key = a.calls.key } };

    ghost invariant = { λ a. IsCounted a.moment a.tokens a.calls.begun a.range };
}

impl Agent {
    /// How many events got each answer. Takes no memory.
    pub fn tally(&self) -> Tally
        ensures { result ≡ self.now.tally }
    {
        self.tally
    }

    /// The current calls, in the order in which they began. Where the agent stands after a trace, those that were
    /// answered, and that no end has left, are exactly the live ones of the trace, each once. Where a leg of a call
    /// has ended, both have, or the call is listed as one that an end has left. Takes no memory.
    pub fn calls(&self) -> &[StandingCall]
        ensures calls { result.now ≡ self.now.calls.calls }
        ensures live { (t : List Datagram) (k : ℕ) → AgentStands self.now t k → ListsLive result.now t }
    {
        agents_stand();
        self.calls.as_slice()
    }

    /// The relay table. Where the agent stands after a trace, it has the rows of the live calls and no other, and
    /// joined by it their legs mean what RFC 3264 gives an offer and an answer passed directly. Takes no memory.
    pub fn relay(&self) -> &RelayTable
        ensures rows { result.now ≡ self.now.calls.pool.rows }
        ensures live { (t : List Datagram) (k : ℕ) → AgentStands self.now t k → RelaysLive self.now.range.ip result.now t }
    {
        agents_stand();
        self.calls.pool().table()
    }

    /// The changes that the last event made in the relay table, by rising port; an event that was lost doesn't count.
    /// Takes no memory.
    pub fn changes(&self) -> &[Change]
        ensures { result.now ≡ self.now.changes }
    {
        &self.changes
    }

    /// What the last event was about; an event that was lost doesn't count. Takes no memory.
    pub fn note(&self) -> Note
        ensures { result ≡ self.now.note }
    {
        self.note
    }

    /// The user whose bindings the last event set. Takes no memory.
    pub fn registered_user(&self) -> Option<&Text<'static>>
        ensures { option_copied result ≡ self.now.registered }
    {
        self.registered.as_ref()
    }

    /// How many server transactions there are. Takes no memory.
    pub fn serving_count(&self) -> usize
        ensures { result ≡ serving self.now.table.slots }
    {
        self.table.serving_count()
    }

    /// How many pairs of relay ports calls hold at a moment, in milliseconds, how many rest, and how many are free.
    /// Takes no memory.
    pub fn pair_counts(&self, now: u64) -> PairCounts
        ensures { result ≡ pair_counts now self.now.calls.pool.holdings }
    {
        self.calls.pool().pair_counts(now)
    }

    /// Who is bound where. Takes no memory.
    pub fn registrar(&self) -> &Registrar
        ensures { result.now ≡ self.now.registrar }
    {
        &self.registrar
    }

    /// The number of the call that holds the pair of this port, used or reserved. Where the agent stands after a
    /// trace, that call exists, and is the live one that names the pair. While no offer is open in it, in the trace,
    /// its session has the pair. Takes no memory.
    pub fn holder(&self, port: u16) -> Option<u64>
        ensures holder { result ≡ holder_at self.now.calls.pool.holdings port }
        ensures live { (t : List Datagram) (k : ℕ) → AgentStands self.now t k → HoldsFor self.now.calls.calls t port result }
    {
        agents_stand();
        self.calls.pool().holder(port)
    }

    /// The least moment at which something is due, in milliseconds, if anything is. Takes no memory.
    pub fn next_due(&self) -> Option<u64>
        ensures { result ≡ next_due self.now }
    {
        earlier(self.table.next(), self.calls.next_due())
    }

    /// What a plan reads, borrowed.
    fn office(&self) -> Office<'_>
        ensures { result ≡ office self.now }
    {
        Office {
            alloc: self.alloc,
            registrar: &self.registrar,
            table: &self.table,
            calls: &self.calls,
            acks: &self.acks,
            server: self.server,
            range: self.range,
            least: self.least,
            tokens: self.tokens,
        }
    }

    /// Takes an event: what it returns, sends and changes is its row. Where memory is refused, the agent and the list
    /// are as before, and the event counts as if it had not come. An event that is only counted takes no memory. An
    /// agent that stands after a trace stands after it with what the event took and sent, so that the media promise
    /// still holds.
    pub fn step(&mut self, event: &Event, sent: &mut Vec<Sent>) -> Result<Taken, AllocError>
        ensures answer { IfOk result (λ taken. taken ≡ (row self.old event.entry.now).plan.taken) }
        ensures sends { OnOk result (sent.new.items ≡ sent.old.items ++ (row self.old event.entry.now).plan.sends) }
        ensures agent { OnOk result (self.new ≡ after self.old event.entry.now) }
        // The changes lead from the relay table before to the one after.
        ensures leads { OnOk result (changed_by self.old.calls.pool.rows self.new.changes ≡ self.new.calls.pool.rows) }
        ensures lost { OnErr result (self.new ≡ self.old) }
        ensures unsent { OnErr result (sent.new.items ≡ sent.old.items) }
        ensures counted { OnErr result (only_counts self.old event.entry.now ≡ None) }
        ensures stands { IfOk result (λ taken. StandsOn self.old event.entry.now.what taken sent.old.items sent.new.items self.new) }
        // The trace has each datagram that is sent.
        ensures said { OnOk result (SaysMessages self.old sent.old.items sent.new.items) }
    {
        agents_stand();
        event_comes_from_source(event);
        self.take(event, sent)
    }

    #[tactic(auto, using(crate::proofs::StepLaws::sends_counted, crate::proofs::StepLaws::after_counted))]
    fn take(&mut self, event: &Event, sent: &mut Vec<Sent>) -> Result<Taken, AllocError>
        ensures answer { IfOk result (λ taken. taken ≡ (row self.old event.entry.now).plan.taken) }
        ensures sends { OnOk result (sent.new.items ≡ sent.old.items ++ (row self.old event.entry.now).plan.sends) }
        ensures agent { OnOk result (self.new ≡ after self.old event.entry.now) }
        ensures leads { OnOk result (changed_by self.old.calls.pool.rows self.new.changes ≡ self.new.calls.pool.rows) }
        ensures lost { OnErr result (self.new ≡ self.old) }
        ensures unsent { OnErr result (sent.new.items ≡ sent.old.items) }
        ensures counted { OnErr result (only_counts self.old event.entry.now ≡ None) }
    {
        match self.only_counts(event) {
            Some(taken) => {
                self.count(event.now, taken);
                Ok(taken)
            }
            None => self.carry_on(event, sent),
        }
    }

    #[tactic(auto, using(crate::proofs::StepLaws::early, crate::proofs::StepLaws::few, crate::proofs::StepLaws::looked, crate::proofs::StepLaws::after_looked))]
    fn carry_on(&mut self, event: &Event, sent: &mut Vec<Sent>) -> Result<Taken, AllocError>
        requires { only_counts self.old event.now ≡ None }
        ensures answer { IfOk result (λ taken. taken ≡ (row self.old event.entry.now).plan.taken) }
        ensures sends { OnOk result (sent.new.items ≡ sent.old.items ++ (row self.old event.entry.now).plan.sends) }
        ensures agent { OnOk result (self.new ≡ after self.old event.entry.now) }
        ensures leads { OnOk result (changed_by self.old.calls.pool.rows self.new.changes ≡ self.new.calls.pool.rows) }
        ensures lost { OnErr result (self.new ≡ self.old) }
        ensures unsent { OnErr result (sent.new.items ≡ sent.old.items) }
    {
        let now = self.moment.max(event.now);
        let doing = plan_event(&self.office(), now, event.salt, &event.what)?;
        self.carry_out(doing, sent, now)
    }

    #[tactic(auto, unfolding(event_rows::specs::State::after_event))]
    fn carry_out(
        &mut self,
        doing: Doing,
        sent: &mut Vec<Sent>,
        now: u64,
    ) -> Result<Taken, AllocError>
        requires moment { now < 2 ^ 60 }
        requires few { self.old.tokens < 2 ^ 63 }
        requires fits { Fits self.old.calls now doing }
        ensures answer { IfOk result (λ taken. taken ≡ doing.plan.taken) }
        ensures sends { OnOk result (sent.new.items ≡ sent.old.items ++ doing.plan.sends) }
        ensures agent { OnOk result (self.new ≡ after_event self.old now (effect self.old.calls self.old.acks now doing)) }
        ensures leads { OnOk result (changed_by self.old.calls.pool.rows self.new.changes ≡ self.new.calls.pool.rows) }
        ensures lost { OnErr result (self.new ≡ self.old) }
        ensures unsent { OnErr result (sent.new.items ≡ sent.old.items) }
    {
        let Doing {
            plan,
            calls,
            fired,
            acks,
            made,
        } = doing;
        let Plan {
            taken,
            changes,
            sends,
            registration,
            made: alone,
            note,
        } = plan;
        self.calls.reserve_for(&calls)?;
        self.acks.reserve(1)?;
        commit(&mut self.table, sent, changes, sends, now)?;
        self.registered = enter(&mut self.registrar, registration);
        stop(&mut self.calls, fired);
        self.changes = self.calls.enter(self.alloc, calls, now);
        limit(&mut self.calls, self.lifetime, now, note);
        keep(&mut self.acks, acks);
        self.moment = now;
        self.tokens += made + u64::from(alone);
        self.tally = self.tally.with(taken);
        self.note = note;
        Ok(taken)
    }
}
