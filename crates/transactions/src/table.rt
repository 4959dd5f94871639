//! The table of transactions, with its timers.

ghost use Rattle.std.specs.Prelude.{◌≡◌, ◌<◌, ◌^◌, [], OnOk, OnErr, IfOk, IfErr, Some, IfSome, IsSome, is_some, option_map, length, true, false, IsTrue};
ghost use Rattle.std.specs.Option.{option_copied};
ghost use Rattle.timers.specs.Queue.{EachKeyOnce, first, first_due};
ghost use Rattle.timers.specs.Settings.{IsDue, IsNext};
ghost use Rattle.transactions.specs.Timing.{same_timer};
ghost use Rattle.sip_message.specs.Grammar.{ReadsMessage};
ghost use Rattle.sip_writing.specs.Writing.{message_text};
ghost use Rattle.sip_writing.specs.WritingMessage.{IsWrittenMessage};
ghost use Rattle.sip_message.specs.declared.message.Message.TheVariants as Kinds;
ghost use Rattle.transactions.specs.Slots.{at, named, serving, is_serving, waiting_invite};
ghost use Rattle.transactions.specs.Shares.{RefusesMessage, has_no_room};
ghost use Rattle.transactions.specs.Transactions.{outgoing};
ghost use Rattle.sip_message.specs.Words.{class_of};
ghost use Rattle.transactions.specs.Contents.{line_at, reception_of, IsNew, answer_input, after_answer, answer_sent, RefusesAnswer, after_abandon, RefusesAbandon, fired_of, after_fire, is_due, RefusesFire, merged};
ghost use Rattle.transactions.specs.Changes.{entered, entered_all, after_message, after_start, started_number, needs_room};

use crate::apply::{enter, enter_all, make_room, make_room_for};
use crate::change::Change;
use crate::error::TableError;
use crate::foresee::{Foreseen, ForeseenFire};
use crate::matches::has_to_tag;
use crate::outcome::{Fired, Outgoing, Reception, Started};
use crate::own_request::OwnRequest;
use crate::places::Places;
use crate::rules::TableRules;
use crate::slots::{any_merged, cancelled_place, transaction_at, waiting_invite};
use crate::timer_changes::{has_come, moment};
use crate::transaction::{TimerId, Transaction};
use index::PrintKey;
use sip_message::{Message, Request, Response, class_of, is_method};
use sip_uri::Addr;
use sip_writing::write_response;
use std::alloc::{AllocError, Global};
use std::marker::Model;
use text::Text;
use timers::{Timer, Timers};
use transaction_machines::{Input, advance, is_server};

/// The transactions of the server (RFC 3261 section 17), each with a number, and their timers. Moments are in
/// milliseconds.
pub struct Table {
    pub(crate) alloc: Global,
    pub(crate) places: Places,
    pub(crate) timers: Timers<TimerId>,
    pub(crate) rules: TableRules,
}

impl Drop for Table {
    fn drop(self) {
        let Table {
            alloc: _,
            places: _,
            timers: _,
            rules: _,
        } = self;
    }
}

impl Model for Table {
    ghost use Rattle.transactions.specs.Contents.{Contents};
    ghost use Rattle.transactions.specs.Fireable.{IsFireable};

    ghost Value = { Contents };

    ghost view = { λ t. record { slots = t.places.slots; timers = t.timers.timers; rules = t.rules; key = t.places.key } };

    // So each timer that is due does something when it fires.
    ghost invariant = { λ t. IsFireable t.places.slots t.timers.timers };
}

impl Table {
    /// A table without transactions, which follows these rules and looks them up by prints under this key, and no
    /// other, for good. No other result depends on the key. Takes no memory.
    pub fn new(alloc: Global, key: PrintKey, rules: TableRules) -> Self
        ensures slots { result.slots ≡ [] }
        ensures timers { result.timers ≡ [] }
        ensures rules { result.rules ≡ rules }
        ensures key { result.key ≡ key }
    {
        Table {
            alloc,
            places: Places::new(alloc, key),
            timers: Timers::new(alloc),
            rules,
        }
    }

    /// Takes a message that came from `source`. A request that belongs to no transaction begins one, under the least
    /// number that none has; a response or an ACK that belongs to none is stray. A refusal (X3, or no memory, where the
    /// message begins a transaction, sends something or starts a timer) leaves the table as it was.
    #[tactic(auto, using(crate::proofs::MemoryLaws::message_room), unfolding(crate::specs::Changes::after_message))]
    pub fn receive(
        &mut self,
        message: &Message,
        source: Addr,
        now: u64,
    ) -> Result<Reception, TableError>
        requires { now < 2 ^ 60 }
        ensures reception { IfOk result (λ r. r ≡ reception_of self.old message.now) }
        ensures table { OnOk result (self.new ≡ after_message self.old message.now source now) }
        // Where there is no room, no transaction of another begins.
        ensures room { IfOk result (λ r. IsNew r.verdict → has_no_room self.old source ≡ false) }
        ensures refused { IfErr result (RefusesMessage self.old message.now source) }
        ensures err { OnErr result (self.new ≡ self.old) }
    {
        let Foreseen { reception, change } = self.foresee(message, source)?;
        self.enter_alone(change, now)?;
        Ok(reception)
    }

    /// Sends a request of the server's own, which begins a transaction. An ACK belongs to none, and is only sent (RFC
    /// 3261 section 17.1.1.3). A refusal (no memory) leaves the table as it was.
    pub fn start(&mut self, request: &Request, to: Addr, now: u64) -> Result<Started, AllocError>
        requires { now < 2 ^ 60 }
        ensures id { IfOk result (λ s. s.id ≡ started_number self.old request.now) }
        ensures send { IfOk result (λ s. s.send ≡ outgoing to (message_text (Kinds.Request request.now))) }
        ensures reads { IsWrittenMessage (Kinds.Request request.now) → IfOk result (λ s. ReadsMessage s.send.bytes (Kinds.Request request.now)) }
        ensures table { OnOk result (self.new ≡ after_start self.old request.now to now) }
        ensures err { OnErr result (self.new ≡ self.old) }
    {
        let own = OwnRequest::of(self.alloc, request)?;
        let bytes = own.bytes.keep(self.alloc)?;
        let id = self.started_number(request);
        let change = Change::asks(self.alloc, own, to)?;
        self.enter_alone(change, now)?;
        Ok(Started {
            id,
            send: Outgoing { to, bytes },
        })
    }

    /// Takes a response of the core to the request of a server transaction, and sends it.
    #[tactic(auto, unfolding(crate::specs::Slots::is_serving))]
    pub fn answer(
        &mut self,
        id: usize,
        response: &Response,
        now: u64,
    ) -> Result<Outgoing, TableError>
        requires { now < 2 ^ 60 }
        ensures send { IfOk result (λ send. Some send ≡ answer_sent self.old id response.now) }
        ensures line { OnOk result (IsSome (line_at self.old id (answer_input response.now))) }
        ensures table { OnOk result (self.new ≡ after_answer self.old id response.now now) }
        ensures refused { IfErr result (RefusesAnswer self.old id response.now) }
        ensures err { OnErr result (self.new ≡ self.old) }
    {
        let Some(transaction) = transaction_at(self.places.slots(), id) else {
            return Err(TableError::Unknown);
        };
        if !is_server(transaction.state) {
            return Err(TableError::Unknown);
        }
        let class = class_of(response.status);
        if advance(transaction.state, Input::Answer(class)).is_none() {
            return Err(TableError::AfterFinal);
        }
        let to = transaction.place;
        let bytes = write_response(self.alloc, response)?;
        let kept = bytes.clone()?;
        self.enter_alone(Change::answers_with(id, class, kept), now)?;
        Ok(Outgoing { to, bytes })
    }

    /// The core no longer waits for a response to its INVITE: the transaction ends 32 seconds later at the latest.
    pub fn abandon(&mut self, id: usize, now: u64) -> Result<(), TableError>
        requires { now < 2 ^ 60 }
        ensures line { OnOk result (IsSome (line_at self.old id Input.Abandon)) }
        ensures table { OnOk result (self.new ≡ after_abandon self.old id now) }
        ensures refused { IfErr result (RefusesAbandon self.old id) }
        ensures err { OnErr result (self.new ≡ self.old) }
    {
        let Some(transaction) = transaction_at(self.places.slots(), id) else {
            return Err(TableError::Unknown);
        };
        if advance(transaction.state, Input::Abandon).is_none() {
            return Err(TableError::Unknown);
        }
        self.enter_alone(Change::abandons(id), now)?;
        Ok(())
    }

    /// Lets a timer fire that is due. One that is not due, or not set, is refused (X1), and one that sends something or
    /// starts a timer may be refused because memory ran out: an ending timer is not.
    pub fn fire(&mut self, timer: TimerId, now: u64) -> Result<Fired, TableError>
        requires { now < 2 ^ 60 }
        ensures fired { IfOk result (λ fired. Some fired ≡ fired_of (at self.old.slots timer.id) timer.kind) }
        ensures due { OnOk result (IsTrue (is_due self.old timer now)) }
        ensures table { OnOk result (self.new ≡ after_fire self.old timer now) }
        ensures refused { IfErr result (RefusesFire self.old timer now) }
        ensures err { OnErr result (self.new ≡ self.old) }
    {
        let ForeseenFire { fired, change } = self.foresee_fire(timer, now)?;
        self.enter_alone(change, now)?;
        Ok(fired)
    }

    /// Enters all changes, in order, or none: the only refusal is for lack of memory. Each is looked up when it is
    /// entered, so that a response may follow the request in one list.
    pub fn apply(&mut self, changes: Vec<Change>, now: u64) -> Result<(), AllocError>
        requires { now < 2 ^ 60 }
        ensures ok { OnOk result (self.new ≡ entered_all now self.old changes.items) }
        ensures err { OnErr result (self.new ≡ self.old) }
    {
        make_room(&mut self.places, &mut self.timers, changes.as_slice().len())?;
        enter_all(&mut self.places, &mut self.timers, changes, self.rules, now);
        Ok(())
    }

    /// A transaction by its number. Takes no memory.
    pub fn transaction(&self, id: usize) -> Option<&Transaction>
        ensures { option_copied result ≡ at self.now.slots id }
    {
        transaction_at(self.places.slots(), id)
    }

    /// Whether a server transaction takes a response of the core with this status. Takes no memory.
    pub fn may_answer(&self, id: usize, status: u16) -> bool
        ensures { result ≡ is_some (line_at self.now id (Input.Answer (class_of status))) }
    {
        match transaction_at(self.places.slots(), id) {
            Some(transaction) => {
                advance(transaction.state, Input::Answer(class_of(status))).is_some()
            }
            None => false,
        }
    }

    /// How many server transactions there are (RFC 3261 section 17.2). Takes no memory.
    pub fn serving_count(&self) -> usize
        ensures { result ≡ serving self.now.slots }
    {
        self.places.serving_count()
    }

    /// How many timers are set: each belongs to a transaction, and a transaction has at most one of a letter. Takes
    /// no memory.
    pub fn timer_count(&self) -> usize
        ensures count { result ≡ length self.now.timers }
        ensures once { EachKeyOnce same_timer self.now.timers }
    {
        self.timers.len()
    }

    /// The timer that is due first, and its moment: the one with the least moment, and at equal moments the one set
    /// first. It is one that `fire` takes. Takes no memory.
    pub fn first_due(&self, now: u64) -> Option<Timer<TimerId>>
        ensures first { result ≡ first_due self.now.timers now }
        ensures least { IsDue self.now.timers now result }
        ensures due { IfSome result (λ timer. IsTrue (is_due self.now timer.key now)) }
    {
        self.timers.first_due(now)
    }

    /// The least moment that is set. Takes no memory.
    pub fn next(&self) -> Option<u64>
        ensures first { result ≡ option_map (λ t. t.at) (first self.now.timers) }
        ensures least { IsNext self.now.timers result }
    {
        self.timers.next()
    }

    /// The server transaction that a CANCEL names by branch and sent-by (RFC 3261 section 9.2): the INVITE's,
    /// otherwise the one with the least number that is not a CANCEL's. Takes no memory.
    pub fn cancels(&self, request: &Request) -> Option<usize>
        ensures { result ≡ named self.now.slots request.now.parts }
    {
        cancelled_place(&self.places, &request.parts)
    }

    /// The INVITE of the server's own with this tag in From that has no final response: the one that `cancel_of` and
    /// `abandons` are for. Takes no memory.
    pub fn waiting_invite(&self, tag: &Text<'_>) -> Option<usize>
        ensures { result ≡ waiting_invite self.now.slots tag.now }
    {
        waiting_invite(&self.places, tag)
    }

    /// Whether another server transaction has the tag of From, Call-ID, number and method of a request without tag in
    /// To: it came by two paths (RFC 3261 section 8.2.2.2). Takes no memory.
    pub fn is_merged_request(&self, request: &Request) -> bool
        ensures { result ≡ merged self.now request.now.parts }
    {
        !has_to_tag(&request.parts) && any_merged(&self.places, &request.parts)
    }

    pub(crate) fn is_due(&self, timer: TimerId, now: u64) -> bool
        ensures { result ≡ is_due self.now timer now }
    {
        has_come(moment(&self.timers, timer.id, timer.kind), now)
    }

    // The number of the transaction that a request of the server's own begins.
    fn started_number(&self, request: &Request) -> Option<usize>
        ensures { result ≡ started_number self.now request.now }
    {
        if is_method(&request.parts, b"ACK") {
            None
        } else {
            Some(self.places.free_number())
        }
    }

    // One change.
    fn enter_alone(&mut self, change: Change, now: u64) -> Result<(), AllocError>
        requires { now < 2 ^ 60 }
        ensures ok { OnOk result (self.new ≡ entered now self.old change) }
        ensures err { OnErr result (self.new ≡ self.old) }
        ensures needed { OnErr result (needs_room self.old.slots change ≡ true) }
    {
        make_room_for(&mut self.places, &mut self.timers, &change)?;
        enter(&mut self.places, &mut self.timers, change, self.rules, now);
        Ok(())
    }
}
