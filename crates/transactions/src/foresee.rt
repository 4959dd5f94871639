//! What the table would return, and the change that it would make. Nothing changes here.

ghost use Rattle.std.specs.Prelude.{◌≡◌, ◌<◌, IfOk, IfErr, Some, None, IsTrue, true, false};
ghost use Rattle.sip_uri.specs.declared.uri.Addr.{Addr};
ghost use Rattle.sip_message.specs.declared.message.Message.TheVariants as Kinds;
ghost use Rattle.transactions.specs.declared.change.Entry.TheVariants.{Tells, Leaves};
ghost use Rattle.transaction_machines.specs.Lines.{is_answer};
ghost use Rattle.transactions.specs.Shares.{RefusesBegun, RefusesMessage, has_no_room, meets, serving_from};
ghost use Rattle.transactions.specs.Slots.{at};
ghost use Rattle.transactions.specs.Contents.{stray, reception_at, reception_of, begun, ack_at, IsNew, fired_of, is_due, RefusesFire, line_in, response_input, takes_memory, message_takes};
ghost use Rattle.transactions.specs.Changes.{change_of, request_change, fire_of};
ghost use Rattle.transactions.specs.Prints.{branch_print};

use crate::change::Change;
use crate::error::TableError;
use crate::outcome::{Fired, Reception, Verdict};
use crate::print::{BranchPrint, branch_print};
use crate::same_branch::ack_for;
use crate::slot::Slot;
use crate::slots::{client_place, server_place, transaction_at};
use crate::table::Table;
use crate::transaction::{TimerId, sent};
use crate::verdicts::{fired_by, input_of, verdict_by};
use sip_message::{Message, Request, Response, class_of, is_method};
use sip_uri::Addr;
use std::alloc::{AllocError, Global};
use text::Text;
use transaction_machines::{Input, advance};

/// The most server transactions. What the server itself asks is not counted.
const MAX_SERVED: usize = 4096;

/// What would be returned for a message, and the change that it would make.
#[derive(Drop)]
pub struct Foreseen {
    pub reception: Reception,
    pub change: Change,
}

impl Foreseen {
    // Of a message that belongs to no transaction, and begins none.
    fn stray() -> Foreseen
        ensures reception { result.reception ≡ stray }
        ensures change { result.change ≡ Leaves }
    {
        Foreseen {
            reception: Reception::stray(),
            change: Change::leaves(),
        }
    }
}

/// What a timer would do, and the change that it would make.
#[derive(Drop)]
pub struct ForeseenFire {
    pub fired: Fired,
    pub change: Change,
}

impl Table {
    /// What `receive` would return, and the change that it would make: entering that is receiving the message. A
    /// refusal is X3, or for lack of memory where the message begins a transaction, sends something or starts a
    /// timer.
    pub fn foresee(&self, message: &Message, source: Addr) -> Result<Foreseen, TableError>
        ensures reception { IfOk result (λ f. f.reception ≡ reception_of self.now message.now) }
        ensures change { IfOk result (λ f. f.change ≡ change_of self.now message.now source) }
        // Where there is no room, no transaction of another begins.
        ensures room { IfOk result (λ f. IsNew f.reception.verdict → has_no_room self.now source ≡ false) }
        ensures refused { IfErr result (RefusesMessage self.now message.now source) }
    {
        match message {
            Message::Request(request) => self.foresee_request(request, source),
            Message::Response(response) => Ok(self.foresee_response(response)?),
        }
    }

    /// What `fire` would return, and the change that it would make: entering that lets the timer fire. A refusal is
    /// X1, or for lack of memory.
    pub fn foresee_fire(&self, timer: TimerId, now: u64) -> Result<ForeseenFire, TableError>
        ensures fired { IfOk result (λ f. Some f.fired ≡ fired_of (at self.now.slots timer.id) timer.kind) }
        ensures change { IfOk result (λ f. f.change ≡ fire_of timer) }
        ensures due { IfOk result (λ f. IsTrue (is_due self.now timer now)) }
        ensures refused { IfErr result (RefusesFire self.now timer now) }
    {
        if !self.is_due(timer, now) {
            return Err(TableError::Unknown);
        }
        let Some(transaction) = transaction_at(self.places.slots(), timer.id) else {
            unreachable!()
        };
        let Some(step) = advance(transaction.state, Input::Fires(timer.kind)) else {
            unreachable!()
        };
        let send = sent(transaction, &None, step.send)?;
        let Some(fired) = fired_by(step.told, send) else {
            unreachable!()
        };
        let change = Change::fires(timer);
        Ok(ForeseenFire { fired, change })
    }

    #[tactic(auto, unfolding(crate::specs::Contents::reception_of, crate::specs::Contents::message_takes, crate::specs::Changes::change_of))]
    fn foresee_request(&self, request: &Request, source: Addr) -> Result<Foreseen, TableError>
        ensures reception { IfOk result (λ f. f.reception ≡ reception_of self.now (Kinds.Request request.now)) }
        ensures change { IfOk result (λ f. f.change ≡ change_of self.now (Kinds.Request request.now) source) }
        ensures room { IfOk result (λ f. IsNew f.reception.verdict → has_no_room self.now source ≡ false) }
        ensures refused { IfErr result (RefusesMessage self.now (Kinds.Request request.now) source) }
    {
        let key = self.places.key();
        let print = branch_print(key, &request.parts.vias);
        match server_place(&self.places, &request.parts, print) {
            Some(id) => {
                let input = input_of(&request.parts);
                Ok(input_foreseen(self.places.slots(), id, input, None)?)
            }
            None => self.foresee_begin(request, source, BranchPrint { key, print }),
        }
    }

    // A response.
    #[tactic(auto, unfolding(crate::specs::Contents::reception_of, crate::specs::Contents::message_takes, crate::specs::Changes::change_of))]
    fn foresee_response(&self, response: &Response) -> Result<Foreseen, AllocError>
        ensures reception { IfOk result (λ f. f.reception ≡ reception_of self.now (Kinds.Response response.now)) }
        ensures change { (source : Addr) → IfOk result (λ f. f.change ≡ change_of self.now (Kinds.Response response.now) source) }
        ensures old { IfOk result (λ f. IsNew f.reception.verdict → ⊥) }
        ensures needed { IfErr result (λ error. message_takes self.now (Kinds.Response response.now) ≡ true) }
    {
        match client_place(&self.places, &response.parts) {
            Some(id) => {
                let ack = ack_at(self.alloc, self.places.slots(), id, response)?;
                let input = Input::Response(class_of(response.status));
                input_foreseen(self.places.slots(), id, input, ack)
            }
            None => Ok(Foreseen::stray()),
        }
    }

    // A request that belongs to no transaction, and whose branch has this print.
    fn foresee_begin(
        &self,
        request: &Request,
        source: Addr,
        branch: BranchPrint,
    ) -> Result<Foreseen, TableError>
        requires { branch.print ≡ branch_print branch.key request.now.parts.vias }
        ensures reception { IfOk result (λ f. f.reception ≡ begun self.now request.now.parts) }
        ensures change { IfOk result (λ f. f.change ≡ request_change request.now source None) }
        ensures room { IfOk result (λ f. IsNew f.reception.verdict → has_no_room self.now source ≡ false) }
        ensures refused { IfErr result (RefusesBegun self.now request.now.parts source) }
    {
        if is_method(&request.parts, b"ACK") {
            return Ok(Foreseen::stray());
        }
        if self.has_no_room(source) {
            return Err(TableError::Full);
        }
        let change = Change::serves(self.alloc, request, source, branch)?;
        let reception = Reception {
            verdict: Verdict::New(self.places.free_number()),
            before: None,
            send: None,
        };
        Ok(Foreseen { reception, change })
    }

    // Whether a request of this source would be one too many.
    fn has_no_room(&self, source: Addr) -> bool
        ensures { result ≡ has_no_room self.now source }
    {
        self.places.serving_count() >= MAX_SERVED || self.meets_share(source.ip)
    }

    // Whether as many server transactions of this address are live as its share allows.
    fn meets_share(&self, ip: [u8; 4]) -> bool
        ensures { result ≡ meets self.now.rules.share (serving_from ip self.now.slots) }
    {
        match self.rules.share {
            None => false,
            Some(share) => self.places.serving_from(ip) >= share,
        }
    }
}

// The ACK that a response to transaction id is to get.
fn ack_at(
    alloc: Global,
    slots: &[Slot],
    id: usize,
    response: &Response,
) -> Result<Option<Text<'static>>, AllocError>
    ensures ack { IfOk result (λ ack. ack ≡ ack_at (at slots.now id) response.now) }
    ensures needed { IfErr result (λ error. takes_memory (line_in slots.now id (response_input response.now)) ≡ true) }
{
    let Some(transaction) = transaction_at(slots, id) else {
        return Ok(None);
    };
    let input = Input::Response(class_of(response.status));
    let Some(step) = advance(transaction.state, input) else {
        return Ok(None);
    };
    ack_for(alloc, transaction, response, step.send)
}

// What transaction id answers to an input, with what is fresh.
fn reception_at(
    slots: &[Slot],
    id: usize,
    input: Input,
    fresh: &Option<Text<'static>>,
) -> Result<Reception, AllocError>
    ensures reception { IfOk result (λ r. r ≡ reception_at id (at slots.now id) input fresh.now) }
    ensures old { IfOk result (λ r. IsNew r.verdict → ⊥) }
    ensures needed { IfErr result (λ error. takes_memory (line_in slots.now id input) ≡ true) }
{
    let Some(transaction) = transaction_at(slots, id) else {
        return Ok(Reception::stray());
    };
    let before = transaction.state;
    let Some(step) = advance(before, input) else {
        return Ok(Reception {
            verdict: Verdict::Swallowed,
            before: Some(before),
            send: None,
        });
    };
    let send = sent(transaction, fresh, step.send)?;
    Ok(Reception {
        verdict: verdict_by(id, input, step.send, step.told),
        before: Some(before),
        send,
    })
}

// What transaction id answers to an input, and the change.
fn input_foreseen(
    slots: &[Slot],
    id: usize,
    input: Input,
    fresh: Option<Text<'static>>,
) -> Result<Foreseen, AllocError>
    requires { is_answer input ≡ false }
    ensures reception { IfOk result (λ f. f.reception ≡ reception_at id (at slots.now id) input fresh.entry) }
    ensures change { IfOk result (λ f. f.change ≡ Tells id input fresh.entry) }
    ensures old { IfOk result (λ f. IsNew f.reception.verdict → ⊥) }
    ensures needed { IfErr result (λ error. takes_memory (line_in slots.now id input) ≡ true) }
{
    let reception = reception_at(slots, id, input, &fresh)?;
    let change = Change::tells(id, input, fresh);
    Ok(Foreseen { reception, change })
}
