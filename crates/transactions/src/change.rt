//! Changes of the table for which everything that takes memory is ready.

ghost use Rattle.std.specs.Prelude.{ℕ, ◌≡◌, ◌+◌, IfOk, IsTrue, Some, None, false};
ghost use Rattle.sip_writing.specs.Writing.{message_text};
ghost use Rattle.sip_message.specs.declared.message.Message.TheVariants as Kinds;
ghost use Rattle.sip_message.specs.declared.message.Request.{Request};
ghost use Rattle.transactions.specs.declared.change.Entry.TheVariants.{Opens, Tells};
ghost use Rattle.transaction_machines.specs.declared.input.Input.TheVariants as inputs;
ghost use Rattle.transaction_machines.specs.declared.step.Starts.TheVariants.{NoTimer};
ghost use Rattle.transactions.specs.Changes.{start_of, fire_of};
ghost use Rattle.transactions.specs.Prints.{branch_print};
ghost use Rattle.transaction_machines.specs.Lines.{is_answer};
ghost use Rattle.transactions.specs.OwnRequests.{own_of};
ghost use Rattle.transactions.specs.Transactions.{served};

use crate::own_request::OwnRequest;
use crate::print::BranchPrint;
use crate::transaction::{
    TimerId, Transaction, asking_timers, client_transaction, server_transaction,
};
use boxed::Boxed;
use sip_message::{Class, Request, is_method};
use sip_uri::Addr;
use std::alloc::{AllocError, Global};
use std::marker::Model;
use text::Text;
use transaction_machines::{Input, Starts};

/// What a change does.
#[derive(Drop)]
pub enum Entry {
    /// A new transaction, under the least number that is free, and its timers.
    Opens(Boxed<Transaction>, Starts),
    /// A transaction gets an input that is no response of the core, perhaps with what it is to send.
    Tells(usize, Input, Option<Text<'static>>),
    /// A response of the core, with its bytes.
    Answers(usize, Class, Text<'static>),
    /// Nothing.
    Leaves,
}

/// A change of the table, made ready before any is made: entering it takes no memory except room for a transaction
/// and its timers. What a transaction does is looked up when the change is entered.
#[derive(Drop)]
pub struct Change {
    pub(crate) entry: Entry,
    /// The print of the branch of a new transaction, where it is known.
    pub(crate) known: Option<BranchPrint>,
}

impl Model for Change {
    ghost use Rattle.transactions.specs.declared.change.Entry.{Entry};
    ghost use Rattle.transactions.specs.Changes.{IsReady};
    ghost use Rattle.transactions.specs.KnownPrints.{IsKnown};

    ghost Value = { Entry };

    ghost view = { λ c. c.entry };

    ghost invariant = { λ c. IsReady c.entry × IsKnown c.known c.entry };
}

impl Change {
    /// A request of the server's own begins a transaction. An ACK belongs to none, and changes nothing (RFC 3261
    /// section 17.1.1.3).
    pub fn starts(alloc: Global, request: &Request, to: Addr) -> Result<Change, AllocError>
        ensures { IfOk result (λ c. c ≡ start_of request.now to) }
    {
        Change::asks(alloc, OwnRequest::of(alloc, request)?, to)
    }

    /// The same, with what is kept of the request.
    pub fn asks(alloc: Global, request: OwnRequest, to: Addr) -> Result<Change, AllocError>
        ensures { (r : Request) → request ≡ own_of r → IfOk result (λ c. c ≡ start_of r to) }
    {
        if is_method(&request.parts, b"ACK") {
            return Ok(Change::leaves());
        }
        let timers = asking_timers(&request.parts);
        let transaction = Boxed::new(alloc, client_transaction(request, to))?;
        Ok(Change {
            entry: Entry::Opens(transaction, timers),
            known: None,
        })
    }

    /// A response of the core to the request of server transaction `id`, of this class and with these bytes. Where that
    /// takes none (`may_answer`), the change changes nothing. Takes no memory.
    pub fn answers_with(id: usize, class: Class, bytes: Text<'static>) -> Change
        ensures { result ≡ Entry.Answers id class bytes.entry }
    {
        Change {
            entry: Entry::Answers(id, class, bytes),
            known: None,
        }
    }

    /// The core no longer waits for a response to its INVITE. Takes no memory.
    pub fn abandons(id: usize) -> Change
        ensures { result ≡ Tells id inputs.Abandon None }
    {
        Change {
            entry: Entry::Tells(id, Input::Abandon, None),
            known: None,
        }
    }

    /// A timer fires. Takes no memory.
    pub(crate) fn fires(timer: TimerId) -> Change
        ensures { result ≡ fire_of timer }
    {
        Change {
            entry: Entry::Tells(timer.id, Input::Fires(timer.kind), None),
            known: None,
        }
    }

    /// A transaction gets an input that is no response of the core.
    pub(crate) fn tells(id: usize, input: Input, fresh: Option<Text<'static>>) -> Change
        requires { is_answer input ≡ false }
        ensures { result ≡ Tells id input fresh.entry }
    {
        Change {
            entry: Entry::Tells(id, input, fresh),
            known: None,
        }
    }

    /// The request of another, whose branch has this print, begins a transaction.
    pub(crate) fn serves(
        alloc: Global,
        request: &Request,
        source: Addr,
        branch: BranchPrint,
    ) -> Result<Change, AllocError>
        requires { branch.print ≡ branch_print branch.key request.now.parts.vias }
        ensures { IfOk result (λ c. c ≡ Opens (served request.now source) NoTimer) }
    {
        let transaction = Boxed::new(alloc, server_transaction(alloc, request, source)?)?;
        Ok(Change {
            entry: Entry::Opens(transaction, Starts::NoTimer),
            known: Some(branch),
        })
    }

    /// Nothing changes. Takes no memory.
    pub fn leaves() -> Change
        ensures { result ≡ Entry.Leaves }
    {
        Change {
            entry: Entry::Leaves,
            known: None,
        }
    }
}
