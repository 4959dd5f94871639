//! A transaction.

ghost use Rattle.std.specs.Prelude.{◌≡◌, ◌*◌, IfOk, IfErr, IsTrue, Some, true, false, option_map};
ghost use Rattle.sip_message.specs.declared.message.Message.TheVariants as Kinds;
ghost use Rattle.sip_message.specs.declared.message.Request.{Request};
ghost use Rattle.sip_writing.specs.Writing.{message_text};
ghost use Rattle.transaction_machines.specs.Lines.{repeats, starts_with_lines};
ghost use Rattle.transactions.specs.Fireable.{has_sent};
ghost use Rattle.transaction_machines.specs.Steps.{IsShort, timer, t1};
ghost use Rattle.transactions.specs.Contents.{sends};
ghost use Rattle.transactions.specs.OwnRequests.{own_of};
ghost use Rattle.transactions.specs.Transactions.{served, served_state, asking, asking_state, asking_timers, went, outgoing, sent};

use crate::outcome::Outgoing;
use crate::own_request::OwnRequest;
use sip_message::{Parts, Request, is_method};
use sip_uri::{Addr, Uri};
use sip_writing::reply_address;
use std::alloc::{AllocError, Global};
use text::Text;
use transaction_machines::{
    InviteClient, InviteServer, LIMIT, OtherClient, OtherServer, Sending, Start, Starts, State, T1,
    TimerKind,
};

/// A timer of a transaction, by the number of the transaction.
#[derive(Clone, Copy, PartialEq, Eq, PartialOrd, Ord)]
pub struct TimerId {
    pub id: usize,
    pub kind: TimerKind,
}

/// A transaction: the request that began it, its state, and what it sends again.
pub struct Transaction {
    /// The Request-URI.
    pub uri: Uri<'static>,
    pub parts: Parts<'static>,
    pub state: State,
    /// Where all that it sends goes.
    pub place: Addr,
    /// What it sent last: its request, a response, or the ACK to a refusal. None where nothing was sent.
    pub last: Option<Text<'static>>,
}

impl Drop for Transaction {
    fn drop(self) {
        let Transaction {
            uri: _,
            parts: _,
            state: _,
            place: _,
            last: _,
        } = self;
    }
}

/// The transaction that a request of another begins.
pub(crate) fn server_transaction(
    alloc: Global,
    request: &Request<'_>,
    source: Addr,
) -> Result<Transaction, AllocError>
    ensures served { IfOk result (λ t. t ≡ served request.now source) }
    ensures sent { IfOk result (λ t. IsTrue (has_sent (Some t))) }
{
    let uri = request.uri.keep(alloc)?;
    let parts = request.parts.keep(alloc)?;
    Ok(Transaction {
        uri,
        parts,
        state: served_state(&request.parts),
        place: reply_address(&request.parts, source),
        last: None,
    })
}

fn served_state(parts: &Parts) -> State
    ensures state { result ≡ served_state parts.now }
    ensures silent { repeats result ≡ false }
{
    if is_method(parts, b"INVITE") {
        State::InviteServer(InviteServer::Proceeding)
    } else {
        State::OtherServer(OtherServer::Trying)
    }
}

/// The transaction that a request of the server's own begins.
pub(crate) fn client_transaction(request: OwnRequest, to: Addr) -> Transaction
    ensures asking { (r : Request) → request ≡ own_of r → result ≡ asking r to (message_text (Kinds.Request r)) }
    ensures state { result.state ≡ asking_state request.parts }
    ensures sent { IsTrue (has_sent (Some result)) }
{
    let OwnRequest { uri, parts, bytes } = request;
    let state = asking_state(&parts);
    Transaction {
        uri,
        parts,
        state,
        place: to,
        last: Some(bytes),
    }
}

fn asking_state(parts: &Parts) -> State
    ensures { result ≡ asking_state parts.now }
{
    if is_method(parts, b"INVITE") {
        State::InviteClient(InviteClient::Calling(T1, false))
    } else {
        State::OtherClient(OtherClient::Trying(T1))
    }
}

fn starts_two(again: TimerKind, limit: TimerKind) -> Starts
    ensures { result ≡ Starts.Two (timer again t1) (timer limit (64 * t1)) }
{
    Starts::Two(
        Start {
            kind: again,
            after: T1,
        },
        Start {
            kind: limit,
            after: LIMIT,
        },
    )
}

/// The timers of a request of the server's own: when it is sent again, and when it is given up.
#[tactic(auto, unfolding(transaction_machines::specs::Machines::row_of, transaction_machines::specs::InviteClient::invite_client_row, transaction_machines::specs::OtherClient::other_client_row))]
pub(crate) fn asking_timers(parts: &Parts) -> Starts
    ensures timers { result ≡ asking_timers parts.now }
    ensures short { IsShort result }
    ensures lines { IsTrue (starts_with_lines (asking_state parts.now) result) }
{
    if is_method(parts, b"INVITE") {
        starts_two(TimerKind::A, TimerKind::B)
    } else {
        starts_two(TimerKind::E, TimerKind::F)
    }
}

impl Transaction {
    /// It goes on to its next state. What was new is what it sends again.
    pub(crate) fn advance(&mut self, fresh: Option<Text<'static>>, state: State)
        ensures { self.new ≡ went self.old fresh.entry state }
    {
        self.state = state;
        if fresh.is_some() {
            self.last = fresh;
        }
    }
}

fn outgoing(place: Addr, bytes: &Option<Text<'static>>) -> Result<Option<Outgoing>, AllocError>
    ensures { IfOk result (λ send. send ≡ option_map (outgoing place) bytes.now) }
{
    match bytes {
        None => Ok(None),
        Some(bytes) => Ok(Some(Outgoing {
            to: place,
            bytes: bytes.clone()?,
        })),
    }
}

/// What is sent, copied.
pub(crate) fn sent(
    transaction: &Transaction,
    fresh: &Option<Text<'static>>,
    sending: Sending,
) -> Result<Option<Outgoing>, AllocError>
    ensures sent { IfOk result (λ send. send ≡ sent transaction.now fresh.now sending) }
    // What sends nothing takes no memory.
    ensures needed { IfErr result (λ error. sends sending ≡ true) }
{
    match sending {
        Sending::Nothing => Ok(None),
        Sending::Again => outgoing(transaction.place, &transaction.last),
        Sending::Fresh => outgoing(transaction.place, fresh),
    }
}
