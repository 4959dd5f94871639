//! What an event results in.

ghost use Rattle.std.specs.Prelude.{◌≡◌, ◌∷◌, ◌++◌, [], IfOk, None, Some};
ghost use Rattle.sip_message.specs.Words.{class_of};
ghost use Rattle.transactions.specs.declared.change.Entry.TheVariants.{Answers};
ghost use Rattle.plans.specs.declared.taken.Taken.TheVariants.{Done};
ghost use Rattle.plans.specs.declared.note.Note.TheVariants.{Quiet, Refused, Registered};
ghost use Rattle.plans.specs.Plan.{as_refusal, goes, lists, moves, nothing};
ghost use Rattle.registrar.specs.declared.change.RegistrarChange.TheVariants.{Binds};

use crate::note::{Note, note_of_taken};
use crate::reason::Reason;
use crate::taken::Taken;
use events::Sent;
use registrar::{Listing, RegistrarChange};
use sip_message::class_of;
use sip_uri::Addr;
use std::alloc::{AllocError, Global};
use std::marker::Model;
use text::Text;
use transactions::{Change, Outgoing};

/// What an event results in: its answer, the changes of the transactions, what is sent, and what changes in the
/// registrar. All that takes memory has been done.
#[derive(Drop)]
pub struct Plan {
    pub taken: Taken,
    pub changes: Vec<Change>,
    pub sends: Vec<Sent>,
    pub registration: Option<RegistrarChange>,
    /// How many tokens are made.
    pub made: u8,
    /// What the event is about.
    pub note: Note,
}

impl Model for Plan {
    ghost use Rattle.plans.specs.Plan as plans;

    ghost Value = { plans.Plan };

    ghost view = { λ p. record { taken = p.taken; changes = p.changes.items; sends = p.sends.items; registration = p.registration; made = p.made; note = p.note } };
}

/// The list of one change.
pub fn one_change(alloc: Global, change: Change) -> Result<Vec<Change>, AllocError>
    ensures { IfOk result (λ changes. changes.items ≡ change ∷ []) }
{
    let mut changes = Vec::new(alloc);
    changes.push(change)?;
    Ok(changes)
}

pub(crate) fn sends_of(alloc: Global, out: Option<Outgoing>) -> Result<Vec<Sent>, AllocError>
    ensures { IfOk result (λ sends. sends.items ≡ goes out) }
{
    match out {
        None => Ok(Vec::new(alloc)),
        Some(out) => one_send(
            alloc,
            Sent {
                to: out.to,
                bytes: out.bytes,
            },
        ),
    }
}

fn one_send(alloc: Global, sent: Sent) -> Result<Vec<Sent>, AllocError>
    ensures { IfOk result (λ sends. sends.items ≡ sent ∷ []) }
{
    let mut sends = Vec::new(alloc);
    sends.push(sent)?;
    Ok(sends)
}

/// The changes so far, and the response of transaction `id`, which has this status and these bytes.
fn with_response(
    alloc: Global,
    mut begun: Vec<Change>,
    id: usize,
    status: u16,
    bytes: &Text<'_>,
) -> Result<Vec<Change>, AllocError>
    ensures { IfOk result (λ changes. changes.items ≡ begun.items ++ Answers id (class_of status) bytes.now ∷ []) }
{
    begun.push(Change::answers_with(id, class_of(status), bytes.keep(alloc)?))?;
    Ok(begun)
}

impl Plan {
    /// Nothing is sent, and nothing changes. Takes no memory.
    pub fn nothing(alloc: Global, taken: Taken) -> Plan
        ensures { result ≡ nothing taken }
    {
        Plan {
            taken,
            changes: Vec::new(alloc),
            sends: Vec::new(alloc),
            registration: None,
            made: 0,
            note: note_of_taken(taken),
        }
    }

    /// The office's users are to be those of this listing, and nothing is sent. Takes no memory.
    pub fn lists(alloc: Global, listing: Listing) -> Plan
        ensures { result ≡ lists listing }
    {
        Plan {
            taken: Taken::Done,
            changes: Vec::new(alloc),
            sends: Vec::new(alloc),
            registration: Some(RegistrarChange::Lists(listing)),
            made: 0,
            note: Note::Quiet,
        }
    }

    /// A transaction does something by itself.
    pub fn moves(
        alloc: Global,
        begun: Vec<Change>,
        out: Option<Outgoing>,
    ) -> Result<Plan, AllocError>
        ensures { IfOk result (λ p. p ≡ moves begun.items out) }
    {
        let sends = sends_of(alloc, out)?;
        Ok(Plan {
            taken: Taken::Done,
            changes: begun,
            sends,
            registration: None,
            made: 0,
            note: Note::Quiet,
        })
    }

    /// A refusal that no transaction sends, for this reason, with these bytes.
    pub fn replies(
        alloc: Global,
        to: Addr,
        reason: Reason,
        bytes: Text<'static>,
    ) -> Result<Plan, AllocError>
        ensures { IfOk result (λ p. p ≡ record {
          taken = Done;
          changes = [];
          sends = record { to = to; bytes = bytes.entry } ∷ [];
          registration = None;
          made = 0;
          note = Refused reason;
        }) }
    {
        Ok(Plan {
            taken: Taken::Done,
            changes: Vec::new(alloc),
            sends: one_send(alloc, Sent { to, bytes })?,
            registration: None,
            made: 0,
            note: Note::Refused(reason),
        })
    }

    /// A request began transaction `id`, and is answered there at once, with a response of this status and these
    /// bytes.
    pub(crate) fn answers(
        alloc: Global,
        begun: Vec<Change>,
        id: usize,
        to: Addr,
        status: u16,
        bytes: Text<'static>,
        made: u8,
    ) -> Result<Plan, AllocError>
        ensures { IfOk result (λ p. p ≡ record {
          taken = Done;
          changes = begun.items ++ Answers id (class_of status) bytes.entry ∷ [];
          sends = record { to = to; bytes = bytes.entry } ∷ [];
          registration = None;
          made = made;
          note = Quiet;
        }) }
    {
        let changes = with_response(alloc, begun, id, status, &bytes)?;
        let sends = one_send(alloc, Sent { to, bytes })?;
        Ok(Plan {
            taken: Taken::Done,
            changes,
            sends,
            registration: None,
            made,
            note: Note::Quiet,
        })
    }

    /// The same, of a request that is refused for this reason. Takes no memory.
    pub(crate) fn as_refusal(self, reason: Reason) -> Plan
        ensures { result ≡ as_refusal reason self }
    {
        Plan {
            note: Note::Refused(reason),
            ..self
        }
    }

    /// The same, with this change of the registrar. Takes no memory.
    pub(crate) fn with_registration(self, registration: registrar::Plan) -> Plan
        ensures { result ≡ record self { registration = Some (Binds registration); note = Registered } }
    {
        Plan {
            registration: Some(RegistrarChange::Binds(registration)),
            note: Note::Registered,
            ..self
        }
    }
}
