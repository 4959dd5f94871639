//! What an event was about, for observers of the server.

ghost use Rattle.std.specs.Prelude.{◌≡◌};
ghost use Rattle.plans.specs.Note.{note_of_call, note_of_taken};

use crate::reason::Reason;
use crate::taken::{Taken, Why};
use call_core::NoteOfCall;

/// What an event was about.
#[derive(Clone, Copy)]
pub enum Note {
    /// Nothing that is reported: repeats, what transactions do by themselves, and requests that are answered 200 and
    /// change nothing.
    Quiet,
    /// Something happened to a call.
    Call(NoteOfCall),
    /// The server itself refused a request.
    Refused(Reason),
    /// A user's bindings are as a REGISTER asked.
    Registered,
    /// Nothing was sent.
    Dropped(Why),
    /// A request for which no transaction is left.
    Shed,
}

/// Of an event for which nothing is sent.
pub fn note_of_taken(taken: Taken) -> Note
    ensures { result ≡ note_of_taken taken }
{
    match taken {
        Taken::Done => Note::Quiet,
        Taken::Dropped(why) => Note::Dropped(why),
        Taken::Shed => Note::Shed,
        Taken::Idle => Note::Quiet,
    }
}

/// Of a step of a call.
pub(crate) fn note_of_call(note: Option<NoteOfCall>) -> Note
    ensures { result ≡ note_of_call note }
{
    match note {
        None => Note::Quiet,
        Some(note) => Note::Call(note),
    }
}
