//! How a line of the machines reads as a verdict of the table.

ghost use Rattle.std.specs.Prelude.{◌≡◌, false};
ghost use Rattle.transactions.specs.Contents.{input_of, verdict_by, fired_by, IsNew};
ghost use Rattle.transaction_machines.specs.Lines.{is_answer};

use crate::outcome::{Fired, Outgoing, Verdict};
use sip_message::{Parts, is_method};
use transaction_machines::{Input, Sending, Told};

/// What a request of a live transaction is to it.
pub(crate) fn input_of(parts: &Parts) -> Input
    ensures input { result ≡ input_of parts.now }
    ensures not_ours { is_answer result ≡ false }
{
    if is_method(parts, b"ACK") {
        Input::Ack
    } else {
        Input::Repeat
    }
}

/// What a message was, by what its line sends and whom it notifies.
pub(crate) fn verdict_by(id: usize, input: Input, sending: Sending, told: Told) -> Verdict
    ensures verdict { result ≡ verdict_by id input sending told }
    ensures old { IsNew result → ⊥ }
{
    match (input, sending, told) {
        (_, _, Told::Up) => Verdict::Up(id),
        (Input::Repeat, Sending::Again, _) => Verdict::Repeat,
        _ => Verdict::Swallowed,
    }
}

/// What a timer did, if its line does anything.
pub(crate) fn fired_by(told: Told, send: Option<Outgoing>) -> Option<Fired>
    ensures { result ≡ fired_by told send }
{
    match told {
        Told::TimedOut => Some(Fired::TimedOut),
        Told::Ended => Some(Fired::Ended),
        Told::Silent | Told::Up => Some(Fired::Send(send?)),
    }
}
