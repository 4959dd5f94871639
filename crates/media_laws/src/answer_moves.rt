//! The offers that a move answers.

ghost use Rattle.std.specs.Prelude.{◌≡◌, ℕ, IsTrue, List, Option, Some, slice_get};
ghost use Rattle.call_trace.specs.declared.call.Call.{Call};
ghost use Rattle.call_trace.specs.declared.datagram.Datagram.{Datagram};
ghost use Rattle.call_trace.specs.declared.datagram.Message.{Message};
ghost use Rattle.call_trace.specs.Messages.{is_answer, is_listed, offering};
ghost use Rattle.call_trace.specs.Moves.{Move};
ghost use Rattle.media_laws.specs.Answering.{AnswersOffer};

/// What a move sends with an answer to an INVITE or UPDATE went before, or replies to the open offer of a call, with
/// the server's tag in the dialog with its offerer.
pub fn moves_answer_open_offers()
    ensures { (t : List Datagram) (old : List Call) (taken : Option Message) (sent : List Message) (new : List Call) → Move offering t old taken sent new →
        (i : ℕ) (m : Message) → slice_get sent i ≡ Some m → IsTrue (is_answer m) → IsTrue (is_listed offering m.method) → AnswersOffer t old m }
{}
