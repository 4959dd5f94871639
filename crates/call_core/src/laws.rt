//! What holds for the session of a call.

ghost use Rattle.std.specs.Prelude.{◌≡◌, ℕ, None, Some, IsTrue, false, is_some, true};
ghost use Rattle.port_pool.specs.Pool.{Contents};
ghost use Rattle.sdp.specs.declared.description.Description.{Description};
ghost use Rattle.offer_answer.specs.Alike.{Alike};
ghost use Rattle.offer_answer.specs.Checks.{answer_fault};
ghost use Rattle.offer_answer.specs.Direct.{direct};
ghost use Rattle.offer_answer.specs.Joined.{joined};
ghost use Rattle.offer_answer.specs.Session.{leads_by};
ghost use Rattle.call_media.specs.declared.session.OpenOffer.{OpenOffer};
ghost use Rattle.call_media.specs.declared.session.Session.{Session};
ghost use Rattle.call_media.specs.Answers.{answer_sent, session_over};
ghost use Rattle.call_media.specs.Serving.{SameFor, are_held};
ghost use Rattle.call_media.specs.Sessions.{pairs_of_session};
ghost use Rattle.call_core.specs.declared.call.Call.{Call};
ghost use Rattle.call_core.specs.declared.input.Input.{Input};
ghost use Rattle.call_core.specs.declared.input.Input.TheVariants as inputs;
ghost use Rattle.call_core.specs.declared.stage.Standing.{Standing};
ghost use Rattle.call_core.specs.declared.note.CallNote.TheVariants.{Begun};
ghost use Rattle.call_core.specs.declared.row.Row.{Row};
ghost use Rattle.call_core.specs.declared.signal.Signal.{Signal};
ghost use Rattle.call_core.specs.CallRows.{call_row, is_fit_input};
ghost use Rattle.call_core.specs.Notes.{HasNote, note_of};
ghost use Rattle.call_core.specs.Table.{first_row, row_of};
ghost use Rattle.call_core.specs.Calls.{IsServed, awaits_answer, has_session, holds_in};

/// Where a session is live, the call's two legs, joined by the relay table, mean what the offerer's own offer and the
/// answerer's own answer mean directly. Each was asked what the other offered. Each pair of the session is the
/// call's. A session is live exactly from the first fit 2xx until an end leaves.
pub fn session_is_direct()
    ensures joined { (call : Call) (pool : Contents) (s : Session) → IsServed call pool → call.media.session ≡ Some s →
        joined call.media.range.ip (leads_by pool.rows) s.offer_taken s.answer_sent s.offer_sent s.answer_taken
        ≡ direct s.offer_taken s.answer_taken }
    ensures offers { (call : Call) (pool : Contents) (s : Session) → IsServed call pool → call.media.session ≡ Some s →
        Alike s.offer_taken s.offer_sent }
    ensures answers { (call : Call) (pool : Contents) (s : Session) → IsServed call pool → call.media.session ≡ Some s →
        Alike s.answer_taken s.answer_sent }
    ensures held { (call : Call) (pool : Contents) (s : Session) → IsServed call pool → call.media.session ≡ Some s →
        IsTrue (are_held call.number pool (pairs_of_session s)) }
    ensures stands { (call : Call) (pool : Contents) → IsServed call pool →
        is_some call.media.session ≡ holds_in has_session call.standing }
{
    call_media::session_is_direct();
}

/// A call that has the same pairs and the same rows at them is served as before.
pub fn spared_call_is_served()
    ensures { (call : Call) (pool after : Contents) → IsServed call pool → SameFor call.number pool after → IsServed call after }
{
    call_media::spared_call_serves();
}

/// A fit 2xx makes the session that of its exchange: the offer as it was taken, the answer as it is sent, the offer as
/// it was sent, the answer as it was taken. No other input makes another one.
pub fn session_is_of_its_exchange()
    ensures fit { (call : Call) (s : Standing) (pool : Contents) (now : ℕ) (o : OpenOffer) (answer : Description) →
        call.standing ≡ Some s → awaits_answer s.stage ≡ true → call.media.offer ≡ Some o →
        answer_fault call.media.range o.offer_sent answer ≡ None →
        (call_row call (inputs.Answer (Some answer)) pool now).call.media.session
        ≡ Some (session_over o (answer_sent call.media o answer) answer) }
    ensures other { (call : Call) (input : Input) (pool : Contents) (now : ℕ) (s : Session) →
        is_fit_input call input ≡ false → (call_row call input pool now).call.media.session ≡ Some s →
        call.media.session ≡ Some s }
{}

/// A line's note says what the table does for its signal; the first offer's line has its own.
pub fn lines_have_notes()
    ensures begun { note_of None first_row.actions first_row.next ≡ Some Begun }
    ensures line { (standing : Standing) (signal : Signal) (row : Row) → row_of standing signal ≡ Some row → HasNote standing signal row }
{}
