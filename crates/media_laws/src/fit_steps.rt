//! What a fit answer results in for the call, and what a 2xx results in for its transaction.

ghost use Rattle.std.specs.Prelude.{◌≡◌, ℕ, None, Option, Some, true};
ghost use Rattle.media_laws.specs.FitSteps.{IsFitStep, Talks};
ghost use Rattle.call_core.specs.CallRows.{call_row, is_fit};
ghost use Rattle.call_core.specs.Calls.{awaits_answer};
ghost use Rattle.call_core.specs.Table.{row_of};
ghost use Rattle.call_core.specs.declared.call.Call.{Call};
ghost use Rattle.call_core.specs.declared.input.Input.TheVariants.{Answer};
ghost use Rattle.call_core.specs.declared.signal.Signal.TheVariants.{FitAnswer};
ghost use Rattle.call_core.specs.declared.stage.Standing.{Standing};
ghost use Rattle.port_pool.specs.Pool as pools;
ghost use Rattle.sdp.specs.declared.description.Description.{Description};
ghost use Rattle.sip_message.specs.Words.{class_of};
ghost use Rattle.sip_message.specs.declared.message.Message.TheVariants as Kinds;
ghost use Rattle.sip_message.specs.declared.message.Response.{Response};
ghost use Rattle.sip_message.specs.declared.words.Class.TheVariants.{Success};
ghost use Rattle.media_laws.specs.Lines.{next_in};
ghost use Rattle.transactions.specs.Contents.{Contents, reception_of};

/// A step of a call for a fit answer to its open offer does what the line of that signal says, and leads to where
/// that leads: both ends talk. The offerer is sent the answer at the server's address, and the session is that of the
/// exchange.
pub fn fit_steps_are_lines()
    ensures step { (c : Call) (n : Standing) (pool : pools.Contents) (now : ℕ) (given : Option Description) → c.standing ≡ Some n → awaits_answer n.stage ≡ true →
        is_fit c c.media.offer given ≡ true → IsFitStep c n given (call_row c (Answer given) pool now) }
    ensures talks { (n : Standing) → awaits_answer n.stage ≡ true → Talks (next_in n (row_of n FitAnswer)) }
{}

/// A 2xx has the transaction of its request send nothing (RFC 3261 sections 17.1.1.2 and 17.1.2.2): of an INVITE the
/// call acknowledges it.
pub fn successes_send_nothing()
    ensures { (table : Contents) (r : Response) → class_of r.status ≡ Success → (reception_of table (Kinds.Response r)).send ≡ None }
{}
