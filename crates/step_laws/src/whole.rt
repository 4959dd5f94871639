//! All that is sent in a step, and why.

ghost use Rattle.event_rows.specs.Rows.{row};
ghost use Rattle.event_rows.specs.State.{Contents};
ghost use Rattle.events.specs.declared.event.Event.{Event};
ghost use Rattle.step_laws.specs.Whole.{HasReason};

/// Whatever comes, that step sends one response to the request that came; or what the transactions send by
/// themselves, which is the ACK of a refusal, or what was sent before. After that go the messages of the actions of
/// one line of the calls' table, one by one, in their order. Nothing else is sent. The laws of each event say to whom
/// each goes.
pub fn whatever_goes_has_a_reason()
    ensures { (s : Contents) (event : Event) → HasReason s event (row s event) }
{}
