//! What a step sends for an event that no call takes.

ghost use Rattle.std.specs.Prelude.{◌≡◌, true, false, ℕ, List, [], None, Some};
ghost use Rattle.sip_message.specs.declared.message.Message.TheVariants as Kinds;
ghost use Rattle.sip_message.specs.declared.message.Request.{Request};
ghost use Rattle.sip_message.specs.declared.message.Response.{Response};
ghost use Rattle.sip_uri.specs.declared.uri.Addr.{Addr};
ghost use Rattle.call_rules.specs.Reach.{is_unreachable};
ghost use Rattle.call_rules.specs.Responses.{response_rule, timeout_rule};
ghost use Rattle.call_rules.specs.declared.responses.ResponseRule.TheVariants as rule;
ghost use Rattle.event_rows.specs.Rows.{row};
ghost use Rattle.event_rows.specs.State.{Contents};
ghost use Rattle.events.specs.declared.event.Event.{Event};
ghost use Rattle.plans.specs.CallRows.{times_responses};
ghost use Rattle.timers.specs.declared.timers.Timer.{Timer};
ghost use Rattle.transactions.specs.Contents.{fired_of};
ghost use Rattle.transactions.specs.Slots.{at};
ghost use Rattle.transactions.specs.declared.outcome.Fired.TheVariants as fires;
ghost use Rattle.transactions.specs.declared.outcome.Outgoing.{Outgoing};
ghost use Rattle.transactions.specs.declared.outcome.Verdict.TheVariants as verdicts;
ghost use Rattle.transactions.specs.declared.transaction.TimerId.{TimerId};
ghost use Rattle.transactions.specs.declared.transaction.Transaction.{Transaction};
ghost use Rattle.step_laws.specs.Coming.{GoesUp};
ghost use Rattle.step_laws.specs.Repeats.{FiresAgain, Finds, GoesAgainOrNothing, RespondsAgain, SendsJust, TimerIsDue, ack_kept};

/// Repeats: a request that is one gets the bytes that its transaction sent last, at the address to which they went
/// (`request`), or nothing (`absorbed`), as an ACK does. A response that its transaction keeps for itself gets what
/// that sent last, which is the ACK of a refusal, or nothing (`response`). A 2xx that its call already had gets the
/// ACK that is kept for it, byte by byte, to where that went (`success`). Nothing else is sent.
pub fn repeats_get_what_went_before()
    ensures request { (s : Contents) (event : Event) (source : Addr) (bytes : List ℕ) (r : Request) → Finds s event source bytes (Kinds.Request r) verdicts.Repeat → RespondsAgain s r (row s event) }
    ensures absorbed { (s : Contents) (event : Event) (source : Addr) (bytes : List ℕ) (r : Request) → Finds s event source bytes (Kinds.Request r) verdicts.Swallowed → SendsJust [] (row s event) }
    ensures response { (s : Contents) (event : Event) (source : Addr) (bytes : List ℕ) (r : Response) → Finds s event source bytes (Kinds.Response r) verdicts.Swallowed → is_unreachable r ≡ false →
        GoesAgainOrNothing s r (row s event) }
    ensures success { (s : Contents) (event : Event) (source : Addr) (bytes : List ℕ) (r : Response) (id : ℕ) (asked : Transaction) → GoesUp s event source bytes r id asked → (place : ℕ) →
        response_rule s.calls.calls asked.parts r ≡ rule.Again place → SendsJust (ack_kept s id) (row s event) }
{}

/// A timer of a transaction that is due sends what the transaction sent last, to the address to which that went
/// (`fired`). Where the transaction ends, nothing is sent (`ended`); nor where no ACK came to its refusal (`unheard`),
/// or no response to a request for which no call waits (`unclaimed`).
pub fn timers_send_what_went_before()
    ensures fired { (s : Contents) (event : Event) (timer : Timer TimerId) → TimerIsDue s event timer → (out : Outgoing) →
        fired_of (at s.table.slots timer.key.id) timer.key.kind ≡ Some (fires.Send out) → FiresAgain s timer (row s event) }
    ensures ended { (s : Contents) (event : Event) (timer : Timer TimerId) → TimerIsDue s event timer → fired_of (at s.table.slots timer.key.id) timer.key.kind ≡ Some fires.Ended → SendsJust [] (row s event) }
    ensures unheard { (s : Contents) (event : Event) (timer : Timer TimerId) → TimerIsDue s event timer → fired_of (at s.table.slots timer.key.id) timer.key.kind ≡ Some fires.TimedOut →
        times_responses timer.key.kind ≡ false → SendsJust [] (row s event) }
    ensures unclaimed { (s : Contents) (event : Event) (timer : Timer TimerId) → TimerIsDue s event timer → (asked : Transaction) → at s.table.slots timer.key.id ≡ Some asked →
        fired_of (at s.table.slots timer.key.id) timer.key.kind ≡ Some fires.TimedOut → times_responses timer.key.kind ≡ true → timeout_rule s.calls.calls asked.parts ≡ None → SendsJust [] (row s event) }
{}
