//! Which rule a message falls under, by what it says.

ghost use Rattle.std.specs.Prelude.{◌≡◌, ℕ, List};
ghost use Rattle.call_media.specs.declared.end.End.{End};
ghost use Rattle.call_trace.specs.declared.datagram.Datagram.{Datagram};
ghost use Rattle.event_rows.specs.Rule.{Call};
ghost use Rattle.event_rows.specs.Rules.{request_rule};
ghost use Rattle.event_rows.specs.State.{Contents, office};
ghost use Rattle.media_laws.specs.Standing.{AgentStands};
ghost use Rattle.plans.specs.CallRule as calls;
ghost use Rattle.sip_message.specs.declared.message.Request.{Request};
ghost use Rattle.sip_message.specs.declared.message.Response.{Response};
ghost use Rattle.sip_uri.specs.declared.uri.Uri.{Uri};
ghost use Rattle.step_laws.specs.Rulings.{GoesByStatus, IsAsked, IsPlainBye, IsPlainInvite};
ghost use Rattle.transactions.specs.Slots.{at};
ghost use Rattle.transactions.specs.declared.transaction.Transaction.{Transaction};

/// A response to an INVITE or UPDATE of the server's own that has no final response, in a dialog of a current call or
/// to its callee: it falls under the rule of its class, of a call whose tag the request has. This holds after any
/// events.
pub fn awaited_responses_go_by_their_class()
    ensures { (s : Contents) (t : List Datagram) (k : ℕ) → AgentStands s t k → (asked : Transaction) (id : ℕ) → at s.table.slots id ≡ Some asked →
        (place : ℕ) → IsAsked s asked place → (r : Response) → GoesByStatus s asked r }
{}

/// A BYE in the one dialog that it names, of an end that has not left, with a new number, without Require and
/// Record-Route: no rule refuses it, and its end leaves the call.
pub fn plain_byes_leave()
    ensures { (s : Contents) (now : ℕ) (r : Request) (place : ℕ) (end : End) → IsPlainBye s r place end →
        request_rule (office s) r now ≡ Call (calls.Leaves place end) }
{}

/// A first INVITE for a user who is bound, which came on no other way, without Require and Record-Route, with hops
/// left, an IPv4 address in its Contact, and a description that isn't encoded: no rule refuses it, and a call begins to
/// that user's target.
pub fn plain_invites_begin()
    ensures { (s : Contents) (now : ℕ) (r : Request) (to : Uri) → IsPlainInvite s now r to →
        request_rule (office s) r now ≡ Call (calls.Begins to) }
{}
