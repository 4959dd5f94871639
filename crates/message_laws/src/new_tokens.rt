//! The texts that the server draws next, and the earlier trace.

ghost use Rattle.std.specs.Prelude.{◌<◌, ◌^◌, ◌≡◌, ◌≢◌, ℕ, IsTrue, List};
ghost use Rattle.call_trace.specs.declared.datagram.Datagram.{Datagram};
ghost use Rattle.call_trace.specs.declared.datagram.Direction.TheVariants as directions;
ghost use Rattle.call_trace.specs.Events.{IsUnused};
ghost use Rattle.call_trace.specs.Exchanges.{At};
ghost use Rattle.call_trace.specs.Messages.{bye, is_request_of};
ghost use Rattle.events.specs.declared.sent.Sent.{Sent};
ghost use Rattle.plans.specs.Office.{Office};
ghost use Rattle.responses.specs.Tokens.{token};
ghost use Rattle.sip_writing.specs.Requests.{branch_text};
ghost use Rattle.message_laws.specs.KnownTrace.{KnowsTrace};
ghost use Rattle.transactions.specs.declared.transaction.Transaction.{Transaction};

/// A token that is made next is in no branch of a request that was sent, or of a response that was taken, and is the
/// From tag of no BYE that was sent.
pub fn next_tokens_are_unused()
    ensures branch { (s : Office) (begun : List Transaction) (sent : List Sent) (t : List Datagram) (salt count : ℕ) → KnowsTrace s begun sent t →
        s.tokens < count → count < 2 ^ 64 → IsUnused t (branch_text (token salt count)) }
    ensures tag { (s : Office) (begun : List Transaction) (sent : List Sent) (t : List Datagram) (salt count : ℕ) → KnowsTrace s begun sent t →
        s.tokens < count → count < 2 ^ 64 →
        (i : ℕ) (p : Datagram) → At t i p → p.direction ≡ directions.Sent → IsTrue (is_request_of bye p.message) → p.message.from_tag ≢ token salt count }
{}
