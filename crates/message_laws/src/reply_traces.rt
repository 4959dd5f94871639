//! What the trace has of what is sent again, and of what a response replies to.

ghost use Rattle.std.specs.Prelude.{◌≡◌, ℕ, false, List, Some};
ghost use Rattle.call_trace.specs.declared.datagram.Datagram.{Datagram};
ghost use Rattle.call_trace.specs.declared.datagram.Direction.TheVariants as directions;
ghost use Rattle.call_trace.specs.declared.datagram.Message.{Message};
ghost use Rattle.call_trace.specs.Events.{IsIdleTaken};
ghost use Rattle.call_trace.specs.Exchanges.{At};
ghost use Rattle.call_trace.specs.Messages.{Replies, offering};
ghost use Rattle.call_trace.specs.Stands.{AsksAt};
ghost use Rattle.events.specs.declared.sent.Sent.{Sent};
ghost use Rattle.plans.specs.Office.{Office};
ghost use Rattle.message_laws.specs.Sending.{WasSent};
ghost use Rattle.message_laws.specs.Waiting.{IsOffering, waits};
ghost use Rattle.sip_message.specs.declared.message.Message.TheVariants as Kinds;
ghost use Rattle.sip_message.specs.declared.message.Response.{Response};
ghost use Rattle.sip_message.specs.Grammar.{ReadsMessage};
ghost use Rattle.message_laws.specs.KnownTrace.{KnowsTrace};
ghost use Rattle.message_laws.specs.Messages.{IsMessage, IsRequestOf};
ghost use Rattle.transactions.specs.declared.transaction.Transaction.{Transaction};
ghost use Rattle.transactions.specs.Matching.{RepliesTo};
ghost use Rattle.transactions.specs.Slots.{at};

/// The trace has what was sent before in these bytes, as the same message. It has the server's own INVITE or UPDATE
/// whose transaction a response belongs to, and the response replies to it there too. Where that transaction waits
/// for no final response, the trace has one, so that this one moves no call.
pub fn replies_stand_in_traces()
    ensures again { (s : Office) (begun : List Transaction) (sent : List Sent) (t : List Datagram) (bytes : List ℕ) (m : Message) →
        KnowsTrace s begun sent t → WasSent sent bytes → IsMessage bytes m →
        (k : ℕ) × (q : Datagram) × At t k q × (q.direction ≡ directions.Sent) × (q.message ≡ m) }
    ensures replies { (s : Office) (begun : List Transaction) (sent : List Sent) (t : List Datagram) (id : ℕ) (x : Transaction) (bytes : List ℕ)
        (r : Response) (m : Message) → KnowsTrace s begun sent t → at s.table.slots id ≡ Some x → IsOffering x → RepliesTo r.parts x.parts →
        ReadsMessage bytes (Kinds.Response r) → IsMessage bytes m →
        (i : ℕ) × (q : Datagram) × AsksAt offering t i q × IsRequestOf x.parts q.message × Replies m q.message }
    ensures late { (s : Office) (begun : List Transaction) (sent : List Sent) (t : List Datagram) (id : ℕ) (x : Transaction) (bytes : List ℕ)
        (r : Response) (m : Message) → KnowsTrace s begun sent t → at s.table.slots id ≡ Some x → IsOffering x → waits x.state ≡ false →
        RepliesTo r.parts x.parts → ReadsMessage bytes (Kinds.Response r) → IsMessage bytes m → IsIdleTaken offering t (Some m) }
{}
