//! The transaction that a new request begins.

ghost use Rattle.std.specs.Prelude.{◌++◌, ◌≡◌, ℕ, List};
ghost use Rattle.media_laws.specs.Beginning.{StandsFor, entries_of};
ghost use Rattle.plans.specs.Office.{Office};
ghost use Rattle.plans.specs.declared.setting.Setting.{Setting};
ghost use Rattle.message_laws.specs.Askers.{IsUnanswered};
ghost use Rattle.sip_message.specs.declared.message.Message.TheVariants as Kinds;
ghost use Rattle.sip_message.specs.declared.message.Request.{Request};
ghost use Rattle.message_laws.specs.Numbers.{begun_of};
ghost use Rattle.message_laws.specs.OpenRequests.{IsAmong};
ghost use Rattle.std.specs.Prelude.{false};
ghost use Rattle.transaction_machines.specs.Machines.{is_server};
ghost use Rattle.transactions.specs.Changes.{entered_all};
ghost use Rattle.transactions.specs.Contents.{reception_of};
ghost use Rattle.transactions.specs.declared.change.Entry.{Entry};
ghost use Rattle.transactions.specs.declared.outcome.Verdict.TheVariants as verdicts;
ghost use Rattle.transactions.specs.declared.transaction.Transaction.{Transaction};

/// Where a new request begins a transaction that waits for its final response after all the changes of the event, of
/// which the others begin requests of the server's own alone, that transaction is of the request that came.
pub fn new_requests_stand()
    ensures { (s : Office) (e : Setting) (r : Request) (id : ℕ) (rest : List Entry) (now : ℕ) → (reception_of s.table (Kinds.Request r)).verdict ≡ verdicts.New id →
        ((t : Transaction) → IsAmong (begun_of rest) t → is_server t.state ≡ false) → IsUnanswered (entered_all now s.table (entries_of s e r ++ rest)).slots id →
        StandsFor (entered_all now s.table (entries_of s e r ++ rest)).slots id r.parts }
{}
