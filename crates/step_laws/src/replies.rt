//! What a step sends for a request that the server answers by itself.

ghost use Rattle.std.specs.Prelude.{◌≡◌, codes, false, ℕ, Err, List, None, Ok, Some};
ghost use Rattle.sip_message.specs.AnswerableParts.{answerable_of};
ghost use Rattle.sip_message.specs.Read.{message_of};
ghost use Rattle.sip_message.specs.declared.error.MessageError.{MessageError};
ghost use Rattle.sip_message.specs.declared.error.MessageError.TheVariants as faults;
ghost use Rattle.sip_message.specs.declared.message.Message.TheVariants as Kinds;
ghost use Rattle.sip_message.specs.declared.message.Parts.{Parts};
ghost use Rattle.sip_message.specs.declared.message.Request.{Request};
ghost use Rattle.sip_uri.specs.declared.uri.Addr.{Addr};
ghost use Rattle.event_rows.specs.Rows.{only_counts, row};
ghost use Rattle.event_rows.specs.Rules.{request_rule};
ghost use Rattle.event_rows.specs.State.{Contents, moment_at, office};
ghost use Rattle.event_rows.specs.Rule.{Alone};
ghost use Rattle.events.specs.declared.event.Event.{Event};
ghost use Rattle.events.specs.declared.event.What.TheVariants as whats;
ghost use Rattle.plans.specs.declared.rule.Reply.{Reply};
ghost use Rattle.responses.specs.Words.{has_fit_branch, is_method};
ghost use Rattle.step_laws.specs.Coming.{BeginsTransaction};
ghost use Rattle.step_laws.specs.Replies.{RespondsOnce};

/// A request that the server answers by itself gets one response, which goes back to where it came from, and nothing
/// else is sent. This holds for one that begins a transaction (`alone`), one whose branch does not begin as it has to
/// (`unfit`), and one that can't be read, where something in it can be answered (`unread`).
pub fn own_responses_go_back()
    ensures alone { (s : Contents) (event : Event) (source : Addr) (bytes : List ℕ) (r : Request) (id : ℕ) → BeginsTransaction s event source bytes r id → (reply : Reply) →
        request_rule (office s) r (moment_at s event.now) ≡ Alone reply → RespondsOnce r.parts source (row s event) }
    ensures unfit { (s : Contents) (event : Event) (source : Addr) (bytes : List ℕ) → event.what ≡ whats.Datagram source bytes → only_counts s event ≡ None → (r : Request) →
        message_of bytes ≡ Ok (Kinds.Request r) → has_fit_branch r.parts.vias ≡ false → is_method (codes "ACK") r ≡ false → RespondsOnce r.parts source (row s event) }
    ensures unread { (s : Contents) (event : Event) (source : Addr) (bytes : List ℕ) → event.what ≡ whats.Datagram source bytes → only_counts s event ≡ None → (fault : MessageError) →
        message_of bytes ≡ Err fault → (fault ≡ faults.TooLong → ⊥) → (parts : Parts) → answerable_of bytes ≡ Some parts → RespondsOnce parts source (row s event) }
{}
