//! What a trace says about messages is what messages, transactions, dialogs and descriptions say about them.

ghost use Rattle.std.specs.Prelude.{◌≡◌, ◌↔◌, ℕ, List, Some, IsTrue};
ghost use Rattle.call_trace.specs.declared.datagram.Datagram.{Datagram};
ghost use Rattle.call_trace.specs.Dialogs.{dialog_of};
ghost use Rattle.call_trace.specs.Events.{taken_at, sent_at};
ghost use Rattle.call_trace.specs.Messages as traces;
ghost use Rattle.call_trace.specs.Messages.{Replies};
ghost use Rattle.call_trace.specs.Runs.{AreRead};
ghost use Rattle.dialogs.specs.declared.method.Method.TheVariants.{Invite, Update, Bye};
ghost use Rattle.dialogs.specs.declared.state.Dialog.{Dialog};
ghost use Rattle.dialogs.specs.Counting.{method_text};
ghost use Rattle.dialogs.specs.Identifiers.{id_of_request, id_of_response};
ghost use Rattle.dialogs.specs.Requests.{ack_text, request_in};
ghost use Rattle.sdp.specs.declared.description.Description.{Description};
ghost use Rattle.sdp.specs.Grammar.{ReadsDescription};
ghost use Rattle.sip_message.specs.declared.headers.Header.{Header};
ghost use Rattle.sip_message.specs.declared.message.Message.{Message};
ghost use Rattle.sip_message.specs.declared.message.Message.TheVariants as Kinds;
ghost use Rattle.sip_message.specs.declared.message.Request.{Request};
ghost use Rattle.sip_message.specs.declared.message.Response.{Response};
ghost use Rattle.sip_message.specs.declared.via.Via.{Via};
ghost use Rattle.sip_message.specs.Contact.{headers_in};
ghost use Rattle.sip_message.specs.Grammar.{ReadsMessage};
ghost use Rattle.sip_message.specs.Repeatable.{parts_in};
ghost use Rattle.sip_message.specs.Words as messages;
ghost use Rattle.sip_writing.specs.Replies as writing;
ghost use Rattle.trace_reading.specs.Body.{may_describe};
ghost use Rattle.trace_reading.specs.Message.{body_in, trace_message, dialog_named};
ghost use Rattle.trace_reading.specs.Read.{Shows, AreShown, seen};
ghost use Rattle.transactions.specs.Matching.{RepliesTo};

/// A response replies to a request in a trace exactly where a transaction takes it as a response to that request: no
/// branch and no tag that is read is empty. What the server writes as the response to a request replies to it.
pub fn replies_agree()
    ensures read { (asked answered : List ℕ) (request : Request) (response : Response) →
        ReadsMessage asked (Kinds.Request request) → ReadsMessage answered (Kinds.Response response) →
        Replies (trace_message answered (Kinds.Response response)) (trace_message asked (Kinds.Request request))
        ↔ RepliesTo response.parts request.parts }
    ensures written { (asked answered : List ℕ) (request : Request) (response : Response) (status : ℕ) (tag : List ℕ) →
        writing.Replies response.parts request.parts status tag →
        Replies (trace_message answered (Kinds.Response response)) (trace_message asked (Kinds.Request request)) }
{}

/// The dialog that a datagram names in a trace is the one that it belongs to by its direction: our tag is in To of a
/// request that was taken and of a response that was sent, and in From of the others. A request that the server makes
/// in a dialog names that dialog.
pub fn dialogs_agree()
    ensures request_taken { (n : ℕ) (bytes : List ℕ) (request : Request) →
        dialog_of (taken_at n (trace_message bytes (Kinds.Request request))) ≡ dialog_named (id_of_request request.parts) }
    ensures response_taken { (n : ℕ) (bytes : List ℕ) (response : Response) →
        dialog_of (taken_at n (trace_message bytes (Kinds.Response response))) ≡ dialog_named (id_of_response response.parts) }
    ensures request_sent { (n : ℕ) (bytes : List ℕ) (request : Request) →
        dialog_of (sent_at n (trace_message bytes (Kinds.Request request))) ≡ dialog_named (id_of_response request.parts) }
    ensures response_sent { (n : ℕ) (bytes : List ℕ) (response : Response) →
        dialog_of (sent_at n (trace_message bytes (Kinds.Response response))) ≡ dialog_named (id_of_request response.parts) }
    ensures made { (n : ℕ) (bytes : List ℕ) (d : Dialog) (via : Via) (method : List ℕ) (number hops : ℕ) (further : List Header) (body : List ℕ) →
        dialog_of (sent_at n (trace_message bytes (Kinds.Request (request_in d via method number hops further body)))) ≡ dialog_named d.id }
{}

/// The method of a message in a trace is that of its CSeq, which for a request that was read is the request's own.
/// The methods that a trace speaks of are written as dialogs write them.
pub fn methods_agree()
    ensures request { (bytes : List ℕ) (request : Request) →
        ReadsMessage bytes (Kinds.Request request) → (trace_message bytes (Kinds.Request request)).method ≡ request.method }
    ensures test { (name bytes : List ℕ) (m : Message) →
        traces.is_method name (trace_message bytes m).method ≡ messages.is_method name (parts_in m) }
    ensures invite { method_text Invite ≡ traces.invite }
    ensures update { method_text Update ≡ traces.update }
    ensures bye { method_text Bye ≡ traces.bye }
    ensures ack { ack_text ≡ traces.ack }
{}

/// A message in a trace has a description exactly where its body is one as it is, by its type and its codings, and
/// reads as that description.
pub fn bodies_describe()
    ensures { (bytes : List ℕ) (m : Message) (d : Description) →
        (trace_message bytes m).description ≡ Some d
        ↔ (IsTrue (may_describe (headers_in m)) × ReadsDescription (body_in m) d) }
{}

/// The same bytes are the same message in a trace, and are its bytes; so one function from bytes to messages reads each
/// trace.
pub fn bytes_say_all()
    ensures one { (bytes : List ℕ) (a b : Message) →
        ReadsMessage bytes a → ReadsMessage bytes b → trace_message bytes a ≡ trace_message bytes b }
    ensures bytes { (bytes : List ℕ) (m : Message) → (trace_message bytes m).bytes ≡ bytes }
    ensures read { (t : List Datagram) → AreShown t → AreRead seen t }
{}
