//! What a trace sees of the server's own messages.

ghost use Rattle.std.specs.Prelude.{◌≡◌, ◌+◌, ℕ, codes, List, Some, None};
ghost use Rattle.std.specs.Option.{option_copied};
ghost use Rattle.sip_uri.specs.declared.uri.Addr.{Addr};
ghost use Rattle.sip_uri.specs.declared.uri.Uri.{Uri};
ghost use Rattle.sip_message.specs.declared.headers.Header.{Header};
ghost use Rattle.sip_message.specs.declared.message.Message.TheVariants as Kinds;
ghost use Rattle.sip_message.specs.declared.message.Parts.{Parts};
ghost use Rattle.sip_message.specs.declared.message.Request.{Request};
ghost use Rattle.sip_message.specs.declared.via.Via.{Via};
ghost use Rattle.sdp.specs.declared.description.Description.{Description};
ghost use Rattle.sdp.specs.Grammar.{ReadsDescription};
ghost use Rattle.sdp.specs.Writing.{description_text};
ghost use Rattle.dialogs.specs.declared.method.Method.{Method};
ghost use Rattle.dialogs.specs.declared.method.Method.TheVariants.{Bye};
ghost use Rattle.dialogs.specs.declared.state.Dialog.{Dialog};
ghost use Rattle.dialogs.specs.Counting.{following, last_number, method_text};
ghost use Rattle.dialogs.specs.Requests.{ack_text, request_in};
ghost use Rattle.transactions.specs.declared.transaction.Transaction.{Transaction};
ghost use Rattle.transactions.specs.Contents as transactions;
ghost use Rattle.transactions.specs.SameBranch.{ack_of, cancel_of};
ghost use Rattle.responses.specs.Responding.{responds};
ghost use Rattle.call_core.specs.declared.action.Action.{Action};
ghost use Rattle.call_core.specs.Plans.{Step};
ghost use Rattle.calls.specs.declared.standing_call.StandingCall.{StandingCall};
ghost use Rattle.call_steps.specs.declared.occasion.Occasion.{Occasion};
ghost use Rattle.call_steps.specs.Messages.{messages};
ghost use Rattle.call_steps.specs.Rows.{first_asker, first_leg, first_messages, messages_of};
ghost use Rattle.call_steps.specs.Scenes.{first_scene, fork_scene, scene};
ghost use Rattle.call_steps.specs.Values.{ComingValue, lent_scene};
ghost use Rattle.call_messages.specs.declared.scene.Asker.{Asker};
ghost use Rattle.call_messages.specs.declared.scene.Scene.{Scene};
ghost use Rattle.call_messages.specs.Dressing.{dress_one, dressed};
ghost use Rattle.call_messages.specs.Messages.{ack, answer, bye, description_headers, offer, okay, provisional, refusal, trying, with_body};
ghost use Rattle.trace_reading.specs.Message.{trace_message};
ghost use Rattle.message_laws.specs.Addresses.{IsServerAddress};
ghost use Rattle.message_laws.specs.Bodies.{KnowsStep};
ghost use Rattle.message_laws.specs.Saying.{OneIf, ReadsBackIf, SeesAction, SeesActions};
ghost use Rattle.message_laws.specs.Seeing.{SeesLike, SeesRequest, SeesResponse};

/// In a trace a request that a call sends in a dialog names the dialog by its Call-ID and tags, and has the branch of
/// its token, its number and its method. An offer that reads back is its description, and ACK and BYE have none (RFC
/// 3261 section 12.2.1.1).
pub fn requests_are_seen()
    ensures describes { (bytes : List ℕ) (server : Addr) (d : Dialog) (via : Via) (method : List ℕ) (number hops : ℕ) (description : Description) →
        ReadsDescription (description_text description) description →
        (trace_message bytes (Kinds.Request (request_in d via method number hops (description_headers server) (description_text description)))).description
        ≡ Some description }
    ensures offer { (bytes : List ℕ) (server : Addr) (d : Dialog) (method : Method) (hops : ℕ) (description : Description) (token : List ℕ) (request : Request) →
        ReadsDescription (description_text description) description → offer server d method hops description token ≡ Some request →
        SeesRequest d token (following d) (method_text method) (Some description) (trace_message bytes (Kinds.Request request)) }
    ensures ack { (bytes : List ℕ) (server : Addr) (d : Dialog) (token : List ℕ) →
        SeesRequest d token (last_number d) ack_text None (trace_message bytes (Kinds.Request (ack server d token))) }
    ensures bye { (bytes : List ℕ) (server : Addr) (d : Dialog) (token : List ℕ) (request : Request) → bye server d token ≡ Some request →
        SeesRequest d token (following d) (method_text Bye) None (trace_message bytes (Kinds.Request request)) }
    ensures cancel { (bytes : List ℕ) (t : Transaction) (request : Request) → cancel_of t ≡ Some request →
        SeesLike t.parts t.parts.to (codes "CANCEL") (trace_message bytes (Kinds.Request request)) }
    ensures refused { (bytes : List ℕ) (uri : Uri) (invite response : Parts) (request : Request) → ack_of uri invite response ≡ Some request →
        SeesLike invite response.to ack_text (trace_message bytes (Kinds.Request request)) }
{
    trace_reading::bodies_describe();
}

/// In a trace a response of the server's has branch, Call-ID, From tag, number and method of the request that it
/// answers, and in To the request's tag, or where that has none the given one, except for a 100 (RFC 3261 section
/// 8.2.6.2). The answer to an offer that reads back is its description, and no other response has one.
pub fn responses_are_seen()
    ensures describes { (bytes : List ℕ) (parts : Parts) (source server : Addr) (status : ℕ) (tag : List ℕ) (description : Description) →
        ReadsDescription (description_text description) description →
        (trace_message bytes (Kinds.Response (with_body (description_text description) (responds parts source status tag (description_headers server))))).description
        ≡ Some description }
    ensures any { (bytes : List ℕ) (parts : Parts) (source : Addr) (status : ℕ) (tag : List ℕ) (further : List Header) →
        SeesResponse parts status tag None (trace_message bytes (Kinds.Response (responds parts source status tag further))) }
    ensures trying { (bytes : List ℕ) (a : Asker) →
        SeesResponse a.parts.now 100 a.tag.now None (trace_message bytes (Kinds.Response (trying a))) }
    ensures provisional { (bytes : List ℕ) (server : Addr) (a : Asker) (status : ℕ) →
        SeesResponse a.parts.now status a.tag.now None (trace_message bytes (Kinds.Response (provisional server a status))) }
    ensures answer { (bytes : List ℕ) (server : Addr) (a : Asker) (description : Description) → ReadsDescription (description_text description) description →
        SeesResponse a.parts.now 200 a.tag.now (Some description) (trace_message bytes (Kinds.Response (answer server a description))) }
    ensures refusal { (bytes : List ℕ) (a : Asker) (status : ℕ) →
        SeesResponse a.parts.now status a.tag.now None (trace_message bytes (Kinds.Response (refusal a status))) }
    ensures okay { (bytes : List ℕ) (server : Addr) (a : Asker) →
        SeesResponse a.parts.now 200 a.tag.now None (trace_message bytes (Kinds.Response (okay server a))) }
{
    trace_reading::bodies_describe();
}

/// Each datagram that an action of a call says is a message's bytes, of which a trace sees this, where the description
/// that is sent on reads back; or the 200 that is sent again. No action says two.
pub fn actions_are_seen()
    ensures one { (s : Scene) (tokens : ℕ) (action : Action) → ReadsBackIf (option_copied s.description) →
        OneIf (SeesAction s tokens action) (dress_one s tokens action).sends }
    ensures all { (s : Scene) (tokens : ℕ) (actions : List Action) → ReadsBackIf (option_copied s.description) →
        SeesActions s tokens actions (dressed s tokens actions).sends }
{
    trace_reading::bodies_describe();
}

/// The same holds for what a step of a call says, and for what a call says as it begins, where the media that the
/// call keeps are known; and of a 2xx that no call takes.
pub fn steps_are_seen()
    ensures step { (ip : List ℕ) (table : transactions.Contents) (o : Occasion) (w : ComingValue) (c : StandingCall) (step : Step) →
        IsServerAddress ip → KnowsStep ip step →
        SeesActions (lent_scene (scene table o w c step.description)) o.tokens step.actions (messages_of table o w c step).dressed.sends }
    ensures first { (ip : List ℕ) (o : Occasion) (request : Request) (id : ℕ) (source : Addr) (target : Uri) (step : Step) →
        IsServerAddress ip → KnowsStep ip step →
        SeesActions (lent_scene (first_scene o (first_asker o request id source) request.max_forwards (first_leg o request target) step.description))
        (o.tokens + 3) step.actions (first_messages o request id source target step).dressed.sends }
    ensures alone { (o : Occasion) (leg : Dialog) (actions : List Action) →
        SeesActions (lent_scene (fork_scene o leg)) o.tokens actions (messages (fork_scene o leg) None actions).dressed.sends }
{
    trace_reading::bodies_describe();
    offer_answer::sent_is_read();
}
