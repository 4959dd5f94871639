//! Requests that offer.

ghost use Rattle.std.specs.Prelude.{◌≡◌, ℕ, List, None, Ok, Some, [], codes, slice_get, true};
ghost use Rattle.call_media.specs.declared.end.End.{End};
ghost use Rattle.call_rules.specs.Content.{described};
ghost use Rattle.call_rules.specs.Requests.{dialog_rule};
ghost use Rattle.call_rules.specs.DialogRule as rules;
ghost use Rattle.call_trace.specs.Stands.{leg};
ghost use Rattle.call_trace.specs.declared.call.Call.{Call};
ghost use Rattle.calls.specs.declared.standing_call.StandingCall.{StandingCall};
ghost use Rattle.dialogs.specs.Making.{callees_dialog};
ghost use Rattle.responses.specs.Words.{is_method};
ghost use Rattle.sdp.specs.declared.description.Description.{Description};
ghost use Rattle.sip_message.specs.Read.{message_of};
ghost use Rattle.sip_message.specs.Words.{tag_value};
ghost use Rattle.sip_message.specs.declared.message.Message.TheVariants as Kinds;
ghost use Rattle.sip_message.specs.declared.message.Request.{Request};
ghost use Rattle.sip_uri.specs.declared.uri.Uri.{Uri};
ghost use Rattle.media_laws.specs.Said.{Offers};
ghost use Rattle.media_laws.specs.Shows.{ShowsLegs, is_caller};
ghost use Rattle.trace_reading.specs.Message.{dialog_named, trace_message};

/// An INVITE or UPDATE with a description that an end sends in its dialog of a call is an offer in that dialog, as the
/// trace names it, and its To has the server's tag there. A first INVITE that was read is one in the dialog that its
/// 2xx begins, and its To has no tag (RFC 3261 section 12.1.1).
pub fn requests_are_offers()
    ensures later { (standing : List StandingCall) (r : Request) (place : ℕ) (end : End) (c : StandingCall) (d : Call) (offer : Description) (bytes : List ℕ) →
        dialog_rule standing r ≡ rules.Offers place end → slice_get standing place ≡ Some c → ShowsLegs c d → described r.headers r.body ≡ Some offer →
        Offers (leg d (is_caller end)) offer (trace_message bytes (Kinds.Request r)) }
    ensures tag { (standing : List StandingCall) (r : Request) (place : ℕ) (end : End) (c : StandingCall) (d : Call) (bytes : List ℕ) →
        dialog_rule standing r ≡ rules.Offers place end → slice_get standing place ≡ Some c → ShowsLegs c d →
        (trace_message bytes (Kinds.Request r)).to_tag ≡ (leg d (is_caller end)).ours }
    ensures first { (r : Request) (tag : List ℕ) (contact : Uri) (offer : Description) (text bytes : List ℕ) → message_of text ≡ Ok (Kinds.Request r) →
        is_method (codes "INVITE") r ≡ true → described r.headers r.body ≡ Some offer →
        Offers (dialog_named (callees_dialog r tag contact).id) offer (trace_message bytes (Kinds.Request r)) }
    ensures untagged { (r : Request) (bytes : List ℕ) → tag_value r.parts.to.params ≡ None → (trace_message bytes (Kinds.Request r)).to_tag ≡ [] }
{}
