//! What moves no call.

ghost use Rattle.std.specs.Prelude.{◌≡◌, ℕ, List, [], Option, Some, None, IsTrue};
ghost use Rattle.sip_uri.specs.declared.uri.Addr.{Addr};
ghost use Rattle.sip_message.specs.declared.headers.Header.{Header};
ghost use Rattle.sip_message.specs.declared.message.Message.TheVariants as Kinds;
ghost use Rattle.sip_message.specs.declared.message.Parts.{Parts};
ghost use Rattle.sip_message.specs.declared.message.Request.{Request};
ghost use Rattle.transactions.specs.declared.change.Entry.{Entry};
ghost use Rattle.transactions.specs.declared.outcome.Outgoing.{Outgoing};
ghost use Rattle.responses.specs.Responding.{responds};
ghost use Rattle.plans.specs.Office.{Office};
ghost use Rattle.plans.specs.declared.reason.Reason.{Reason};
ghost use Rattle.plans.specs.declared.rule.Reply.{Reply};
ghost use Rattle.plans.specs.declared.setting.Setting.{Setting};
ghost use Rattle.plans.specs.declared.taken.Taken.{Taken};
ghost use Rattle.plans.specs.CallRows.{okay_plan};
ghost use Rattle.plans.specs.Plan.{moves, nothing, replies};
ghost use Rattle.plans.specs.Reasons.{status as status_for};
ghost use Rattle.plans.specs.Replies.{reply_row, responds_in};
ghost use Rattle.event_rows.specs.Rule as rules;
ghost use Rattle.event_rows.specs.Rules.{request_rule};
ghost use Rattle.call_media.specs.declared.end.End.{End};
ghost use Rattle.calls.specs.declared.standing_call.StandingCall.{StandingCall};
ghost use Rattle.call_rules.specs.DialogRule as dialogs;
ghost use Rattle.call_rules.specs.Requests.{dialog_rule};
ghost use Rattle.call_trace.specs.declared.call.Call.{Call};
ghost use Rattle.call_trace.specs.declared.datagram.Datagram.{Datagram};
ghost use Rattle.call_trace.specs.declared.datagram.Message.{Message};
ghost use Rattle.call_trace.specs.Events.{IsPartingTaken, is_calm, is_plain};
ghost use Rattle.trace_reading.specs.Message.{trace_message};
ghost use Rattle.message_laws.specs.Quiet.{GoesAgain, IsQuietReply, IsQuietStatus, IsRequestIf, MovesNone, SayPlain, SeenMove};
ghost use Rattle.message_laws.specs.Saying.{IsSeen};

/// What the server answers by itself is plain in a trace, whichever methods may carry an offer: a response without a
/// body that is not a 2xx, or answers neither INVITE nor BYE. A request that was taken is calm.
pub fn replies_are_plain()
    ensures any { (methods : List (List ℕ)) (bytes : List ℕ) (parts : Parts) (source : Addr) (status : ℕ) (tag : List ℕ) (further : List Header) →
        IsQuietStatus parts status →
        IsTrue (is_plain methods (trace_message bytes (Kinds.Response (responds parts source status tag further)))) }
    ensures refusal { (methods : List (List ℕ)) (s : Office) (e : Setting) (r : Request) (begun : List Entry) (id status : ℕ) (further : List Header) →
        IsQuietStatus r.parts status → SayPlain methods (responds_in s e r begun id status further None).sends }
    ensures reply { (methods : List (List ℕ)) (s : Office) (e : Setting) (r : Request) (begun : List Entry) (id : ℕ) (reply : Reply) →
        IsQuietReply r reply → SayPlain methods (reply_row s e r begun id reply).sends }
    ensures okay { (methods : List (List ℕ)) (s : Office) (e : Setting) (r : Request) (begun : List Entry) (id : ℕ) →
        MovesNone r.parts → SayPlain methods (okay_plan s e r begun id).sends }
    ensures request { (methods : List (List ℕ)) (bytes : List ℕ) (r : Request) → IsTrue (is_calm methods (trace_message bytes (Kinds.Request r))) }
{}

/// Where no call takes what came, and what goes is plain or went before, the calls stay as they are: a quiet move of
/// the trace, whichever trace and calls there were. What was taken is a request, or counts as not come; or it moves
/// none of the calls.
pub fn what_no_call_takes_is_quiet()
    ensures ignored { (methods : List (List ℕ)) (t : List Datagram) (calls : List Call) (answer : Taken) →
        SeenMove methods t calls None (nothing answer).sends calls }
    ensures stateless { (methods : List (List ℕ)) (t : List Datagram) (calls : List Call) (taken : Option Message) (to source : Addr) (parts : Parts) (status : ℕ) (tag : List ℕ) (reason : Reason) →
        IsRequestIf taken → IsQuietStatus parts status → SeenMove methods t calls taken (replies to (responds parts source status tag []) reason).sends calls }
    ensures refused { (methods : List (List ℕ)) (t : List Datagram) (calls : List Call) (taken : Option Message) (s : Office) (e : Setting) (r : Request) (begun : List Entry) (id status : ℕ) →
        IsRequestIf taken → IsQuietStatus r.parts status → SeenMove methods t calls taken (responds_in s e r begun id status [] None).sends calls }
    ensures replied { (methods : List (List ℕ)) (t : List Datagram) (calls : List Call) (taken : Option Message) (s : Office) (e : Setting) (r : Request) (begun : List Entry) (id : ℕ) (reply : Reply) →
        IsRequestIf taken → IsQuietReply r reply → SeenMove methods t calls taken (reply_row s e r begun id reply).sends calls }
    ensures refreshed { (methods : List (List ℕ)) (t : List Datagram) (calls : List Call) (taken : Option Message) (s : Office) (e : Setting) (r : Request) (begun : List Entry) (id : ℕ) →
        IsRequestIf taken → MovesNone r.parts → SeenMove methods t calls taken (okay_plan s e r begun id).sends calls }
    ensures silent { (methods : List (List ℕ)) (t : List Datagram) (calls : List Call) (taken : Option Message) (begun : List Entry) →
        IsPartingTaken methods t taken calls → SeenMove methods t calls taken (moves begun None).sends calls }
    ensures again { (methods : List (List ℕ)) (t : List Datagram) (calls : List Call) (taken : Option Message) (begun : List Entry) (out : Outgoing) →
        IsPartingTaken methods t taken calls → IsSeen (GoesAgain methods t taken) (record { to = out.to; bytes = out.bytes }) →
        SeenMove methods t calls taken (moves begun (Some out)).sends calls }
{}

/// Of a request whose line has the method of its CSeq, each reply that the rules give by themselves is quiet: a 200
/// goes only to OPTIONS, REGISTER and CANCEL. Whatever the reason, a refusal is not a 2xx. An UPDATE without an offer
/// is neither INVITE nor BYE.
pub fn rules_reply_quietly()
    ensures alone { (s : Office) (r : Request) (now : ℕ) (reply : Reply) → r.parts.cseq.method ≡ r.method → request_rule s r now ≡ rules.Alone reply →
        IsQuietReply r reply }
    ensures refusal { (request : Parts) (reason : Reason) → IsQuietStatus request (status_for reason) }
    ensures plain { (calls : List StandingCall) (r : Request) (place : ℕ) (end : End) → dialog_rule calls r ≡ dialogs.Plain place end → MovesNone r.parts }
{}
