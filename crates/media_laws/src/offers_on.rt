//! Offers that a call passes on.

ghost use Rattle.std.specs.Prelude.{◌++◌, ◌≡◌, ℕ, List, None, Ok, Option};
ghost use Rattle.call_media.specs.declared.end.End.{End};
ghost use Rattle.call_steps.specs.Rows.{first_row};
ghost use Rattle.call_trace.specs.declared.call.Call.{Call};
ghost use Rattle.call_trace.specs.declared.datagram.Datagram.{Datagram};
ghost use Rattle.call_trace.specs.declared.datagram.Message.{Message};
ghost use Rattle.call_trace.specs.Events.{passed};
ghost use Rattle.calls.specs.declared.standing_call.StandingCall.{StandingCall};
ghost use Rattle.events.specs.declared.sent.Sent.{Sent};
ghost use Rattle.media_laws.specs.Answers.{KnowsAnswers};
ghost use Rattle.media_laws.specs.NextTags.{AreNextTagsNew};
ghost use Rattle.media_laws.specs.Beginning.{BeginsAt, entries_of};
ghost use Rattle.media_laws.specs.Offering.{IsFirstOffer, IsLaterOffer};
ghost use Rattle.plans.specs.CallRows.{occasion, passes, with_step};
ghost use Rattle.plans.specs.Effect.{Effect};
ghost use Rattle.plans.specs.Office.{Office};
ghost use Rattle.plans.specs.declared.setting.Setting.{Setting};
ghost use Rattle.message_laws.specs.Addresses.{IsSource};
ghost use Rattle.media_laws.specs.Ties.{AreTied};
ghost use Rattle.sdp.specs.declared.description.Description.{Description};
ghost use Rattle.media_laws.specs.Steps.{GoOn, IsAfter, StandsShown};
ghost use Rattle.media_laws.specs.Taking.{KnowsLegs};
ghost use Rattle.sip_message.specs.Read.{message_of};
ghost use Rattle.sip_message.specs.declared.message.Message.TheVariants as Kinds;
ghost use Rattle.sip_message.specs.declared.message.Request.{Request};
ghost use Rattle.sip_uri.specs.declared.uri.Uri.{Uri};
ghost use Rattle.media_laws.specs.Shows.{ShowsCall};
ghost use Rattle.message_laws.specs.Messages.{AreMessages, IsTakenOf};
ghost use Rattle.transactions.specs.declared.transaction.Transaction.{Transaction};

use call_trace::moves_keep;
use dialogs::{contacts_are_read, dialogs_are_sound, invites_name_a_contact};
use offer_answer::sent_is_read;
use sip_writing::written_is_read;
use trace_reading::{bodies_describe, bytes_say_all};

/// Where an offer is passed on, the event is a move of the trace's calls. After it the trace's calls show the
/// server's: the first INVITE of a caller begins a call, whose tags are made now; and in a call that was answered the
/// offer of either end is open beside the earlier session. No answer was sent to it yet: each that was has another
/// tag, or a number that was taken before.
pub fn offers_go_on()
    ensures first { (s after : Office) (begun more : List Transaction) (sent : List Sent) (t : List Datagram) (old : List Call) (k : ℕ) → StandsShown s begun t old k →
        IsAfter s after (begun ++ more) → AreTied s begun sent t old → KnowsAnswers s t → AreNextTagsNew s t → (e : Setting) → IsSource e.source →
        (bytes : List ℕ) (r : Request) (id : ℕ) (taken : Option Message) → message_of bytes ≡ Ok (Kinds.Request r) → IsTakenOf bytes taken →
        (to : Uri) (offer : Description) → IsFirstOffer s e.now r to offer →
        (moment : ℕ) (x : Effect) → x ≡ with_step s.acks (entries_of s e r) None None (first_row s.calls (occasion s e) r id e.source to offer) →
        BeginsAt s after more moment r id x → (ms : List Message) → AreMessages x.plan.sends ms → after.calls.calls ≡ x.calls.standing.calls →
        GoOn (ShowsCall after.table.slots (begun ++ more) (t ++ passed k taken ms)) after.calls.calls t old taken ms }
    ensures later { (s after : Office) (begun more : List Transaction) (sent : List Sent) (t : List Datagram) (old : List Call) (k : ℕ) → StandsShown s begun t old k →
        IsAfter s after (begun ++ more) → AreTied s begun sent t old → KnowsLegs s → KnowsAnswers s t → (e : Setting) → IsSource e.source →
        (bytes : List ℕ) (r : Request) (id : ℕ) (taken : Option Message) → message_of bytes ≡ Ok (Kinds.Request r) → IsTakenOf bytes taken →
        (place : ℕ) (end : End) (c : StandingCall) (offer : Description) → IsLaterOffer s r place end c offer →
        (moment : ℕ) (x : Effect) → x ≡ passes s e r (entries_of s e r) id place end offer → BeginsAt s after more moment r id x → (ms : List Message) →
        AreMessages x.plan.sends ms → after.calls.calls ≡ x.calls.standing.calls →
        GoOn (ShowsCall after.table.slots (begun ++ more) (t ++ passed k taken ms)) after.calls.calls t old taken ms }
{
    moves_keep();
    contacts_are_read();
    dialogs_are_sound();
    invites_name_a_contact();
    bytes_say_all();
    written_is_read();
    bodies_describe();
    sent_is_read();
}
