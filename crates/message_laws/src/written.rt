//! The requests of the server's own, as they are written.

ghost use Rattle.std.specs.Prelude.{◌≡◌, ◌≤◌, ℕ, IsTrue, List, Some, length};
ghost use Rattle.dialogs.specs.Counting.{last_number};
ghost use Rattle.dialogs.specs.Sound.{IsSound};
ghost use Rattle.dialogs.specs.declared.method.Method.{Method};
ghost use Rattle.dialogs.specs.declared.state.Dialog.{Dialog};
ghost use Rattle.call_messages.specs.Messages.{ack, bye, offer};
ghost use Rattle.message_laws.specs.Addresses.{IsReached};
ghost use Rattle.sdp.specs.Writing.{description_text};
ghost use Rattle.sdp.specs.declared.description.Description.{Description};
ghost use Rattle.sip_message.specs.CSeq.{max_cseq};
ghost use Rattle.sip_message.specs.ContentLength.{max_content_length};
ghost use Rattle.sip_message.specs.declared.message.Message.TheVariants as Kinds;
ghost use Rattle.sip_message.specs.declared.message.Parts.{Parts};
ghost use Rattle.sip_message.specs.declared.message.Request.{Request};
ghost use Rattle.sip_uri.specs.declared.uri.Addr.{Addr};
ghost use Rattle.sip_uri.specs.declared.uri.Uri.{Uri};
ghost use Rattle.sip_writing.specs.Requests.{IsEnd};
ghost use Rattle.sip_writing.specs.WritingMessage.{IsWrittenMessage};
ghost use Rattle.text.specs.Class.{is_run_of, is_token_byte};
ghost use Rattle.transactions.specs.SameBranch.{HasReadVia, IsSoundInvite, ack_of, ack_to, cancel_of};
ghost use Rattle.transactions.specs.declared.transaction.Transaction.{Transaction};

/// An offer, an ACK and a BYE in a dialog of messages that were read are of the form that is written and read again,
/// where the branch is made of a token: the offer with a description that is no longer than Content-Length can say, the
/// ACK with a number that CSeq can say.
pub fn requests_are_written()
    ensures offer { (server : Addr) (d : Dialog) (method : Method) (hops : ℕ) (description : Description) (token : List ℕ) (request : Request) →
        IsReached server → IsSound d → IsTrue (is_run_of is_token_byte token) → hops ≤ 255 → length (description_text description) ≤ max_content_length →
        offer server d method hops description token ≡ Some request → IsWrittenMessage (Kinds.Request request) }
    ensures ack { (server : Addr) (d : Dialog) (token : List ℕ) → IsReached server → IsSound d → IsTrue (is_run_of is_token_byte token) →
        last_number d ≤ max_cseq → IsWrittenMessage (Kinds.Request (ack server d token)) }
    ensures bye { (server : Addr) (d : Dialog) (token : List ℕ) (request : Request) → IsReached server → IsSound d →
        IsTrue (is_run_of is_token_byte token) → bye server d token ≡ Some request → IsWrittenMessage (Kinds.Request request) }
{}

/// The CANCEL of an INVITE whose values came out of messages, and the ACK to a refusal of it, are of this form too.
pub fn cancels_are_written()
    ensures cancel { (t : Transaction) (request : Request) → IsSoundInvite t.uri t.parts → HasReadVia t.parts.vias → IsEnd t.parts.to →
        cancel_of t ≡ Some request → IsWrittenMessage (Kinds.Request request) }
    ensures ack { (uri : Uri) (invite answer : Parts) (request : Request) → IsSoundInvite uri invite → HasReadVia invite.vias →
        IsEnd (ack_to answer.to) → ack_of uri invite answer ≡ Some request → IsWrittenMessage (Kinds.Request request) }
{}
