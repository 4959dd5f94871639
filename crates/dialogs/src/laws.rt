//! Laws of dialogs, for every message.

ghost use Rattle.std.specs.Prelude.{◌≡◌, ◌≤◌, ℕ, List, Option, Some, IsTrue};
ghost use Rattle.text.specs.Class.{is_run_of, is_token_byte};
ghost use Rattle.sip_uri.specs.declared.uri.Uri.{Uri};
ghost use Rattle.sip_message.specs.declared.headers.Header.{Header};
ghost use Rattle.sip_message.specs.declared.message.Message.TheVariants as Kinds;
ghost use Rattle.sip_message.specs.declared.message.Request.{Request};
ghost use Rattle.sip_message.specs.declared.message.Response.{Response};
ghost use Rattle.sip_message.specs.declared.via.Via.{Via};
ghost use Rattle.sip_message.specs.Contact.{contacts_of, is_one_address, is_success};
ghost use Rattle.sip_message.specs.Grammar.{ReadsMessage};
ghost use Rattle.sip_writing.specs.WritingMessage.{IsWrittenMessage};
ghost use Rattle.dialogs.specs.declared.state.Dialog.{Dialog};
ghost use Rattle.dialogs.specs.Making.{is_invite, reached_at, callees_dialog, callers_dialog};
ghost use Rattle.dialogs.specs.Requests.{request_in, MayHave};
ghost use Rattle.dialogs.specs.Sound.{IsReadUri, IsSound};

/// An INVITE that was read, and a 2xx to one, has one Contact address.
pub fn invites_name_a_contact()
    ensures request { (text : List ℕ) (invite : Request) → ReadsMessage text (Kinds.Request invite) → IsTrue (is_invite invite.parts) →
        IsTrue (is_one_address (contacts_of invite.headers)) }
    ensures answer { (text : List ℕ) (response : Response) → ReadsMessage text (Kinds.Response response) → IsTrue (is_invite response.parts) →
        IsTrue (is_success response.status) → IsTrue (is_one_address (contacts_of response.headers)) }
{}

/// A dialog of messages that were read is sound, and stays so.
pub fn dialogs_are_sound()
    ensures callee { (text : List ℕ) (invite : Request) (tag : List ℕ) (target : Uri) →
        ReadsMessage text (Kinds.Request invite) → IsTrue (is_run_of is_token_byte tag) →
        reached_at (contacts_of invite.headers) ≡ Some target → IsSound (callees_dialog invite tag target) }
    ensures caller { (sent taken : List ℕ) (invite : Request) (response : Response) (target : Uri) →
        ReadsMessage sent (Kinds.Request invite) → ReadsMessage taken (Kinds.Response response) →
        reached_at (contacts_of response.headers) ≡ Some target → IsSound (callers_dialog invite.parts response target) }
    ensures counted { (d : Dialog) (local_number remote_number : Option ℕ) → IsSound d →
        IsSound (record d { local_number = local_number; remote_number = remote_number }) }
    ensures refreshed { (d : Dialog) (target : Uri) → IsSound d → IsReadUri target → IsSound (record d { target = target }) }
{}

/// A request in a sound dialog is of the form that is written and read again.
pub fn requests_are_written()
    ensures { (d : Dialog) (via : Via) (method : List ℕ) (number hops : ℕ) (further : List Header) (body : List ℕ) → hops ≤ 255 →
        IsTrue (is_run_of is_token_byte method) → IsSound d → MayHave d via method number further body →
        IsWrittenMessage (Kinds.Request (request_in d via method number hops further body)) }
{}

/// The URI of a Contact that reaches somebody was read.
pub fn contacts_are_read()
    ensures { (headers : List Header) (uri : Uri) → reached_at (contacts_of headers) ≡ Some uri → IsReadUri uri }
{}
