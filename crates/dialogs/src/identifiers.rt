//! The identifiers of a dialog (RFC 3261 section 12).

ghost use Rattle.std.specs.Prelude.{◌≡◌, ◌↔◌, IsTrue, IfOk};
ghost use Rattle.sip_message.specs.Words.{tag_text};
ghost use Rattle.dialogs.specs.Identifiers.{id_of_request, id_of_response, same_id};

use sip_message::{Request, Response, tag_text};
use sip_uri::Param;
use text::Text;

/// What names a dialog: the Call-ID, our tag and the other end's. An absent tag is the empty text.
#[derive(Drop)]
pub struct DialogId {
    pub call_id: Text<'static>,
    pub ours: Text<'static>,
    pub theirs: Text<'static>,
}

impl DialogId {
    fn names(&self, call_id: &Text<'_>, ours: &[Param<'_>], theirs: &[Param<'_>]) -> bool
        ensures { result ≡ same_id self.now (record { call_id = call_id.now; ours = tag_text ours.now; theirs = tag_text theirs.now }) }
    {
        self.call_id.as_bytes() == call_id.as_bytes()
            && self.ours.as_bytes() == tag_text(ours)
            && self.theirs.as_bytes() == tag_text(theirs)
    }

    /// Whether a request that was taken belongs to this dialog: our tag is in To. Takes no memory.
    pub fn is_of_request(&self, request: &Request<'_>) -> bool
        ensures test { result ≡ same_id self.now (id_of_request request.now.parts) }
        ensures belongs { IsTrue result ↔ (id_of_request request.now.parts ≡ self.now) }
    {
        let ours = request.parts.to.params.as_slice();
        let theirs = request.parts.from.params.as_slice();
        self.names(&request.parts.call_id, ours, theirs)
    }

    /// Whether a response that was taken belongs to this dialog: our tag is in From. Takes no memory.
    pub fn is_of_response(&self, response: &Response<'_>) -> bool
        ensures test { result ≡ same_id self.now (id_of_response response.now.parts) }
        ensures belongs { IsTrue result ↔ (id_of_response response.now.parts ≡ self.now) }
    {
        let ours = response.parts.from.params.as_slice();
        let theirs = response.parts.to.params.as_slice();
        self.names(&response.parts.call_id, ours, theirs)
    }
}
