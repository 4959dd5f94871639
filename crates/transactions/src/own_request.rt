//! Requests of the server's own.

ghost use Rattle.std.specs.Prelude.{◌≡◌, IfOk};
ghost use Rattle.sip_message.specs.Grammar.{ReadsMessage};
ghost use Rattle.sip_message.specs.declared.message.Message.TheVariants as Kinds;
ghost use Rattle.sip_writing.specs.WritingMessage.{IsWrittenMessage};
ghost use Rattle.transactions.specs.OwnRequests.{own_of};

use sip_message::{Parts, Request};
use sip_uri::Uri;
use sip_writing::write_request;
use std::alloc::{AllocError, Global};
use text::Text;

/// A request of the server's own: what its transaction keeps of it, and its bytes.
#[derive(Drop)]
pub struct OwnRequest {
    /// The Request-URI.
    pub uri: Uri<'static>,
    pub parts: Parts<'static>,
    pub bytes: Text<'static>,
}

impl OwnRequest {
    /// What is kept of this request.
    pub fn of(alloc: Global, request: &Request<'_>) -> Result<OwnRequest, AllocError>
        ensures own { IfOk result (λ own. own ≡ own_of request.now) }
        ensures reads { IsWrittenMessage (Kinds.Request request.now) → IfOk result (λ own. ReadsMessage own.bytes (Kinds.Request request.now)) }
    {
        let uri = request.uri.keep(alloc)?;
        let parts = request.parts.keep(alloc)?;
        let bytes = write_request(alloc, request)?.keep(alloc)?;
        Ok(OwnRequest { uri, parts, bytes })
    }
}
