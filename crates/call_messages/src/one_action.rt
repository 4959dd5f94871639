//! What one action results in.

ghost use Rattle.std.specs.Prelude.{◌≡◌, ◌<◌, ◌+◌, ◌^◌, ◌∷◌, [], codes, true, IfOk, OnErr, OnOk};
ghost use Rattle.sip_message.specs.declared.message.Message.TheVariants as Kinds;
ghost use Rattle.sip_message.specs.declared.message.Request.{Request};
ghost use Rattle.sip_message.specs.Words.{class_of, is_method};
ghost use Rattle.sip_writing.specs.Reply.{response_address};
ghost use Rattle.sip_writing.specs.Writing.{message_text};
ghost use Rattle.transactions.specs.declared.change.Entry.TheVariants.{Answers};
ghost use Rattle.transactions.specs.OwnRequests.{own_of};
ghost use Rattle.call_messages.specs.Dressed.{again, asks, behind, no_message};

use crate::dress_result::Dressed;
use crate::scene::Asker;
use events::Sent;
use sip_message::class_of;
use sip_uri::{Uri, address_of};
use sip_writing::reply_address;
use std::alloc::{AllocError, Global};
use std::marker::Model;
use text::Text;
use transactions::{Change, OwnRequest};

/// What an action results in: at most one change of a transaction, at most one datagram, and the number of tokens
/// made. Contracts see it as what a list of this action results in.
#[derive(Drop)]
pub struct Saying {
    pub change: Option<Change>,
    pub send: Option<Sent>,
    pub made: u64,
}

impl Model for Saying {
    ghost use Rattle.std.specs.Prelude.{option_to_list};
    ghost use Rattle.call_messages.specs.Dressed as words;

    ghost Value = { words.Dressed };

    ghost view = { λ s. record { changes = option_to_list s.change; sends = option_to_list s.send; made = s.made } };
}

impl Saying {
    /// No message. Takes no memory.
    pub(crate) fn nothing() -> Saying
        ensures { result ≡ no_message }
    {
        Saying {
            change: None,
            send: None,
            made: 0,
        }
    }

    /// A response of this status through the transaction of the request.
    pub(crate) fn responds_through(
        alloc: Global,
        asker: &Asker<'_, '_>,
        status: u16,
        bytes: Text<'static>,
    ) -> Result<Saying, AllocError>
        ensures { IfOk result (λ d. d ≡ record {
          changes = Answers asker.now.id (class_of status) bytes.entry ∷ [];
          sends = record { to = response_address asker.now.parts.now.vias asker.now.source; bytes = bytes.entry } ∷ [];
          made = 0;
        }) }
    {
        let to = reply_address(asker.parts, asker.source);
        let kept = bytes.keep(alloc)?;
        let change = Change::answers_with(asker.id, class_of(status), kept);
        Ok(Saying {
            change: Some(change),
            send: Some(Sent { to, bytes }),
            made: 0,
        })
    }

    /// A request to the address of its Request-URI, for which this many tokens are made.
    pub(crate) fn asks(alloc: Global, request: OwnRequest, made: u64) -> Result<Saying, AllocError>
        ensures { (r : Request) → request ≡ own_of r → IfOk result (λ d. d ≡ asks r made) }
    {
        let Some(to) = address_of(&request.uri) else {
            return Ok(Saying::nothing());
        };
        let bytes = request.bytes.keep(alloc)?;
        let change = Change::asks(alloc, request, to)?;
        Ok(Saying {
            change: Some(change),
            send: Some(Sent { to, bytes }),
            made,
        })
    }

    /// An ACK to the address of its Request-URI: it begins no transaction. Takes no memory.
    pub(crate) fn acknowledges(uri: &Uri<'_>, bytes: Text<'static>) -> Saying
        ensures { (r : Request) → uri.now ≡ r.uri → is_method (codes "ACK") r.parts ≡ true →
            bytes.entry ≡ message_text (Kinds.Request r) → result ≡ asks r 1 }
    {
        let Some(to) = address_of(uri) else {
            return Saying::nothing();
        };
        Saying {
            change: Some(Change::leaves()),
            send: Some(Sent { to, bytes }),
            made: 1,
        }
    }

    /// A datagram is sent again.
    pub(crate) fn again(alloc: Global, sent: &Sent) -> Result<Saying, AllocError>
        ensures { IfOk result (λ d. d ≡ again sent.now) }
    {
        let bytes = sent.bytes.keep(alloc)?;
        Ok(Saying {
            change: None,
            send: Some(Sent { to: sent.to, bytes }),
            made: 0,
        })
    }

    /// Puts what an action results in after the results of earlier ones. Where memory is refused, puts nothing.
    pub fn put_behind(self, dressed: &mut Dressed) -> Result<(), AllocError>
        requires { dressed.old.made + self.made < 2 ^ 64 }
        ensures ok { OnOk result (dressed.new ≡ behind dressed.old self) }
        ensures err { OnErr result (dressed.new ≡ dressed.old) }
    {
        let Saying { change, send, made } = self;
        let length = dressed.changes.len();
        if let Some(change) = change {
            dressed.changes.push(change)?;
        }
        if let Some(send) = send
            && let Err(error) = dressed.sends.push(send)
        {
            dressed.changes.truncate(length);
            return Err(error.into());
        }
        dressed.made += made;
        Ok(())
    }
}
