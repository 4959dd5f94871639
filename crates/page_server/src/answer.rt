//! A response, and how much of it the client has received.

ghost use Rattle.std.specs.Prelude.{◌≡◌, ◌≤◌, ◌+◌, ◌==◌, length, drop, IfOk};
ghost use Rattle.page_server.specs.Responses.{page_text, refusal_text, unsent};

use crate::path::Path;
use crate::refusal::Refusal;
use crate::response::{put_page, put_refusal};
use std::alloc::{AllocError, Global};
use std::marker::Model;

/// A response, and how many of its bytes were sent.
#[derive(Drop)]
pub(crate) struct Answer {
    text: Vec<u8>,
    sent: usize,
}

impl Model for Answer {
    ghost use Rattle.std.specs.Prelude.{◌≤◌, length};
    ghost use Rattle.page_server.specs.Responses.{Sending};

    ghost Value = { Sending };

    ghost view = { λ a. record { text = a.text.items; sent = a.sent } };

    ghost invariant = { λ a. a.sent ≤ length a.text.items };
}

impl Answer {
    /// The response with a page, of which nothing was sent yet.
    pub(crate) fn with_page(alloc: Global, path: Path, body: &[u8]) -> Result<Answer, AllocError>
        ensures { IfOk result (λ a. a ≡ unsent (page_text path body.now)) }
    {
        let mut text = Vec::new(alloc);
        put_page(&mut text, path, body)?;
        Ok(Answer { text, sent: 0 })
    }

    /// The response without a page, of which nothing was sent yet.
    pub(crate) fn with_refusal(alloc: Global, refusal: Refusal) -> Result<Answer, AllocError>
        ensures { IfOk result (λ a. a ≡ unsent (refusal_text refusal)) }
    {
        let mut text = Vec::new(alloc);
        put_refusal(&mut text, refusal)?;
        Ok(Answer { text, sent: 0 })
    }

    /// The part that was not sent yet.
    pub(crate) fn rest(&self) -> &[u8]
        ensures { result.now ≡ drop self.now.sent self.now.text }
    {
        &self.text[self.sent..]
    }

    /// This many more bytes were sent.
    pub(crate) fn advance(&mut self, count: usize)
        requires { count ≤ length (drop self.old.sent self.old.text) }
        ensures { self.new ≡ record self.old { sent = self.old.sent + count } }
    {
        self.sent += count;
    }

    /// Whether all was sent.
    pub(crate) fn is_sent(&self) -> bool
        ensures { result ≡ (self.now.sent == length self.now.text) }
    {
        self.sent == self.text.len()
    }
}
