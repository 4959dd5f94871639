//! The bytes received of a request.

ghost use Rattle.std.specs.Prelude.{◌≡◌, ◌≤◌, ◌++◌, [], take, vec_len, OnErr, OnOk};
ghost use Rattle.page_server.specs.Requests.{IsHeadOf, max_head};

use crate::head::{Head, MAX_HEAD, judge};
use std::alloc::{AllocError, Global};
use std::marker::Model;

/// The bytes received of a request: at most as many as a head may have.
#[derive(Drop)]
pub(crate) struct Request {
    bytes: Vec<u8>,
}

impl Model for Request {
    ghost use Rattle.std.specs.Prelude.{◌≤◌, ℕ, List, length};
    ghost use Rattle.page_server.specs.Requests.{max_head};

    ghost Value = { List ℕ };

    ghost view = { λ r. r.bytes.items };

    ghost invariant = { λ r. length r.bytes.items ≤ max_head };
}

/// Appends as many of the bytes to the kept ones as there is room for.
fn keep(kept: &mut Vec<u8>, bytes: &[u8]) -> Result<(), AllocError>
    requires { vec_len kept.old ≤ max_head }
    ensures ok { OnOk result (kept.new.items ≡ take max_head (kept.old.items ++ bytes.now)) }
    ensures err { OnErr result (kept.new.items ≡ kept.old.items) }
    ensures room { vec_len kept.new ≤ max_head }
{
    let room = MAX_HEAD - kept.len();
    if bytes.len() <= room {
        kept.extend_from_slice(bytes)?;
        return Ok(());
    }
    kept.extend_from_slice(&bytes[..room])?;
    Ok(())
}

impl Request {
    /// No byte has come. Takes no memory.
    pub(crate) fn new(alloc: Global) -> Request
        ensures { result ≡ [] }
    {
        Request {
            bytes: Vec::new(alloc),
        }
    }

    /// These bytes came. Those beyond the maximum length of a head are dropped.
    pub(crate) fn add(&mut self, bytes: &[u8]) -> Result<(), AllocError>
        ensures ok { OnOk result (self.new ≡ take max_head (self.old ++ bytes.now)) }
        ensures err { OnErr result (self.new ≡ self.old) }
    {
        keep(&mut self.bytes, bytes)
    }

    /// What is known of it. Takes no memory.
    pub(crate) fn head(&self) -> Head
        ensures { IsHeadOf self.now result }
    {
        judge(&self.bytes)
    }
}
