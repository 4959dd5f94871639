//! The order of a dialog's requests (RFC 3261 sections 12.2.1.1 and 12.2.2).

ghost use Rattle.std.specs.Prelude.{◌≡◌, ◌≤◌, OnOk, OnErr, IfOk, IfErr, Some};
ghost use Rattle.dialogs.specs.Counting.{is_above, IsAbove, last_number, following, max_for, RefusesRequest, RefusesNumber};

use crate::error::DialogError;
use crate::method::Method;
use crate::state::Dialog;
use sip_message::Request;

/// Whether the number of a request is above that of the last one, or it is the first (RFC 3261 section 12.2.2). Takes
/// no memory.
pub fn is_above(last: Option<u32>, number: u32) -> bool
    ensures { result ≡ is_above last number }
{
    match last {
        None => true,
        Some(last) => last < number,
    }
}

impl Dialog {
    /// Takes a request of the other end in its order: its number is above that of the last one, or it is the first, and
    /// is kept. G1 is the only refusal. Takes no memory.
    pub fn admit(&mut self, request: &Request<'_>) -> Result<(), DialogError>
        ensures above { OnOk result (IsAbove self.old.remote_number request.now.parts.cseq.number) }
        ensures kept { OnOk result (self.new ≡ record self.old { remote_number = Some request.now.parts.cseq.number }) }
        ensures refused { IfErr result (RefusesRequest self.old request.now.parts.cseq.number) }
        ensures err { OnErr result (self.new ≡ self.old) }
    {
        let number = request.parts.cseq.number;
        if !is_above(self.remote_number, number) {
            return Err(DialogError::OldNumber);
        }
        self.remote_number = Some(number);
        Ok(())
    }

    /// The number of the next request of this method: 1, or one more than that of the last. G2 is the only refusal.
    /// Takes no memory.
    pub fn next_number(&self, method: Method) -> Result<u32, DialogError>
        ensures number { IfOk result (λ n. n ≡ following self.now) }
        ensures left { OnOk result (following self.now ≤ max_for method) }
        ensures refused { IfErr result (RefusesNumber self.now method) }
    {
        let last = self.local_number.unwrap_or(0);
        if last >= method.max_cseq() {
            return Err(DialogError::NoNumberLeft);
        }
        Ok(last + 1)
    }

    /// Keeps the number of a request that was sent. Takes no memory.
    pub fn keep_number(&mut self, number: u32)
        ensures { self.new ≡ record self.old { local_number = Some number } }
    {
        self.local_number = Some(number);
    }
}
