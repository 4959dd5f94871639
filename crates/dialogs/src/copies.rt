//! Copies of values, with what a contract sees of them.

ghost use Rattle.std.specs.Prelude.{◌≡◌, IfOk};

use crate::identifiers::DialogId;
use crate::state::{Dialog, Party};
use sip_uri::keep_text;
use std::alloc::{AllocError, Global};
use text::both;

fn copied_identifiers(alloc: Global, id: &DialogId) -> Result<DialogId, AllocError>
    ensures { IfOk result (λ copy. copy ≡ id.now) }
{
    let tags = both(id.ours.keep(alloc), id.theirs.keep(alloc));
    let (call_id, (ours, theirs)) = both(id.call_id.keep(alloc), tags)?;
    Ok(DialogId {
        call_id,
        ours,
        theirs,
    })
}

fn copied_party(alloc: Global, party: &Party) -> Result<Party, AllocError>
    ensures { IfOk result (λ copy. copy ≡ party.now) }
{
    Ok(Party {
        display: keep_text(alloc, &party.display)?,
        uri: party.uri.keep(alloc)?,
    })
}

impl Dialog {
    /// A copy of the dialog.
    pub fn copy(&self, alloc: Global) -> Result<Dialog, AllocError>
        ensures { IfOk result (λ copy. copy ≡ self.now) }
    {
        let ends = both(
            copied_party(alloc, &self.ours),
            copied_party(alloc, &self.theirs),
        );
        let place = both(copied_identifiers(alloc, &self.id), self.target.keep(alloc));
        let ((ours, theirs), (id, target)) = both(ends, place)?;
        Ok(Dialog {
            id,
            ours,
            theirs,
            target,
            local_number: self.local_number,
            remote_number: self.remote_number,
        })
    }
}
