//! A call.

ghost use Rattle.std.specs.Prelude.{◌≡◌, ◌≢◌, ℕ, false, None, option_map};
ghost use Rattle.std.specs.Option.{option_copied};
ghost use Rattle.port_pool.specs.Pool.{Contents, is_port_of};
ghost use Rattle.offer_answer.specs.Direct.{hold_address};
ghost use Rattle.call_core.specs.Calls.{IsServed, clash_in, clash_without_offer_in, dialog_of, has_session, holds_in, new_call, phase_in, to_target, with_dialog, with_target};

use crate::clash::{Clash, clash_at, clash_without_offer};
use crate::stage::{Phase, Standing};
use call_media::{CallMedia, End, OpenOffer, Session};
use dialogs::Dialog;
use offer_answer::OwnRange;
use sip_uri::Uri;

/// A call: its standing, its media, and the dialogs with its two ends.
pub struct Call {
    pub(crate) number: u64,
    /// None before the first offer, and once the call is gone.
    pub(crate) standing: Option<Standing>,
    pub(crate) media: CallMedia,
    pub(crate) caller: Dialog,
    /// None before the callee's first 2xx.
    pub(crate) callee: Option<Dialog>,
}

impl Drop for Call {
    fn drop(self) {
        let Call {
            number: _,
            standing: _,
            media: _,
            caller: _,
            callee: _,
        } = self;
    }
}

/// The other side of this dialog is reached at this target from now on.
fn put_target_in(dialog: &mut Option<Dialog>, target: Uri<'static>)
    ensures { dialog.new ≡ option_map (to_target target.entry) dialog.old }
{
    if let Some(dialog) = dialog {
        dialog.target = target;
    }
}

impl Call {
    /// A call with this number, before its first offer: the server answers the caller in this dialog. The server's
    /// address is not 0.0.0.0. Takes no memory.
    pub fn new(number: u64, range: OwnRange, caller: Dialog) -> Call
        requires { range.ip ≢ hold_address }
        ensures call { result ≡ new_call number range caller }
        ensures serves { (pool : Contents) → ((port : ℕ) → is_port_of pool number port ≡ false) → IsServed result pool }
    {
        Call {
            number,
            standing: None,
            media: CallMedia::new(number, range),
            caller,
            callee: None,
        }
    }

    /// The number, which names the call. Takes no memory.
    pub fn number(&self) -> u64
        ensures { result ≡ self.now.number }
    {
        self.number
    }

    /// The call's standing; none before the first offer, and once it is gone. Takes no memory.
    pub fn standing(&self) -> Option<Standing>
        ensures { result ≡ self.now.standing }
    {
        self.standing
    }

    /// The phase; none before the first offer, and once the call is gone. Takes no memory.
    pub fn phase(&self) -> Option<Phase>
        ensures { result ≡ phase_in self.now.standing }
    {
        self.standing.map(|standing| standing.stage.phase())
    }

    /// The dialog with this end: with the callee there is none until it is put. Takes no memory.
    pub fn dialog(&self, end: End) -> Option<&Dialog>
        ensures { option_copied result ≡ dialog_of end self.now }
    {
        match end {
            End::Caller => Some(&self.caller),
            End::Callee => self.callee.as_ref(),
        }
    }

    /// Puts this dialog in place of that with this end: the callee's first, or one that took a request in its order or
    /// has another target. Takes no memory.
    pub fn put_dialog(&mut self, end: End, dialog: Dialog)
        ensures call { self.new ≡ with_dialog end dialog self.old }
        ensures serves { (pool : Contents) → IsServed self.old pool → IsServed self.new pool }
    {
        match end {
            End::Caller => self.caller = dialog,
            End::Callee => drop(self.callee.replace(dialog)),
        }
    }

    /// The end is reached at this target from now on, where there is a dialog with it (RFC 3261 section 12.2.2). Takes
    /// no memory.
    pub fn put_target(&mut self, end: End, target: Uri<'static>)
        ensures call { self.new ≡ with_target end target.entry self.old }
        ensures serves { (pool : Contents) → IsServed self.old pool → IsServed self.new pool }
    {
        match end {
            End::Caller => self.caller.target = target,
            End::Callee => put_target_in(&mut self.callee, target),
        }
    }

    /// The session: none before the first fit 2xx, once an end has left, and once the call is gone. Takes no memory.
    pub fn session(&self) -> Option<&Session>
        ensures session { option_copied result ≡ self.now.media.session }
        ensures none { (pool : Contents) → IsServed self.now pool → holds_in has_session self.now.standing ≡ false →
            option_copied result ≡ None }
    {
        self.media.session()
    }

    /// The offer that was passed on, if one is open. Takes no memory.
    pub fn open_offer(&self) -> Option<&OpenOffer>
        ensures { option_copied result ≡ self.now.media.offer }
    {
        self.media.open_offer()
    }

    /// What an offer of this end meets: K1, K2, or none. It is checked first of all. Takes no memory.
    pub fn clash(&self, end: End) -> Option<Clash>
        ensures { result ≡ clash_in self.now.standing end }
    {
        clash_at(self.standing?, end)
    }

    /// What an UPDATE without an offer of this end meets: K2, or none. Takes no memory.
    pub fn clash_without_offer(&self, end: End) -> Option<Clash>
        ensures { result ≡ clash_without_offer_in self.now.standing end }
    {
        clash_without_offer(self.standing?, end)
    }
}
