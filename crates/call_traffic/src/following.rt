//! What becomes of a call's traffic as something happens to the call.

ghost use Rattle.std.specs.Prelude.{◌≡◌, None, OnErr, OnOk};
ghost use Rattle.call_traffic.specs.Following.{Expects, HasGotPorts, HasMissed, IsFollowed, LacksPorts, is_answer, is_begin, is_over, new_sources};

use crate::call_traffic::CallTraffic;
use crate::facing::ports_by_now;
use crate::port_counter::PortCounter;
use crate::sources::sources_of;
use call_core::{Call, CallNote};
use call_media::End;
use std::alloc::{AllocError, Global};

pub(crate) fn is_begin(note: CallNote) -> bool
    ensures { result ≡ is_begin note }
{
    matches!(note, CallNote::Begun)
}

/// Whether a session begins, or another replaces it.
fn is_answer(note: CallNote) -> bool
    ensures { result ≡ is_answer note }
{
    matches!(note, CallNote::Answered | CallNote::Reanswered)
}

/// Whether the call is over.
pub(crate) fn is_over(note: CallNote) -> bool
    ensures { result ≡ is_over note }
{
    matches!(
        note,
        CallNote::Refused(_)
            | CallNote::GivenUp
            | CallNote::Left(_)
            | CallNote::Failed(_)
            | CallNote::Unacknowledged
            | CallNote::Expired
    )
}

impl CallTraffic {
    /// The ports of the call face its ends from now on. What came there before doesn't count.
    fn get_ports<C: PortCounter>(
        &mut self,
        alloc: Global,
        counter: &mut C,
        call: &Call,
    ) -> Result<(), AllocError>
        ensures ok { OnOk result (HasGotPorts call.now (C.readings counter.old) (C.readings counter.new) self.old self.new) }
        ensures err { OnErr result (LacksPorts self.old (record self.new { stillness = None })) }
    {
        let caller = ports_by_now(alloc, counter, End::Caller, call)?;
        let callee = ports_by_now(alloc, counter, End::Callee, call)?;
        self.take_ports(&caller, &callee)?;
        Ok(())
    }

    /// If this is an answer, RTP should come from the session's sources from now on.
    fn expect_after(&mut self, call: &Call, note: CallNote, now: u64)
        ensures { Expects (new_sources note call.now.media.session) now self.old self.new }
    {
        if is_answer(note)
            && let Some(session) = call.session()
        {
            self.expect(sources_of(session), now);
        }
    }

    /// The ports of the call, and where its media should come from, as it is after this. If memory is refused, some of
    /// its media are not counted, and the call isn't silent.
    pub(crate) fn follow<C: PortCounter>(
        &mut self,
        alloc: Global,
        counter: &mut C,
        call: &Call,
        note: CallNote,
        now: u64,
    ) -> Result<(), AllocError>
        ensures ok { OnOk result (IsFollowed call.now note now (C.readings counter.old) (C.readings counter.new) self.old self.new) }
        ensures err { OnErr result (HasMissed self.old self.new) }
    {
        self.read(counter);
        match self.get_ports(alloc, counter, call) {
            Ok(()) => {
                self.expect_after(call, note, now);
                Ok(())
            }
            Err(error) => {
                self.miss_ports();
                Err(error)
            }
        }
    }
}
