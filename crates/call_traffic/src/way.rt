//! Whether an end of a call is silent: RTP should come from it, and none does.

ghost use Rattle.std.specs.Prelude.{◌≡◌, ◌||◌, List, IfSome, Some, None, [], is_some, false};
ghost use Rattle.call_traffic.specs.Looks.{Look, after_look, MomentsRise};
ghost use Rattle.call_traffic.specs.Stillness.{IsStillnessOf};
ghost use Rattle.call_traffic.specs.Ways.{IsSilent, looks_since};

use crate::stillness::Stillness;
use sip_uri::Addr;

/// An end is silent if no RTP came from it for this many milliseconds.
const SILENT: u64 = 10_000;

/// The way of the media from one end to the other.
#[derive(Clone, Copy)]
pub(crate) struct Way {
    /// Where RTP should come from; none while the call has no session, or is held so that none should come.
    pub(crate) source: Option<Addr>,
    /// For how long no RTP came, while some should.
    pub(crate) stillness: Stillness,
    /// Whether it was reported that the end is silent.
    pub(crate) is_told: bool,
}

impl Way {
    /// No RTP should come.
    pub(crate) fn new() -> Way
        ensures source { result.source ≡ None }
        ensures told { result.is_told ≡ false }
    {
        Way {
            source: None,
            stillness: Stillness::new(0, 0),
            is_told: false,
        }
    }

    /// From now on RTP should come from there, or none should.
    pub(crate) fn expect(&mut self, source: Option<Addr>, now: u64)
        ensures source { self.new.source ≡ source }
        ensures looks { IsStillnessOf (after_look [] now self.old.stillness.count) self.new.stillness }
        ensures told { self.new.is_told ≡ self.old.is_told }
    {
        self.source = source;
        self.stillness = self.stillness.anew(now);
    }

    /// A further look: `count` datagrams have come by `now`. Returns where RTP should come from, if the end is silent
    /// and that was not reported.
    pub(crate) fn look(&mut self, now: u64, count: u64) -> Option<Addr>
        ensures looks { (looks : List Look) → IsStillnessOf looks self.old.stillness →
            IsStillnessOf (looks_since self.old.source looks now count) self.new.stillness }
        ensures silent { (looks : List Look) → IsStillnessOf looks self.old.stillness →
            IfSome result (λ source. IsSilent self.old (after_look looks now count) now source) }
        // Each silent end is reported.
        ensures each { (looks : List Look) (source : Addr) → IsStillnessOf looks self.old.stillness →
            MomentsRise (after_look looks now count) → IsSilent self.old (after_look looks now count) now source →
            result ≡ Some source }
        ensures source { self.new.source ≡ self.old.source }
        ensures once { self.new.is_told ≡ self.old.is_told || is_some result }
    {
        let Some(source) = self.source else {
            self.stillness = Stillness::new(now, count);
            return None;
        };
        self.stillness.look(now, count);
        if self.is_told || !self.stillness.lasts(now, SILENT) {
            return None;
        }
        self.is_told = true;
        Some(source)
    }
}
