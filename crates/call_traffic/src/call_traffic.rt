//! The traffic of a call: what came from each of its ends.

ghost use Rattle.std.specs.Prelude.{◌≡◌, ◌≤◌, ◌||◌, List, All, IfSome, OnOk, OnErr, IsTrue, is_some, Some, None, true, [], ◌∷◌, ◌++◌, drop};
ghost use Rattle.call_traffic.specs.Calls.{CallLooks, all_with_rtcp, carried, is_silent, traffic, traffic_from, with_way};
ghost use Rattle.call_traffic.specs.EndTraffic.{HasOtherPorts, after_taking, is_among, total};
ghost use Rattle.call_traffic.specs.Looks.{Look, after_look, MomentsRise};
ghost use Rattle.call_traffic.specs.Readings.{IsCallRead, call_readings};
ghost use Rattle.call_traffic.specs.Stillness.{IsStill, IsStillnessOf};
ghost use Rattle.call_traffic.specs.Ways.{IsSilent, looks_since};

use crate::end_traffic::EndTraffic;
use crate::port_counter::PortCounter;
use crate::relay_port::RelayPort;
use crate::sources::Sources;
use crate::stillness::Stillness;
use call_media::End;
use sip_uri::Addr;
use std::alloc::{AllocError, Global};

/// How many RTP datagrams came from each end of a call since the call got its ports.
#[derive(Clone, Copy)]
pub struct CarriedMedia {
    pub from_caller: u64,
    pub from_callee: u64,
}

/// The traffic of a call, as of the last reading of its ports' counts.
#[derive(Drop)]
pub(crate) struct CallTraffic {
    pub(crate) number: u64,
    /// In milliseconds since the server's start.
    pub(crate) begun: u64,
    pub(crate) from_caller: EndTraffic,
    pub(crate) from_callee: EndTraffic,
    /// For how long nothing came from either end. None before the answer, or if memory was refused.
    pub(crate) stillness: Option<Stillness>,
    /// When it may next be reported that the call is silent.
    pub(crate) next_telling: u64,
}

impl CallTraffic {
    /// A call that begins at this moment, without ports.
    pub(crate) fn new(alloc: Global, number: u64, now: u64) -> CallTraffic
        ensures number { result.number ≡ number }
        ensures begun { result.begun ≡ now }
        ensures caller { total result.from_caller ≡ 0 }
        ensures callee { total result.from_callee ≡ 0 }
        ensures stillness { result.stillness ≡ None }
        ensures next_telling { result.next_telling ≡ 0 }
    {
        CallTraffic {
            number,
            begun: now,
            from_caller: EndTraffic::new(alloc),
            from_callee: EndTraffic::new(alloc),
            stillness: None,
            next_telling: 0,
        }
    }

    /// How much came from both ends, including RTCP: a different number means that more came.
    fn all_with_rtcp(&self) -> u64
        ensures { result ≡ all_with_rtcp self.now }
    {
        let callee = self.from_callee.total_with_rtcp();
        self.from_caller.total_with_rtcp().wrapping_add(callee)
    }

    /// Reads the counts of its ports.
    pub(crate) fn read<C: PortCounter>(&mut self, counter: &mut C)
        ensures call { IsCallRead self.old self.new }
        ensures told { C.readings counter.new ≡ C.readings counter.old ++ call_readings self.new }
    {
        self.from_caller.read(counter);
        self.from_callee.read(counter);
    }

    /// These ports face each end from now on, and no others: what came there up to this reading doesn't count. If
    /// memory is refused, some are left out, and the call is no longer silent.
    pub(crate) fn take_ports(
        &mut self,
        caller: &[RelayPort],
        callee: &[RelayPort],
    ) -> Result<(), AllocError>
        ensures caller { OnOk result (All (λ p. is_among self.new.from_caller.ports.items p ≡ true) caller.now) }
        ensures callee { OnOk result (All (λ p. is_among self.new.from_callee.ports.items p ≡ true) callee.now) }
        ensures only_caller { OnOk result (All (λ p. is_among caller.now p ≡ true) self.new.from_caller.ports.items) }
        ensures only_callee { OnOk result (All (λ p. is_among callee.now p ≡ true) self.new.from_callee.ports.items) }
        ensures caller_ports { OnOk result (self.new.from_caller.ports.items ≡ after_taking caller.now self.old.from_caller.ports.items) }
        ensures callee_ports { OnOk result (self.new.from_callee.ports.items ≡ after_taking callee.now self.old.from_callee.ports.items) }
        ensures from_caller { HasOtherPorts self.old.from_caller self.new.from_caller }
        ensures from_callee { HasOtherPorts self.old.from_callee self.new.from_callee }
        ensures stillness { OnOk result (self.new.stillness ≡ self.old.stillness) }
        ensures err { OnErr result (self.new.stillness ≡ None) }
        ensures others { self.new ≡ record self.old { from_caller = self.new.from_caller; from_callee = self.new.from_callee; stillness = self.new.stillness } }
    {
        let stillness = self.stillness;
        self.stillness = None;
        self.from_caller.take_ports(caller)?;
        self.from_callee.take_ports(callee)?;
        self.stillness = stillness;
        Ok(())
    }

    /// Memory was refused, so some of its ports are not counted: the call is no longer silent.
    pub(crate) fn miss_ports(&mut self)
        ensures { self.new ≡ record self.old { stillness = None } }
    {
        self.stillness = None;
    }

    /// The call was answered, or answered again: RTP should come from these sources from now on, and the call has
    /// been still since now.
    pub(crate) fn expect(&mut self, sources: Sources, now: u64)
        ensures caller { self.new.from_caller.way.source ≡ sources.caller }
        ensures callee { self.new.from_callee.way.source ≡ sources.callee }
        ensures caller_looks { IsStillnessOf (after_look [] now self.old.from_caller.way.stillness.count)
            self.new.from_caller.way.stillness }
        ensures callee_looks { IsStillnessOf (after_look [] now self.old.from_callee.way.stillness.count)
            self.new.from_callee.way.stillness }
        ensures told { (self.new.from_caller.way.is_told ≡ self.old.from_caller.way.is_told)
            × (self.new.from_callee.way.is_told ≡ self.old.from_callee.way.is_told) }
        ensures looks { CallLooks (after_look [] now (all_with_rtcp self.old)) self.new }
        ensures others { self.new ≡ record self.old {
          from_caller = record self.old.from_caller { way = self.new.from_caller.way };
          from_callee = record self.old.from_callee { way = self.new.from_callee.way };
          stillness = self.new.stillness;
        } }
    {
        self.from_caller.way.expect(sources.caller, now);
        self.from_callee.way.expect(sources.callee, now);
        self.stillness = Some(Stillness::new(now, self.all_with_rtcp()));
    }

    /// A second has passed.
    pub(crate) fn look(&mut self, now: u64)
        ensures looks { (looks : List Look) → CallLooks looks self.old →
            CallLooks (after_look looks now (all_with_rtcp self.old)) self.new }
        ensures caller { self.new.from_caller.recent.counts
            ≡ drop 1 self.old.from_caller.recent.counts ++ total self.old.from_caller ∷ [] }
        ensures callee { self.new.from_callee.recent.counts
            ≡ drop 1 self.old.from_callee.recent.counts ++ total self.old.from_callee ∷ [] }
        ensures others { self.new ≡ record self.old {
          from_caller = record self.old.from_caller { recent = self.new.from_caller.recent };
          from_callee = record self.old.from_callee { recent = self.new.from_callee.recent };
          stillness = self.new.stillness;
        } }
    {
        self.from_caller.look();
        self.from_callee.look();
        let total = self.all_with_rtcp();
        if let Some(stillness) = &mut self.stillness {
            stillness.look(now, total);
        }
    }

    /// Whether neither RTP nor RTCP came from either end for `limit` milliseconds, by the looks since the call was
    /// answered last, and that may be reported.
    pub(crate) fn is_silent(&self, now: u64, limit: u64) -> bool
        ensures exact { result ≡ is_silent now limit self.now }
        ensures may { IsTrue result → self.now.next_telling ≤ now }
        ensures silent { (looks : List Look) → CallLooks looks self.now → IsTrue result → IsStill looks now limit }
        ensures each { (looks : List Look) → CallLooks looks self.now → MomentsRise looks →
            self.now.next_telling ≤ now → IsStill looks now limit → IsTrue result }
    {
        match self.stillness {
            Some(stillness) => now >= self.next_telling && stillness.lasts(now, limit),
            None => false,
        }
    }

    /// A second has passed: where RTP should come from at this end, if none came for ten seconds and that was not
    /// reported.
    pub(crate) fn silent_source(&mut self, end: End, now: u64) -> Option<Addr>
        ensures looks { (looks : List Look) → let was = traffic_from end self.old in IsStillnessOf looks was.way.stillness →
            IsStillnessOf (looks_since was.way.source looks now (total was)) (traffic_from end self.new).way.stillness }
        ensures silent { (looks : List Look) → let was = traffic_from end self.old in IsStillnessOf looks was.way.stillness →
            IfSome result (λ source. IsSilent was.way (after_look looks now (total was)) now source) }
        // Each silent end is reported.
        ensures each { (looks : List Look) (source : Addr) → let was = traffic_from end self.old in IsStillnessOf looks was.way.stillness →
            MomentsRise (after_look looks now (total was)) →
            IsSilent was.way (after_look looks now (total was)) now source → result ≡ Some source }
        ensures once { (traffic_from end self.new).way.is_told ≡ (traffic_from end self.old).way.is_told || is_some result }
        ensures source { (traffic_from end self.new).way.source ≡ (traffic_from end self.old).way.source }
        ensures others { self.new ≡ with_way end (traffic_from end self.new).way self.old }
    {
        match end {
            End::Caller => self.from_caller.silent_source(now),
            End::Callee => self.from_callee.silent_source(now),
        }
    }

    /// What `call-ended` says of the media.
    pub(crate) fn carried(&self) -> CarriedMedia
        ensures { result ≡ carried self.now }
    {
        CarriedMedia {
            from_caller: self.from_caller.total(),
            from_callee: self.from_callee.total(),
        }
    }

    /// What the page shows of the traffic.
    pub(crate) fn traffic(&self) -> status::CallTraffic
        ensures { result ≡ traffic self.now }
    {
        status::CallTraffic {
            number: self.number,
            begun: self.begun,
            from_caller: self.from_caller.count(),
            from_callee: self.from_callee.count(),
        }
    }
}
