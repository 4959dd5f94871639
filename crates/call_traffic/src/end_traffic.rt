//! What came from an end of a call.

ghost use Rattle.std.specs.Prelude.{◌≡◌, ◌||◌, List, [], ◌∷◌, ◌++◌, filter, drop, All, OnOk, OnErr, IfSome, Some, None, is_some, true};
ghost use Rattle.call_traffic.specs.EndTraffic.{after_taking, is_among, recent, total, total_with_rtcp, with_port};
ghost use Rattle.call_traffic.specs.Looks.{Look, after_look, MomentsRise};
ghost use Rattle.call_traffic.specs.Readings.{IsEndRead, port_readings};
ghost use Rattle.call_traffic.specs.Stillness.{IsStillnessOf};
ghost use Rattle.call_traffic.specs.Ways.{IsSilent, looks_since};

use crate::port_counter::PortCounter;
use crate::recent::RecentCounts;
use crate::relay_port::{RelayPort, rtcp_at, rtp_at};
use crate::way::Way;
use sip_uri::Addr;
use status::Flow;
use std::alloc::{AllocError, Global};

/// What came from an end of a call, as of the last reading of its ports' counts.
#[derive(Drop)]
pub(crate) struct EndTraffic {
    /// The ports that face the end.
    pub(crate) ports: Vec<RelayPort>,
    /// How many RTP datagrams came at ports that the call no longer has.
    pub(crate) past: u64,
    pub(crate) recent: RecentCounts,
    pub(crate) way: Way,
}

fn is_among(ports: &[RelayPort], port: &RelayPort) -> bool
    ensures { result ≡ is_among ports.now port.now }
{
    ports.iter().any(|other| other.number == port.number)
}

impl EndTraffic {
    /// An end without ports.
    pub(crate) fn new(alloc: Global) -> EndTraffic
        ensures ports { result.ports.items ≡ [] }
        ensures total { total result ≡ 0 }
        ensures source { result.way.source ≡ None }
    {
        EndTraffic {
            ports: Vec::new(alloc),
            past: 0,
            recent: RecentCounts::new(),
            way: Way::new(),
        }
    }

    /// Reads the counts of its ports.
    pub(crate) fn read<C: PortCounter>(&mut self, counter: &mut C)
        ensures end { IsEndRead self.old self.new }
        ensures told { C.readings counter.new ≡ C.readings counter.old ++ port_readings self.new.ports.items }
    {
        for port in self.ports.iter_mut() {
            port.read(counter);
        }
    }

    /// How many RTP datagrams came since the call got its ports.
    pub(crate) fn total(&self) -> u64
        ensures { result ≡ total self.now }
    {
        self.past.wrapping_add(rtp_at(&self.ports))
    }

    /// The same, with all RTCP at the ports: a different number means that more came.
    pub(crate) fn total_with_rtcp(&self) -> u64
        ensures { result ≡ total_with_rtcp self.now }
    {
        self.total().wrapping_add(rtcp_at(&self.ports))
    }

    /// A second has passed.
    pub(crate) fn look(&mut self)
        ensures counts { self.new.recent.counts ≡ drop 1 self.old.recent.counts ++ total self.old ∷ [] }
        ensures others { self.new ≡ record self.old { recent = self.new.recent } }
    {
        let total = self.total();
        self.recent.look(total);
    }

    /// How many RTP datagrams came since the call got its ports, and in the last ten seconds.
    pub(crate) fn count(&self) -> Flow
        ensures total { result.total ≡ total self.now }
        ensures recent { result.recent ≡ recent self.now }
    {
        let total = self.total();
        Flow {
            recent: total.wrapping_sub(self.recent.earliest()),
            total,
        }
    }

    /// Leaves each port that is not one of these. What came there stays in the total.
    fn leave_others(&mut self, ports: &[RelayPort])
        ensures ports { self.new.ports.items ≡ filter (is_among ports.now) self.old.ports.items }
        ensures total { total self.new ≡ total self.old }
        ensures recent { self.new.recent ≡ self.old.recent }
        ensures way { self.new.way ≡ self.old.way }
    {
        let total = self.total();
        self.ports.retain(|port| is_among(ports, port));
        self.past = total.wrapping_sub(rtp_at(&self.ports));
    }

    /// A port that faces the end from now on, if it did not before. What had come there up to this reading doesn't
    /// count.
    fn add_port(&mut self, port: &RelayPort) -> Result<(), AllocError>
        ensures ok { OnOk result (self.new.ports.items ≡ with_port self.old.ports.items port.now) }
        ensures err { OnErr result (self.new.ports.items ≡ self.old.ports.items) }
        ensures total { total self.new ≡ total self.old }
        ensures recent { self.new.recent ≡ self.old.recent }
        ensures way { self.new.way ≡ self.old.way }
    {
        if is_among(&self.ports, port) {
            return Ok(());
        }
        self.ports.push(RelayPort {
            before: port.rtp,
            ..*port
        })?;
        Ok(())
    }

    /// These ports face the end from now on, and no others: what came before doesn't count. An error leaves some of
    /// them out. The total is kept in either case.
    pub(crate) fn take_ports(&mut self, ports: &[RelayPort]) -> Result<(), AllocError>
        ensures faces { OnOk result (All (λ p. is_among self.new.ports.items p ≡ true) ports.now) }
        ensures only { All (λ p. is_among ports.now p ≡ true) self.new.ports.items }
        ensures ports { OnOk result (self.new.ports.items ≡ after_taking ports.now self.old.ports.items) }
        ensures total { total self.new ≡ total self.old }
        ensures recent { self.new.recent ≡ self.old.recent }
        ensures way { self.new.way ≡ self.old.way }
    {
        self.leave_others(ports);
        for port in ports {
            self.add_port(port)?;
        }
        Ok(())
    }

    /// A second has passed: where RTP should come from, if the end is silent and that was not reported.
    pub(crate) fn silent_source(&mut self, now: u64) -> Option<Addr>
        ensures looks { (looks : List Look) → IsStillnessOf looks self.old.way.stillness →
            IsStillnessOf (looks_since self.old.way.source looks now (total self.old)) self.new.way.stillness }
        ensures silent { (looks : List Look) → IsStillnessOf looks self.old.way.stillness →
            IfSome result (λ source. IsSilent self.old.way (after_look looks now (total self.old)) now source) }
        ensures each { (looks : List Look) (source : Addr) → IsStillnessOf looks self.old.way.stillness →
            MomentsRise (after_look looks now (total self.old)) →
            IsSilent self.old.way (after_look looks now (total self.old)) now source → result ≡ Some source }
        ensures source { self.new.way.source ≡ self.old.way.source }
        ensures once { self.new.way.is_told ≡ self.old.way.is_told || is_some result }
        ensures others { self.new ≡ record self.old { way = self.new.way } }
    {
        let total = self.total();
        self.way.look(now, total)
    }
}
