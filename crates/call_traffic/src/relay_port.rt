//! A port of the relay that faces an end of a call, and what was counted there.

ghost use Rattle.std.specs.Prelude.{◌≡◌, ◌++◌, ◌+◌, ◌%◌, ◌^◌, List, sum_by};
ghost use Rattle.call_traffic.specs.Readings.{IsPortRead, readings_of};
ghost use Rattle.call_traffic.specs.RelayPorts.{IsJustGot, came, rtp_at, rtcp_at, rtcp_port};

use crate::port_counter::PortCounter;

/// A port of the relay to which an end sends RTP. It is even, and the end's RTCP comes at the odd port above (RFC
/// 3550 section 11). Counts start at the server's start, and wrap at 2^64.
#[derive(Clone, Copy)]
pub(crate) struct RelayPort {
    /// The even port.
    pub(crate) number: u16,
    /// How many RTP datagrams had come there when the call got the port.
    pub(crate) before: u64,
    /// How many RTP datagrams had come there by the last reading, and how many of RTCP at the port above.
    pub(crate) rtp: u64,
    pub(crate) rtcp: u64,
}

/// The port at which the RTCP of this port's RTP comes. Takes no memory.
pub(crate) fn rtcp_port(rtp_port: u16) -> u16
    ensures { result ≡ rtcp_port rtp_port }
{
    rtp_port.wrapping_add(1)
}

impl RelayPort {
    /// A port as a call gets it, by a reading: `rtp` RTP datagrams had come there, and `rtcp` of RTCP at the port
    /// above.
    pub(crate) fn new(number: u16, rtp: u64, rtcp: u64) -> RelayPort
        ensures { result ≡ record { number = number; before = rtp; rtp = rtp; rtcp = rtcp } }
    {
        RelayPort {
            number,
            before: rtp,
            rtp,
            rtcp,
        }
    }

    /// A port as a call gets it now, by a first reading.
    pub(crate) fn first<C: PortCounter>(number: u16, counter: &mut C) -> RelayPort
        ensures port { IsJustGot number result }
        ensures told { C.readings counter.new ≡ C.readings counter.old ++ readings_of result }
    {
        let rtp = counter.number(number);
        let rtcp = counter.number(rtcp_port(number));
        RelayPort::new(number, rtp, rtcp)
    }

    /// A further reading.
    pub(crate) fn read<C: PortCounter>(&mut self, counter: &mut C)
        ensures port { IsPortRead self.old self.new }
        ensures told { C.readings counter.new ≡ C.readings counter.old ++ readings_of self.new }
    {
        self.rtp = counter.number(self.number);
        self.rtcp = counter.number(rtcp_port(self.number));
    }

    /// How many RTP datagrams came there since the call got the port.
    fn came(self) -> u64
        ensures { result ≡ came self }
    {
        self.rtp.wrapping_sub(self.before)
    }
}

/// How many RTP datagrams came at these ports since the call got them.
pub(crate) fn rtp_at(ports: &[RelayPort]) -> u64
    ensures { result ≡ rtp_at ports.now }
{
    let mut total: u64 = 0;
    for port in ports {
        total = total.wrapping_add(port.came());
    }
    total
}

/// How many RTCP datagrams came above these ports since the server's start.
pub(crate) fn rtcp_at(ports: &[RelayPort]) -> u64
    ensures { result ≡ rtcp_at ports.now }
{
    let mut total: u64 = 0;
    for port in ports {
        total = total.wrapping_add(port.rtcp);
    }
    total
}
