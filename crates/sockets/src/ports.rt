//! The sockets of a configuration.

ghost use Rattle.std.specs.Prelude.{◌≡◌, ◌-◌, ◌*◌, ◌^◌, ◌<◌, ◌≤◌, length, min, IfOk};
ghost use Rattle.relay.specs.Limits.{max_viewers};
ghost use Rattle.sockets.specs.Traffic.{no_traffic, relay_ports, worker_count};

use crate::addresses::to_system;
use crate::last_call::LastCall;
use crate::log::Log;
use crate::room::ask_for_room;
use crate::sip_socket::SipSocket;
use crate::tries::Tries;
use crate::unbound::Unbound;
use crate::waiter::Waiter;
use configuration::Config;
use libc::net::{EPOLL_CTL_ADD, EPOLLIN};
use mio::Poll;
use mio::net::UdpSocket;
use sip_uri::Addr;
use std::alloc::Global;
use std::io;
use std::marker::Model;
use std::net::Net;
use std::os::fd::AsRawFd;
use std::sync::Arc;

/// All sockets of a configuration.
#[derive(Drop)]
pub struct Sockets {
    pub sip: SipSocket,
    pub relay: RelaySockets,
}

/// All relay sockets, by rising port, and for each worker what waits for its own.
#[derive(Drop)]
pub struct RelaySockets {
    /// The first relay port.
    pub(crate) first: u16,
    pub(crate) sockets: Arc<Vec<UdpSocket>>,
    pub(crate) polls: Vec<Poll>,
}

impl Model for RelaySockets {
    ghost use Rattle.std.specs.Prelude.{length};
    ghost use Rattle.sockets.specs.Traffic.{RelayPorts};

    ghost Value = { RelayPorts };

    ghost view = { λ r. record { first = r.first; sockets = length r.sockets.value.items; workers = length r.polls.items } };
}

/// How many workers the configuration has: 1 to 8.
pub fn worker_count(config: &Config) -> usize
    ensures count { result ≡ worker_count config.now }
    ensures some { 0 < result }
    ensures few { result ≤ max_viewers }
{
    usize::from(config.workers).max(1).min(8)
}

fn bind_at<R: Net>(rt: &R, ip: [u8; 4], port: u16) -> Result<UdpSocket, Unbound> {
    let place = Addr { ip, port };
    match UdpSocket::bind(rt, to_system(place)) {
        Ok(socket) => Ok(socket),
        Err(error) => Err(Unbound::at(place, &error)),
    }
}

/// Has the poll report the socket, with this number, for as long as a datagram is there. `mio` registers sockets that
/// are reported only as one comes, and that have to be read until none is there.
fn watch(poll: &Poll, socket: &UdpSocket, number: u64) -> io::Result<()> {
    let (poll, socket) = (poll.as_raw_fd(), socket.as_raw_fd());
    if os::epoll_ctl(poll, EPOLL_CTL_ADD, socket, EPOLLIN, number) == 0 {
        Ok(())
    } else {
        Err(io::Error::from_raw_os_error(os::errno()))
    }
}

fn bind_sip<R: Net>(rt: &R, alloc: Global, config: &Config) -> Result<SipSocket, Unbound>
    ensures { IfOk result (λ s. s ≡ no_traffic) }
{
    let socket = bind_at(rt, config.ip, config.sip_port)?;
    ask_for_room(&socket);
    let poll = Poll::new(rt)?;
    watch(&poll, &socket, 0)?;
    Ok(SipSocket {
        socket,
        waiter: Waiter::new(alloc, poll, 1)?,
        tries: Tries::new(),
        last: LastCall::new(),
        taken: Log::new(),
        asked: Log::new(),
        sent: Log::new(),
        room: 0,
    })
}

fn polls_of<R: Net>(rt: &R, alloc: Global, count: usize) -> Result<Vec<Poll>, Unbound>
    ensures { IfOk result (λ polls. length polls.items ≡ count) }
{
    let mut polls = Vec::new(alloc);
    for _ in 0..count {
        polls.push(Poll::new(rt)?)?;
    }
    Ok(polls)
}

/// The relay socket at this place, which the worker of its pair reads.
fn bind_relay<R: Net>(
    rt: &R,
    config: &Config,
    polls: &[Poll],
    place: u16,
) -> Result<UdpSocket, Unbound> {
    let socket = bind_at(rt, config.ip, config.relay_first.wrapping_add(place))?;
    let pair = usize::from(place / 2);
    if !polls.is_empty() {
        watch(&polls[pair % polls.len()], &socket, u64::from(place))?;
    }
    Ok(socket)
}

fn bind_all<R: Net>(
    rt: &R,
    alloc: Global,
    config: &Config,
    polls: &[Poll],
) -> Result<Vec<UdpSocket>, Unbound>
    ensures { IfOk result (λ sockets. length sockets.items ≡ min (config.now.relay_pairs * 2) (2 ^ 16 - 1)) }
{
    let mut sockets = Vec::new(alloc);
    for place in 0..config.relay_pairs.saturating_mul(2) {
        sockets.push(bind_relay(rt, config, polls, place)?)?;
    }
    Ok(sockets)
}

/// Opens the socket for SIP and those of all relay ports. Err if the system refuses one, or memory runs out: those
/// already opened are closed then.
pub fn bind<R: Net>(rt: &R, alloc: Global, config: &Config) -> Result<Sockets, Unbound>
    ensures sip { IfOk result (λ s. s.sip ≡ no_traffic) }
    ensures relay { IfOk result (λ s. s.relay ≡ relay_ports config.now) }
{
    let sip = bind_sip(rt, alloc, config)?;
    let polls = polls_of(rt, alloc, worker_count(config))?;
    let sockets = bind_all(rt, alloc, config, &polls)?;
    let relay = RelaySockets {
        first: config.relay_first,
        sockets: Arc::new(alloc, sockets)?,
        polls,
    };
    Ok(Sockets { sip, relay })
}
