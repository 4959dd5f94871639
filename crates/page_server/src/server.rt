//! The server.

ghost use Rattle.std.specs.Prelude.{◌≡◌, ◌≤◌, [], length, All, IfOk, OnOk, OnErr};
ghost use Rattle.page_server.specs.Held.{IsBrief, IsTimely, Join, OneMayJoin, TurnsTo, max_connections};

use crate::connection::new_connection;
use crate::connections::Connections;
use crate::source::PageSource;
use mio::net::{TcpListener, TcpStream};
use mio::{Events, Interest, Poll, Token};
use sip_uri::Addr;
use std::alloc::Global;
use std::io;
use std::marker::Model;
use std::net::{Ipv4Addr, Net, SocketAddr};
use std::time::Duration;

/// How many connections are accepted or dropped in a turn at most.
const MAX_ARRIVALS: u32 = 256;

/// How many events are reported at once. All connections are tried in each turn, whatever the events say.
const MAX_EVENTS: usize = 64;

/// How many milliseconds a turn waits at most while a page is being made.
const SHORT_WAIT: u64 = 10;

const LISTENER: Token = Token(0);

const CLIENT: Token = Token(1);

/// A server of pages. Contracts see what it holds: each connection, with the moment of its accept, since when it has
/// been at its stage, how many it passed before, and how long it may stay there.
#[derive(Drop)]
pub struct PageServer {
    alloc: Global,
    listener: TcpListener,
    poll: Poll,
    events: Events,
    connections: Connections,
}

impl Model for PageServer {
    ghost use Rattle.std.specs.Prelude.{◌≤◌, List, length};
    ghost use Rattle.page_server.specs.Held.{Held, max_connections};

    ghost Value = { List Held };

    ghost view = { λ s. s.connections };

    ghost invariant = { λ s. length s.connections ≤ max_connections };
}

fn to_system(addr: Addr) -> SocketAddr {
    let [a, b, c, d] = addr.ip;
    SocketAddr::from((Ipv4Addr::new(a, b, c, d), addr.port))
}

/// Adds a connection, if there is room for it.
fn admit(alloc: Global, poll: &Poll, connections: &mut Connections, mut stream: TcpStream, now: u64)
    ensures { OneMayJoin now connections.old connections.new }
{
    if connections.are_full() {
        return;
    }
    let both = Interest::READABLE | Interest::WRITABLE;
    if poll.registry().register(&mut stream, CLIENT, both).is_ok() {
        let _ = connections.add(new_connection(alloc, stream, now));
    }
}

/// Accepts the waiting connections. Those for which there is no room are closed at once.
#[tactic(auto, using(crate::proofs::ArrivalLaws::none_yet))]
fn accept(
    alloc: Global,
    listener: &TcpListener,
    poll: &Poll,
    connections: &mut Connections,
    now: u64,
)
    ensures { Join now connections.old connections.new }
{
    for _ in 0..MAX_ARRIVALS {
        let Ok((stream, _)) = listener.accept() else {
            return;
        };
        admit(alloc, poll, connections, stream, now);
    }
}

impl PageServer {
    /// Listens at this address. Err is the system's refusal, or a lack of memory.
    pub fn bind<R: Net>(rt: &R, alloc: Global, at: Addr) -> io::Result<PageServer>
        ensures { IfOk result (λ server. server ≡ []) }
    {
        let mut listener = TcpListener::bind(rt, to_system(at))?;
        let poll = Poll::new(rt)?;
        poll.registry()
            .register(&mut listener, LISTENER, Interest::READABLE)?;
        Ok(PageServer {
            alloc,
            listener,
            poll,
            events: Events::with_capacity(alloc, MAX_EVENTS)?,
            connections: Connections::new(alloc),
        })
    }

    /// Waits until something can be done, at most `wait_millis` milliseconds, and does it at each connection. `now`
    /// is in milliseconds, and at most a turn old. Err is the system's refusal to wait: nothing was done then. If
    /// memory is refused, the connection that needed it is dropped. Nobody gets more time: a connection keeps the
    /// moment of its accept, and the moment at which it reached its stage.
    pub fn turn<S: PageSource>(
        &mut self,
        source: &mut S,
        now: u64,
        wait_millis: u64,
    ) -> io::Result<()>
        ensures timely { OnOk result (All (IsTimely now) self.new) }
        ensures brief { OnOk result (All (IsBrief now) self.new) }
        ensures kept { OnOk result (TurnsTo now self.old self.new) }
        ensures few { length self.new ≤ max_connections }
        ensures err { OnErr result (self.new ≡ self.old) }
    {
        let most = if self.connections.are_waiting() {
            SHORT_WAIT
        } else {
            wait_millis
        };
        let wait = Duration::from_millis(wait_millis.min(most));
        self.poll.poll(&mut self.events, Some(wait))?;
        let connections = &mut self.connections;
        accept(self.alloc, &self.listener, &self.poll, connections, now);
        self.connections.turn(self.alloc, source, now);
        Ok(())
    }
}
