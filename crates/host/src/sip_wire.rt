//! The socket for SIP, as the signalling has it.

ghost use Rattle.std.specs.Prelude.{◌≡◌, [], false, true, string_bytes, IfOk};
ghost use Rattle.configuration.specs.declared.level.LogLevel.TheVariants as levels;
ghost use Rattle.log_pipe.specs.Losses.{PassesOn};
ghost use Rattle.log_rules.specs.Levels.{is_up_to};

use configuration::LogLevel;
use live::{NumberLog, Wire, WireFault};
use log_pipe::LogLines;
use log_rules::logs_trouble;
use sip_uri::Addr;
use sockets::{Refusal, Refusals, SipSocket};
use std::alloc::{AllocError, Global};
use std::io::ErrorKind;

/// Passes what it is asked on to the socket. If the system refuses to send to an address, a line is logged when that
/// begins, and another when it ends.
#[derive(Drop)]
pub struct SipWire {
    alloc: Global,
    lines: LogLines,
    level: LogLevel,
    refusals: Refusals,
    pub socket: SipSocket,
    /// The room for each datagram. Only clauses read it.
    pub rooms: NumberLog,
}

/// The line for a refusal that begins.
fn begin_line(alloc: Global, refusal: Refusal) -> Result<String, AllocError> {
    let Refusal { to, why } = refusal;
    let Addr { ip, port } = to;
    let [a, b, c, d] = ip;
    format!(in alloc; "office: trouble: sending to {a}.{b}.{c}.{d}:{port} is refused: {why}\n")
}

/// The line for one that ends.
fn end_line(alloc: Global, refusal: Refusal) -> Result<String, AllocError> {
    let Addr { ip, port } = refusal.to;
    let [a, b, c, d] = ip;
    format!(in alloc; "office: trouble is over: sending to {a}.{b}.{c}.{d}:{port}\n")
}

impl SipWire {
    /// The wire of a socket at which nothing was asked for.
    pub fn new(
        alloc: Global,
        level: LogLevel,
        lines: LogLines,
        socket: SipSocket,
    ) -> Result<SipWire, AllocError>
        ensures socket { IfOk result (λ wire. wire.socket ≡ socket) }
        ensures rooms { IfOk result (λ wire. wire.rooms.entries ≡ []) }
        ensures lines { IfOk result (λ wire. wire.lines ≡ lines) }
        ensures level { IfOk result (λ wire. wire.level ≡ level) }
    {
        Ok(SipWire {
            alloc,
            lines,
            level,
            refusals: Refusals::new(alloc)?,
            socket,
            rooms: NumberLog::new(),
        })
    }

    /// Passes a line on, unless nothing is logged.
    fn put(&mut self, line: Result<String, AllocError>)
        ensures passed { is_up_to levels.Trouble self.old.level ≡ true → IfOk line (λ text. PassesOn (string_bytes text) self.old.lines self.new.lines) }
        ensures quiet { is_up_to levels.Trouble self.old.level ≡ false → self.new.lines ≡ self.old.lines }
        ensures socket { self.new.socket ≡ self.old.socket }
        ensures rooms { self.new.rooms.entries ≡ self.old.rooms.entries }
    {
        if let Ok(line) = line
            && logs_trouble(self.level)
        {
            self.lines.put(line.as_bytes());
        }
    }

    /// A datagram went to this address.
    fn tell_sent(&mut self, to: Addr)
        ensures socket { self.new.socket ≡ self.old.socket }
        ensures rooms { self.new.rooms.entries ≡ self.old.rooms.entries }
    {
        if let Some(refusal) = self.refusals.sent(to) {
            self.put(end_line(self.alloc, refusal));
        }
    }

    /// The system refused to send one there.
    fn tell_refused(&mut self, to: Addr, why: ErrorKind)
        ensures socket { self.new.socket ≡ self.old.socket }
        ensures rooms { self.new.rooms.entries ≡ self.old.rooms.entries }
    {
        if let Some(refusal) = self.refusals.refused(to, why) {
            self.put(begin_line(self.alloc, refusal));
        }
    }
}

impl Wire for SipWire {
    ghost use Rattle.std.specs.Prelude.{map};

    ghost seen = { λ s. record {
      taken = map (λ d. record { source = record { ip = d.ip; port = d.port }; bytes = d.bytes }) s.socket.taken;
      rooms = s.rooms.entries;
      tried = record {
        asked = map (λ d. record { to = record { ip = d.ip; port = d.port }; bytes = d.bytes }) s.socket.asked;
        sent = map (λ d. record { to = record { ip = d.ip; port = d.port }; bytes = d.bytes }) s.socket.sent;
      };
      waited = s.socket.waited;
      failed = s.socket.failed;
    } };

    fn receive(&mut self, buffer: &mut [u8]) -> Result<Option<(Addr, usize)>, WireFault> {
        self.rooms.note(buffer.len() as u64);
        self.socket.receive(buffer).map_err(|_| WireFault)
    }

    fn send(&mut self, to: Addr, bytes: &[u8]) -> Result<(), WireFault> {
        match self.socket.send(to, bytes) {
            Ok(()) => {
                self.tell_sent(to);
                Ok(())
            }
            Err(error) => {
                self.tell_refused(to, error.kind());
                Err(WireFault)
            }
        }
    }

    fn wait(&mut self, millis: u64) -> Result<(), WireFault> {
        self.socket.wait(millis).map_err(|_| WireFault)
    }
}
