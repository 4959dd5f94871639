//! What a socket of the system took or sent, only for clauses: it has no bytes.

ghost use Rattle.std.specs.Prelude.{◌≡◌, List, [], ◌∷◌, ◌++◌};
ghost use Rattle.std.specs.Coded.{coded_list};
ghost use Rattle.sockets.specs.Logs.{Datagram, coded_datagram};
ghost use base.Fml.{ftrue};

use std::marker::Model;

/// Datagrams in the order in which they were noted. A caller learns nothing from this: it is for the clauses of
/// `SipSocket` and `MediaSocket`, on which code that is generic over sockets relies.
#[derive(Drop)]
pub struct Log {
    pub ghost entries: { List Datagram } by { coded_list coded_datagram },
}

impl Model for Log {
    ghost also_owns = { λ _. ftrue };
}

impl Log {
    /// Nothing was noted. Takes no memory.
    pub fn new() -> Log
        ensures { result.entries ≡ [] }
    {
        Log {}
    }

    /// A datagram at a port of the server's own, and the address and port of the other side. Takes no memory.
    pub fn note(&mut self, own: u16, ip: &[u8], port: u16, bytes: &[u8])
        ensures { self.new.entries ≡ self.old.entries ++ record { own = own; ip = ip.now; port = port; bytes = bytes.now } ∷ [] }
    {
        let _ = own;
        let _ = ip;
        let _ = port;
        let _ = bytes;
    }
}
