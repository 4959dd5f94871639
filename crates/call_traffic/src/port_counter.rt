//! What counts the datagrams of the relay's ports.

ghost use Rattle.std.specs.Prelude.{◌≡◌, List, [], ◌∷◌, ◌++◌};
ghost use Rattle.call_traffic.specs.Reading.{Reading};

/// Counts the datagrams that come at the ports of the relay. Its clauses say which readings it gave, in order.
pub trait PortCounter {
    ghost readings: { Self → List Reading };

    /// How many datagrams came at this port since the server's start. The number wraps at 2^64.
    fn number(&mut self, port: u16) -> u64
        ensures { readings self.new ≡ readings self.old ++ record { port = port; count = result } ∷ [] };
}
