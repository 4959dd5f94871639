//! Facts of types: an address has octets, and a port has 16 bits.

ghost use Rattle.std.specs.Prelude.{◌≤◌};
ghost use Rattle.configuration.specs.Rules.{KeepsRules};
ghost use Rattle.message_laws.specs.Addresses.{IsConfigured, IsSource};
ghost use Rattle.message_laws.specs.Datagrams.{ComesFromSource};

use crate::bodies::{address_has_four_octets, octets_fit};
use configuration::Config;
use events::{Event, What};
use sip_uri::Addr;

fn port_fits(port: u16)
    ensures { port ≤ 65535 }
{}

fn address_fits(source: &Addr)
    ensures { IsSource source.now }
{
    octets_fit(&source.ip);
    port_fits(source.port);
}

fn what_fits(what: &What)
    ensures { ComesFromSource what.now }
{
    match what {
        What::Datagram { source, .. } => address_fits(source),
        What::Due | What::Silent(_) | What::Users(_) => (),
    }
}

/// A datagram that arrives comes from an address.
pub fn event_comes_from_source(event: &Event)
    ensures { ComesFromSource event.entry.now.what }
{
    what_fits(&event.what);
}

/// A configuration that keeps the rules names an address of the server.
pub fn configuration_names_an_address(config: &Config)
    ensures { KeepsRules config.now → IsConfigured config.now }
{
    address_has_four_octets(config);
    port_fits(config.sip_port);
}
