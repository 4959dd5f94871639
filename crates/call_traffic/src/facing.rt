//! Which ports of the relay face which end of a call.

ghost use Rattle.std.specs.Prelude.{◌≡◌, [], ◌∷◌, ◌++◌, IfOk, OnOk};
ghost use Rattle.std.specs.List.{AllZip};
ghost use Rattle.call_traffic.specs.Facing.{port_facing, ports_facing, ports_of, ports_of_session};
ghost use Rattle.call_traffic.specs.Readings.{port_readings};
ghost use Rattle.call_traffic.specs.RelayPorts.{IsJustGot};

use crate::port_counter::PortCounter;
use crate::relay_port::RelayPort;
use call_core::Call;
use call_media::{End, Seat, Session, seats_in_use};
use std::alloc::{AllocError, Global};

/// The port of a medium to which this end sends.
fn port_facing(end: End, offerer: End, seat: Seat) -> u16
    ensures { result ≡ port_facing end offerer seat }
{
    match (end, offerer) {
        (End::Caller, End::Caller) | (End::Callee, End::Callee) => seat.offerer,
        (End::Caller, End::Callee) | (End::Callee, End::Caller) => seat.answerer,
    }
}

fn push_port(
    ports: &mut Vec<u16>,
    end: End,
    offerer: End,
    seat: Option<Seat>,
) -> Result<(), AllocError>
    ensures { OnOk result (ports.new.items ≡ ports.old.items ++ ports_facing end offerer (seat ∷ [])) }
{
    if let Some(seat) = seat {
        ports.push(port_facing(end, offerer, seat))?;
    }
    Ok(())
}

fn push_ports(
    ports: &mut Vec<u16>,
    end: End,
    offerer: End,
    seats: &[Option<Seat>],
) -> Result<(), AllocError>
    ensures { OnOk result (ports.new.items ≡ ports.old.items ++ ports_facing end offerer seats.now) }
{
    for seat in seats {
        push_port(ports, end, offerer, *seat)?;
    }
    Ok(())
}

fn push_of_session(
    ports: &mut Vec<u16>,
    alloc: Global,
    end: End,
    session: &Session,
) -> Result<(), AllocError>
    ensures { OnOk result (ports.new.items ≡ ports.old.items ++ ports_of_session end session.now) }
{
    let seats = seats_in_use(
        alloc,
        session.offer_taken.get(),
        session.answer_sent.get(),
        session.offer_sent.get(),
        session.answer_taken.get(),
    )?;
    push_ports(ports, end, session.offerer, &seats)
}

/// The even ports of the relay to which this end of the call sends RTP, those of an open offer first. A port may
/// occur twice.
fn ports_of(alloc: Global, end: End, call: &Call) -> Result<Vec<u16>, AllocError>
    ensures { IfOk result (λ ports. ports.items ≡ ports_of end call.now) }
{
    let mut ports = Vec::new(alloc);
    if let Some(offer) = call.open_offer() {
        push_ports(&mut ports, end, offer.offerer, offer.seats.as_slice())?;
    }
    if let Some(session) = call.session() {
        push_of_session(&mut ports, alloc, end, session)?;
    }
    Ok(ports)
}

/// The ports to which this end of the call sends, as it gets them now.
pub(crate) fn ports_by_now<C: PortCounter>(
    alloc: Global,
    counter: &mut C,
    end: End,
    call: &Call,
) -> Result<Vec<RelayPort>, AllocError>
    ensures ports { IfOk result (λ ports. AllZip IsJustGot (ports_of end call.now) ports.items) }
    ensures told { IfOk result (λ ports. C.readings counter.new ≡ C.readings counter.old ++ port_readings ports.items) }
{
    let numbers = ports_of(alloc, end, call)?;
    let mut ports = Vec::with_capacity(alloc, numbers.len())?;
    for number in &numbers {
        ports.push(RelayPort::first(*number, counter))?;
    }
    Ok(ports)
}
