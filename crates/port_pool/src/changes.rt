//! Changes of the relay table, and those that lead from a call's rows to other rows.

ghost use Rattle.std.specs.Prelude.{◌≡◌, ◌==◌, ◌++◌, IfOk, OnOk, find};
ghost use Rattle.std.specs.List.{flat_map};
ghost use Rattle.std.specs.Option.{option_copied};
ghost use Rattle.port_pool.specs.Changes.{change_to};
ghost use Rattle.port_pool.specs.Pool.{hop_of, changes_of_port, ports_of};

use crate::hop::Hop;
use crate::places::Places;
use crate::relay_line::RelayLine;
use crate::relay_table::RelayTable;
use std::alloc::{AllocError, Global};

/// A change of one row of the relay table.
#[derive(Clone, Copy)]
pub enum Change {
    /// This port has this row from now on.
    Put(u16, Hop),
    /// This port has no row from now on.
    Remove(u16),
}

/// The change that gives a port this row.
fn change_to(port: u16, hop: Option<Hop>) -> Change
    ensures { result ≡ change_to port hop }
{
    match hop {
        Some(hop) => Change::Put(port, hop),
        None => Change::Remove(port),
    }
}

/// The changes that lead to the rows of these lines at each port of a call, by rising port.
pub(crate) fn changes_of(
    alloc: Global,
    places: &Places,
    table: &RelayTable,
    call: u64,
    lines: &[RelayLine],
) -> Result<Vec<Change>, AllocError>
    ensures { IfOk result (λ changes. changes.items ≡ flat_map (changes_of_port table.now lines.now) (ports_of call places.now)) }
{
    let mut changes = Vec::new(alloc);
    let entries = places.of_call(call);
    for entry in entries {
        let even = places.even_at(entry.number);
        push_change(&mut changes, table, lines, even)?;
        push_change(&mut changes, table, lines, even + 1)?;
    }
    Ok(changes)
}

fn push_change(
    changes: &mut Vec<Change>,
    table: &RelayTable,
    lines: &[RelayLine],
    port: u16,
) -> Result<(), AllocError>
    ensures { OnOk result (changes.new.items ≡ changes.old.items ++ changes_of_port table.now lines.now port) }
{
    let old = table.hop(port);
    let new = hop_of(lines, port);
    if old != new {
        changes.push(change_to(port, new))?;
    }
    Ok(())
}

fn hop_of(lines: &[RelayLine], port: u16) -> Option<Hop>
    ensures { result ≡ hop_of lines.now port }
{
    line_of(lines, port)?.hop
}

fn line_of(lines: &[RelayLine], port: u16) -> Option<&RelayLine>
    ensures { option_copied result ≡ find (λ l. l.port == port) lines.now }
{
    lines.iter().find(|line| line.port == port)
}
