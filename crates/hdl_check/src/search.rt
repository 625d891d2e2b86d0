//! The first fault of the pins and the body of a chip, and of the connections of a part.

ghost use Rattle.std.specs.Prelude.{◌≡◌, ℕ, List, ◌++◌, OnOk, IfErr, is_some, map, take};
ghost use Rattle.hdl_tree.specs.Chips.{end_of, parts_of};
ghost use Rattle.name_table.specs.Names.{names_in};
ghost use Rattle.name_table.specs.Tables.{table_of, Finds};
ghost use Rattle.hdl_check.specs.Inner.Marked.{HasMarks, MarksMore};
ghost use Rattle.hdl_check.specs.Faults.{pin_name, ports_of, pin_fault, bits_driven, drivers_of, drivers_by, connection_fault_in};
ghost use Rattle.hdl_check.specs.Locations.{IsFirstFault};
ghost use Rattle.hdl_check.specs.Inner.Progress.{chips_of, pin_fault_in, FindsFirst, SeesChip, HeadIsFine};
ghost use Rattle.hdl_check.specs.Whole.{Tells};

use crate::catalog::Catalog;
use crate::check::{Port, Scope, check_connection};
use crate::fault::{ElabFault, FaultKind, tell};
use crate::marks::Marks;
use hdl_tree::{Body, Connection, Entry, Pin, find_end};
use name_table::Table;
use std::alloc::Global;

/// Enters pins whose names are not to be there; `front` are the pins that are there.
fn enter_pins<'a>(
    alloc: Global,
    entry: &'a Entry,
    seen: &mut Table<'a, ()>,
    front: &'a [Pin],
    pins: &'a [Pin],
) -> Result<(), ElabFault>
    requires { names_in (table_of seen.old) ≡ map pin_name front.now }
    ensures fault { FindsFirst (λ k. pin_fault_in entry.now front.now pins.now k) result }
    ensures seen { OnOk result
        (names_in (table_of seen.new) ≡ map pin_name (front.now ++ pins.now)) }
{
    for pin in pins {
        let name = pin.name.as_bytes();
        if !seen.enter(name, ())? {
            return tell(alloc, FaultKind::Driven, entry.name.as_bytes(), name);
        }
    }
    Ok(())
}

/// Pins whose names stand twice.
fn check_pins<'a>(alloc: Global, entry: &'a Entry) -> Result<(), ElabFault>
    ensures { FindsFirst (pin_fault entry.now) result }
{
    let mut seen = Table::new(alloc);
    enter_pins(alloc, entry, &mut seen, &[], entry.chip.inputs.as_slice())?;
    enter_pins(
        alloc,
        entry,
        &mut seen,
        entry.chip.inputs.as_slice(),
        entry.chip.outputs.as_slice(),
    )
}

/// The connections of part i, whose chip is `inner`.
pub(crate) fn check_connections<'a>(
    alloc: Global,
    catalog: &Catalog<'a>,
    entry: &'a Entry,
    scope: Scope<'a, '_>,
    i: usize,
    inner: &'a Entry,
    ports: &Table<'a, Port>,
    connections: &'a [Connection],
    driven: &mut Marks<'a>,
) -> Result<(), ElabFault>
    requires sees { SeesChip (chips_of catalog.now) entry.now scope }
    requires ports { Finds ports.now (ports_of inner.now.chip) }
    requires driven { HasMarks driven.old (bits_driven (drivers_of (chips_of catalog.now)
        (take i (parts_of (chips_of catalog.now) entry.now)))) }
    ensures fault { FindsFirst (connection_fault_in (chips_of catalog.now) entry.now i
        (ports_of inner.now.chip) connections.now) result }
    ensures driven { OnOk result (MarksMore driven.old driven.new
        (bits_driven (drivers_by (ports_of inner.now.chip) connections.now))) }
{
    let mut fed = Marks::new(alloc);
    for connection in connections {
        check_connection(alloc, scope, ports, connection, driven, &mut fed)?;
    }
    Ok(())
}

/// Whether the chip is an end.
fn is_end(catalog: &Catalog, entry: &Entry) -> bool
    ensures { result ≡ is_some (end_of catalog.now.memories entry.now) }
{
    find_end(catalog.memories, entry).is_some()
}

/// The pins and the body of a chip, unless it is an end.
pub(crate) fn check_head<'a>(
    alloc: Global,
    catalog: &Catalog<'a>,
    entry: &'a Entry,
) -> Result<(), ElabFault>
    ensures fine { OnOk result (HeadIsFine (chips_of catalog.now) entry.now) }
    ensures fault { IfErr result (λ e. (names : List (List ℕ))
        → Tells (IsFirstFault (chips_of catalog.now) names entry.now) e) }
{
    if is_end(catalog, entry) {
        return Ok(());
    }
    check_pins(alloc, entry)?;
    match &entry.chip.body {
        Body::Builtin(name, _) => tell(
            alloc,
            FaultKind::UnknownChip,
            entry.name.as_bytes(),
            name.as_bytes(),
        ),
        Body::Parts(_) => Ok(()),
    }
}
