//! The chips of a library, with tables of their names and pins.

ghost use Rattle.std.specs.Prelude.{◌≡◌, ◌<◌, List, ℕ, IfOk, OnOk, MatchOption, None, length, slice_get, ◌++◌};
ghost use Rattle.hdl_tree.specs.Chips.{find_entry};
ghost use Rattle.name_table.specs.Names.{find_value};
ghost use Rattle.name_table.specs.Tables.{table_of, Finds};
ghost use Rattle.hdl_check.specs.Faults.{ports_in, ports_of, drivers_of, drivers_by, driver_by, drivers_of_part, widths_of};
ghost use Rattle.hdl_check.specs.declared.check.Port.{Port};
ghost use Rattle.hdl_check.specs.Inner.Progress.{IsCatalog, ArePorts, IsCatalogOf, NetsFind, chips_of, numbered_entries};
ghost use Rattle.hdl_check.specs.Whole.{AreDistinct};

use crate::check::{Port, count_bits};
use hdl_tree::{Chip, Connection, Entry, Library, Memories, Part, Pin, Source};
use name_table::Table;
use std::alloc::{AllocError, Global};

/// The chips of a library.
pub struct Catalog<'a> {
    pub entries: &'a [Entry],
    /// How the shipped memories are simulated.
    pub memories: Memories,
    /// The place of each name.
    pub names: Table<'a, usize>,
    /// The pins of each chip.
    pub ports: Vec<Table<'a, Port>>,
}

// By hand, so that whoever drops one calls this.
impl Drop for Catalog<'_> {
    fn drop(self) {
        let Catalog {
            entries: _,
            memories: _,
            names: _,
            ports: _,
        } = self;
    }
}

/// Enters pins that are not there.
fn enter_ports<'a>(
    table: &mut Table<'a, Port>,
    input: bool,
    pins: &'a [Pin],
) -> Result<(), AllocError>
    ensures { IfOk result (λ _. (x : List ℕ) → find_value x (table_of table.new)
        ≡ find_value x (table_of table.old ++ ports_in input pins.now)) }
{
    let mut rest = pins;
    while let Some((pin, others)) = rest.split_first() {
        let width = pin.width.unwrap_or(1);
        table.enter(pin.name.as_bytes(), Port { input, width })?;
        rest = others;
    }
    Ok(())
}

fn port_table<'a>(alloc: Global, chip: &'a Chip) -> Result<Table<'a, Port>, AllocError>
    ensures { IfOk result (λ t. Finds t (ports_of chip.now)) }
{
    let mut table = Table::new(alloc);
    enter_ports(&mut table, true, chip.inputs.as_slice())?;
    enter_ports(&mut table, false, chip.outputs.as_slice())?;
    Ok(table)
}

/// The pins of each chip, by name.
pub fn port_tables<'a>(
    alloc: Global,
    entries: &'a [Entry],
) -> Result<Vec<Table<'a, Port>>, AllocError>
    ensures { IfOk result (λ v. ArePorts entries.now v.items) }
{
    let mut ports = Vec::new(alloc);
    for entry in entries {
        ports.push(port_table(alloc, &entry.chip)?)?;
    }
    Ok(ports)
}

fn name_table<'a>(alloc: Global, entries: &'a [Entry]) -> Result<Table<'a, usize>, AllocError>
    ensures { IfOk result (λ t. Finds t (numbered_entries 0 entries.now)) }
{
    let mut table = Table::new(alloc);
    let mut rest = entries;
    let mut k: usize = 0;
    while let Some((entry, others)) = rest.split_first() {
        table.enter(entry.name.as_bytes(), k)?;
        k += 1;
        rest = others;
    }
    Ok(table)
}

impl<'a> Catalog<'a> {
    /// The chips of a library whose names differ.
    pub fn new(
        alloc: Global,
        library: &'a Library,
        memories: Memories,
    ) -> Result<Catalog<'a>, AllocError>
        requires { AreDistinct library.now.entries }
        ensures { IfOk result (λ catalog. IsCatalogOf catalog library.now.entries memories) }
    {
        let entries = library.entries.as_slice();
        let names = name_table(alloc, entries)?;
        let ports = port_tables(alloc, entries)?;
        Ok(Catalog {
            entries,
            memories,
            names,
            ports,
        })
    }

    /// The place of the chip of this name.
    pub fn place(&self, name: &'a [u8]) -> Option<usize>
        requires { IsCatalog self.now }
        ensures { MatchOption result (find_entry self.now.entries.now name.now ≡ None)
            (λ k. (k < length self.now.entries.now)
            × (find_entry self.now.entries.now name.now ≡ slice_get self.now.entries.now k)) }
    {
        self.names.find(name)
    }
}

/// Enters the net that a connection drives.
fn enter_net<'a>(
    port: Option<Port>,
    connection: &'a Connection,
    nets: &mut Table<'a, u32>,
) -> Result<(), AllocError>
    ensures { OnOk result ((x : List ℕ) → find_value x (table_of nets.new)
        ≡ find_value x (table_of nets.old ++ widths_of (driver_by port connection.now))) }
{
    let Some(port) = port else {
        return Ok(());
    };
    if port.input {
        return Ok(());
    }
    match &connection.source {
        Source::Constant(_) => Ok(()),
        Source::Net(net) => {
            let width = count_bits(connection.pin.subscript, u32::from(port.width));
            nets.enter(net.name.as_bytes(), width)?;
            Ok(())
        }
    }
}

/// Enters the nets that connections of a part drive, the part's chip having these pins.
fn enter_nets<'a>(
    ports: &Table<'a, Port>,
    connections: &'a [Connection],
    nets: &mut Table<'a, u32>,
) -> Result<(), AllocError>
    ensures { OnOk result ((inner : List (List ℕ × Port)) (x : List ℕ)
        → Finds ports.now inner → find_value x (table_of nets.new)
        ≡ find_value x (table_of nets.old ++ widths_of (drivers_by inner connections.now))) }
{
    let mut rest = connections;
    while let Some((connection, others)) = rest.split_first() {
        let port = ports.find(connection.pin.name.as_bytes());
        enter_net(port, connection, nets)?;
        rest = others;
    }
    Ok(())
}

/// Enters the nets that a part drives.
fn enter_part<'a>(
    catalog: &Catalog<'a>,
    part: &'a Part,
    nets: &mut Table<'a, u32>,
) -> Result<(), AllocError>
    requires { IsCatalog catalog.now }
    ensures { OnOk result ((x : List ℕ) → find_value x (table_of nets.new) ≡ find_value x
        (table_of nets.old ++ widths_of (drivers_of_part (chips_of catalog.now) part.now))) }
{
    match catalog.place(part.chip.as_bytes()) {
        None => Ok(()),
        Some(k) => enter_nets(&catalog.ports[k], part.connections.as_slice(), nets),
    }
}

/// The widths of the nets that parts drive.
pub(crate) fn net_table<'a>(
    alloc: Global,
    catalog: &Catalog<'a>,
    parts: &'a [Part],
) -> Result<Table<'a, u32>, AllocError>
    requires { IsCatalog catalog.now }
    ensures { IfOk result (λ t. NetsFind t (drivers_of (chips_of catalog.now) parts.now)) }
{
    let mut nets = Table::new(alloc);
    let mut rest = parts;
    while let Some((part, others)) = rest.split_first() {
        enter_part(catalog, part, &mut nets)?;
        rest = others;
    }
    Ok(nets)
}
