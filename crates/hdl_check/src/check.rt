//! What is wrong with one connection.

ghost use Rattle.std.specs.Prelude.{◌≡◌, ℕ, ◌<◌, List, IsTrue, OnOk, Some, false};
ghost use Rattle.hdl_tree.specs.Chips.{first, is_past};
ghost use Rattle.hdl_tree.specs.Chips.{count as count_of};
ghost use Rattle.name_table.specs.Names.{find_value};
ghost use Rattle.hdl_check.specs.Tables.{BitOf, some_in};
ghost use Rattle.name_table.specs.Tables.{table_of, Finds};
ghost use Rattle.hdl_check.specs.Inner.Marked.{HasMarks, MarksMore};
ghost use Rattle.hdl_check.specs.Inner.Checked.{Checks};
ghost use Rattle.hdl_check.specs.Faults.{Context, right_side_of, feeding_fault, driving_fault, is_wide, is_output, is_undrivable, is_undriven, fed_by, driver_by, bits_driven, connection_fault, wiring_fault, width_fault, driven_fault, undriven_fault};
ghost use Rattle.hdl_check.specs.Faults.{source_name as name_of_source, source_subscript as subscript_of_source};
ghost use Rattle.hdl_check.specs.Inner.Seen.{SeesScope};
ghost use Rattle.hdl_check.specs.declared.check.Port.{Port};

use crate::fault::{ElabFault, FaultKind, tell};
use crate::marks::Marks;
use hdl_tree::{Connection, Source, Subscript};
use name_table::Table;
use std::alloc::{AllocError, Global};

/// A pin of a chip, as an input or an output.
#[derive(Clone, Copy)]
pub struct Port {
    pub input: bool,
    pub width: u8,
}

/// What the right side of a connection is.
#[derive(Clone, Copy)]
pub enum RightSide {
    Constant,
    /// A pin of the chip.
    Own(Port),
    /// An internal net, with its width if something drives it.
    Net(Option<u32>),
}

/// What is known of a chip's text round its connections.
#[derive(Clone, Copy)]
pub(crate) struct Scope<'a, 'b> {
    pub chip: &'a [u8],
    pub own: &'b Table<'a, Port>,
    pub nets: &'b Table<'a, u32>,
}

/// The first bit that is taken.
pub fn first_bit(subscript: Option<Subscript>) -> u32
    ensures value { result ≡ first subscript }
    ensures small { result < 256 }
{
    match subscript {
        None => 0,
        Some(Subscript::Bit(k)) => u32::from(k),
        Some(Subscript::Bits(a, _)) => u32::from(a),
    }
}

/// How many bits are taken of this many.
pub fn count_bits(subscript: Option<Subscript>, width: u32) -> u32
    requires { width < 257 }
    ensures value { result ≡ count_of subscript width }
    ensures small { result < 257 }
{
    match subscript {
        None => width,
        Some(Subscript::Bit(_)) => 1,
        Some(Subscript::Bits(a, b)) => (u32::from(b) + 1).saturating_sub(u32::from(a)),
    }
}

/// Whether the last bit that is taken lies past the width.
pub(crate) fn lies_past(subscript: Option<Subscript>, width: u32) -> bool
    ensures { result ≡ is_past subscript width }
{
    match subscript {
        None => false,
        Some(Subscript::Bit(k)) => width <= u32::from(k),
        Some(Subscript::Bits(_, b)) => width <= u32::from(b),
    }
}

/// The name of a right side.
pub(crate) fn source_name<'a>(source: &'a Source) -> &'a [u8]
    ensures { result.now ≡ name_of_source source.now }
{
    match source {
        Source::Net(net) => net.name.as_bytes(),
        Source::Constant(true) => b"true".as_slice(),
        Source::Constant(false) => b"false".as_slice(),
    }
}

fn source_subscript(source: &Source) -> Option<Subscript>
    ensures { result ≡ subscript_of_source source.now }
{
    match source {
        Source::Net(net) => net.subscript,
        Source::Constant(_) => None,
    }
}

/// What the right side is.
fn right_side<'a>(scope: Scope<'a, '_>, source: &'a Source) -> RightSide
    ensures { (a : Context) → SeesScope scope.entry a → result ≡ right_side_of a source.now }
{
    match source {
        Source::Constant(_) => RightSide::Constant,
        Source::Net(net) => match scope.own.find(net.name.as_bytes()) {
            Some(port) => RightSide::Own(port),
            None => RightSide::Net(scope.nets.find(net.name.as_bytes())),
        },
    }
}

/// Whether the right side has another number of bits than n, or a subscript that it can't have.
fn wide(right: RightSide, source: &Source, n: u32) -> bool
    ensures { result ≡ is_wide right source.now n }
{
    let subscript = source_subscript(source);
    match right {
        RightSide::Constant => false,
        RightSide::Own(port) => {
            lies_past(subscript, u32::from(port.width))
                || count_bits(subscript, u32::from(port.width)) != n
        }
        RightSide::Net(None) => subscript.is_some(),
        RightSide::Net(Some(width)) => subscript.is_some() || width != n,
    }
}

fn output(right: RightSide) -> bool
    ensures { result ≡ is_output right }
{
    match right {
        RightSide::Own(port) => !port.input,
        _ => false,
    }
}

fn undrivable(right: RightSide) -> bool
    ensures { result ≡ is_undrivable right }
{
    match right {
        RightSide::Constant => true,
        RightSide::Own(port) => port.input,
        RightSide::Net(_) => false,
    }
}

fn undriven(right: RightSide) -> bool
    ensures { result ≡ is_undriven right }
{
    match right {
        RightSide::Net(None) => true,
        _ => false,
    }
}

fn check_width<'a>(
    alloc: Global,
    scope: Scope<'a, '_>,
    port: Port,
    connection: &'a Connection,
    right: RightSide,
) -> Result<(), ElabFault>
    ensures { Checks (width_fault scope.entry.chip.now port connection.now right) result }
{
    let pin = &connection.pin;
    if lies_past(pin.subscript, u32::from(port.width)) {
        return tell(alloc, FaultKind::Width, scope.chip, pin.name.as_bytes());
    }
    let n = count_bits(pin.subscript, u32::from(port.width));
    if wide(right, &connection.source, n) {
        return tell(
            alloc,
            FaultKind::Width,
            scope.chip,
            source_name(&connection.source),
        );
    }
    Ok(())
}

/// A part's input: whether some bit of it is fed already, and what it is fed from.
fn check_fed<'a>(
    alloc: Global,
    scope: Scope<'a, '_>,
    connection: &'a Connection,
    right: RightSide,
    twice: bool,
) -> Result<(), ElabFault>
    ensures { Checks (feeding_fault scope.entry.chip.now connection.now right twice) result }
{
    if twice {
        let pin = connection.pin.name.as_bytes();
        return tell(alloc, FaultKind::Driven, scope.chip, pin);
    }
    if output(right) {
        let name = source_name(&connection.source);
        return tell(alloc, FaultKind::Driven, scope.chip, name);
    }
    Ok(())
}

/// A part's output: where it goes, and whether some bit there is driven already.
fn check_drives<'a>(
    alloc: Global,
    scope: Scope<'a, '_>,
    connection: &'a Connection,
    right: RightSide,
    twice: bool,
) -> Result<(), ElabFault>
    ensures { Checks (driving_fault scope.entry.chip.now connection.now right twice) result }
{
    if undrivable(right) || twice {
        let name = source_name(&connection.source);
        return tell(alloc, FaultKind::Driven, scope.chip, name);
    }
    Ok(())
}

/// Whether some bit that a part's input takes is fed already.
fn fed_twice<'a>(port: Port, connection: &'a Connection, fed: &Marks<'a>) -> bool
    requires { IsTrue port.input }
    ensures { (bits : List BitOf) → HasMarks fed.now bits
        → result ≡ some_in (fed_by (Some port) connection.now) bits }
{
    let pin = &connection.pin;
    fed.has_some(
        pin.name.as_bytes(),
        first_bit(pin.subscript),
        count_bits(pin.subscript, u32::from(port.width)),
    )
}

/// Whether some bit that a part's output goes to is driven already.
fn driven_twice<'a>(port: Port, connection: &'a Connection, driven: &Marks<'a>) -> bool
    requires { port.input ≡ false }
    ensures { (bits : List BitOf) → HasMarks driven.now bits
        → result ≡ some_in (bits_driven (driver_by (Some port) connection.now)) bits }
{
    match &connection.source {
        Source::Constant(_) => false,
        Source::Net(net) => driven.has_some(
            net.name.as_bytes(),
            first_bit(net.subscript),
            count_bits(connection.pin.subscript, u32::from(port.width)),
        ),
    }
}

fn check_driven<'a>(
    alloc: Global,
    scope: Scope<'a, '_>,
    port: Port,
    connection: &'a Connection,
    right: RightSide,
    driven: &Marks<'a>,
    fed: &Marks<'a>,
) -> Result<(), ElabFault>
    ensures { (a : Context) → SeesScope scope.entry a → HasMarks driven.now a.driven
        → HasMarks fed.now a.fed → Checks (driven_fault a port connection.now right) result }
{
    if port.input {
        let twice = fed_twice(port, connection, fed);
        check_fed(alloc, scope, connection, right, twice)
    } else {
        let twice = driven_twice(port, connection, driven);
        check_drives(alloc, scope, connection, right, twice)
    }
}

fn check_undriven<'a>(
    alloc: Global,
    scope: Scope<'a, '_>,
    port: Port,
    connection: &'a Connection,
    right: RightSide,
) -> Result<(), ElabFault>
    ensures { Checks (undriven_fault scope.entry.chip.now port connection.now right) result }
{
    if port.input && undriven(right) {
        let name = source_name(&connection.source);
        return tell(alloc, FaultKind::Undriven, scope.chip, name);
    }
    Ok(())
}

fn check_wiring<'a>(
    alloc: Global,
    scope: Scope<'a, '_>,
    port: Port,
    connection: &'a Connection,
    driven: &Marks<'a>,
    fed: &Marks<'a>,
) -> Result<(), ElabFault>
    ensures { (a : Context) → SeesScope scope.entry a → HasMarks driven.now a.driven
        → HasMarks fed.now a.fed → Checks (wiring_fault a port connection.now) result }
{
    let right = right_side(scope, &connection.source);
    check_width(alloc, scope, port, connection, right)?;
    check_driven(alloc, scope, port, connection, right, driven, fed)?;
    check_undriven(alloc, scope, port, connection, right)
}

/// Marks what a connection feeds or drives.
fn note<'a>(
    port: Port,
    connection: &'a Connection,
    driven: &mut Marks<'a>,
    fed: &mut Marks<'a>,
) -> Result<(), AllocError>
    ensures fed { OnOk result (MarksMore fed.old fed.new (fed_by (Some port) connection.now)) }
    ensures driven { OnOk result
        (MarksMore driven.old driven.new (bits_driven (driver_by (Some port) connection.now))) }
{
    let pin = &connection.pin;
    let count = count_bits(pin.subscript, u32::from(port.width));
    if port.input {
        return fed.mark_all(pin.name.as_bytes(), first_bit(pin.subscript), count);
    }
    match &connection.source {
        Source::Constant(_) => Ok(()),
        Source::Net(net) => {
            driven.mark_all(net.name.as_bytes(), first_bit(net.subscript), count)
        }
    }
}

/// Checks a connection of a part whose chip has these pins, and marks what it feeds or drives.
pub(crate) fn check_connection<'a>(
    alloc: Global,
    scope: Scope<'a, '_>,
    ports: &Table<'a, Port>,
    connection: &'a Connection,
    driven: &mut Marks<'a>,
    fed: &mut Marks<'a>,
) -> Result<(), ElabFault>
    ensures checks { (a : Context) (inner : List (List ℕ × Port)) → SeesScope scope.entry a
        → Finds ports.now inner → HasMarks driven.old a.driven → HasMarks fed.old a.fed
        → Checks (connection_fault a inner connection.now) result }
    ensures fed { OnOk result (MarksMore fed.old fed.new
        (fed_by (find_value connection.now.pin.name (table_of ports.now)) connection.now)) }
    ensures driven { OnOk result (MarksMore driven.old driven.new (bits_driven
        (driver_by (find_value connection.now.pin.name (table_of ports.now)) connection.now))) }
{
    let pin = connection.pin.name.as_bytes();
    match ports.find(pin) {
        None => tell(alloc, FaultKind::UnknownPin, scope.chip, pin),
        Some(port) => {
            check_wiring(alloc, scope, port, connection, driven, fed)?;
            note(port, connection, driven, fed)?;
            Ok(())
        }
    }
}
