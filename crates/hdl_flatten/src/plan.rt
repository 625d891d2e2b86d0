//! What is found out about each chip once: its size, what feeds its bits, and what feeds the input bits of its parts.

ghost use Rattle.std.specs.Prelude.{◌≡◌, ℕ, ◌+◌, ◌<◌, ◌≤◌, ◌++◌, [], List, OnOk, IfOk, Some, IsSome, length, map, slice_get, slice_index_or};
ghost use Rattle.hdl_tree.specs.Chips.{end_of};
ghost use Rattle.hdl_tree.specs.declared.library.Entry.{Entry};
ghost use Rattle.hdl_check.specs.Faults.{ports_of};
ghost use Rattle.name_table.specs.Tables.{Finds};
ghost use Rattle.hdl_check.specs.Inner.Progress.{IsCatalog, chips_of};
ghost use Rattle.hdl_check.specs.declared.check.Port.{Port};
ghost use Rattle.hdl_flatten.specs.Ends.{EndsHavePins};
ghost use Rattle.hdl_flatten.specs.Inner.Nests.{IsNest, IsNested};
ghost use Rattle.hdl_flatten.specs.Trees.{all_bits};
ghost use Rattle.hdl_flatten.specs.Inner.Sizes.{IsSmall};
ghost use Rattle.hdl_flatten.specs.Inner.Wired.{bit_of, wires_of, found_bit, FindsMore};
ghost use Rattle.hdl_flatten.specs.Inner.Plans.{numbered_bits, end_gates, moved_by, driven_by, all_driven, source_at, fed_by, all_fed, all_sized, parts_driven, part_entries, part_origins, own_wires, ArePartPlans, plans_at, places, AreAtHand, IsPlanned, ArePlans, FollowNest};
ghost use Rattle.hdl_flatten.specs.Inner.Feeds.{feed_origins, FewAre};
ghost use Rattle.hdl_flatten.specs.declared.wires.Origin.TheVariants.{Input, Gate};

use crate::feeds::Feeds;
use crate::nest::{Nested, entry_at, parts_in};
use crate::size::{Size, add, count_nodes, join};
use crate::wires::{Bit, Origin, Wires, bits_of_pins, origins_of};
use hdl_check::{Catalog, Port, count_bits, first_bit};
use hdl_tree::{Connection, End, Entry, Part, Source, find_end};
use name_table::Table;
use std::alloc::{AllocError, Global};

/// A part: the place of its chip, the number of nodes of the chip before it, and what feeds each of its input bits.
#[derive(Drop)]
pub(crate) struct PartPlan<'a> {
    pub place: usize,
    pub offset: u32,
    pub feeds: Feeds<'a>,
}

/// The plan of a chip.
pub(crate) struct Plan<'a> {
    pub number: usize,
    pub entry: &'a Entry,
    pub end: Option<End>,
    pub size: Size,
    pub inputs: Vec<Bit<'a>>,
    pub wires: Wires<'a>,
    /// What each output bit is.
    pub outs: Vec<Origin>,
    pub parts: Vec<PartPlan<'a>>,
}

// By hand, so that whoever drops one calls this.
impl Drop for Plan<'_> {
    fn drop(self) {
        let Plan {
            number: _,
            entry: _,
            end: _,
            size: _,
            inputs: _,
            wires: _,
            outs: _,
            parts: _,
        } = self;
    }
}

/// What an output bit of a part is in the chip around it.
fn moved(origin: Origin, offset: u32) -> Origin
    requires { offset ≤ 1000000000 }
    ensures { result ≡ moved_by offset origin }
{
    match origin {
        Origin::Gate(k) => Origin::Gate(add(offset, k)),
        Origin::Low | Origin::High | Origin::Input(_) => Origin::Low,
    }
}

/// Enters the input bits of a chip.
fn enter_inputs<'a>(wires: &mut Wires<'a>, inputs: &[Bit<'a>]) -> Result<(), AllocError>
    ensures { OnOk result (FindsMore (wires_of wires.old) (wires_of wires.new)
        (numbered_bits Input 0 (map bit_of inputs.now))) }
{
    for (k, bit) in inputs.iter().enumerate() {
        wires.enter(*bit, Origin::Input(k))?;
    }
    Ok(())
}

/// Enters the output bits of an end.
fn enter_outputs<'a>(wires: &mut Wires<'a>, outputs: &[Bit<'a>]) -> Result<(), AllocError>
    requires { length outputs.now ≤ 16 }
    ensures { OnOk result (FindsMore (wires_of wires.old) (wires_of wires.new)
        (numbered_bits Gate 0 (map bit_of outputs.now))) }
{
    for (k, bit) in outputs.iter().enumerate() {
        wires.enter(*bit, Origin::Gate(k as u32))?;
    }
    Ok(())
}

/// Enters the output bits of a chip that is an end.
fn enter_end<'a>(
    wires: &mut Wires<'a>,
    end: Option<End>,
    outputs: &[Bit<'a>],
) -> Result<(), AllocError>
    requires { IsSome end → length outputs.now ≤ 16 }
    ensures { OnOk result (FindsMore (wires_of wires.old) (wires_of wires.new)
        (end_gates end (map bit_of outputs.now))) }
{
    match end {
        None => Ok(()),
        Some(_) => enter_outputs(wires, outputs),
    }
}

/// Enters the bits that a connection of a part drives.
fn drive<'a>(
    wires: &mut Wires<'a>,
    inner: &Wires<'a>,
    offset: u32,
    port: Option<Port>,
    connection: &'a Connection,
) -> Result<(), AllocError>
    requires { offset ≤ 1000000000 }
    ensures { OnOk result (FindsMore (wires_of wires.old) (wires_of wires.new)
        (driven_by (wires_of inner.now) offset port connection.now)) }
{
    let Some(port) = port else {
        return Ok(());
    };
    if port.input {
        return Ok(());
    }
    match &connection.source {
        Source::Constant(_) => Ok(()),
        Source::Net(net) => {
            let pin = connection.pin.name.as_bytes();
            let name = net.name.as_bytes();
            let from = first_bit(connection.pin.subscript);
            let to = first_bit(net.subscript);
            let n = count_bits(connection.pin.subscript, u32::from(port.width));
            for k in 0..n {
                let bit = from + k;
                let origin = inner.origin(Bit { name: pin, bit });
                let bit = to + k;
                wires.enter(Bit { name, bit }, moved(origin, offset))?;
            }
            Ok(())
        }
    }
}

/// Enters the bits that connections of a part drive.
fn drive_all<'a>(
    wires: &mut Wires<'a>,
    inner: &Wires<'a>,
    offset: u32,
    ports: &Table<'a, Port>,
    connections: &'a [Connection],
) -> Result<(), AllocError>
    requires { offset ≤ 1000000000 }
    ensures { OnOk result
        ((list : List (List ℕ × Port)) → Finds ports.now list → FindsMore (wires_of wires.old)
        (wires_of wires.new) (all_driven (wires_of inner.now) offset list connections.now)) }
{
    let mut rest = connections;
    while let Some((connection, others)) = rest.split_first() {
        let port = ports.find(connection.pin.name.as_bytes());
        drive(wires, inner, offset, port, connection)?;
        rest = others;
    }
    Ok(())
}

/// What bit k of the right side of a connection is.
fn source_origin<'a>(wires: &Wires<'a>, source: &'a Source, k: u32) -> Origin
    requires { k < 257 }
    ensures { result ≡ source_at (wires_of wires.now) source.now k }
{
    match source {
        Source::Constant(true) => Origin::High,
        Source::Constant(false) => Origin::Low,
        Source::Net(net) => {
            let bit = first_bit(net.subscript) + k;
            wires.origin(Bit {
                name: net.name.as_bytes(),
                bit,
            })
        }
    }
}

/// Enters what a connection feeds to the input bits of a part.
fn feed<'a>(
    fed: &mut Wires<'a>,
    wires: &Wires<'a>,
    port: Option<Port>,
    connection: &'a Connection,
) -> Result<(), AllocError>
    ensures { OnOk result (FindsMore (wires_of fed.old) (wires_of fed.new)
        (fed_by (wires_of wires.now) port connection.now)) }
{
    let Some(port) = port else {
        return Ok(());
    };
    if !port.input {
        return Ok(());
    }
    let name = connection.pin.name.as_bytes();
    let from = first_bit(connection.pin.subscript);
    let n = count_bits(connection.pin.subscript, u32::from(port.width));
    for k in 0..n {
        let bit = from + k;
        let origin = source_origin(wires, &connection.source, k);
        fed.enter(Bit { name, bit }, origin)?;
    }
    Ok(())
}

/// What connections of a part feed to its input bits.
fn feed_all<'a>(
    alloc: Global,
    wires: &Wires<'a>,
    ports: &Table<'a, Port>,
    connections: &'a [Connection],
) -> Result<Wires<'a>, AllocError>
    ensures { IfOk result (λ fed. (list : List (List ℕ × Port)) → Finds ports.now list
        → FindsMore [] (wires_of fed) (all_fed (wires_of wires.now) list connections.now)) }
{
    let mut fed = Wires::new(alloc);
    let mut rest = connections;
    while let Some((connection, others)) = rest.split_first() {
        let port = ports.find(connection.pin.name.as_bytes());
        feed(&mut fed, wires, port, connection)?;
        rest = others;
    }
    Ok(fed)
}

/// The pins of chip k of the library.
fn ports_at<'a, 'b>(catalog: &'b Catalog<'a>, k: usize) -> &'b Table<'a, Port>
    requires catalog { IsCatalog catalog.now }
    requires there { k < length catalog.now.entries.now }
    ensures { (entry : Entry) → slice_get catalog.now.entries.now k ≡ Some entry
        → Finds result.now (ports_of entry.chip) }
{
    &catalog.ports[k]
}

/// The size of a chip whose parts' chips have these places, its own size being given.
fn size_with(plans: &[Plan], rs: &[usize], own: Size) -> Size
    requires small { IsSmall own }
    requires within { (k d : ℕ) → k < length rs.now → slice_index_or rs.now k d < length plans.now }
    ensures { result ≡ all_sized own (plans_at plans.now rs.now) }
{
    let mut size = own;
    let mut rest = rs;
    while let Some((place, others)) = rest.split_first() {
        size = join(size, plans[*place].size);
        rest = others;
    }
    size
}

/// Enters the bits that the parts of a chip drive; the plans of their chips are at these places.
fn wire_parts<'a>(
    catalog: &Catalog<'a>,
    plans: &[Plan<'a>],
    rs: &[usize],
    own: Size,
    parts: &'a [Part],
    wires: &mut Wires<'a>,
) -> Result<(), AllocError>
    requires catalog { IsCatalog catalog.now }
    requires small { IsSmall own }
    requires plans { AreAtHand (chips_of catalog.now) plans.now rs.now }
    ensures { OnOk result (FindsMore (wires_of wires.old) (wires_of wires.new)
        (parts_driven own parts.now (plans_at plans.now rs.now))) }
{
    let mut size = own;
    let mut rest = parts;
    let mut behind = rs;
    while let Some((part, others)) = rest.split_first() {
        let Some((place, after)) = behind.split_first() else {
            return Ok(());
        };
        let inner = &plans[*place];
        drive_all(
            wires,
            &inner.wires,
            size.nodes,
            ports_at(catalog, inner.number),
            part.connections.as_slice(),
        )?;
        size = join(size, inner.size);
        rest = others;
        behind = after;
    }
    Ok(())
}

/// The plan of a part whose chip has this plan.
fn plan_part<'a>(
    alloc: Global,
    catalog: &Catalog<'a>,
    inner: &Plan<'a>,
    place: usize,
    offset: u32,
    part: &'a Part,
    wires: &Wires<'a>,
) -> Result<PartPlan<'a>, AllocError>
    requires catalog { IsCatalog catalog.now }
    requires there { slice_get catalog.now.entries.now inner.now.number ≡ Some inner.now.entry.now }
    requires inputs { map bit_of inner.now.inputs.items ≡ all_bits inner.now.entry.now.chip.inputs }
    ensures place { IfOk result (λ q. q.place ≡ place) }
    ensures offset { IfOk result (λ q. q.offset ≡ offset) }
    ensures origins { IfOk result
        (λ q. feed_origins q.feeds ≡ part_origins (wires_of wires.now) part.now inner.now) }
    ensures few { IfOk result (λ q. FewAre q.feeds (map bit_of inner.now.inputs.items)
        (part_entries (wires_of wires.now) part.now inner.now)) }
{
    let ports = ports_at(catalog, inner.number);
    let fed = feed_all(alloc, wires, ports, part.connections.as_slice())?;
    let pins = inner.entry.chip.inputs.as_slice();
    let feeds = Feeds::of(alloc, fed, pins, &inner.inputs)?;
    Ok(PartPlan {
        place,
        offset,
        feeds,
    })
}

/// The plans of the parts of a chip whose wires are known.
fn plan_parts<'a>(
    alloc: Global,
    catalog: &Catalog<'a>,
    plans: &[Plan<'a>],
    rs: &[usize],
    own: Size,
    parts: &'a [Part],
    wires: &Wires<'a>,
) -> Result<Vec<PartPlan<'a>>, AllocError>
    requires catalog { IsCatalog catalog.now }
    requires small { IsSmall own }
    requires plans { AreAtHand (chips_of catalog.now) plans.now rs.now }
    requires long { length rs.now ≡ length parts.now }
    ensures parts { IfOk result
        (λ v. ArePartPlans (wires_of wires.now) own parts.now (plans_at plans.now rs.now) v.items) }
    ensures places { IfOk result (λ v. places v.items ≡ rs.now) }
{
    let mut planned = Vec::new(alloc);
    let mut size = own;
    let mut rest = parts;
    let mut behind = rs;
    while let Some((part, others)) = rest.split_first() {
        let Some((place, after)) = behind.split_first() else {
            unreachable!()
        };
        let inner = &plans[*place];
        planned.push(plan_part(alloc, catalog, inner, *place, size.nodes, part, wires)?)?;
        size = join(size, inner.size);
        rest = others;
        behind = after;
    }
    Ok(planned)
}

/// The wires of a chip; the plans of its parts' chips are at these places.
fn wires_in<'a>(
    alloc: Global,
    catalog: &Catalog<'a>,
    plans: &[Plan<'a>],
    rs: &[usize],
    entry: &'a Entry,
    inputs: &[Bit<'a>],
    outputs: &[Bit<'a>],
) -> Result<Wires<'a>, AllocError>
    requires catalog { IsCatalog catalog.now }
    requires plans { AreAtHand (chips_of catalog.now) plans.now rs.now }
    requires inputs { map bit_of inputs.now ≡ all_bits entry.now.chip.inputs }
    requires outputs { map bit_of outputs.now ≡ all_bits entry.now.chip.outputs }
    requires few { IsSome (end_of catalog.now.memories entry.now) → length outputs.now ≤ 16 }
    ensures { IfOk result
        (λ w. (name : List ℕ) (bit : ℕ) → found_bit name bit (wires_of w) ≡ found_bit name bit
        (own_wires (chips_of catalog.now) entry.now (plans_at plans.now rs.now))) }
{
    let end = find_end(catalog.memories, entry);
    let own = Size {
        nodes: count_nodes(end),
        parts: 0,
    };
    let mut wires = Wires::new(alloc);
    enter_inputs(&mut wires, inputs)?;
    enter_end(&mut wires, end, outputs)?;
    wire_parts(
        catalog,
        plans,
        rs,
        own,
        parts_in(catalog, entry),
        &mut wires,
    )?;
    Ok(wires)
}

/// The plan of a chip, where those of its parts' chips are there.
fn plan_chip<'a>(
    alloc: Global,
    catalog: &Catalog<'a>,
    nest: &[Nested],
    plans: &[Plan<'a>],
    nested: &Nested,
) -> Result<Plan<'a>, AllocError>
    requires catalog { IsCatalog catalog.now }
    requires ends { EndsHavePins (chips_of catalog.now) }
    requires nested { IsNested (chips_of catalog.now) nest.now (length plans.now) nested.now }
    requires plans { FollowNest nest.now plans.now }
    requires planned { ArePlans (chips_of catalog.now) plans.now }
    ensures plan { IfOk result (IsPlanned (chips_of catalog.now) plans.now (length plans.now)) }
    ensures number { IfOk result (λ plan. plan.number ≡ nested.now.number) }
{
    let entry = entry_at(catalog, nested.number);
    let end = find_end(catalog.memories, entry);
    let own = Size {
        nodes: count_nodes(end),
        parts: 0,
    };
    let inputs = bits_of_pins(alloc, entry.chip.inputs.as_slice())?;
    let outputs = bits_of_pins(alloc, entry.chip.outputs.as_slice())?;
    let wires = wires_in(
        alloc,
        catalog,
        plans,
        &nested.parts,
        entry,
        &inputs,
        &outputs,
    )?;
    let parts = plan_parts(
        alloc,
        catalog,
        plans,
        &nested.parts,
        own,
        parts_in(catalog, entry),
        &wires,
    )?;
    let outs = origins_of(alloc, &wires, &outputs)?;
    Ok(Plan {
        number: nested.number,
        entry,
        end,
        size: size_with(plans, &nested.parts, own),
        inputs,
        wires,
        outs,
        parts,
    })
}

/// The plans of the chips of a tree.
pub(crate) fn plans_of<'a>(
    alloc: Global,
    catalog: &Catalog<'a>,
    nest: &[Nested],
) -> Result<Vec<Plan<'a>>, AllocError>
    requires catalog { IsCatalog catalog.now }
    requires ends { EndsHavePins (chips_of catalog.now) }
    requires nest { IsNest (chips_of catalog.now) nest.now }
    ensures plans { IfOk result (λ v. ArePlans (chips_of catalog.now) v.items) }
    ensures follow { IfOk result (λ v. FollowNest nest.now v.items) }
    ensures long { IfOk result (λ v. length v.items ≡ length nest.now) }
{
    let mut plans = Vec::new(alloc);
    for nested in nest {
        let plan = plan_chip(alloc, catalog, nest, &plans, nested)?;
        plans.push(plan)?;
    }
    Ok(plans)
}
