//! Parts of chips as constant tables: a row for each part, with its connections in the words of a text.
ghost use Rattle.std.specs.Prelude.{◌≡◌, ◌++◌, ◌∷◌, [], map, IfOk};
ghost use Rattle.chip_basic.specs.Tables.{connection_of, part_of};

use crate::hdl::{Joint, add_part, bit_wire, bits_wire, constant, wire, wire_bit, wire_bits};
use hdl_tree::{List, Part};
use std::alloc::{AllocError, Global};

/// A connection as a table has it.
#[derive(Clone, Copy)]
pub enum Link<'a> {
    /// `pin=net`
    Wire(&'a [u8], &'a [u8]),
    /// `pin=net[bit]`
    WireBit(&'a [u8], &'a [u8], u8),
    /// `pin=net[first..last]`
    WireBits(&'a [u8], &'a [u8], u8, u8),
    /// `pin[bit]=net`
    BitWire(&'a [u8], u8, &'a [u8]),
    /// `pin[first..last]=net`
    BitsWire(&'a [u8], u8, u8, &'a [u8]),
    /// `pin=true` or `pin=false`
    Constant(&'a [u8], bool),
}

/// A part as a table has it.
#[derive(Clone, Copy)]
pub struct Row<'a> {
    pub chip: &'a [u8],
    pub links: &'a [Link<'a>],
}

// The connection that stands in a table.
fn joint_of<'a>(link: Link<'a>) -> Joint<'a>
    ensures { result ≡ connection_of link.entry }
{
    match link {
        Link::Wire(pin, net) => wire(pin, net),
        Link::WireBit(pin, net, bit) => wire_bit(pin, net, bit),
        Link::WireBits(pin, net, first, last) => wire_bits(pin, net, first, last),
        Link::BitWire(pin, bit, net) => bit_wire(pin, bit, net),
        Link::BitsWire(pin, first, last, net) => bits_wire(pin, first, last, net),
        Link::Constant(pin, value) => constant(pin, value),
    }
}

fn joints_of<'a>(alloc: Global, links: &[Link<'a>]) -> Result<Vec<Joint<'a>>, AllocError>
    ensures { IfOk result (λ joints. joints.items ≡ map connection_of links.now) }
{
    let mut joints = Vec::new(alloc);
    for link in links {
        joints.push(joint_of(*link))?;
    }
    Ok(joints)
}

// The part of a row, after those that are there already.
fn add_row(alloc: Global, parts: &mut Vec<Part>, row: &Row<'_>) -> Result<(), AllocError>
    ensures { IfOk result (λ _. parts.new.items ≡ parts.old.items ++ part_of row.now ∷ []) }
{
    let joints = joints_of(alloc, row.links)?;
    add_part(alloc, parts, row.chip, &joints)
}

/// The parts of a table, in its order.
pub fn parts_of(alloc: Global, rows: &[Row<'_>]) -> Result<List<Part>, AllocError>
    ensures { IfOk result (λ parts. parts ≡ map part_of rows.now) }
{
    let mut parts = Vec::new(alloc);
    for row in rows {
        add_row(alloc, &mut parts, row)?;
    }
    Ok(List::of(parts))
}
