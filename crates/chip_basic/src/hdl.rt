//! Trees in the words of HDL texts: pins, connections and parts whose names are borrowed, and the trees that are made of them.
ghost use Rattle.std.specs.Prelude.{◌≡◌, ◌++◌, ◌∷◌, [], Some, None, IfOk};
ghost use Rattle.hdl_tree.specs.declared.tree.Subscript.TheVariants.{Bit, Bits};
ghost use Rattle.hdl_tree.specs.declared.tree.Body.TheVariants.{Parts, Builtin};
ghost use Rattle.chip_basic.specs.Hdl.{pin_named, connect, fixed_connection, part_named, chip_named, built_in, digits};
ghost use Rattle.chip_basic.specs.Inner.Joints.{the_source};

use hdl_tree::{Body, Chip, Connection, List, Name, Part, Pin, Selection, Source, Subscript};
use std::alloc::{AllocError, Global};
use std::marker::Model;

/// A pin of a chip. Contracts see the pin.
#[derive(Drop)]
pub struct Port<'a> {
    name: &'a [u8],
    width: Option<u8>,
}

impl<'a> Model for Port<'a> {
    ghost use Rattle.chip_basic.specs.Hdl.{pin_named};
    ghost use Rattle.hdl_tree.specs.declared.tree.Pin.{Pin};

    ghost Value = { Pin };

    ghost view = { λ p. pin_named p.name.now p.width };
}

/// What stands at the right side of a connection: a net with its subscript, or a constant.
#[derive(Clone, Copy)]
pub enum Origin<'a> {
    Net(&'a [u8], Option<Subscript>),
    Constant(bool),
}

/// A connection. Contracts see the connection.
#[derive(Drop)]
pub struct Joint<'a> {
    pin: &'a [u8],
    bits: Option<Subscript>,
    origin: Origin<'a>,
}

impl<'a> Model for Joint<'a> {
    ghost use Rattle.hdl_tree.specs.declared.tree.Connection.{Connection};
    ghost use Rattle.chip_basic.specs.Inner.Joints.{the_source};

    ghost Value = { Connection };

    ghost view = { λ j. record {
      pin = record { name = j.pin.now; subscript = j.bits };
      source = the_source j.origin;
    } };
}

/// A name that ends in a number below 100, as `carry7`.
pub fn numbered_name(alloc: Global, text: &[u8], number: u8) -> Result<Name, AllocError>
    ensures { IfOk result (λ name. name ≡ text.now ++ digits number) }
{
    let mut name = Vec::from_slice(alloc, text)?;
    if number < 10 {
        name.push(b'0' + number)?;
        return Ok(Name::new(name));
    }
    name.push(b'0' + number / 10)?;
    name.push(b'0' + number % 10)?;
    Ok(Name::new(name))
}

/// `name`, a pin of one bit.
pub fn pin<'a>(name: &'a [u8]) -> Port<'a>
    ensures { result ≡ pin_named name.now None }
{
    Port { name, width: None }
}

/// `name[width]`
pub fn bus<'a>(name: &'a [u8], width: u8) -> Port<'a>
    ensures { result ≡ pin_named name.now (Some width) }
{
    Port {
        name,
        width: Some(width),
    }
}

/// `pin=net`
pub fn wire<'a>(pin: &'a [u8], net: &'a [u8]) -> Joint<'a>
    ensures { result ≡ connect pin.now None net.now None }
{
    Joint {
        pin,
        bits: None,
        origin: Origin::Net(net, None),
    }
}

/// `pin=net[bit]`
pub fn wire_bit<'a>(pin: &'a [u8], net: &'a [u8], bit: u8) -> Joint<'a>
    ensures { result ≡ connect pin.now None net.now (Some (Bit bit)) }
{
    Joint {
        pin,
        bits: None,
        origin: Origin::Net(net, Some(Subscript::Bit(bit))),
    }
}

/// `pin=net[first..last]`
pub fn wire_bits<'a>(pin: &'a [u8], net: &'a [u8], first: u8, last: u8) -> Joint<'a>
    ensures { result ≡ connect pin.now None net.now (Some (Bits first last)) }
{
    Joint {
        pin,
        bits: None,
        origin: Origin::Net(net, Some(Subscript::Bits(first, last))),
    }
}

/// `pin[bit]=net`
pub fn bit_wire<'a>(pin: &'a [u8], bit: u8, net: &'a [u8]) -> Joint<'a>
    ensures { result ≡ connect pin.now (Some (Bit bit)) net.now None }
{
    Joint {
        pin,
        bits: Some(Subscript::Bit(bit)),
        origin: Origin::Net(net, None),
    }
}

/// `pin[first..last]=net`
pub fn bits_wire<'a>(pin: &'a [u8], first: u8, last: u8, net: &'a [u8]) -> Joint<'a>
    ensures { result ≡ connect pin.now (Some (Bits first last)) net.now None }
{
    Joint {
        pin,
        bits: Some(Subscript::Bits(first, last)),
        origin: Origin::Net(net, None),
    }
}

/// `pin[bit]=net[net_bit]`
pub fn bit_wire_bit<'a>(pin: &'a [u8], bit: u8, net: &'a [u8], net_bit: u8) -> Joint<'a>
    ensures { result ≡ connect pin.now (Some (Bit bit)) net.now (Some (Bit net_bit)) }
{
    Joint {
        pin,
        bits: Some(Subscript::Bit(bit)),
        origin: Origin::Net(net, Some(Subscript::Bit(net_bit))),
    }
}

/// `pin[bits.0..bits.1]=net[net_bits.0..net_bits.1]`
pub fn bits_wire_bits<'a>(
    pin: &'a [u8],
    bits: (u8, u8),
    net: &'a [u8],
    net_bits: (u8, u8),
) -> Joint<'a>
    ensures { result
        ≡ connect pin.now (Some (Bits bits.0 bits.1)) net.now (Some (Bits net_bits.0 net_bits.1)) }
{
    Joint {
        pin,
        bits: Some(Subscript::Bits(bits.0, bits.1)),
        origin: Origin::Net(net, Some(Subscript::Bits(net_bits.0, net_bits.1))),
    }
}

/// `pin=true` or `pin=false`
pub fn constant<'a>(pin: &'a [u8], value: bool) -> Joint<'a>
    ensures { result ≡ fixed_connection pin.now None value }
{
    Joint {
        pin,
        bits: None,
        origin: Origin::Constant(value),
    }
}

/// `pin[bit]=true` or `pin[bit]=false`
pub fn bit_constant<'a>(pin: &'a [u8], bit: u8, value: bool) -> Joint<'a>
    ensures { result ≡ fixed_connection pin.now (Some (Bit bit)) value }
{
    Joint {
        pin,
        bits: Some(Subscript::Bit(bit)),
        origin: Origin::Constant(value),
    }
}

fn pin_of(alloc: Global, port: &Port<'_>) -> Result<Pin, AllocError>
    ensures { IfOk result (λ pin. pin ≡ port.now) }
{
    Ok(Pin {
        name: Name::from_bytes(alloc, port.name)?,
        width: port.width,
    })
}

fn pins_of(alloc: Global, ports: &[Port<'_>]) -> Result<List<Pin>, AllocError>
    ensures { IfOk result (λ pins. pins ≡ ports.now) }
{
    let mut pins = Vec::new(alloc);
    for port in ports {
        pins.push(pin_of(alloc, port)?)?;
    }
    Ok(List::of(pins))
}

fn source_of(alloc: Global, origin: Origin<'_>) -> Result<Source, AllocError>
    ensures { IfOk result (λ source. source ≡ the_source origin.entry) }
{
    match origin {
        Origin::Net(net, subscript) => Ok(Source::Net(Selection {
            name: Name::from_bytes(alloc, net)?,
            subscript,
        })),
        Origin::Constant(value) => Ok(Source::Constant(value)),
    }
}

fn connection_of(alloc: Global, joint: &Joint<'_>) -> Result<Connection, AllocError>
    ensures { IfOk result (λ connection. connection ≡ joint.now) }
{
    let source = source_of(alloc, joint.origin)?;
    Ok(Connection {
        pin: Selection {
            name: Name::from_bytes(alloc, joint.pin)?,
            subscript: joint.bits,
        },
        source,
    })
}

fn connections_of(alloc: Global, joints: &[Joint<'_>]) -> Result<List<Connection>, AllocError>
    ensures { IfOk result (λ connections. connections ≡ joints.now) }
{
    let mut connections = Vec::new(alloc);
    for joint in joints {
        connections.push(connection_of(alloc, joint)?)?;
    }
    Ok(List::of(connections))
}

/// `chip(joints);`
pub fn part(alloc: Global, chip: &[u8], joints: &[Joint<'_>]) -> Result<Part, AllocError>
    ensures { IfOk result (λ part. part ≡ part_named chip.now joints.now) }
{
    let connections = connections_of(alloc, joints)?;
    Ok(Part {
        chip: Name::from_bytes(alloc, chip)?,
        connections,
    })
}

/// The part `chip(joints);` after those that are there already.
pub fn add_part(
    alloc: Global,
    parts: &mut Vec<Part>,
    chip: &[u8],
    joints: &[Joint<'_>],
) -> Result<(), AllocError>
    ensures { IfOk result
        (λ _. parts.new.items ≡ parts.old.items ++ part_named chip.now joints.now ∷ []) }
{
    parts.push(part(alloc, chip, joints)?)?;
    Ok(())
}

/// `CHIP name { IN inputs; OUT outputs; PARTS: parts }`
pub fn chip(
    alloc: Global,
    name: &[u8],
    inputs: &[Port<'_>],
    outputs: &[Port<'_>],
    parts: List<Part>,
) -> Result<Chip, AllocError>
    ensures { IfOk result
        (λ chip. chip ≡ chip_named name.now inputs.now outputs.now (Parts parts)) }
{
    let inputs = pins_of(alloc, inputs)?;
    let outputs = pins_of(alloc, outputs)?;
    Ok(Chip {
        name: Name::from_bytes(alloc, name)?,
        inputs,
        outputs,
        body: Body::Parts(parts),
    })
}

/// `CHIP name { IN inputs; OUT outputs; BUILTIN name; }`
pub fn builtin(
    alloc: Global,
    name: &[u8],
    inputs: &[Port<'_>],
    outputs: &[Port<'_>],
) -> Result<Chip, AllocError>
    ensures { IfOk result (λ chip. chip ≡ built_in name.now inputs.now outputs.now) }
{
    let inputs = pins_of(alloc, inputs)?;
    let outputs = pins_of(alloc, outputs)?;
    let body = Body::Builtin(Name::from_bytes(alloc, name)?, List::of(Vec::new(alloc)));
    Ok(Chip {
        name: Name::from_bytes(alloc, name)?,
        inputs,
        outputs,
        body,
    })
}
