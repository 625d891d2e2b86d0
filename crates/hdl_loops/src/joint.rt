//! Which bits around a part its connections join to which bits of its pins.

ghost use Rattle.std.specs.Prelude.{◌≡◌, ◌++◌, ◌∷◌, [], ◌<◌, OnOk, IfOk};
ghost use Rattle.hdl_tree.specs.declared.library.Entry.{Entry};
ghost use Rattle.hdl_tree.specs.Behaviour.{width_of};
ghost use Rattle.name_table.specs.Tables.{Finds};
ghost use Rattle.hdl_check.specs.Faults.{ports_of};
ghost use Rattle.hdl_plans.specs.Plans.{is_input};
ghost use Rattle.hdl_loops.specs.Inner.Ties.{ties_of, tie, ties_below, ties_in, gather};

use crate::hops::BitOf;
use hdl_check::{Port, count_bits, first_bit};
use hdl_tree::{Connection, Part, Selection, Source};
use name_table::Table;
use std::alloc::{AllocError, Global};

/// A bit of a net or pin that is joined to a bit of a pin of a part, an input or none.
#[derive(Clone, Copy)]
pub struct Joint<'a> {
    pub input: bool,
    pub net: BitOf<'a>,
    pub pin: BitOf<'a>,
}

/// Adds bit k of a connection.
fn join_bit<'a>(
    pin: &'a Selection,
    net: &'a Selection,
    input: bool,
    k: u32,
    joints: &mut Vec<Joint<'a>>,
) -> Result<(), AllocError>
    requires { k < 1024 }
    ensures { OnOk result
        (ties_of joints.new.items ≡ ties_of joints.old.items ++ tie pin.now net.now input k ∷ []) }
{
    let joint = Joint {
        input,
        net: BitOf {
            name: net.name.as_bytes(),
            bit: first_bit(net.subscript) + k,
        },
        pin: BitOf {
            name: pin.name.as_bytes(),
            bit: first_bit(pin.subscript) + k,
        },
    };
    joints.push(joint)?;
    Ok(())
}

/// Adds the first n bits of a connection.
fn join_bits<'a>(
    pin: &'a Selection,
    net: &'a Selection,
    input: bool,
    n: u32,
    joints: &mut Vec<Joint<'a>>,
) -> Result<(), AllocError>
    requires { n < 1024 }
    ensures { OnOk result (ties_of joints.new.items
        ≡ ties_of joints.old.items ++ ties_below pin.now net.now input n) }
{
    for k in 0..n {
        join_bit(pin, net, input, k, joints)?;
    }
    Ok(())
}

/// The pin of this name; where there is none, an output of no bits.
fn pin_at<'a>(pins: &Table<'a, Port>, name: &'a [u8]) -> Port
    ensures way { (inner : Entry) → Finds pins.now (ports_of inner.chip)
        → result.input ≡ is_input inner name.now }
    ensures wide { (inner : Entry) → Finds pins.now (ports_of inner.chip)
        → result.width ≡ width_of inner name.now }
{
    match pins.find(name) {
        Some(pin) => pin,
        None => Port {
            input: false,
            width: 0,
        },
    }
}

/// Adds a connection of a part whose chip has these pins.
fn join_connection<'a>(
    pins: &Table<'a, Port>,
    connection: &'a Connection,
    joints: &mut Vec<Joint<'a>>,
) -> Result<(), AllocError>
    ensures { OnOk result ((inner : Entry) → Finds pins.now (ports_of inner.chip)
        → ties_of joints.new.items ≡ ties_of joints.old.items ++ ties_in inner connection.now) }
{
    match &connection.source {
        Source::Constant(_) => Ok(()),
        Source::Net(net) => {
            let pin = &connection.pin;
            let port = pin_at(pins, pin.name.as_bytes());
            let n = count_bits(pin.subscript, u32::from(port.width));
            join_bits(pin, net, port.input, n, joints)
        }
    }
}

/// What the connections of a part join, its chip having these pins.
pub(crate) fn joints_of<'a>(
    alloc: Global,
    pins: &Table<'a, Port>,
    part: &'a Part,
) -> Result<Vec<Joint<'a>>, AllocError>
    ensures { IfOk result (λ v. (inner : Entry) → Finds pins.now (ports_of inner.chip)
        → ties_of v.items ≡ gather (ties_in inner) part.now.connections) }
{
    let mut joints = Vec::new(alloc);
    for connection in part.connections.as_slice() {
        join_connection(pins, connection, &mut joints)?;
    }
    Ok(joints)
}
