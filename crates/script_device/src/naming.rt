//! The nodes that a directory names.

ghost use Rattle.std.specs.Prelude.{◌≡◌, ◌++◌, IfOk, OnOk};
ghost use Rattle.std.specs.List.{flat_map};
ghost use Rattle.script_device.specs.Directory.{named_of, out_nodes};

use crate::directory::{Directory, PartNodes, PinNodes};
use std::alloc::{AllocError, Global};

fn push_pins(nodes: &mut Vec<u32>, pins: &[PinNodes]) -> Result<(), AllocError>
    ensures { OnOk result
        (nodes.new.items ≡ nodes.old.items ++ flat_map (λ pin. pin.nodes) pins.now) }
{
    for pin in pins {
        nodes.extend_from_slice(pin.nodes.as_slice())?;
    }
    Ok(())
}

fn push_out(nodes: &mut Vec<u32>, part: &PartNodes) -> Result<(), AllocError>
    ensures { OnOk result (nodes.new.items ≡ nodes.old.items ++ out_nodes part.now) }
{
    match &part.out {
        None => Ok(()),
        Some(out) => nodes.extend_from_slice(out.as_slice()),
    }
}

fn push_outs(nodes: &mut Vec<u32>, parts: &[PartNodes]) -> Result<(), AllocError>
    ensures { OnOk result (nodes.new.items ≡ nodes.old.items ++ flat_map out_nodes parts.now) }
{
    for part in parts {
        push_out(nodes, part)?;
    }
    Ok(())
}

/// The nodes of all pins, and of `out` of all parts that are there.
pub fn named_nodes(alloc: Global, directory: &Directory) -> Result<Vec<u32>, AllocError>
    ensures { IfOk result (λ v. v.items ≡ named_of directory.now) }
{
    let mut nodes = Vec::new(alloc);
    push_pins(&mut nodes, directory.inputs.as_slice())?;
    push_pins(&mut nodes, directory.outputs.as_slice())?;
    push_outs(&mut nodes, directory.parts.as_slice())?;
    Ok(nodes)
}
