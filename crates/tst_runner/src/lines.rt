//! The lines of an output list: of its names, and of their values.

ghost use Rattle.std.specs.Prelude.{◌≡◌, IfOk, List};
ghost use Rattle.script_device.specs.Devices as devices;
ghost use Rattle.script_device.specs.Running.{Stands};
ghost use Rattle.script_parser.specs.declared.tree.Item.{Item};
ghost use Rattle.tst_runner.specs.Inner.Columns.{AreColumns};
ghost use Rattle.tst_runner.specs.Lines.{IsLine, head_line};

use script_columns::{Cell, Layout, push_cell, push_head};
use script_device::{Device, Probe};
use script_parser::Item;
use std::alloc::{AllocError, Global};

/// A column of the lines of values: how it is laid out, and what it shows.
#[derive(Drop)]
pub struct Column {
    pub layout: Layout,
    pub probe: Probe,
}

/// The line of the items' names, without its end.
pub fn names_line(alloc: Global, items: &[Item]) -> Result<Vec<u8>, AllocError>
    ensures { IfOk result (λ line. line.items ≡ head_line items.now) }
{
    let mut line = Vec::from_slice(alloc, b"|")?;
    for item in items {
        push_head(&mut line, item.layout, item.variable.text.as_slice())?;
    }
    Ok(line)
}

/// The line of the columns' values now, without its end.
pub fn values_line(
    alloc: Global,
    device: &Device,
    columns: &[Column],
) -> Result<Vec<u8>, AllocError>
    requires { (d : devices.Device) × Stands device.now d
        × ((items : List Item) × AreColumns d items columns.now) }
    ensures { IfOk result (λ line. (d : devices.Device) (items : List Item) → Stands device.now d
        → AreColumns d items columns.now → IsLine d items line.items) }
{
    let mut line = Vec::from_slice(alloc, b"|")?;
    for column in columns {
        let cell = Cell {
            layout: column.layout,
            value: device.value(&column.probe),
        };
        push_cell(alloc, &mut line, cell)?;
    }
    device.values_law();
    Ok(line)
}
