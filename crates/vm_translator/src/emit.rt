//! The instructions of a program.
ghost use Rattle.std.specs.Prelude.{◌≡◌, ◌≤◌, ◌+◌, ◌++◌, ℕ, List, All, IfOk, OnOk};
ghost use Rattle.std.specs.List.{flat_map};
ghost use Rattle.vm_link.specs.declared.linked.LinkedFunction.{LinkedFunction};
ghost use Rattle.vm_link.specs.Sound.{IsSound};
ghost use Rattle.vm_translator.specs.Image.{closing, closing_code, closing_of, image_of, opening, piece, routines, shared_at};
ghost use Rattle.vm_translator.specs.Places.{base_of, end_of};
ghost use Rattle.vm_translator.specs.Shapes.{step_size};
ghost use Rattle.vm_translator.specs.Shared.{used_routines, words_shared};
ghost use Rattle.vm_translator.specs.Tables.{IsLayout, IsReady};

use crate::blocks::{endless, put, start_code, template};
use crate::ends::{Closing, start_of};
use crate::layout::{Layout, Placed};
use crate::shapes::shape_of;
use crate::shared::{add_shared, routines};
use hack_isa::Instr;
use std::alloc::{AllocError, Global};
use vm_link::Linked;
use vm_templates::{Routine, Routines};

fn add_step(
    out: &mut Vec<Instr>,
    at: Routines,
    layout: &Layout,
    placed: &Placed,
) -> Result<(), AllocError>
    requires { placed.now.at + step_size placed.now.code.step ≤ 32768 }
    ensures { OnOk result ((base : ℕ) (fs : List LinkedFunction) → IsLayout base fs layout.now
        → IsReady fs placed.now → out.new.items ≡ out.old.items ++ piece at base fs placed.now) }
{
    let to = layout.target(placed.function, placed.code.step);
    let shape = shape_of(to, placed.code.step);
    template(out, at, placed.at, shape)
}

fn add_steps(
    out: &mut Vec<Instr>,
    at: Routines,
    linked: &Linked,
    layout: &Layout,
) -> Result<(), AllocError>
    requires layout { IsLayout (base_of linked.now) linked.now.functions layout.now }
    requires ready { All (IsReady linked.now.functions) layout.now.placed.items }
    ensures { OnOk result (out.new.items ≡ out.old.items
        ++ flat_map (piece at (base_of linked.now) linked.now.functions) layout.now.placed.items) }
{
    for placed in &layout.placed {
        add_step(out, at, layout, placed)?;
    }
    Ok(())
}

fn add_opening(
    out: &mut Vec<Instr>,
    at: Routines,
    linked: &Linked,
    layout: &Layout,
) -> Result<(), AllocError>
    requires layout { IsLayout (base_of linked.now) linked.now.functions layout.now }
    requires sound { IsSound linked.now }
    requires at { at ≡ routines linked.now }
    ensures { OnOk result (out.new.items ≡ out.old.items ++ opening linked.now) }
{
    if linked.bare {
        return Ok(());
    }
    let entry = layout.address(start_of(linked), 0);
    start_code(out, at, entry)
}

// What closes the code, at the address after it.
fn add_closing(out: &mut Vec<Instr>, closing: Closing, end: u16) -> Result<(), AllocError>
    ensures { OnOk result (out.new.items ≡ out.old.items ++ closing_code end closing) }
{
    match closing {
        Closing::Nothing => Ok(()),
        Closing::Word => put(out, &[Instr::Address(0)]),
        Closing::Loop => endless(out, end),
    }
}

/// The instructions of a program, what closes them, and the routines.
pub fn instrs(
    alloc: Global,
    linked: &Linked,
    layout: &Layout,
    closing: Closing,
    shared: &[Routine],
    from: u16,
) -> Result<Vec<Instr>, AllocError>
    requires layout { IsLayout (base_of linked.now) linked.now.functions layout.now }
    requires sound { IsSound linked.now }
    requires ready { All (IsReady linked.now.functions) layout.now.placed.items }
    requires closing { closing ≡ closing_of linked.now }
    requires used { shared.now ≡ used_routines linked.now }
    requires from { from ≡ shared_at linked.now }
    requires fits { from + words_shared shared.now ≤ 32768 }
    ensures { IfOk result (λ v. v.items ≡ image_of linked.now) }
{
    let at = routines(shared, from);
    let mut out = Vec::new(alloc);
    add_opening(&mut out, at, linked, layout)?;
    add_steps(&mut out, at, linked, layout)?;
    add_closing(&mut out, closing, layout.end)?;
    add_shared(&mut out, shared, from)?;
    Ok(out)
}
