//! Calls and returns. All memory is taken before a frame changes.

ghost use Rattle.std.specs.Prelude.{◌≡◌, ◌-◌, ◌<◌, ◌≤◌, IfOk, OnOk, OnErr, drop, length, map};
ghost use Rattle.jack_meaning.specs.Meaning.{new_frame, this_of};
ghost use Rattle.jack_core.specs.Texts.{the_kind, the_subroutine};
ghost use Rattle.jack_machine.specs.Frames.{the_frame, IsNext};
ghost use Rattle.jack_machine.specs.Machine.{entered_frame, IsEntered, IsReturned};

use crate::frames::Frame;
use crate::looking::{Variables, word_in};
use crate::parts::{fill, put};
use crate::texts::text_of_block;
use jack_core::{Kind, Part, Subroutine};
use std::alloc::{AllocError, Global};
use std::mem;

// `this` of a new frame: a method's object is its first argument.
fn this_in(kind: Kind, arguments: &[u16]) -> u16
    ensures { result ≡ this_of (the_kind kind) arguments.now }
{
    match kind {
        Kind::Method => word_in(arguments, 0),
        Kind::Function | Kind::Constructor => 0,
    }
}

/// The last n of these values, in order.
pub(crate) fn last_values(alloc: Global, values: &[u16], n: usize) -> Result<Vec<u16>, AllocError>
    requires { n ≤ length values.now }
    ensures { IfOk result (λ xs. xs.items ≡ drop (length values.now - n) values.now) }
{
    values[values.len() - n..].to_vec(alloc)
}

// The frame of a call.
fn enter_subroutine(
    alloc: Global,
    g: u32,
    subroutine: &Subroutine,
    arguments: Vec<u16>,
) -> Result<Frame, AllocError>
    ensures { IfOk result
        (λ f. the_frame f ≡ entered_frame g (the_subroutine subroutine.now) arguments.items) }
{
    let this = this_in(subroutine.kind, &arguments);
    let locals = vec![in alloc; 0u16; subroutine.locals as usize]?;
    let text = text_of_block(alloc, &subroutine.body)?;
    Ok(Frame {
        subroutine: g,
        variables: Variables {
            arguments,
            locals,
            this,
        },
        text,
    })
}

/// The frame of a call of the subroutine of this number.
pub(crate) fn enter(
    alloc: Global,
    subroutines: &[Subroutine],
    g: u32,
    arguments: Vec<u16>,
) -> Result<Frame, AllocError>
    requires { g < length subroutines.now }
    ensures { IfOk result
        (λ f. the_frame f ≡ new_frame (map the_subroutine subroutines.now) g arguments.items) }
{
    enter_subroutine(alloc, g, &subroutines[g as usize], arguments)
}

/// A new frame goes on top, for the call that is next in the old one, which keeps a place for its value. Where memory is
/// wanted nothing has changed.
pub(crate) fn call<'a>(
    top: &mut Frame<'a>,
    below: &mut Vec<Frame<'a>>,
    part: Part,
    entered: Frame<'a>,
) -> Result<(), AllocError>
    requires { IsNext part top.old }
    ensures done { OnOk result
        (IsEntered part top.old below.old.items entered.entry top.new below.new.items) }
    ensures refused { OnErr result (the_frame top.new ≡ the_frame top.old) }
    ensures refused_below { OnErr result (below.new.items ≡ below.old.items) }
{
    below.reserve(1)?;
    put(&mut top.text.front, part, 0)?;
    let caller = mem::replace(top, entered);
    below.push_reserved(caller);
    Ok(())
}

/// The caller is on top again, with the value in place of its open call. Without a caller nothing is done.
pub(crate) fn leave<'a>(top: &mut Frame<'a>, below: &mut Vec<Frame<'a>>, w: u16) -> bool
    ensures { IsReturned w top.old below.old.items result top.new below.new.items }
{
    match below.pop() {
        None => false,
        Some(caller) => {
            *top = caller;
            fill(&mut top.text.front, w);
            true
        }
    }
}
