//! The steps of a program with their addresses.
ghost use Rattle.std.specs.Prelude.{◌≡◌, ◌≤◌, ◌<◌, ◌+◌, ◌++◌, ℕ, List, IfOk, OnOk, length, slice_get, unwrap_or, option_map};
ghost use Rattle.vm_link.specs.declared.linked.LinkedFunction.{LinkedFunction};
ghost use Rattle.vm_translator.specs.Places.{address, code_at, placed_code, target_of, words_in, words_of};
ghost use Rattle.vm_translator.specs.Tables.{IsLayout, LeadsWithin};

use crate::shapes::step_size;
use outer_world::Point;
use std::alloc::{AllocError, Global};
use vm_link::{Code, LinkedFunction, Step};

/// A step with its address, the number of its function and its control point.
#[derive(Clone, Copy)]
pub struct Placed {
    pub at: u16,
    pub function: usize,
    pub point: Point,
    pub code: Code,
}

/// All steps of a program, the place of each function's first step among them, and the address after the last step.
#[derive(Drop)]
pub struct Layout {
    pub placed: Vec<Placed>,
    pub firsts: Vec<usize>,
    pub end: u16,
}

// Adds the steps of a function, the first at this address. The address after them.
fn place_code(
    placed: &mut Vec<Placed>,
    function: usize,
    sub: u32,
    code: &[Code],
    from: u16,
) -> Result<u16, AllocError>
    requires { from + words_of code.now ≤ 32768 }
    ensures placed { OnOk result
        (placed.new.items ≡ placed.old.items ++ placed_code function sub from code.now) }
    ensures end { IfOk result (λ at. at ≡ from + words_of code.now) }
{
    let mut at = from;
    for step in code {
        placed.push(Placed {
            at,
            function,
            point: Point {
                sub,
                number: step.statement,
            },
            code: *step,
        })?;
        at += step_size(step.step) as u16;
    }
    Ok(at)
}

/// The layout of functions that begin at this address.
pub fn lay_out(alloc: Global, functions: &[LinkedFunction], base: u16) -> Result<Layout, AllocError>
    requires { base + words_in functions.now ≤ 32768 }
    ensures { IfOk result (IsLayout base functions.now) }
{
    let mut placed = Vec::new(alloc);
    let mut firsts = Vec::new(alloc);
    let mut at = base;
    for (number, function) in functions.iter().enumerate() {
        firsts.push(placed.len())?;
        at = place_code(
            &mut placed,
            number,
            function.number,
            function.code.as_slice(),
            at,
        )?;
    }
    Ok(Layout {
        placed,
        firsts,
        end: at,
    })
}

impl Layout {
    // The place of a function's first step among all steps; 0 where there is no such function.
    fn first(&self, function: usize) -> usize
        ensures { result ≡ unwrap_or (slice_get self.now.firsts.items function) 0 }
    {
        match self.firsts.get(function) {
            Some(first) => *first,
            None => 0,
        }
    }

    // The address of the step at a place among all steps, or that of the end.
    fn at(&self, index: usize) -> u16
        ensures { result ≡ unwrap_or
            (option_map (λ c. c.at) (slice_get self.now.placed.items index)) self.now.end }
    {
        match self.placed.get(index) {
            Some(placed) => placed.at,
            None => self.end,
        }
    }

    /// The address of a place in a function.
    pub fn address(&self, function: usize, place: usize) -> u16
        ensures { (base : ℕ) (fs : List LinkedFunction) → IsLayout base fs self.now
            → function < length fs → place ≤ length (code_at fs function)
            → result ≡ address base fs function place }
    {
        let first = self.first(function);
        self.at(first.saturating_add(place))
    }

    /// Where a step of a function leads; 0 where it leads nowhere.
    pub fn target(&self, function: usize, step: Step) -> u16
        ensures { (base : ℕ) (fs : List LinkedFunction) → IsLayout base fs self.now
            → LeadsWithin fs function step → result ≡ target_of base fs function step }
    {
        match step {
            Step::Goto(place) | Step::IfGoto(place) => self.address(function, place),
            Step::Call(called, _) => self.address(called, 0),
            _ => 0,
        }
    }
}
