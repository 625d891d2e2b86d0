//! What names the end of a program's code, what closes the code, and how many words the program has.
ghost use Rattle.std.specs.Prelude.{◌≡◌, ◌≤◌, ◌+◌, ◌-◌, ◌^◌, ◌<◌, ◌&&◌, not, nat_eq, length, min, unwrap_or, if◌then◌else◌};
ghost use Rattle.vm_templates.specs.Templates.{start_size};
ghost use Rattle.vm_translator.specs.Places.{words_in, words_of};
ghost use Rattle.vm_translator.specs.Shared.{used_routines, words_shared};
ghost use Rattle.vm_translator.specs.Tables.{IsFilled, code_names_end, functions_name_end, is_end, step_names_end};
ghost use Rattle.vm_translator.specs.Image.{closing_of, closing_size, image_of, names_end, shared_at};

use crate::shapes::step_size;
use vm_link::{Code, Linked, LinkedFunction, Step};
use vm_templates::{Routine, START_SIZE};

/// What stands after the functions of a program, before the routines.
#[derive(Clone, Copy)]
pub enum Closing {
    Nothing,
    /// One word 0.
    Word,
    /// An endless loop.
    Loop,
}

impl Closing {
    /// How many words it has.
    pub fn size(self) -> u16
        ensures { result ≡ closing_size self }
    {
        match self {
            Closing::Nothing => 0,
            Closing::Word => 1,
            Closing::Loop => 2,
        }
    }
}

// The number of functions that are filled after one more, whose number this is.
fn filled_with(filled: usize, number: usize, function: &LinkedFunction) -> usize
    requires { number < 2 ^ 64 - 1 }
    ensures { result ≡ (if nat_eq (length function.now.code) 0 then filled else number + 1) }
{
    if function.code.as_slice().is_empty() {
        filled
    } else {
        number + 1
    }
}

// The number of functions up to the last that has code.
fn filled(functions: &[LinkedFunction]) -> usize
    ensures { IsFilled functions.now result }
{
    let mut filled = 0;
    for (number, function) in functions.iter().enumerate() {
        filled = filled_with(filled, number, function);
    }
    filled
}

// Whether a place is at the end of the code.
fn is_end(functions: &[LinkedFunction], filled: usize, function: usize, place: usize) -> bool
    requires { filled ≤ length functions.now }
    ensures { result ≡ is_end filled functions.now function place }
{
    if function >= filled {
        return true;
    }
    function + 1 == filled && place >= functions[function].code.as_slice().len()
}

fn step_names_end(
    functions: &[LinkedFunction],
    filled: usize,
    function: usize,
    next: usize,
    step: Step,
) -> bool
    requires { filled ≤ length functions.now }
    ensures { result ≡ step_names_end filled functions.now function next step }
{
    match step {
        Step::Goto(place) | Step::IfGoto(place) => is_end(functions, filled, function, place),
        Step::Call(called, _) => {
            is_end(functions, filled, called, 0) || is_end(functions, filled, function, next)
        }
        _ => false,
    }
}

fn code_names_end(
    functions: &[LinkedFunction],
    filled: usize,
    function: usize,
    code: &[Code],
) -> bool
    requires { filled ≤ length functions.now }
    ensures { result ≡ code_names_end filled functions.now function 0 code.now }
{
    for (place, step) in code.iter().enumerate() {
        if step_names_end(functions, filled, function, place + 1, step.step) {
            return true;
        }
    }
    false
}

fn functions_name_end(functions: &[LinkedFunction], filled: usize) -> bool
    requires { filled ≤ length functions.now }
    ensures { result ≡ functions_name_end filled functions.now 0 functions.now }
{
    for (number, function) in functions.iter().enumerate() {
        if code_names_end(functions, filled, number, function.code.as_slice()) {
            return true;
        }
    }
    false
}

// The function that the start code calls; 0 where there is no start code.
pub fn start_of(linked: &Linked) -> usize
    ensures { result ≡ unwrap_or linked.now.start 0 }
{
    match linked.start {
        Some(number) => number,
        None => 0,
    }
}

// Whether the start code, where there is one, calls a function at the end of the code.
fn start_names_end(linked: &Linked, filled: usize) -> bool
    requires { filled ≤ length linked.now.functions }
    ensures { result ≡ (not linked.now.bare
        && is_end filled linked.now.functions (unwrap_or linked.now.start 0) 0) }
{
    !linked.bare && is_end(linked.functions.as_slice(), filled, start_of(linked), 0)
}

// Whether some step, or the start code, names the address of the end of the code.
#[tactic(auto, using(crate::proofs::EndLemmas::names_by))]
fn names_end(linked: &Linked) -> bool
    ensures { result ≡ names_end linked.now }
{
    let functions = linked.functions.as_slice();
    let filled = filled(functions);
    let starts = start_names_end(linked, filled);
    let steps = functions_name_end(functions, filled);
    starts || steps
}

/// What closes the code of a program that goes through these routines.
pub fn closing_of(linked: &Linked, shared: &[Routine]) -> Closing
    requires { shared.now ≡ used_routines linked.now }
    ensures { result ≡ closing_of linked.now }
{
    if linked.bare && !shared.is_empty() {
        Closing::Loop
    } else if names_end(linked) {
        Closing::Word
    } else {
        Closing::Nothing
    }
}

fn add_words(total: u64, code: &[Code]) -> u64
    ensures { result ≡ min (total + words_of code.now) (2 ^ 64 - 1) }
{
    let mut words = total;
    for step in code {
        words = words.saturating_add(step_size(step.step) as u64);
    }
    words
}

// The words before functions and theirs.
fn count(functions: &[LinkedFunction], base: u64) -> u64
    ensures { result ≡ min (base + words_in functions.now) (2 ^ 64 - 1) }
{
    let mut words = base;
    for function in functions {
        words = add_words(words, function.code.as_slice());
    }
    words
}

/// The words of the start code, which a program that keeps its opening texts has not.
pub fn base_of(bare: bool) -> u16
    ensures { result ≡ (if bare then 0 else start_size) }
{
    if bare { 0 } else { START_SIZE }
}

// The words of a program up to the routines, or 2^64 - 1 where they are more.
fn code_words(linked: &Linked, closing: Closing) -> u64
    requires { closing ≡ closing_of linked.now }
    ensures { result ≡ min (shared_at linked.now) (2 ^ 64 - 1) }
{
    let words = count(linked.functions.as_slice(), base_of(linked.bare) as u64);
    words.saturating_add(closing.size() as u64)
}

/// The words of a program, or 2^64 - 1 where they are more.
pub fn words(linked: &Linked, closing: Closing, shared: u16) -> u64
    requires closing { closing ≡ closing_of linked.now }
    requires shared { shared ≡ words_shared (used_routines linked.now) }
    ensures { result ≡ min (length (image_of linked.now)) (2 ^ 64 - 1) }
{
    code_words(linked, closing).saturating_add(shared as u64)
}
