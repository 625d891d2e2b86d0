//! What a program shows at the four levels, where no key is ever held.
ghost use Rattle.std.specs.Prelude.{◌≡◌, ◌≤◌, ◌^◌, ◌↔◌, [], ℕ, true, false, IfOk, IsTrue};
ghost use Rattle.jack_compiler.specs.Resolved.{IsResolvedCore};
ghost use Rattle.image_map.specs.Map.{IsMapped};
ghost use Rattle.image_map.specs.declared.map.Image.{Image};
ghost use Rattle.gate_computer.specs.Followed.{HasFollowed, image_in};
ghost use Rattle.machine_io.specs.History.{moves_from};
ghost use Rattle.machine_io.specs.Reading.{ShowSame};
ghost use Rattle.tower.specs.Image.{IsImageOf};
ghost use Rattle.vm_machine.specs.Loaded.{HasTaken};
ghost use Rattle.nand_cli.specs.Commands.Soak.{IsOutcome, cycles, most_moves, word_sum};
ghost use Rattle.nand_cli.specs.Commands.SoakLevels.{AreAlike, AreLevelsAlike, IsAtJack, IsAtVm, hack_view, no_keys};
ghost use Rattle.nand_cli.specs.Inner.SoakParts.{IsBehindCommit, NeverComes, view_in};

use gate_computer::{GateComputer, prepare_gates};
use image_map::{Image, ImageMap};
use jack_core::Core;
use jack_machine::Jack;
use machine_io::{End, Keyboard, Level, Moved, drive};
use outer_world::{List, Point};
use std::alloc::{AllocError, Global};
use tower::{prepare_hack, prepare_vm};
use vm_machine::Vm;
use word16::{HEAP, KEYBOARD};

/// What is reported of a program: how many steps it made, the sum of its words to 16 bits, and whether all levels
/// agree.
#[derive(Clone, Copy)]
pub struct Outcome {
    pub steps: u32,
    pub sum: u16,
    pub agrees: bool,
}

// How many cycles a program runs for.
#[tactic(auto, unfolding(crate::specs::Commands::Soak::cycles))]
fn cycles() -> u64
    ensures value { result ≡ cycles }
    ensures few { result ≤ 300000 }
{
    300_000
}

// How many moves the virtual machine may make until it is past a commit.
#[tactic(auto, unfolding(crate::specs::Commands::Soak::most_moves))]
fn most_moves() -> u64
    ensures value { result ≡ most_moves }
    ensures few { result ≤ 2 ^ 62 }
{
    1 << 62
}

// The keyboard at which no key is held.
struct NoKeys;

impl Keyboard for NoKeys {
    ghost code = { λ _. no_keys };

    fn at(&self, _c: u64) -> u16 {
        0
    }
}

// Whether two machines show the same words of heap and screen, and the same control point.
fn show_same<A: Level<Point = Point>, B: Level<Point = Point>>(first: &A, second: &B) -> bool
    ensures { IsTrue result ↔ ShowSame (A.reading first.now) (B.reading second.now) }
{
    for address in HEAP..KEYBOARD {
        if first.word_at(address) != second.word_at(address) {
            return false;
        }
    }
    first.point() == second.point()
}

// The sum of the words of heap and screen, to 16 bits.
fn sum_of<L: Level>(level: &L) -> u16
    ensures { result ≡ word_sum (L.reading level.now).word }
{
    let mut sum = 0u16;
    for place in 0..KEYBOARD - HEAP {
        sum = sum.wrapping_add(level.word_at(HEAP + place));
    }
    sum
}

// A vector with the items of a list.
fn copied<T: Copy>(alloc: Global, list: &List<T>) -> Result<List<T>, AllocError>
    ensures { IfOk result (λ copy. copy ≡ list.now) }
{
    Ok(List::of(Vec::from_slice(alloc, list.as_slice())?))
}

// The same image once more, since each machine takes one.
fn copy_of(alloc: Global, image: &Image) -> Result<Image, AllocError>
    ensures { IfOk result (λ copy. copy ≡ image.now) }
{
    let map = &image.map;
    Ok(Image {
        words: copied(alloc, &image.words)?,
        map: ImageMap {
            points: copied(alloc, &map.points)?,
            commits: copied(alloc, &map.commits)?,
            shared: copied(alloc, &map.shared)?,
            entries: copied(alloc, &map.entries)?,
            statics: copied(alloc, &map.statics)?,
        },
    })
}

// The computer made of gates with an image, after its cycles.
fn gates_after(alloc: Global, image: Image) -> Result<GateComputer, AllocError>
    requires { IsMapped image }
    ensures image { IfOk result (λ gates. image_in gates ≡ image) }
    ensures followed { IfOk result (λ gates. HasFollowed gates (moves_from no_keys 0 cycles)) }
    ensures few { IfOk result (λ gates. gates.tally.steps ≤ 300000) }
{
    let mut gates = prepare_gates(alloc, image, false)?;
    drive(&mut gates, &NoKeys, cycles())?;
    Ok(gates)
}

// Whether the instruction machine shows the same after as many cycles.
fn is_at_hack(alloc: Global, gates: &GateComputer, image: Image) -> Result<bool, AllocError>
    requires { IsMapped image }
    ensures { IfOk result (λ same. IsTrue same ↔ AreAlike (view_in gates.now)
        (hack_view image cycles)) }
{
    let mut hack = prepare_hack(alloc, image)?;
    drive(&mut hack, &NoKeys, cycles())?;
    Ok(show_same(gates, &hack))
}

// Whether the program's meaning shows the same after m steps.
fn is_at_jack(alloc: Global, gates: &GateComputer, core: &Core, m: u32) -> Result<bool, AllocError>
    requires { IsResolvedCore core.now }
    ensures { IfOk result (λ same. IsTrue same ↔ IsAtJack core.now m (view_in gates.now)) }
{
    let mut jack = Jack::new(alloc, core)?;
    match drive(&mut jack, &NoKeys, u64::from(m))? {
        End::Bound => Ok(show_same(gates, &jack)),
        _ => Ok(false),
    }
}

// Moves the virtual machine from its start to the place after its m-th commit, if it comes there in this many
// moves.
fn comes_behind(vm: &mut Vm, m: u64, bound: u64) -> bool
    requires start { HasTaken vm.old [] }
    requires few { bound ≤ 2 ^ 62 }
    ensures linked { vm.new.linked ≡ vm.old.linked }
    ensures comes { result ≡ true → IsBehindCommit vm.new bound m }
    ensures never { result ≡ false → NeverComes vm.old.linked bound m }
{
    for _move in 0..bound {
        if vm.steps() == m {
            return true;
        }
        match vm.step(0) {
            Moved::Acted => {}
            _ => return false,
        }
    }
    vm.steps() == m
}

// Whether the virtual machine shows the same after its m-th commit.
fn is_at_vm(alloc: Global, gates: &GateComputer, core: &Core, m: u32) -> Result<bool, AllocError>
    requires resolved { IsResolvedCore core.now }
    requires built { (image : Image) × IsImageOf core.now image }
    ensures { IfOk result (λ same. IsTrue same ↔ IsAtVm core.now most_moves m
        (view_in gates.now)) }
{
    let mut vm = prepare_vm(alloc, core)?;
    if comes_behind(&mut vm, u64::from(m), most_moves()) {
        return Ok(show_same(gates, &vm));
    }
    Ok(false)
}

// Whether the other levels show what is seen of the computer made of gates, after as many cycles, after m steps, and
// after the m-th commit.
fn are_alike(
    alloc: Global,
    gates: &GateComputer,
    core: &Core,
    image: Image,
    m: u32,
) -> Result<bool, AllocError>
    requires resolved { IsResolvedCore core.now }
    requires image { IsImageOf core.now image }
    requires mapped { IsMapped image }
    ensures { IfOk result (λ same. IsTrue same ↔ AreLevelsAlike core.now image cycles most_moves m
        (view_in gates.now)) }
{
    if !is_at_hack(alloc, gates, image)? {
        return Ok(false);
    }
    if !is_at_jack(alloc, gates, core, m)? {
        return Ok(false);
    }
    is_at_vm(alloc, gates, core, m)
}

// What is reported of the computer made of gates after its cycles, with its image once more.
fn outcome_of(
    alloc: Global,
    gates: &GateComputer,
    core: &Core,
    image: Image,
) -> Result<Outcome, AllocError>
    requires resolved { IsResolvedCore core.now }
    requires image { IsImageOf core.now image }
    requires mapped { IsMapped image }
    requires same { image_in gates.now ≡ image }
    requires followed { HasFollowed gates.now (moves_from no_keys 0 cycles) }
    requires few { gates.now.tally.steps ≤ 300000 }
    ensures { IfOk result
        (λ told. IsOutcome core.now cycles most_moves told.steps told.sum told.agrees) }
{
    let steps = gates.steps() as u32;
    let agrees = are_alike(alloc, gates, core, image, steps)?;
    Ok(Outcome {
        steps,
        sum: sum_of(gates),
        agrees,
    })
}

/// What is reported of a program with its image: it runs at level gates first, and then at each other level as
/// far.
pub fn outcome_at_levels(alloc: Global, core: &Core, image: Image) -> Result<Outcome, AllocError>
    requires resolved { IsResolvedCore core.now }
    requires image { IsImageOf core.now image }
    requires mapped { IsMapped image }
    ensures { IfOk result
        (λ told. IsOutcome core.now cycles most_moves told.steps told.sum told.agrees) }
{
    let copy = copy_of(alloc, &image)?;
    let gates = gates_after(alloc, image)?;
    outcome_of(alloc, &gates, core, copy)
}
