//! From the lines of a program to its words.

ghost use Rattle.std.specs.Prelude.{◌≡◌, ◌≤◌, ◌<◌, ◌+◌, ◌-◌, ◌^◌, map, Ok, Err, Some, None, IfOk, OnOk, [], length, option_map};
ghost use Rattle.hack_asm.specs.Faults.{Yields};
ghost use Rattle.hack_asm.specs.Entered.{table_of};
ghost use Rattle.hack_asm.specs.Comps.{meaning};
ghost use Rattle.hack_asm.specs.Inner.Rows.{row, shift_row, alone_row, under_row, both_row, sum_row, difference_row, pair_row};
ghost use Rattle.hack_asm.specs.Trees.{line_of, symbol_of};
ghost use Rattle.hack_asm.specs.Inner.Steps.{enter_line, variable_line};
ghost use Rattle.hack_asm.specs.Program.{register_bit, dest_bits, jump_bits, compute_word, size, first_past, is_past, address_word, labels, is_instruction, used_symbol, variables, word_in, words, program};

use crate::fault::AsmFault;
use crate::lines::{Address, Comp, Compute, Dest, Item, Prefix, Symbol};
use crate::symbols::Symbols;
use crate::token::{Letter, Operator};
use hack_isa::IMAGE_WORDS;
use scan_text::Place;
use std::alloc::{AllocError, Global};

// What a computation would have that the table of comp has not: the grammar spells none.
const NO_ROW: u16 = 57344;

// The word of a computation, by the bit a and the six bits of the ALU.
fn row(memory: bool, bits: u8) -> u16
    requires { bits < 64 }
    ensures row { result ≡ row memory bits }
    ensures fits { result ≤ 65472 }
{
    let m: u16 = if memory { 4096 } else { 0 };
    57344 + m + bits as u16 * 64
}

fn alone_row(x: Letter) -> u16
    ensures row { result ≡ alone_row x }
    ensures fits { result ≤ 65472 }
{
    match x {
        Letter::Zero => row(false, 0b101010),
        Letter::One => row(false, 0b111111),
        Letter::D => row(false, 0b001100),
        Letter::A => row(false, 0b110000),
        Letter::M => row(true, 0b110000),
    }
}

fn under_row(prefix: Prefix, x: Letter) -> u16
    ensures row { result ≡ under_row prefix x }
    ensures fits { result ≤ 65472 }
{
    match (prefix, x) {
        (Prefix::Minus, Letter::One) => row(false, 0b111010),
        (Prefix::Minus, Letter::D) => row(false, 0b001111),
        (Prefix::Minus, Letter::A) => row(false, 0b110011),
        (Prefix::Minus, Letter::M) => row(true, 0b110011),
        (Prefix::Not, Letter::D) => row(false, 0b001101),
        (Prefix::Not, Letter::A) => row(false, 0b110001),
        (Prefix::Not, Letter::M) => row(true, 0b110001),
        _ => NO_ROW,
    }
}

// D with A or with M, in either order.
fn both_row(x: Letter, y: Letter, bits: u8) -> u16
    requires { bits < 64 }
    ensures row { result ≡ both_row x y bits }
    ensures fits { result ≤ 65472 }
{
    match (x, y) {
        (Letter::D, Letter::A) | (Letter::A, Letter::D) => row(false, bits),
        (Letter::D, Letter::M) | (Letter::M, Letter::D) => row(true, bits),
        _ => NO_ROW,
    }
}

fn sum_row(x: Letter, y: Letter) -> u16
    ensures row { result ≡ sum_row x y }
    ensures fits { result ≤ 65472 }
{
    match (x, y) {
        (Letter::D, Letter::One) | (Letter::One, Letter::D) => row(false, 0b011111),
        (Letter::A, Letter::One) | (Letter::One, Letter::A) => row(false, 0b110111),
        (Letter::M, Letter::One) | (Letter::One, Letter::M) => row(true, 0b110111),
        _ => both_row(x, y, 0b000010),
    }
}

fn difference_row(x: Letter, y: Letter) -> u16
    ensures row { result ≡ difference_row x y }
    ensures fits { result ≤ 65472 }
{
    match (x, y) {
        (Letter::D, Letter::One) => row(false, 0b001110),
        (Letter::A, Letter::One) => row(false, 0b110010),
        (Letter::M, Letter::One) => row(true, 0b110010),
        (Letter::D, Letter::A) => row(false, 0b010011),
        (Letter::D, Letter::M) => row(true, 0b010011),
        (Letter::A, Letter::D) => row(false, 0b000111),
        (Letter::M, Letter::D) => row(true, 0b000111),
        _ => NO_ROW,
    }
}

fn pair_row(x: Letter, op: Operator, y: Letter) -> u16
    ensures row { result ≡ pair_row x op y }
    ensures fits { result ≤ 65472 }
{
    match op {
        Operator::Plus => sum_row(x, y),
        Operator::Minus => difference_row(x, y),
        Operator::And => both_row(x, y, 0b000000),
        Operator::Or => both_row(x, y, 0b010101),
    }
}

// A register, one place to the left or to the right.
fn shift_row(x: Letter, left: bool) -> u16
    ensures row { result ≡ shift_row x left }
    ensures fits { result ≤ 65472 }
{
    match (x, left) {
        (Letter::D, true) => 0b1010110000000000,
        (Letter::D, false) => 0b1010010000000000,
        (Letter::A, true) => 0b1010100000000000,
        (Letter::A, false) => 0b1010000000000000,
        (Letter::M, true) => 0b1011100000000000,
        (Letter::M, false) => 0b1011000000000000,
        _ => NO_ROW,
    }
}

// The word of a computation, without destination and jump.
#[tactic(auto, using(crate::proofs::Rows::found))]
fn comp_row(comp: Comp) -> u16
    ensures row { result ≡ meaning comp }
    ensures fits { result ≤ 65472 }
{
    match comp {
        Comp::Alone(x) => alone_row(x),
        Comp::Pair(x, op, y) => pair_row(x, op, y),
        Comp::Under(prefix, x) => under_row(prefix, x),
        Comp::Shifted(x, left) => shift_row(x, left),
    }
}

fn dest_bits(dest: Dest) -> u8
    ensures bits { result ≡ dest_bits dest }
    ensures three { result < 8 }
{
    match dest {
        Dest::Register(Some(Letter::A)) => 4,
        Dest::Register(Some(Letter::D)) => 2,
        Dest::Register(Some(Letter::M)) => 1,
        Dest::Register(_) => 0,
        Dest::Several(bits) => bits % 8,
    }
}

fn jump_bits(jump: Option<u8>) -> u8
    ensures bits { result ≡ jump_bits jump }
    ensures three { result < 8 }
{
    match jump {
        Some(bits) => bits % 8,
        None => 0,
    }
}

fn compute_word(compute: &Compute) -> u16
    ensures { result ≡ compute_word compute.now }
{
    comp_row(compute.comp) + dest_bits(compute.dest) as u16 * 8 + jump_bits(compute.jump) as u16
}

// Enters the label of a line, or counts its instruction.
fn enter_label<'a>(
    alloc: Global,
    symbols: &mut Symbols<'a>,
    line: &Option<Item<'a>>,
    n: usize,
) -> Result<usize, AsmFault>
    requires { n < 2 ^ 64 - 1 }
    ensures entered { Yields (λ m. (m, table_of symbols.new)) result
        (enter_line (line_of line.now) n (table_of symbols.old)) }
    ensures counted { IfOk result (λ m. m ≤ n + 1) }
{
    match line {
        None => Ok(n),
        Some(Item::Label(symbol)) => {
            if symbols.address(symbol.name).is_some() {
                let name = Vec::from_slice(alloc, symbol.name)?;
                return Err(AsmFault::LabelTwice(name, symbol.place));
            }
            symbols.enter(symbol.name, n)?;
            Ok(n)
        }
        Some(_) => Ok(n + 1),
    }
}

fn labels<'a>(alloc: Global, lines: &[Option<Item<'a>>]) -> Result<Symbols<'a>, AsmFault>
    ensures { Yields table_of result (labels 0 [] (map line_of lines.now)) }
{
    let mut symbols = Symbols::new(alloc);
    let mut n = 0;
    for line in lines {
        n = enter_label(alloc, &mut symbols, line, n)?;
    }
    Ok(symbols)
}

fn is_instruction(line: &Option<Item>) -> bool
    ensures { result ≡ is_instruction (line_of line.now) }
{
    match line {
        None | Some(Item::Label(_)) => false,
        Some(_) => true,
    }
}

fn size(lines: &[Option<Item>]) -> usize
    ensures { result ≡ size (map line_of lines.now) }
{
    let mut n = 0;
    for line in lines {
        if is_instruction(line) {
            n += 1;
        }
    }
    n
}

// The symbol that a line uses.
fn used<'a>(line: &Option<Item<'a>>) -> Option<Symbol<'a>>
    ensures { option_map symbol_of result ≡ used_symbol (line_of line.now) }
{
    match line {
        Some(Item::Address(Address::Symbol(symbol))) => Some(*symbol),
        _ => None,
    }
}

fn is_past(address: Option<usize>) -> bool
    ensures { result ≡ is_past address }
{
    match address {
        Some(n) => n == IMAGE_WORDS,
        None => false,
    }
}

// The first use of a label that stands after all 32,768 words.
fn first_past<'a>(symbols: &Symbols<'a>, lines: &[Option<Item<'a>>]) -> Option<Place>
    ensures { result ≡ first_past (table_of symbols.now) (map line_of lines.now) }
{
    for line in lines {
        let Some(symbol) = used(line) else {
            continue;
        };
        if is_past(symbols.entry(symbol.name)) {
            return Some(symbol.place);
        }
    }
    None
}

// Enters the symbol of a line, if it is a new one, and gives the next address.
fn enter_variable<'a>(
    symbols: &mut Symbols<'a>,
    line: &Option<Item<'a>>,
    next: usize,
) -> Result<usize, AllocError>
    requires { next < 2 ^ 64 - 1 }
    ensures entered { IfOk result (λ n. (n, table_of symbols.new)
        ≡ variable_line (line_of line.now) next (table_of symbols.old)) }
    ensures counted { IfOk result (λ n. n ≤ next + 1) }
{
    let Some(symbol) = used(line) else {
        return Ok(next);
    };
    if symbols.address(symbol.name).is_some() {
        return Ok(next);
    }
    symbols.enter(symbol.name, next)?;
    Ok(next + 1)
}

// Enters the variables.
fn variables<'a>(symbols: &mut Symbols<'a>, lines: &[Option<Item<'a>>]) -> Result<(), AllocError>
    ensures { OnOk result
        (table_of symbols.new ≡ variables 16 (table_of symbols.old) (map line_of lines.now)) }
{
    let mut next = 16;
    for line in lines {
        next = enter_variable(symbols, line, next)?;
    }
    Ok(())
}

fn address_word(address: Option<usize>) -> u16
    ensures word { result ≡ address_word address }
{
    match address {
        Some(n) => (n % 32_768) as u16,
        None => 0,
    }
}

// The word of a line, if it is an instruction.
fn word_in<'a>(symbols: &Symbols<'a>, line: &Option<Item<'a>>) -> Option<u16>
    ensures { result ≡ word_in (table_of symbols.now) (line_of line.now) }
{
    match line {
        None | Some(Item::Label(_)) => None,
        Some(Item::Address(Address::Number(n))) => Some(*n),
        Some(Item::Address(Address::Symbol(symbol))) => {
            Some(address_word(symbols.address(symbol.name)))
        }
        Some(Item::Compute(compute)) => Some(compute_word(compute)),
    }
}

fn words<'a>(
    alloc: Global,
    symbols: &Symbols<'a>,
    lines: &[Option<Item<'a>>],
) -> Result<Vec<u16>, AllocError>
    ensures { IfOk result (λ v. v.items ≡ words (table_of symbols.now) (map line_of lines.now)) }
{
    let mut words = Vec::new(alloc);
    for line in lines {
        if let Some(word) = word_in(symbols, line) {
            words.push(word)?;
        }
    }
    Ok(words)
}

/// The words of a program, by its lines.
pub fn assemble_lines<'a>(alloc: Global, lines: &[Option<Item<'a>>]) -> Result<Vec<u16>, AsmFault>
    ensures { Yields (λ v. v.items) result (program (map line_of lines.now)) }
{
    let mut symbols = labels(alloc, lines)?;
    let size = size(lines);
    if size > IMAGE_WORDS {
        return Err(AsmFault::TooLarge(size));
    }
    if let Some(at) = first_past(&symbols, lines) {
        return Err(AsmFault::Range(at, 32_768));
    }
    let before = symbols.len();
    variables(&mut symbols, lines)?;
    let new = symbols.len().saturating_sub(before);
    if new > 16_368 {
        return Err(AsmFault::TooManyVariables(new));
    }
    let words = words(alloc, &symbols, lines)?;
    Ok(words)
}
