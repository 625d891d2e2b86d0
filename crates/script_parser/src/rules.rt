//! Readers of the rules of test scripts.

ghost use Rattle.std.specs.Prelude.{◌≡◌, ◌<◌, ◌≤◌, ◌-◌, ◌+◌, ◌*◌, ◌^◌, length, Some, None, Result, Ok, List, ℕ, IfOk, map};
ghost use Rattle.grammar.specs.Reading.{ParsesBy, PassesBy, Halt};
ghost use Rattle.grammar.specs.Rules.{name, NoMore};
ghost use Rattle.script_parser.specs.Tokens.{view};
ghost use Rattle.script_parser.specs.Grammar.{script, act, block, command, commands, compare_to, echo, items, load, load_rom, output_file, output_list, repetition, repetition_parts, setting, times_more};
ghost use Rattle.script_parser.specs.Trees.{act_tree, braces_tree, command_tree, echo_tree, items_with, list_tree, listing_tree, named_tree, parts_tree, rom_tree, setting_tree};

use crate::nesting::{Nesting, deeper};
use crate::token::{Role, Token};
use crate::tree::{Act, Command, Item, Placed};
use crate::words::{
    act_begins, any_word, begin, command_begins, count, device, ender, grammar_fault, here, item,
    item_stands, next_role, program, repetition_begins, rom, sign, step, step_stands, text, value,
};
use grammar::ReadError;
use outer_world::List;
use scan_text::Place;
use std::alloc::Global;

// `load F`
#[tactic(auto, using(crate::proofs::Exits::script_exits))]
fn load<'a>(
    alloc: Global,
    tokens: &'a [Token<'a>],
    end: Place,
    nesting: Nesting,
) -> Result<(Placed, &'a [Token<'a>]), ReadError>
    ensures reads { ParsesBy view (script end) load named_tree
        (λ _. nesting) nesting tokens.now result }
    ensures shorter { IfOk result (λ r. length r.1.now < length tokens.now) }
{
    let rest = begin(tokens, end, nesting, Role::Load)?;
    let (file, rest) = device(alloc, rest, end, nesting)?;
    Ok((file, rest))
}

// `output-file F`
#[tactic(auto, using(crate::proofs::Exits::script_exits))]
fn output_file<'a>(
    alloc: Global,
    tokens: &'a [Token<'a>],
    end: Place,
    nesting: Nesting,
) -> Result<(Placed, &'a [Token<'a>]), ReadError>
    ensures reads { ParsesBy view (script end) output_file named_tree
        (λ _. nesting) nesting tokens.now result }
    ensures shorter { IfOk result (λ r. length r.1.now < length tokens.now) }
{
    let rest = begin(tokens, end, nesting, Role::OutputFile)?;
    let (file, rest) = any_word(alloc, rest, end, nesting)?;
    Ok((file, rest))
}

// `compare-to F`
#[tactic(auto, using(crate::proofs::Exits::script_exits))]
fn compare_to<'a>(
    alloc: Global,
    tokens: &'a [Token<'a>],
    end: Place,
    nesting: Nesting,
) -> Result<(Placed, &'a [Token<'a>]), ReadError>
    ensures reads { ParsesBy view (script end) compare_to named_tree
        (λ _. nesting) nesting tokens.now result }
    ensures shorter { IfOk result (λ r. length r.1.now < length tokens.now) }
{
    let rest = begin(tokens, end, nesting, Role::CompareTo)?;
    let (file, rest) = any_word(alloc, rest, end, nesting)?;
    Ok((file, rest))
}

// One item or more.
#[tactic(auto, using(crate::proofs::Exits::script_exits))]
fn items<'a>(
    alloc: Global,
    tokens: &'a [Token<'a>],
    end: Place,
    nesting: Nesting,
) -> Result<(List<Item>, &'a [Token<'a>]), ReadError>
    ensures reads { ParsesBy view (script end) items (λ x. items_with x NoMore)
        (λ _. nesting) nesting tokens.now result }
    ensures shorter { IfOk result (λ r. length r.1.now < length tokens.now) }
{
    let mut items = List::new(alloc);
    let (first, after_first) = item(alloc, tokens, end, nesting)?;
    items.push(first)?;
    let mut rest = after_first;
    'more: while item_stands(rest) {
        let (one, after) = item(alloc, rest, end, nesting)?;
        items.push(one)?;
        rest = after;
    }
    Ok((items, rest))
}

// `output-list ITEM ..`
#[tactic(auto, using(crate::proofs::Exits::script_exits))]
fn output_list<'a>(
    alloc: Global,
    tokens: &'a [Token<'a>],
    end: Place,
    nesting: Nesting,
) -> Result<(List<Item>, &'a [Token<'a>]), ReadError>
    ensures reads { ParsesBy view (script end) output_list listing_tree
        (λ _. nesting) nesting tokens.now result }
    ensures shorter { IfOk result (λ r. length r.1.now < length tokens.now) }
{
    let rest = begin(tokens, end, nesting, Role::OutputList)?;
    let (items, rest) = items(alloc, rest, end, nesting)?;
    Ok((items, rest))
}

// `set V n`
#[tactic(auto, using(crate::proofs::Exits::script_exits))]
fn setting<'a>(
    alloc: Global,
    tokens: &'a [Token<'a>],
    end: Place,
    nesting: Nesting,
) -> Result<((Placed, u16), &'a [Token<'a>]), ReadError>
    ensures reads { ParsesBy view (script end) setting (λ x. setting_tree x.0 x.1)
        (λ _. nesting) nesting tokens.now result }
    ensures shorter { IfOk result (λ r. length r.1.now < length tokens.now) }
{
    let rest = begin(tokens, end, nesting, Role::Set)?;
    let (variable, rest) = any_word(alloc, rest, end, nesting)?;
    let (word, rest) = value(rest, end, nesting)?;
    Ok(((variable, word), rest))
}

// `echo "text"`
#[tactic(auto, using(crate::proofs::Exits::script_exits))]
fn echo<'a>(
    alloc: Global,
    tokens: &'a [Token<'a>],
    end: Place,
    nesting: Nesting,
) -> Result<(List<u8>, &'a [Token<'a>]), ReadError>
    ensures reads { ParsesBy view (script end) echo echo_tree
        (λ _. nesting) nesting tokens.now result }
    ensures shorter { IfOk result (λ r. length r.1.now < length tokens.now) }
{
    let rest = begin(tokens, end, nesting, Role::Echo)?;
    let (text, rest) = text(alloc, rest, end, nesting)?;
    Ok((text, rest))
}

// `ROM32K load F`
#[tactic(auto, using(crate::proofs::Exits::script_exits))]
fn load_rom<'a>(
    alloc: Global,
    tokens: &'a [Token<'a>],
    end: Place,
    nesting: Nesting,
) -> Result<((Placed, Placed), &'a [Token<'a>]), ReadError>
    ensures reads { ParsesBy view (script end) load_rom (λ x. rom_tree x.0 x.1)
        (λ _. nesting) nesting tokens.now result }
    ensures shorter { IfOk result (λ r. length r.1.now < length tokens.now) }
{
    let (rom, rest) = rom(alloc, tokens, end, nesting)?;
    let rest = begin(rest, end, nesting, Role::Load)?;
    let (file, rest) = program(alloc, rest, end, nesting)?;
    Ok(((rom, file), rest))
}

// A command that is no repetition, without the sign at its end.
#[tactic(auto, using(crate::proofs::Exits::act_exits))]
fn act<'a>(
    alloc: Global,
    tokens: &'a [Token<'a>],
    end: Place,
    nesting: Nesting,
) -> Result<(Act, &'a [Token<'a>]), ReadError>
    ensures reads { ParsesBy view (script end) act act_tree
        (λ _. nesting) nesting tokens.now result }
    ensures shorter { IfOk result (λ r. length r.1.now < length tokens.now) }
{
    if step_stands(tokens) {
        let (step, rest) = step(tokens, end, nesting)?;
        return Ok((Act::Step(step), rest));
    }
    match next_role(tokens) {
        Role::Load => {
            let (chip, rest) = load(alloc, tokens, end, nesting)?;
            Ok((Act::Load(chip), rest))
        }
        Role::OutputFile => {
            let (named, rest) = output_file(alloc, tokens, end, nesting)?;
            Ok((Act::OutputFile(named), rest))
        }
        Role::CompareTo => {
            let (compared, rest) = compare_to(alloc, tokens, end, nesting)?;
            Ok((Act::CompareTo(compared), rest))
        }
        Role::OutputList => {
            let (items, rest) = output_list(alloc, tokens, end, nesting)?;
            Ok((Act::OutputList(items), rest))
        }
        Role::Set => {
            let ((variable, word), rest) = setting(alloc, tokens, end, nesting)?;
            Ok((Act::Set(variable, word), rest))
        }
        Role::Echo => {
            let (text, rest) = echo(alloc, tokens, end, nesting)?;
            Ok((Act::Echo(text), rest))
        }
        Role::Rom => {
            let ((rom, program), rest) = load_rom(alloc, tokens, end, nesting)?;
            Ok((Act::LoadRom(rom, program), rest))
        }
        _ => Err(grammar_fault(here(tokens, end))),
    }
}

// Commands in braces.
#[cycle(commands)]
#[tactic(auto, using(crate::proofs::Exits::script_exits))]
fn block<'a>(
    alloc: Global,
    tokens: &'a [Token<'a>],
    end: Place,
    nesting: Nesting,
) -> Result<(Vec<Command>, &'a [Token<'a>]), ReadError>
    ensures reads { ParsesBy view (script end) block (λ v. braces_tree (list_tree v.items))
        (λ _. nesting) nesting tokens.now result }
    ensures shorter { IfOk result (λ r. length r.1.now < length tokens.now) }
{
    let rest = sign(tokens, end, nesting, b'{')?;
    let (commands, rest) = commands(alloc, rest, end, nesting)?;
    let rest = sign(rest, end, nesting, b'}')?;
    Ok((commands, rest))
}

// `repeat n { .. }`, within the level that it is.
#[cycle(commands)]
#[tactic(auto, using(crate::proofs::Exits::script_exits))]
fn repeated<'a>(
    alloc: Global,
    tokens: &'a [Token<'a>],
    end: Place,
    nesting: Nesting,
) -> Result<((u32, Vec<Command>), &'a [Token<'a>]), ReadError>
    ensures reads { ParsesBy view
        (script end) repetition_parts (λ x. parts_tree x.0 (list_tree x.1.items))
        (λ x. times_more nesting x.0) nesting tokens.now result }
    ensures shorter { IfOk result (λ r. length r.1.now < length tokens.now) }
{
    let rest = begin(tokens, end, nesting, Role::Repeat)?;
    let ((times, inner), rest) = count(rest, end, nesting)?;
    let (body, rest) = block(alloc, rest, end, inner)?;
    Ok(((times, body), rest))
}

// A command: commands that are repeated, one level deeper, or an act.
#[cycle(commands)]
#[tactic(auto, using(crate::proofs::Exits::script_exits))]
fn command<'a>(
    alloc: Global,
    tokens: &'a [Token<'a>],
    end: Place,
    nesting: Nesting,
) -> Result<(Command, &'a [Token<'a>]), ReadError>
    ensures reads { ParsesBy view (script end) (name command) command_tree
        (λ _. nesting) nesting tokens.now result }
    ensures shorter { IfOk result (λ r. length r.1.now < length tokens.now) }
{
    if repetition_begins(tokens) {
        let inner = deeper(nesting, here(tokens, end))?;
        let ((times, body), rest) = repeated(alloc, tokens, end, inner)?;
        return Ok((Command::Repeat(times, body), rest));
    }
    if !act_begins(tokens) {
        return Err(grammar_fault(here(tokens, end)));
    }
    let (act, after_act) = act(alloc, tokens, end, nesting)?;
    let rest = ender(after_act, end, nesting)?;
    Ok((Command::Act(act), rest))
}

/// Commands, up to the first token that begins none.
#[cycle(commands)]
#[tactic(auto, using(crate::proofs::Exits::script_exits))]
pub fn commands<'a>(
    alloc: Global,
    tokens: &'a [Token<'a>],
    end: Place,
    nesting: Nesting,
) -> Result<(Vec<Command>, &'a [Token<'a>]), ReadError>
    ensures reads { ParsesBy view (script end) commands (λ v. list_tree v.items)
        (λ _. nesting) nesting tokens.now result }
    ensures no_longer { IfOk result (λ r. length r.1.now ≤ length tokens.now) }
{
    let mut commands = Vec::new(alloc);
    if !command_begins(tokens) {
        return Ok((commands, tokens));
    }
    let (first, after_first) = command(alloc, tokens, end, nesting)?;
    commands.push(first)?;
    let mut rest = after_first;
    'all: while command_begins(rest) {
        let (one, after) = command(alloc, rest, end, nesting)?;
        commands.push(one)?;
        rest = after;
    }
    Ok((commands, rest))
}
