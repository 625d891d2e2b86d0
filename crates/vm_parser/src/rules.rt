//! The rules of VM texts.

ghost use Rattle.std.specs.Prelude.{◌≡◌, ◌++◌, ◌∷◌, [], map, true, false, OnOk, IfErr};
ghost use Rattle.grammar.specs.Reading.{ParsesBy};
ghost use Rattle.grammar.specs.Rules.{Leaf, Pair, Skip, next};
ghost use Rattle.vm_parser.specs.Tokens.{view};
ghost use Rattle.vm_parser.specs.Grammar.{vm, Number, location, push, pop, label, goto, if_goto, call, command, line, is_keyword, lines, function, functions, opening, greatest};
ghost use Rattle.vm_parser.specs.Trees.{location_tree, name_tree, command_tree, line_tree, lines_tree, commands, function_tree, function_of, functions_tree, opening_tree, opening_of};
ghost use Rattle.vm_parser.specs.Inner.Reading.{ReadsAs, begins_line, begins_command};

use crate::token::{Kind, Role, Token};
use crate::words::{
    ends, grammar_fault, index, keyword, line_end, most_of, name, number, operation, place_next,
    role_next, segment,
};
use grammar::ReadError;
use outer_world::{List, Name};
use scan_text::Place;
use std::alloc::Global;
use vm_tree::{Command, Function, Line, Segment};

// What a rule reads: what the tokens say, and those that are left.
type Read<'a, X> = Result<(X, &'a [Token<'a>]), ReadError>;

// A segment and an index.
#[tactic(auto, using(crate::proofs::Exits::vm_exits))]
fn location<'a>(tokens: &'a [Token<'a>], end: Place, constant: bool) -> Read<'a, (Segment, u16)>
    ensures { ParsesBy view (vm end) (location constant) (λ x. location_tree x.0 x.1)
        (λ _. greatest) greatest tokens.now result }
{
    let (segment, rest) = segment(tokens, end, constant)?;
    let (index, rest) = index(rest, end, most_of(segment))?;
    Ok(((segment, index), rest))
}

#[tactic(auto, using(crate::proofs::Exits::vm_exits))]
fn push<'a>(tokens: &'a [Token<'a>], end: Place) -> Read<'a, (Segment, u16)>
    ensures { ParsesBy view (vm end) push (λ x. Pair Skip (location_tree x.0 x.1))
        (λ _. greatest) greatest tokens.now result }
{
    let rest = keyword(tokens, end, Role::Push)?;
    let (place, rest) = location(rest, end, true)?;
    Ok((place, rest))
}

#[tactic(auto, using(crate::proofs::Exits::vm_exits))]
fn pop<'a>(tokens: &'a [Token<'a>], end: Place) -> Read<'a, (Segment, u16)>
    ensures { ParsesBy view (vm end) pop (λ x. Pair Skip (location_tree x.0 x.1))
        (λ _. greatest) greatest tokens.now result }
{
    let rest = keyword(tokens, end, Role::Pop)?;
    let (place, rest) = location(rest, end, false)?;
    Ok((place, rest))
}

#[tactic(auto, using(crate::proofs::Exits::vm_exits))]
fn label<'a>(alloc: Global, tokens: &'a [Token<'a>], end: Place) -> Read<'a, Name>
    ensures { ParsesBy view (vm end) label (λ l. Pair Skip (name_tree l))
        (λ _. greatest) greatest tokens.now result }
{
    let rest = keyword(tokens, end, Role::Label)?;
    let (label, rest) = name(alloc, rest, end)?;
    Ok((label, rest))
}

#[tactic(auto, using(crate::proofs::Exits::vm_exits))]
fn goto<'a>(alloc: Global, tokens: &'a [Token<'a>], end: Place) -> Read<'a, Name>
    ensures { ParsesBy view (vm end) goto (λ l. Pair Skip (name_tree l))
        (λ _. greatest) greatest tokens.now result }
{
    let rest = keyword(tokens, end, Role::Goto)?;
    let (label, rest) = name(alloc, rest, end)?;
    Ok((label, rest))
}

#[tactic(auto, using(crate::proofs::Exits::vm_exits))]
fn if_goto<'a>(alloc: Global, tokens: &'a [Token<'a>], end: Place) -> Read<'a, Name>
    ensures { ParsesBy view (vm end) if_goto (λ l. Pair Skip (name_tree l))
        (λ _. greatest) greatest tokens.now result }
{
    let rest = keyword(tokens, end, Role::IfGoto)?;
    let (label, rest) = name(alloc, rest, end)?;
    Ok((label, rest))
}

#[tactic(auto, using(crate::proofs::Exits::vm_exits))]
fn call<'a>(alloc: Global, tokens: &'a [Token<'a>], end: Place) -> Read<'a, (Name, u16)>
    ensures { ParsesBy view
        (vm end) call (λ x. Pair Skip (Pair (name_tree x.0) (Leaf (Number x.1))))
        (λ _. greatest) greatest tokens.now result }
{
    let rest = keyword(tokens, end, Role::Call)?;
    let (function, rest) = name(alloc, rest, end)?;
    let (arguments, rest) = number(rest, end)?;
    Ok(((function, arguments), rest))
}

// A command.
fn command<'a>(alloc: Global, tokens: &'a [Token<'a>], end: Place) -> Read<'a, Command>
    ensures { ParsesBy view (vm end) command command_tree
        (λ _. greatest) greatest tokens.now result }
{
    match role_next(tokens) {
        Role::Operation(_) => {
            let (operation, rest) = operation(tokens, end)?;
            Ok((Command::Operate(operation), rest))
        }
        Role::Push => {
            let ((segment, index), rest) = push(tokens, end)?;
            Ok((Command::Push(segment, index), rest))
        }
        Role::Pop => {
            let ((segment, index), rest) = pop(tokens, end)?;
            Ok((Command::Pop(segment, index), rest))
        }
        Role::Label => {
            let (label, rest) = label(alloc, tokens, end)?;
            Ok((Command::Label(label), rest))
        }
        Role::Goto => {
            let (label, rest) = goto(alloc, tokens, end)?;
            Ok((Command::Goto(label), rest))
        }
        Role::IfGoto => {
            let (label, rest) = if_goto(alloc, tokens, end)?;
            Ok((Command::IfGoto(label), rest))
        }
        Role::Call => {
            let ((function, arguments), rest) = call(alloc, tokens, end)?;
            Ok((Command::Call(function, arguments), rest))
        }
        Role::Return => Ok((Command::Return, keyword(tokens, end, Role::Return)?)),
        Role::Function | Role::Segment(_) | Role::Plain => {
            Err(grammar_fault(place_next(tokens, end)))
        }
    }
}

// A line: a command or nothing.
fn line<'a>(alloc: Global, tokens: &'a [Token<'a>], end: Place) -> Read<'a, Option<Command>>
    ensures { ParsesBy view (vm end) line line_tree (λ _. greatest) greatest tokens.now result }
{
    if ends(tokens) {
        let rest = line_end(tokens, end)?;
        return Ok((None, rest));
    }
    let (command, rest) = command(alloc, tokens, end)?;
    let rest = line_end(rest, end)?;
    Ok((Some(command), rest))
}

// The word begins a command.
fn begins_command(role: Role) -> bool
    ensures { result ≡ begins_command role }
{
    !matches!(role, Role::Function | Role::Segment(_) | Role::Plain)
}

// A line begins here.
fn begins_line(tokens: &[Token]) -> bool
    ensures { result ≡ next begins_line (map view tokens.now) }
{
    match tokens.first() {
        None => false,
        Some(token) => matches!(token.kind, Kind::LineEnd) || begins_command(token.role),
    }
}

// One more line, if it has a command.
fn add_line(lines: &mut List<Line>, line: Option<Command>) -> Result<(), ReadError>
    ensures ok { OnOk result (lines.new ≡ lines.old ++ commands (line ∷ [])) }
    ensures err { IfErr result (λ e. e ≡ ReadError.Memory) }
{
    match line {
        None => Ok(()),
        Some(command) => {
            let line = Line {
                command,
                statement: 0,
                commit: false,
            };
            lines.push(line)?;
            Ok(())
        }
    }
}

// The lines that come, without the empty ones.
fn lines<'a>(alloc: Global, tokens: &'a [Token<'a>], end: Place) -> Read<'a, List<Line>>
    ensures { ReadsAs lines_tree commands end lines tokens.now result }
{
    let mut lines = List::new(alloc);
    if !begins_line(tokens) {
        return Ok((lines, tokens));
    }
    let (first, after_first) = line(alloc, tokens, end)?;
    add_line(&mut lines, first)?;
    let mut rest = after_first;
    'lines: while begins_line(rest) {
        let (line, after) = line(alloc, rest, end)?;
        add_line(&mut lines, line)?;
        rest = after;
    }
    Ok((lines, rest))
}

// The empty lines that come.
fn empty_lines<'a>(tokens: &'a [Token<'a>], end: Place) -> Read<'a, ()>
    ensures { ReadsAs (opening_tree false) (λ _. tt) end (opening false) tokens.now result }
{
    if !ends(tokens) {
        return Ok(((), tokens));
    }
    let after_first = line_end(tokens, end)?;
    let mut rest = after_first;
    'lines: while ends(rest) {
        let after = line_end(rest, end)?;
        rest = after;
    }
    Ok(((), rest))
}

/// What stands before the first function: commands with `bare`, and else nothing.
pub fn opening<'a>(
    alloc: Global,
    tokens: &'a [Token<'a>],
    end: Place,
    bare: bool,
) -> Read<'a, List<Line>>
    ensures { ReadsAs (opening_tree bare) (opening_of bare) end (opening bare) tokens.now result }
{
    if bare {
        return lines(alloc, tokens, end);
    }
    let ((), rest) = empty_lines(tokens, end)?;
    Ok((List::new(alloc), rest))
}

// A function.
#[tactic(auto, using(crate::proofs::Exits::vm_exits))]
fn function<'a>(alloc: Global, tokens: &'a [Token<'a>], end: Place) -> Read<'a, Function>
    ensures { ReadsAs function_tree function_of end function tokens.now result }
{
    let rest = keyword(tokens, end, Role::Function)?;
    let (name, rest) = name(alloc, rest, end)?;
    let (locals, rest) = number(rest, end)?;
    let rest = line_end(rest, end)?;
    let (lines, rest) = lines(alloc, rest, end)?;
    let function = Function {
        name,
        locals,
        lines,
    };
    Ok((function, rest))
}

// A function begins here.
fn begins_function(tokens: &[Token]) -> bool
    ensures { result ≡ next (is_keyword Role.Function) (map view tokens.now) }
{
    match tokens.first() {
        None => false,
        Some(token) => matches!(token.role, Role::Function),
    }
}

/// The functions that come.
#[tactic(auto, using(crate::proofs::Exits::vm_exits))]
pub fn functions<'a>(alloc: Global, tokens: &'a [Token<'a>], end: Place) -> Read<'a, List<Function>>
    ensures { ReadsAs functions_tree (map function_of) end functions tokens.now result }
{
    let mut functions = List::new(alloc);
    if !begins_function(tokens) {
        return Ok((functions, tokens));
    }
    let (first, after_first) = function(alloc, tokens, end)?;
    functions.push(first)?;
    let mut rest = after_first;
    'functions: while begins_function(rest) {
        let (function, after) = function(alloc, rest, end)?;
        functions.push(function)?;
        rest = after;
    }
    Ok((functions, rest))
}
