//! Classes, their variables and their subroutines.

ghost use Rattle.std.specs.Prelude.{◌≡◌, ◌<◌, ◌≤◌, ◌-◌, ◌+◌, ◌^◌, length, Some, None, Result, Ok, List, ℕ, IfOk, map};
ghost use Rattle.grammar.specs.Reading.{ParsesBy, PassesBy, Halt};
ghost use Rattle.grammar.specs.Rules.{name, repeat, tree_of_list, NoMore};
ghost use Rattle.jack_tree.specs.Tokens.{view};
ghost use Rattle.jack_parser.specs.Grammar.{jack, names_rule, declaration, class_variables, locals_rule, parameter, parameter_list, parameters, subroutine, subroutine_parts, class_rule};
ghost use Rattle.jack_parser.specs.ClassTrees.{names_tree, declared_tree, variables_tree, locals_tree, parameter_tree, parameters_with, parameters_tree, parts_tree, subroutine_tree, class_tree};
ghost use Rattle.jack_parser.specs.Inner.Bodies.{subroutine_body, subroutine_body_tree};

use crate::counts::{Counted, Counts, fresh};
use crate::declared::{form, form_begins, result_type, scope_begins, type_begins, type_name};
use crate::statements::statements;
use crate::words::{
    counted_name, here, identifier, keyword, keyword_stands, stands, symbol, symbol_at,
};
use grammar::{Fault, ReadError};
use jack_tree::{
    Class, ClassVariables, Keyword, Locals, Names, Parameter, Scope, Statement, Subroutine, Token,
    Type,
};
use outer_world::Name as FileName;
use scan_text::Place;
use std::alloc::Global;

// Names, and the counts with them.
#[tactic(auto, using(crate::proofs::Exits::part_exits))]
fn names<'a>(
    alloc: Global,
    tokens: &'a [Token<'a>],
    end: Place,
    counts: Counts,
    counted: Counted,
) -> Result<((Names, Counts), &'a [Token<'a>]), ReadError>
    ensures reads { ParsesBy view (jack end) (names_rule counted) (λ x. names_tree x.0)
        (λ x. x.1) counts tokens.now result }
    ensures shorter { IfOk result (λ r. length r.1.now < length tokens.now) }
{
    let ((first, after_one), after_first) = counted_name(alloc, tokens, end, counts, counted)?;
    let mut more = Vec::new(alloc);
    let mut so_far = after_one;
    let mut rest = after_first;
    'more: while stands(rest, b',') {
        let after_comma = symbol(rest, end, so_far, b',')?;
        let ((name, with_it), after) = counted_name(alloc, after_comma, end, so_far, counted)?;
        more.push(name)?;
        so_far = with_it;
        rest = after;
    }
    more.shrink_to_fit();
    Ok(((Names { first, more }, so_far), rest))
}

// A type and names after a keyword, and the counts with them.
#[tactic(auto, using(crate::proofs::Exits::part_exits))]
fn declaration<'a>(
    alloc: Global,
    tokens: &'a [Token<'a>],
    end: Place,
    counts: Counts,
    word: Keyword,
    counted: Counted,
) -> Result<((Type, Names, Counts), &'a [Token<'a>]), ReadError>
    ensures reads { ParsesBy view (jack end) (declaration word counted) (λ x. declared_tree x.0 x.1)
        (λ x. x.2) counts tokens.now result }
    ensures shorter { IfOk result (λ r. length r.1.now < length tokens.now) }
{
    let rest = keyword(tokens, end, counts, word)?;
    let (kind, rest) = type_name(alloc, rest, end, counts)?;
    let ((names, so_far), rest) = names(alloc, rest, end, counts, counted)?;
    let rest = symbol(rest, end, so_far, b';')?;
    Ok(((kind, names, so_far), rest))
}

#[tactic(auto, using(crate::proofs::Exits::part_exits))]
fn variables<'a>(
    alloc: Global,
    tokens: &'a [Token<'a>],
    end: Place,
    counts: Counts,
) -> Result<((ClassVariables, Counts), &'a [Token<'a>]), ReadError>
    ensures reads { ParsesBy view (jack end) class_variables (λ x. variables_tree x.0)
        (λ x. x.1) counts tokens.now result }
    ensures shorter { IfOk result (λ r. length r.1.now < length tokens.now) }
{
    if keyword_stands(tokens, Keyword::Static) {
        let ((kind, names, so_far), rest) = declaration(
            alloc,
            tokens,
            end,
            counts,
            Keyword::Static,
            Counted::Static,
        )?;
        let variables = ClassVariables {
            scope: Scope::Static,
            kind,
            names,
        };
        return Ok(((variables, so_far), rest));
    }
    if !keyword_stands(tokens, Keyword::Field) {
        return Err(ReadError::Fault(Fault::Grammar(here(tokens, end))));
    }
    let ((kind, names, so_far), rest) = declaration(
        alloc,
        tokens,
        end,
        counts,
        Keyword::Field,
        Counted::Field,
    )?;
    let variables = ClassVariables {
        scope: Scope::Field,
        kind,
        names,
    };
    Ok(((variables, so_far), rest))
}

#[tactic(auto, using(crate::proofs::Exits::part_exits))]
fn all_variables<'a>(
    alloc: Global,
    tokens: &'a [Token<'a>],
    end: Place,
    counts: Counts,
) -> Result<((Vec<ClassVariables>, Counts), &'a [Token<'a>]), ReadError>
    ensures reads { ParsesBy view (jack end) (repeat class_variables)
        (λ x. tree_of_list variables_tree x.0.items NoMore) (λ x. x.1) counts tokens.now result }
    ensures no_longer { IfOk result (λ r. length r.1.now ≤ length tokens.now) }
{
    let mut all = Vec::new(alloc);
    if !scope_begins(tokens) {
        return Ok(((all, counts), tokens));
    }
    let ((first, after_one), after_first) = variables(alloc, tokens, end, counts)?;
    all.push(first)?;
    let mut so_far = after_one;
    let mut rest = after_first;
    'all: while scope_begins(rest) {
        let ((one, with_it), after) = variables(alloc, rest, end, so_far)?;
        all.push(one)?;
        so_far = with_it;
        rest = after;
    }
    all.shrink_to_fit();
    Ok(((all, so_far), rest))
}

#[tactic(auto, using(crate::proofs::Exits::part_exits))]
fn locals<'a>(
    alloc: Global,
    tokens: &'a [Token<'a>],
    end: Place,
    counts: Counts,
) -> Result<((Locals, Counts), &'a [Token<'a>]), ReadError>
    ensures reads { ParsesBy view (jack end) locals_rule (λ x. locals_tree x.0)
        (λ x. x.1) counts tokens.now result }
    ensures shorter { IfOk result (λ r. length r.1.now < length tokens.now) }
{
    let ((kind, names, so_far), rest) = declaration(
        alloc,
        tokens,
        end,
        counts,
        Keyword::Var,
        Counted::Local,
    )?;
    Ok(((Locals { kind, names }, so_far), rest))
}

#[tactic(auto, using(crate::proofs::Exits::part_exits))]
fn all_locals<'a>(
    alloc: Global,
    tokens: &'a [Token<'a>],
    end: Place,
    counts: Counts,
) -> Result<((Vec<Locals>, Counts), &'a [Token<'a>]), ReadError>
    ensures reads { ParsesBy view (jack end) (repeat locals_rule)
        (λ x. tree_of_list locals_tree x.0.items NoMore) (λ x. x.1) counts tokens.now result }
    ensures no_longer { IfOk result (λ r. length r.1.now ≤ length tokens.now) }
{
    let mut all = Vec::new(alloc);
    if !keyword_stands(tokens, Keyword::Var) {
        return Ok(((all, counts), tokens));
    }
    let ((first, after_one), after_first) = locals(alloc, tokens, end, counts)?;
    all.push(first)?;
    let mut so_far = after_one;
    let mut rest = after_first;
    'all: while keyword_stands(rest, Keyword::Var) {
        let ((one, with_it), after) = locals(alloc, rest, end, so_far)?;
        all.push(one)?;
        so_far = with_it;
        rest = after;
    }
    all.shrink_to_fit();
    Ok(((all, so_far), rest))
}

#[tactic(auto, using(crate::proofs::Exits::part_exits))]
fn parameter<'a>(
    alloc: Global,
    tokens: &'a [Token<'a>],
    end: Place,
    counts: Counts,
) -> Result<((Parameter, Counts), &'a [Token<'a>]), ReadError>
    ensures reads { ParsesBy view (jack end) parameter (λ x. parameter_tree x.0)
        (λ x. x.1) counts tokens.now result }
    ensures shorter { IfOk result (λ r. length r.1.now < length tokens.now) }
{
    let (kind, rest) = type_name(alloc, tokens, end, counts)?;
    let ((name, so_far), rest) = counted_name(alloc, rest, end, counts, Counted::Parameter)?;
    Ok(((Parameter { kind, name }, so_far), rest))
}

// One parameter or more.
#[tactic(auto, using(crate::proofs::Exits::part_exits))]
fn parameter_list<'a>(
    alloc: Global,
    tokens: &'a [Token<'a>],
    end: Place,
    counts: Counts,
) -> Result<((Vec<Parameter>, Counts), &'a [Token<'a>]), ReadError>
    ensures reads { ParsesBy view (jack end) parameter_list (λ x. parameters_with x.0.items NoMore)
        (λ x. x.1) counts tokens.now result }
    ensures shorter { IfOk result (λ r. length r.1.now < length tokens.now) }
    ensures some { IfOk result (λ r. 1 ≤ length r.0.0.items) }
{
    let mut parameters = Vec::new(alloc);
    let ((first, after_one), after_first) = parameter(alloc, tokens, end, counts)?;
    parameters.push(first)?;
    let mut so_far = after_one;
    let mut rest = after_first;
    'more: while stands(rest, b',') {
        let after_comma = symbol(rest, end, so_far, b',')?;
        let ((one, with_it), after) = parameter(alloc, after_comma, end, so_far)?;
        parameters.push(one)?;
        so_far = with_it;
        rest = after;
    }
    parameters.shrink_to_fit();
    Ok(((parameters, so_far), rest))
}

#[tactic(auto, using(crate::proofs::Exits::part_exits))]
fn parameters<'a>(
    alloc: Global,
    tokens: &'a [Token<'a>],
    end: Place,
    counts: Counts,
) -> Result<((Vec<Parameter>, Counts), &'a [Token<'a>]), ReadError>
    ensures reads { ParsesBy view (jack end) parameters (λ x. parameters_tree x.0.items)
        (λ x. x.1) counts tokens.now result }
    ensures no_longer { IfOk result (λ r. length r.1.now ≤ length tokens.now) }
{
    if !type_begins(tokens) {
        return Ok(((Vec::new(alloc), counts), tokens));
    }
    let ((parameters, so_far), rest) = parameter_list(alloc, tokens, end, counts)?;
    Ok(((parameters, so_far), rest))
}

// Locals and statements in their braces, the place of the brace that closes them, and the counts with the locals.
#[tactic(auto, using(crate::proofs::Exits::part_exits))]
fn body<'a>(
    alloc: Global,
    tokens: &'a [Token<'a>],
    end: Place,
    counts: Counts,
) -> Result<
    (
        (Vec<Locals>, Vec<Statement>, Place, Counts),
        &'a [Token<'a>],
    ),
    ReadError,
>
    ensures reads { ParsesBy view (jack end) subroutine_body
        (λ x. subroutine_body_tree x.0.items x.1.items x.2) (λ x. x.3) counts tokens.now result }
    ensures shorter { IfOk result (λ r. length r.1.now < length tokens.now) }
{
    let rest = symbol(tokens, end, counts, b'{')?;
    let ((locals, so_far), rest) = all_locals(alloc, rest, end, counts)?;
    let (statements, rest) = statements(alloc, rest, end, so_far)?;
    let (close, rest) = symbol_at(rest, end, so_far, b'}')?;
    Ok(((locals, statements, close, so_far), rest))
}

// A subroutine, and the counts with its parameters and locals.
#[tactic(auto, using(crate::proofs::Exits::part_exits))]
fn parts<'a>(
    alloc: Global,
    tokens: &'a [Token<'a>],
    end: Place,
    counts: Counts,
) -> Result<((Subroutine, Counts), &'a [Token<'a>]), ReadError>
    ensures reads { ParsesBy view (jack end) subroutine_parts (λ x. parts_tree x.0)
        (λ x. x.1) counts tokens.now result }
    ensures shorter { IfOk result (λ r. length r.1.now < length tokens.now) }
{
    let (form, rest) = form(tokens, end, counts)?;
    let (result, rest) = result_type(alloc, rest, end, counts)?;
    let (name, rest) = identifier(alloc, rest, end, counts)?;
    let rest = symbol(rest, end, counts, b'(')?;
    let ((parameters, so_far), rest) = parameters(alloc, rest, end, counts)?;
    let rest = symbol(rest, end, so_far, b')')?;
    let ((locals, statements, close, in_all), rest) = body(alloc, rest, end, so_far)?;
    let subroutine = Subroutine {
        form,
        result,
        name,
        parameters,
        locals,
        statements,
        close,
    };
    Ok(((subroutine, in_all), rest))
}

// A subroutine counts its own parameters and locals.
#[tactic(auto, using(crate::proofs::Exits::part_exits))]
fn subroutine<'a>(
    alloc: Global,
    tokens: &'a [Token<'a>],
    end: Place,
    counts: Counts,
) -> Result<(Subroutine, &'a [Token<'a>]), ReadError>
    ensures reads { ParsesBy view (jack end) subroutine subroutine_tree
        (λ _. counts) counts tokens.now result }
    ensures shorter { IfOk result (λ r. length r.1.now < length tokens.now) }
{
    if !form_begins(tokens) {
        return Err(ReadError::Fault(Fault::Grammar(here(tokens, end))));
    }
    let ((subroutine, _), rest) = parts(alloc, tokens, end, fresh(counts.nesting))?;
    Ok((subroutine, rest))
}

#[tactic(auto, using(crate::proofs::Exits::part_exits))]
fn subroutines<'a>(
    alloc: Global,
    tokens: &'a [Token<'a>],
    end: Place,
    counts: Counts,
) -> Result<(Vec<Subroutine>, &'a [Token<'a>]), ReadError>
    ensures reads { ParsesBy view (jack end) (repeat subroutine)
        (λ v. tree_of_list subroutine_tree v.items NoMore) (λ _. counts) counts tokens.now result }
    ensures no_longer { IfOk result (λ r. length r.1.now ≤ length tokens.now) }
{
    let mut all = Vec::new(alloc);
    if !form_begins(tokens) {
        return Ok((all, tokens));
    }
    let (first, after_first) = subroutine(alloc, tokens, end, counts)?;
    all.push(first)?;
    let mut rest = after_first;
    'all: while form_begins(rest) {
        let (one, after) = subroutine(alloc, rest, end, counts)?;
        all.push(one)?;
        rest = after;
    }
    all.shrink_to_fit();
    Ok((all, rest))
}

// A class, and the counts with its variables.
#[tactic(auto, using(crate::proofs::Exits::part_exits))]
pub fn class<'a>(
    alloc: Global,
    file: FileName,
    tokens: &'a [Token<'a>],
    end: Place,
    counts: Counts,
) -> Result<((Class, Counts), &'a [Token<'a>]), ReadError>
    ensures reads { ParsesBy view (jack end) class_rule (λ x. class_tree x.0)
        (λ x. x.1) counts tokens.now result }
    ensures file { IfOk result (λ r. r.0.0.file ≡ file) }
{
    let rest = keyword(tokens, end, counts, Keyword::Class)?;
    let (name, rest) = identifier(alloc, rest, end, counts)?;
    let rest = symbol(rest, end, counts, b'{')?;
    let ((variables, so_far), rest) = all_variables(alloc, rest, end, counts)?;
    let (subroutines, rest) = subroutines(alloc, rest, end, so_far)?;
    let rest = symbol(rest, end, so_far, b'}')?;
    let class = Class {
        file,
        name,
        variables,
        subroutines,
    };
    Ok(((class, so_far), rest))
}
