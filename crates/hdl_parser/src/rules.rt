//! Readers of the rules of HDL.

ghost use Rattle.std.specs.Prelude.{◌≡◌, ◌<◌, ◌≤◌, ◌-◌, ◌+◌, ◌^◌, length, Some, None, Result, Ok, List, ℕ, IfOk, map};
ghost use Rattle.grammar.specs.Reading.{ParsesBy, PassesBy, Halt};
ghost use Rattle.grammar.specs.Rules.{option, repeat, tree_of_list, NoMore, Leaf};
ghost use Rattle.hdl_parser.specs.Tokens.{view};
ghost use Rattle.hdl_parser.specs.Grammar.{hdl, row, width_rule, pin, pins, name, listing, last, range, indices, subscript, selection, source, connection, part, parts, builtin, body, chip};
ghost use Rattle.hdl_parser.specs.Trees.{width_tree, pin_tree, pins_tree, row_with, name_leaf, names_tree, last_tree, range_tree, first_bit, indices_tree, subscript_tree, selection_tree, source_tree, connection_tree, connections_tree, part_tree, parts_tree, builtin_tree, body_tree, chip_tree};

use crate::token::{Keyword, Token};
use crate::words::{
    constant, constant_stands, dots, dots_stand, grammar_fault, here, index, keyword,
    keyword_stands, last_index, name, name_stands, number_stands, stands, symbol, width,
};
use grammar::ReadError;
use hdl_tree::{Body, Chip, Connection, List, Name, Part, Pin, Selection, Source, Subscript};
use scan_text::Place;
use std::alloc::Global;

// The width of a pin, where one is written.
#[tactic(auto, using(crate::proofs::Exits::hdl_exits))]
fn written_width<'a>(
    tokens: &'a [Token<'a>],
    end: Place,
) -> Result<(Option<u8>, &'a [Token<'a>]), ReadError>
    ensures reads { ParsesBy view (hdl end) (option width_rule) width_tree
        (λ _. 0) 0 tokens.now result }
    ensures no_longer { IfOk result (λ r. length r.1.now ≤ length tokens.now) }
{
    if !stands(tokens, b'[') {
        return Ok((None, tokens));
    }
    let rest = symbol(tokens, end, b'[')?;
    let (width, rest) = width(rest, end)?;
    let rest = symbol(rest, end, b']')?;
    Ok((Some(width), rest))
}

#[tactic(auto, using(crate::proofs::Exits::hdl_exits))]
fn pin<'a>(
    alloc: Global,
    tokens: &'a [Token<'a>],
    end: Place,
) -> Result<(Pin, &'a [Token<'a>]), ReadError>
    ensures reads { ParsesBy view (hdl end) pin pin_tree (λ _. 0) 0 tokens.now result }
    ensures shorter { IfOk result (λ r. length r.1.now < length tokens.now) }
{
    let (name, rest) = name(alloc, tokens, end)?;
    let (width, rest) = written_width(rest, end)?;
    Ok((Pin { name, width }, rest))
}

// One pin or more.
#[tactic(auto, using(crate::proofs::Exits::hdl_exits, grammar::proofs::Continues::halt_tested))]
fn pin_list<'a>(
    alloc: Global,
    tokens: &'a [Token<'a>],
    end: Place,
) -> Result<(List<Pin>, &'a [Token<'a>]), ReadError>
    ensures reads { ParsesBy view (hdl end) (row pin) (λ x. row_with pin_tree x NoMore)
        (λ _. 0) 0 tokens.now result }
    ensures shorter { IfOk result (λ r. length r.1.now < length tokens.now) }
    ensures some { IfOk result (λ r. 1 ≤ length r.0) }
{
    let mut pins = Vec::new(alloc);
    let (first, after_first) = pin(alloc, tokens, end)?;
    pins.push(first)?;
    let mut rest = after_first;
    'more: while stands(rest, b',') {
        let after_comma = symbol(rest, end, b',')?;
        let (one, after) = pin(alloc, after_comma, end)?;
        pins.push(one)?;
        rest = after;
    }
    Ok((List::of(pins), rest))
}

// The pins after this keyword, if it comes.
#[tactic(auto, using(crate::proofs::Exits::hdl_exits))]
fn pins<'a>(
    alloc: Global,
    tokens: &'a [Token<'a>],
    end: Place,
    word: Keyword,
) -> Result<(List<Pin>, &'a [Token<'a>]), ReadError>
    ensures reads { ParsesBy view (hdl end) (pins word) pins_tree (λ _. 0) 0 tokens.now result }
    ensures no_longer { IfOk result (λ r. length r.1.now ≤ length tokens.now) }
{
    if !keyword_stands(tokens, word) {
        return Ok((List::of(Vec::new(alloc)), tokens));
    }
    let rest = keyword(tokens, end, word)?;
    let (pins, rest) = pin_list(alloc, rest, end)?;
    let rest = symbol(rest, end, b';')?;
    Ok((pins, rest))
}

// One name or more.
#[tactic(auto, using(crate::proofs::Exits::hdl_exits, grammar::proofs::Continues::halt_tested))]
fn name_list<'a>(
    alloc: Global,
    tokens: &'a [Token<'a>],
    end: Place,
) -> Result<(List<Name>, &'a [Token<'a>]), ReadError>
    ensures reads { ParsesBy view (hdl end) (row name) (λ x. row_with name_leaf x NoMore)
        (λ _. 0) 0 tokens.now result }
    ensures shorter { IfOk result (λ r. length r.1.now < length tokens.now) }
    ensures some { IfOk result (λ r. 1 ≤ length r.0) }
{
    let mut names = Vec::new(alloc);
    let (first, after_first) = name(alloc, tokens, end)?;
    names.push(first)?;
    let mut rest = after_first;
    'more: while stands(rest, b',') {
        let after_comma = symbol(rest, end, b',')?;
        let (one, after) = name(alloc, after_comma, end)?;
        names.push(one)?;
        rest = after;
    }
    Ok((List::of(names), rest))
}

// The names after `CLOCKED`, if it comes.
#[tactic(auto, using(crate::proofs::Exits::hdl_exits))]
fn clocked<'a>(
    alloc: Global,
    tokens: &'a [Token<'a>],
    end: Place,
) -> Result<(List<Name>, &'a [Token<'a>]), ReadError>
    ensures reads { ParsesBy view (hdl end) (option (listing Keyword.Clocked name)) names_tree
        (λ _. 0) 0 tokens.now result }
    ensures no_longer { IfOk result (λ r. length r.1.now ≤ length tokens.now) }
{
    if !keyword_stands(tokens, Keyword::Clocked) {
        return Ok((List::of(Vec::new(alloc)), tokens));
    }
    let rest = keyword(tokens, end, Keyword::Clocked)?;
    let (names, rest) = name_list(alloc, rest, end)?;
    let rest = symbol(rest, end, b';')?;
    Ok((names, rest))
}

// The index after `..`, if that comes.
#[tactic(auto, using(crate::proofs::Exits::hdl_exits))]
fn last<'a>(
    tokens: &'a [Token<'a>],
    end: Place,
    first: u8,
) -> Result<(Option<u8>, &'a [Token<'a>]), ReadError>
    ensures reads { ParsesBy view (hdl end) (option last) last_tree
        (λ _. first) first tokens.now result }
    ensures no_longer { IfOk result (λ r. length r.1.now ≤ length tokens.now) }
{
    if !dots_stand(tokens) {
        return Ok((None, tokens));
    }
    let rest = dots(tokens, end, first)?;
    let (last, rest) = last_index(rest, end, first)?;
    Ok((Some(last), rest))
}

// One index, or two with `..` between them.
#[tactic(auto, using(crate::proofs::Exits::hdl_exits))]
fn range<'a>(tokens: &'a [Token<'a>], end: Place) -> Result<(Subscript, &'a [Token<'a>]), ReadError>
    ensures reads { ParsesBy view (hdl end) range range_tree first_bit 0 tokens.now result }
    ensures shorter { IfOk result (λ r. length r.1.now < length tokens.now) }
{
    let (first, rest) = index(tokens, end)?;
    let (last, rest) = last(rest, end, first)?;
    match last {
        None => Ok((Subscript::Bit(first), rest)),
        Some(last) => Ok((Subscript::Bits(first, last), rest)),
    }
}

#[tactic(auto, using(crate::proofs::Exits::hdl_exits))]
fn indices<'a>(
    tokens: &'a [Token<'a>],
    end: Place,
) -> Result<(Subscript, &'a [Token<'a>]), ReadError>
    ensures reads { ParsesBy view (hdl end) indices indices_tree (λ _. 0) 0 tokens.now result }
    ensures shorter { IfOk result (λ r. length r.1.now < length tokens.now) }
{
    if !number_stands(tokens) {
        return Err(grammar_fault(here(tokens, end)));
    }
    let (subscript, rest) = range(tokens, end)?;
    Ok((subscript, rest))
}

// The bits in brackets, where some are written.
#[tactic(auto, using(crate::proofs::Exits::hdl_exits))]
fn subscript<'a>(
    tokens: &'a [Token<'a>],
    end: Place,
) -> Result<(Option<Subscript>, &'a [Token<'a>]), ReadError>
    ensures reads { ParsesBy view (hdl end) (option subscript) subscript_tree
        (λ _. 0) 0 tokens.now result }
    ensures no_longer { IfOk result (λ r. length r.1.now ≤ length tokens.now) }
{
    if !stands(tokens, b'[') {
        return Ok((None, tokens));
    }
    let rest = symbol(tokens, end, b'[')?;
    let (subscript, rest) = indices(rest, end)?;
    let rest = symbol(rest, end, b']')?;
    Ok((Some(subscript), rest))
}

#[tactic(auto, using(crate::proofs::Exits::hdl_exits))]
fn selection<'a>(
    alloc: Global,
    tokens: &'a [Token<'a>],
    end: Place,
) -> Result<(Selection, &'a [Token<'a>]), ReadError>
    ensures reads { ParsesBy view (hdl end) selection selection_tree (λ _. 0) 0 tokens.now result }
    ensures shorter { IfOk result (λ r. length r.1.now < length tokens.now) }
{
    let (name, rest) = name(alloc, tokens, end)?;
    let (subscript, rest) = subscript(rest, end)?;
    Ok((Selection { name, subscript }, rest))
}

#[tactic(auto, using(crate::proofs::Exits::hdl_exits))]
fn source<'a>(
    alloc: Global,
    tokens: &'a [Token<'a>],
    end: Place,
) -> Result<(Source, &'a [Token<'a>]), ReadError>
    ensures reads { ParsesBy view (hdl end) source source_tree (λ _. 0) 0 tokens.now result }
    ensures shorter { IfOk result (λ r. length r.1.now < length tokens.now) }
{
    if name_stands(tokens) {
        let (selection, rest) = selection(alloc, tokens, end)?;
        return Ok((Source::Net(selection), rest));
    }
    if !constant_stands(tokens) {
        return Err(grammar_fault(here(tokens, end)));
    }
    let (value, rest) = constant(tokens, end)?;
    Ok((Source::Constant(value), rest))
}

#[tactic(auto, using(crate::proofs::Exits::hdl_exits))]
fn connection<'a>(
    alloc: Global,
    tokens: &'a [Token<'a>],
    end: Place,
) -> Result<(Connection, &'a [Token<'a>]), ReadError>
    ensures reads { ParsesBy view (hdl end) connection connection_tree
        (λ _. 0) 0 tokens.now result }
    ensures shorter { IfOk result (λ r. length r.1.now < length tokens.now) }
{
    let (pin, rest) = selection(alloc, tokens, end)?;
    let rest = symbol(rest, end, b'=')?;
    let (source, rest) = source(alloc, rest, end)?;
    Ok((Connection { pin, source }, rest))
}

// One connection or more.
#[tactic(auto, using(crate::proofs::Exits::hdl_exits, grammar::proofs::Continues::halt_tested))]
fn connections<'a>(
    alloc: Global,
    tokens: &'a [Token<'a>],
    end: Place,
) -> Result<(List<Connection>, &'a [Token<'a>]), ReadError>
    ensures reads { ParsesBy view (hdl end) (row connection) connections_tree
        (λ _. 0) 0 tokens.now result }
    ensures shorter { IfOk result (λ r. length r.1.now < length tokens.now) }
{
    let mut connections = Vec::new(alloc);
    let (first, after_first) = connection(alloc, tokens, end)?;
    connections.push(first)?;
    let mut rest = after_first;
    'more: while stands(rest, b',') {
        let after_comma = symbol(rest, end, b',')?;
        let (one, after) = connection(alloc, after_comma, end)?;
        connections.push(one)?;
        rest = after;
    }
    Ok((List::of(connections), rest))
}

#[tactic(auto, using(crate::proofs::Exits::hdl_exits))]
fn part<'a>(
    alloc: Global,
    tokens: &'a [Token<'a>],
    end: Place,
) -> Result<(Part, &'a [Token<'a>]), ReadError>
    ensures reads { ParsesBy view (hdl end) part part_tree (λ _. 0) 0 tokens.now result }
    ensures shorter { IfOk result (λ r. length r.1.now < length tokens.now) }
{
    let (chip, rest) = name(alloc, tokens, end)?;
    let rest = symbol(rest, end, b'(')?;
    let (connections, rest) = connections(alloc, rest, end)?;
    let rest = symbol(rest, end, b')')?;
    let rest = symbol(rest, end, b';')?;
    Ok((Part { chip, connections }, rest))
}

#[tactic(auto, using(crate::proofs::Exits::hdl_exits))]
fn part_list<'a>(
    alloc: Global,
    tokens: &'a [Token<'a>],
    end: Place,
) -> Result<(List<Part>, &'a [Token<'a>]), ReadError>
    ensures reads { ParsesBy view (hdl end) (repeat part) (λ v. tree_of_list part_tree v NoMore)
        (λ _. 0) 0 tokens.now result }
    ensures no_longer { IfOk result (λ r. length r.1.now ≤ length tokens.now) }
{
    let mut parts = Vec::new(alloc);
    if !name_stands(tokens) {
        return Ok((List::of(parts), tokens));
    }
    let (first, after_first) = part(alloc, tokens, end)?;
    parts.push(first)?;
    let mut rest = after_first;
    'all: while name_stands(rest) {
        let (one, after) = part(alloc, rest, end)?;
        parts.push(one)?;
        rest = after;
    }
    Ok((List::of(parts), rest))
}

// `PARTS`, a colon and the parts.
#[tactic(auto, using(crate::proofs::Exits::hdl_exits))]
fn parts<'a>(
    alloc: Global,
    tokens: &'a [Token<'a>],
    end: Place,
) -> Result<(List<Part>, &'a [Token<'a>]), ReadError>
    ensures reads { ParsesBy view (hdl end) parts parts_tree (λ _. 0) 0 tokens.now result }
    ensures shorter { IfOk result (λ r. length r.1.now < length tokens.now) }
{
    let rest = keyword(tokens, end, Keyword::Parts)?;
    let rest = symbol(rest, end, b':')?;
    let (parts, rest) = part_list(alloc, rest, end)?;
    Ok((parts, rest))
}

// `BUILTIN`, a name and the names that are clocked.
#[tactic(auto, using(crate::proofs::Exits::hdl_exits))]
fn builtin<'a>(
    alloc: Global,
    tokens: &'a [Token<'a>],
    end: Place,
) -> Result<((Name, List<Name>), &'a [Token<'a>]), ReadError>
    ensures reads { ParsesBy view (hdl end) builtin (λ x. builtin_tree x.0 x.1)
        (λ _. 0) 0 tokens.now result }
    ensures shorter { IfOk result (λ r. length r.1.now < length tokens.now) }
{
    let rest = keyword(tokens, end, Keyword::Builtin)?;
    let (name, rest) = name(alloc, rest, end)?;
    let rest = symbol(rest, end, b';')?;
    let (clocked, rest) = clocked(alloc, rest, end)?;
    Ok(((name, clocked), rest))
}

#[tactic(auto, using(crate::proofs::Exits::hdl_exits))]
fn body<'a>(
    alloc: Global,
    tokens: &'a [Token<'a>],
    end: Place,
) -> Result<(Body, &'a [Token<'a>]), ReadError>
    ensures reads { ParsesBy view (hdl end) body body_tree (λ _. 0) 0 tokens.now result }
    ensures shorter { IfOk result (λ r. length r.1.now < length tokens.now) }
{
    if keyword_stands(tokens, Keyword::Parts) {
        let (parts, rest) = parts(alloc, tokens, end)?;
        return Ok((Body::Parts(parts), rest));
    }
    if !keyword_stands(tokens, Keyword::Builtin) {
        return Err(grammar_fault(here(tokens, end)));
    }
    let ((name, clocked), rest) = builtin(alloc, tokens, end)?;
    Ok((Body::Builtin(name, clocked), rest))
}

/// A chip.
#[tactic(auto, using(crate::proofs::Exits::hdl_exits))]
pub fn chip<'a>(
    alloc: Global,
    tokens: &'a [Token<'a>],
    end: Place,
) -> Result<(Chip, &'a [Token<'a>]), ReadError>
    ensures { ParsesBy view (hdl end) chip chip_tree (λ _. 0) 0 tokens.now result }
{
    let rest = keyword(tokens, end, Keyword::Chip)?;
    let (name, rest) = name(alloc, rest, end)?;
    let rest = symbol(rest, end, b'{')?;
    let (inputs, rest) = pins(alloc, rest, end, Keyword::In)?;
    let (outputs, rest) = pins(alloc, rest, end, Keyword::Out)?;
    let (body, rest) = body(alloc, rest, end)?;
    let rest = symbol(rest, end, b'}')?;
    let chip = Chip {
        name,
        inputs,
        outputs,
        body,
    };
    Ok((chip, rest))
}
