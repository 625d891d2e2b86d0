//! Readers of one token.
#![tactic(auto, using(grammar::proofs::OneToken::one_token))]

ghost use Rattle.std.specs.Prelude.{◌≡◌, ◌<◌, ◌≤◌, ◌-◌, ◌+◌, ◌*◌, ◌%◌, ◌^◌, length, map, Some, None, Result, Ok, IfOk, nat_lt};
ghost use Rattle.grammar.specs.Reading.{Gives, ParsesBy, PassesBy, word_at};
ghost use Rattle.grammar.specs.Rules.{Leaf, next, here};
ghost use Rattle.script_parser.specs.Tokens.{view, is_text_byte};
ghost use Rattle.script_parser.specs.Numbers.{value_of};
ghost use Rattle.script_parser.specs.Grammar.{script, Word', Count, Value, Shown, Text', placed_of, fixed_word, placed_word, known_word, counted_word, valued_word, shown_word, free, check_count, check_value, check_item, is_sign, sign_of, is_ender, ender, is_role, begin, is_word, any_word, is_device, device, is_program, program, is_count, count, is_value, value, is_item, item, is_text, text, passes, steps, step, rom, place_in, too_large, times_more, item_laid, number_fault, layout_fault, role_in, next_role, acts, commands_begin};
ghost use Rattle.script_parser.specs.Trees.{step_said};
ghost use Rattle.script_parser.specs.Inner.Fits.{Within};

use crate::figures::{
    Figure, Number, WrittenLayout, ends_in, layout_of_word, number_of_word, whole_figure,
};
use crate::nesting::Nesting;
use crate::token::{Kind, Role, Token};
use crate::tree::{Item, Placed, Step};
use grammar::{Fault, ReadError};
use outer_world::List;
use scan_text::{Place, Scan};
use script_columns::Layout;
use std::alloc::{AllocError, Global};

const MOST: u32 = 1_000_000_000;

pub fn grammar_fault(place: Place) -> ReadError
    ensures { result ≡ ReadError.Fault (Fault.Grammar place) }
{
    ReadError::Fault(Fault::Grammar(place))
}

// The place of the digit of a word from which on there are this many bytes.
fn place_in(token: &Token, from_end: usize) -> Place
    ensures { result ≡ place_in (view token.now) from_end }
{
    let behind = token.text.len().saturating_sub(from_end);
    Place {
        line: token.place.line,
        column: token.place.column + behind as u32,
    }
}

// The figure of a word is past its limit.
fn too_large(token: &Token, figure: Figure) -> ReadError
    ensures { result
        ≡ ReadError.Fault (too_large (place_in (view token.now) figure.from_end) figure.value) }
{
    let place = place_in(token, figure.from_end);
    ReadError::Fault(Fault::Range(place, figure.value.min(1_000_000_000)))
}

fn bytes_of(alloc: Global, bytes: &[u8]) -> Result<List<u8>, AllocError>
    ensures { IfOk result (λ l. l ≡ bytes.now) }
{
    Ok(List::of(Vec::from_slice(alloc, bytes)?))
}

fn placed(alloc: Global, token: &Token) -> Result<Placed, AllocError>
    ensures { IfOk result (λ p. p ≡ placed_of (view token.now)) }
{
    Ok(Placed {
        text: bytes_of(alloc, token.text)?,
        place: token.place,
    })
}

fn role_in(token: &Token) -> Role
    ensures { result ≡ role_in token.now.kind }
{
    match token.kind {
        Kind::Word(role) => role,
        _ => Role::Plain,
    }
}

fn is_word(token: &Token) -> bool
    ensures { result ≡ is_word (view token.now) }
{
    matches!(token.kind, Kind::Word(_))
}

fn is_program(token: &Token) -> bool
    ensures { result ≡ is_program (view token.now) }
{
    is_word(token) && (ends_in(token.text, b".asm") || ends_in(token.text, b".hack"))
}

fn is_device(token: &Token) -> bool
    ensures { result ≡ is_device (view token.now) }
{
    is_word(token)
        && (ends_in(token.text, b".hdl")
            || (ends_in(token.text, b".asm") || ends_in(token.text, b".hack")))
}

fn is_ender(token: &Token) -> bool
    ensures { result ≡ is_ender (view token.now) }
{
    matches!(token.kind, Kind::Sign(b',' | b';' | b'!'))
}

// The word that a number is, which is at most 65,535, and at most 32,768 after a `-`.
fn word_of(token: &Token, number: Number) -> Result<u16, ReadError>
    ensures { Within (number_fault (view token.now) number) (value_of number) result }
{
    match number {
        Number::Plain(figure) => {
            if figure.value > 65_535 {
                return Err(too_large(token, figure));
            }
            Ok(figure.value as u16)
        }
        Number::Negative(figure) => {
            if figure.value > 32_768 {
                return Err(too_large(token, figure));
            }
            Ok(((65_536 - figure.value) % 65_536) as u16)
        }
        Number::Bits(word) => Ok(word),
    }
}

fn item_laid(alloc: Global, token: &Token, layout: WrittenLayout) -> Result<Item, ReadError>
    ensures { Within (layout_fault (view token.now) layout)
        (item_laid (view token.now) layout) result }
{
    if layout.left.value > 255 {
        return Err(too_large(token, layout.left));
    }
    if layout.shown.value > 255 {
        return Err(too_large(token, layout.shown));
    }
    if layout.right.value > 255 {
        return Err(too_large(token, layout.right));
    }
    let mut scan = Scan::new(token.text);
    let variable = scan.take_while(|b| b != b'%');
    let text = bytes_of(alloc, variable)?;
    Ok(Item {
        variable: Placed {
            text,
            place: token.place,
        },
        layout: Layout {
            format: layout.format,
            left: layout.left.value as u8,
            shown: layout.shown.value as u8,
            right: layout.right.value as u8,
        },
    })
}

/// A word.
pub fn any_word<'a>(
    alloc: Global,
    tokens: &'a [Token<'a>],
    end: Place,
    nesting: Nesting,
) -> Result<(Placed, &'a [Token<'a>]), ReadError>
    ensures reads { ParsesBy view (script end) any_word (λ x. Leaf (Word' x))
        (λ _. nesting) nesting tokens.now result }
    ensures shorter { IfOk result (λ r. length r.1.now < length tokens.now) }
{
    let Some((token, rest)) = tokens.split_first() else {
        return Err(grammar_fault(end));
    };
    let Kind::Word(_) = token.kind else {
        return Err(grammar_fault(token.place));
    };
    Ok((placed(alloc, token)?, rest))
}

/// A word that names a chip or a program.
pub fn device<'a>(
    alloc: Global,
    tokens: &'a [Token<'a>],
    end: Place,
    nesting: Nesting,
) -> Result<(Placed, &'a [Token<'a>]), ReadError>
    ensures reads { ParsesBy view (script end) device (λ x. Leaf (Word' x))
        (λ _. nesting) nesting tokens.now result }
    ensures shorter { IfOk result (λ r. length r.1.now < length tokens.now) }
{
    let Some((token, rest)) = tokens.split_first() else {
        return Err(grammar_fault(end));
    };
    if !is_device(token) {
        return Err(grammar_fault(token.place));
    }
    Ok((placed(alloc, token)?, rest))
}

/// A word that names a program.
pub fn program<'a>(
    alloc: Global,
    tokens: &'a [Token<'a>],
    end: Place,
    nesting: Nesting,
) -> Result<(Placed, &'a [Token<'a>]), ReadError>
    ensures reads { ParsesBy view (script end) program (λ x. Leaf (Word' x))
        (λ _. nesting) nesting tokens.now result }
    ensures shorter { IfOk result (λ r. length r.1.now < length tokens.now) }
{
    let Some((token, rest)) = tokens.split_first() else {
        return Err(grammar_fault(end));
    };
    if !is_program(token) {
        return Err(grammar_fault(token.place));
    }
    Ok((placed(alloc, token)?, rest))
}

/// `ROM32K`.
pub fn rom<'a>(
    alloc: Global,
    tokens: &'a [Token<'a>],
    end: Place,
    nesting: Nesting,
) -> Result<(Placed, &'a [Token<'a>]), ReadError>
    ensures reads { ParsesBy view (script end) rom (λ x. Leaf (Word' x))
        (λ _. nesting) nesting tokens.now result }
    ensures shorter { IfOk result (λ r. length r.1.now < length tokens.now) }
{
    let Some((token, rest)) = tokens.split_first() else {
        return Err(grammar_fault(end));
    };
    if role_in(token) != Role::Rom {
        return Err(grammar_fault(token.place));
    }
    Ok((placed(alloc, token)?, rest))
}

/// How often commands are repeated, and how many times they come to then.
pub fn count<'a>(
    tokens: &'a [Token<'a>],
    end: Place,
    nesting: Nesting,
) -> Result<((u32, Nesting), &'a [Token<'a>]), ReadError>
    ensures reads { ParsesBy view (script end) count (λ x. Leaf (Count x.0))
        (λ x. x.1) nesting tokens.now result }
    ensures shorter { IfOk result (λ r. length r.1.now < length tokens.now) }
    ensures times { IfOk result (λ r. r.0.1 ≡ times_more nesting r.0.0) }
{
    let Some((token, rest)) = tokens.split_first() else {
        return Err(grammar_fault(end));
    };
    let Kind::Word(_) = token.kind else {
        return Err(grammar_fault(token.place));
    };
    let Some(figure) = whole_figure(token.text) else {
        return Err(grammar_fault(token.place));
    };
    let times = nesting.times as u64 * figure.value as u64;
    if figure.value > MOST || times > MOST as u64 {
        return Err(ReadError::Fault(Fault::Range(token.place, MOST)));
    }
    let inner = Nesting {
        depth: nesting.depth,
        times: times as u32,
    };
    Ok(((figure.value, inner), rest))
}

/// The number of a `set`, as the word that it is.
pub fn value<'a>(
    tokens: &'a [Token<'a>],
    end: Place,
    nesting: Nesting,
) -> Result<(u16, &'a [Token<'a>]), ReadError>
    ensures reads { ParsesBy view (script end) value (λ x. Leaf (Value x))
        (λ _. nesting) nesting tokens.now result }
    ensures shorter { IfOk result (λ r. length r.1.now < length tokens.now) }
{
    let Some((token, rest)) = tokens.split_first() else {
        return Err(grammar_fault(end));
    };
    let Kind::Word(_) = token.kind else {
        return Err(grammar_fault(token.place));
    };
    let Some(number) = number_of_word(token.text) else {
        return Err(grammar_fault(token.place));
    };
    Ok((word_of(token, number)?, rest))
}

fn item_at<'a>(
    alloc: Global,
    tokens: &'a [Token<'a>],
    end: Place,
    nesting: Nesting,
) -> Result<(Item, &'a [Token<'a>]), ReadError>
    ensures reads { Gives (λ x. (Shown x.0, nesting, map view x.1.now)) result
        (word_at (script end) is_item check_item shown_word nesting (map view tokens.now)) }
    ensures shorter { IfOk result (λ r. length r.1.now < length tokens.now) }
{
    let Some((token, rest)) = tokens.split_first() else {
        return Err(grammar_fault(end));
    };
    let Kind::Word(_) = token.kind else {
        return Err(grammar_fault(token.place));
    };
    let Some(layout) = layout_of_word(token.text) else {
        return Err(grammar_fault(token.place));
    };
    Ok((item_laid(alloc, token, layout)?, rest))
}

/// An item of an output list.
pub fn item<'a>(
    alloc: Global,
    tokens: &'a [Token<'a>],
    end: Place,
    nesting: Nesting,
) -> Result<(Item, &'a [Token<'a>]), ReadError>
    ensures reads { ParsesBy view (script end) item (λ x. Leaf (Shown x))
        (λ _. nesting) nesting tokens.now result }
    ensures shorter { IfOk result (λ r. length r.1.now < length tokens.now) }
{
    item_at(alloc, tokens, end, nesting)
}

/// A text in quotes.
pub fn text<'a>(
    alloc: Global,
    tokens: &'a [Token<'a>],
    end: Place,
    nesting: Nesting,
) -> Result<(List<u8>, &'a [Token<'a>]), ReadError>
    ensures reads { ParsesBy view (script end) text (λ x. Leaf (Text' x))
        (λ _. nesting) nesting tokens.now result }
    ensures shorter { IfOk result (λ r. length r.1.now < length tokens.now) }
{
    let Some((token, rest)) = tokens.split_first() else {
        return Err(grammar_fault(end));
    };
    let Kind::Text = token.kind else {
        return Err(grammar_fault(token.place));
    };
    Ok((bytes_of(alloc, token.text)?, rest))
}

/// A command of one word.
pub fn step<'a>(
    tokens: &'a [Token<'a>],
    end: Place,
    nesting: Nesting,
) -> Result<(Step, &'a [Token<'a>]), ReadError>
    ensures reads { ParsesBy view (script end) step (λ x. Leaf (step_said x))
        (λ _. nesting) nesting tokens.now result }
    ensures shorter { IfOk result (λ r. length r.1.now < length tokens.now) }
{
    let Some((token, rest)) = tokens.split_first() else {
        return Err(grammar_fault(end));
    };
    match token.kind {
        Kind::Word(Role::Eval) => Ok((Step::Eval, rest)),
        Kind::Word(Role::Tick) => Ok((Step::Tick, rest)),
        Kind::Word(Role::Tock) => Ok((Step::Tock, rest)),
        Kind::Word(Role::TickTock) => Ok((Step::TickTock, rest)),
        Kind::Word(Role::Output) => Ok((Step::Output, rest)),
        _ => Err(grammar_fault(token.place)),
    }
}

/// This sign.
pub fn sign<'a>(
    tokens: &'a [Token<'a>],
    end: Place,
    nesting: Nesting,
    byte: u8,
) -> Result<&'a [Token<'a>], ReadError>
    ensures reads { PassesBy view (script end) (sign_of byte) nesting tokens.now result }
    ensures shorter { IfOk result (λ r. length r.now < length tokens.now) }
{
    let Some((token, rest)) = tokens.split_first() else {
        return Err(grammar_fault(end));
    };
    let Kind::Sign(other) = token.kind else {
        return Err(grammar_fault(token.place));
    };
    if other != byte {
        return Err(grammar_fault(token.place));
    }
    Ok(rest)
}

/// A word of this role.
pub fn begin<'a>(
    tokens: &'a [Token<'a>],
    end: Place,
    nesting: Nesting,
    role: Role,
) -> Result<&'a [Token<'a>], ReadError>
    ensures reads { PassesBy view (script end) (begin role) nesting tokens.now result }
    ensures shorter { IfOk result (λ r. length r.now < length tokens.now) }
{
    let Some((token, rest)) = tokens.split_first() else {
        return Err(grammar_fault(end));
    };
    if role_in(token) == role {
        Ok(rest)
    } else {
        Err(grammar_fault(token.place))
    }
}

/// The sign at the end of a command.
pub fn ender<'a>(
    tokens: &'a [Token<'a>],
    end: Place,
    nesting: Nesting,
) -> Result<&'a [Token<'a>], ReadError>
    ensures reads { PassesBy view (script end) ender nesting tokens.now result }
    ensures shorter { IfOk result (λ r. length r.now < length tokens.now) }
{
    let Some((token, rest)) = tokens.split_first() else {
        return Err(grammar_fault(end));
    };
    if is_ender(token) {
        Ok(rest)
    } else {
        Err(grammar_fault(token.place))
    }
}

/// What the next token is at the begin of a command.
pub fn next_role(tokens: &[Token]) -> Role
    ensures { result ≡ next_role (map view tokens.now) }
{
    match tokens.first() {
        None => Role::Plain,
        Some(token) => role_in(token),
    }
}

fn is_item(token: &Token) -> bool
    ensures { result ≡ is_item (view token.now) }
{
    is_word(token) && layout_of_word(token.text).is_some()
}

/// An item comes next.
pub fn item_stands(tokens: &[Token]) -> bool
    ensures { next is_item (map view tokens.now) ≡ result }
{
    match tokens.first() {
        None => false,
        Some(token) => is_item(token),
    }
}

/// The place of the next token, or of the end of the text.
pub fn here(tokens: &[Token], end: Place) -> Place
    ensures { result ≡ here (script end) (map view tokens.now) }
{
    match tokens.first() {
        None => end,
        Some(token) => token.place,
    }
}

fn is_step(role: Role) -> bool
    ensures { result ≡ steps role }
{
    matches!(
        role,
        Role::Eval | Role::Tick | Role::Tock | Role::TickTock | Role::Output
    )
}

fn begins_act(role: Role) -> bool
    ensures { result ≡ acts role }
{
    !matches!(role, Role::Plain | Role::Repeat)
}

fn begins_command(role: Role) -> bool
    ensures { result ≡ commands_begin role }
{
    !matches!(role, Role::Plain)
}

/// A command of one word comes next.
pub fn step_stands(tokens: &[Token]) -> bool
    ensures { next (passes steps) (map view tokens.now) ≡ result }
{
    match tokens.first() {
        None => false,
        Some(token) => is_step(role_in(token)),
    }
}

/// A repetition comes next.
pub fn repetition_begins(tokens: &[Token]) -> bool
    ensures { next (is_role Role.Repeat) (map view tokens.now) ≡ result }
{
    match tokens.first() {
        None => false,
        Some(token) => role_in(token) == Role::Repeat,
    }
}

/// A command that is no repetition comes next.
pub fn act_begins(tokens: &[Token]) -> bool
    ensures { next (passes acts) (map view tokens.now) ≡ result }
{
    match tokens.first() {
        None => false,
        Some(token) => begins_act(role_in(token)),
    }
}

/// A command comes next.
pub fn command_begins(tokens: &[Token]) -> bool
    ensures { next (passes commands_begin) (map view tokens.now) ≡ result }
{
    match tokens.first() {
        None => false,
        Some(token) => begins_command(role_in(token)),
    }
}
