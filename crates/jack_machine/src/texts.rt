//! The rest of a frame's text.

ghost use Rattle.std.specs.Prelude.{◌≡◌, ◌+◌, ◌<◌, IfOk, OnOk, OnErr, List, [], nat_eq, if◌then◌else◌};
ghost use Rattle.std.specs.Vec.{vec_len, vec_capacity};
ghost use Rattle.jack_meaning.specs.Text.{Expression as AnExpression, Next, joined_text};
ghost use Rattle.jack_meaning.specs.Meaning.{text_point};
ghost use Rattle.jack_core.specs.Reading.{build_expressions};
ghost use Rattle.jack_core.specs.Texts.{the_statement, the_block};
ghost use Rattle.jack_machine.specs.Parts.{parts_of};
ghost use Rattle.jack_machine.specs.Texts.{the_after, the_text, begun_text, written_statement, chosen_text};

use crate::fronts::{First, Front};
use crate::parts::begin;
use jack_core::Statement;
use std::alloc::{AllocError, Global};

/// Statements of one block that follow: the first of them, and those after it.
#[derive(Clone, Copy)]
pub(crate) struct Row<'a> {
    pub first: &'a Statement,
    pub others: &'a [Statement],
}

/// The rest of a text: what comes first, and the rows that follow, the innermost last.
#[derive(Drop)]
pub(crate) struct Text<'a> {
    pub front: Front<'a>,
    pub after: Vec<Row<'a>>,
}

// The next statement of the innermost row; nothing, where no row is left.
fn take_next<'a>(after: &mut Vec<Row<'a>>) -> First<'a>
    ensures { (es : List AnExpression)
        → begun_text result 0 es (the_after after.new.items) ≡ the_after after.old.items }
{
    match after.pop() {
        None => First::Nothing,
        Some(row) => {
            if let Some((first, others)) = row.others.split_first() {
                after.push_reserved(Row { first, others });
            }
            First::Statement(row.first)
        }
    }
}

/// The first statement is taken off, and the next one comes first.
pub(crate) fn advance(text: &mut Text)
    ensures { the_text text.new ≡ the_after text.old.after.items }
{
    let first = take_next(&mut text.after);
    begin(&mut text.front, first);
}

// A block goes before what follows.
fn push_block<'a>(after: &mut Vec<Row<'a>>, block: &'a [Statement])
    requires { vec_len after.old < vec_capacity after.old }
    ensures { the_after after.new.items
        ≡ joined_text (the_block block.now) (the_after after.old.items) }
{
    if let Some((first, others)) = block.split_first() {
        after.push_reserved(Row { first, others });
    }
}

// A loop goes before what follows, to come again.
fn push_loop<'a>(after: &mut Vec<Row<'a>>, first: &'a Statement)
    requires { vec_len after.old < vec_capacity after.old }
    ensures text { the_after after.new.items
        ≡ Next (the_statement first.now) (the_after after.old.items) }
    ensures len { vec_len after.new ≡ vec_len after.old + 1 }
    ensures capacity { vec_capacity after.new ≡ vec_capacity after.old }
{
    let others: &[Statement] = &[];
    let row = Row { first, others };
    after.push_reserved(row);
}

fn branch_of<'a>(w: u16, holds: &'a [Statement], fails: &'a [Statement]) -> &'a [Statement]
    ensures { result.now ≡ (if nat_eq w 0 then fails.now else holds.now) }
{
    if w == 0 { fails } else { holds }
}

/// A choice is taken: any value but 0 takes its first branch. That of a loop is a turn, and the loop again. Where memory is
/// wanted nothing has changed.
pub(crate) fn choose<'a>(
    after: &mut Vec<Row<'a>>,
    choice: &'a Statement,
    w: u16,
) -> Result<(), AllocError>
    ensures done { OnOk result ((es : List AnExpression) → the_after after.new.items
        ≡ chosen_text w (Next (written_statement choice.now es) (the_after after.old.items))) }
    ensures refused { OnErr result (after.new.items ≡ after.old.items) }
{
    after.reserve(2)?;
    match choice {
        Statement::If { holds, fails, .. } => push_block(after, branch_of(w, holds, fails)),
        Statement::While { body, .. } => {
            if w != 0 {
                push_loop(after, choice);
                push_block(after, body);
            }
        }
        _ => {}
    }
    Ok(())
}

/// The number of the first statement; 2 where none is left.
pub(crate) fn first_number(text: &Text) -> u32
    ensures { result ≡ text_point (the_text text.now) }
{
    match text.front.first {
        First::Start(_) => 1,
        First::Statement(s) => s.number(),
        First::Nothing => 2,
    }
}

/// A text that begins with a block, and nothing after it.
pub(crate) fn text_of_block(alloc: Global, block: &[Statement]) -> Result<Text, AllocError>
    ensures { IfOk result (λ t. the_text t ≡ the_block block.now) }
{
    let mut after = Vec::new(alloc);
    after.reserve(1)?;
    push_block(&mut after, block);
    let first = take_next(&mut after);
    Ok(text_with(alloc, first, after))
}

/// A text with nothing done.
pub(crate) fn text_with<'a>(alloc: Global, first: First<'a>, after: Vec<Row<'a>>) -> Text<'a>
    ensures { the_text result ≡ begun_text first.entry 0
        (build_expressions [] (parts_of first.entry)) (the_after after.entry.items) }
{
    let values = Vec::new(alloc);
    let front = Front {
        first,
        done: 0,
        values,
    };
    Text { front, after }
}
