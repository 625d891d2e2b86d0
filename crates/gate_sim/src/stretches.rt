//! Stretches: operations of one kind that follow one another. Nothing rests on where they end.

use crate::plan::Op;
use std::alloc::{AllocError, Global};

/// The kinds of operations for which evaluation has a loop of its own.
#[derive(Clone, Copy, PartialEq, Eq)]
pub(crate) enum OpKind {
    Gates,
    Lone,
    Move,
    Other,
}

/// Operations up to one, of one kind.
#[derive(Clone, Copy)]
pub(crate) struct Stretch {
    pub(crate) kind: OpKind,
    pub(crate) end: usize,
}

/// Whether an operation is of a kind. All are of the last.
#[inline(always)]
pub(crate) fn is_of_kind(op: Op, kind: OpKind) -> bool {
    match kind {
        OpKind::Gates => matches!(op, Op::Gates { .. }),
        OpKind::Lone => matches!(op, Op::Lone { .. }),
        OpKind::Move => matches!(op, Op::Move { .. }),
        OpKind::Other => true,
    }
}

fn kind_of(op: Op) -> OpKind {
    match op {
        Op::Gates { .. } => OpKind::Gates,
        Op::Lone { .. } => OpKind::Lone,
        Op::Move { .. } => OpKind::Move,
        Op::Held => OpKind::Other,
        Op::Zeros => OpKind::Other,
        Op::Spread { .. } => OpKind::Other,
        Op::Read { .. } => OpKind::Other,
    }
}

/// The stretches of operations.
pub(crate) fn stretches_of(alloc: Global, ops: &[Op]) -> Result<Vec<Stretch>, AllocError> {
    let mut stretches = Vec::new(alloc);
    for q in 0..ops.len() {
        let kind = kind_of(ops[q]);
        let end = q + 1;
        if end == ops.len() || kind_of(ops[end]) != kind {
            stretches.push(Stretch { kind, end })?;
        }
    }
    Ok(stretches)
}
