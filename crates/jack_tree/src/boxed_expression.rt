//! Expressions in a box of their own, where they are rare, so that what holds them is no larger.

ghost use Rattle.std.specs.Prelude.{◌≡◌, IfOk};
ghost use Rattle.std.specs.Coded.{codes};
ghost use Rattle.jack_tree.specs.declared.tree.Expression as trees;
ghost use Rattle.jack_tree.specs.contracts.tree.Expression as contracts;

use crate::tree::Expression;
use std::alloc::{AllocError, Global};
use std::marker::Model;

/// An expression in a box.
#[derive(Drop)]
pub struct BoxedExpression {
    held: Box<Expression>,
}

impl Model for BoxedExpression {
    ghost Value = { trees.Expression };

    ghost coded = { Prim.hlevel (codes, contracts.the_row.coded) };

    ghost view = { λ b. b.held.value };
}

impl BoxedExpression {
    /// The expression, in a box.
    pub fn new(alloc: Global, expression: Expression) -> Result<BoxedExpression, AllocError>
        ensures { IfOk result (λ b. b ≡ expression) }
    {
        Ok(BoxedExpression {
            held: Box::new(alloc, expression)?,
        })
    }

    /// The expression.
    pub fn get(&self) -> &Expression
        ensures { result.now ≡ self.now }
    {
        &self.held
    }
}
