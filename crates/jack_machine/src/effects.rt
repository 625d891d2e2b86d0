//! What the first statement does once its parts are values.

ghost use Rattle.std.specs.Prelude.{◌≡◌, length, map, reverse};
ghost use Rattle.jack_meaning.specs.Text.{Value};
ghost use Rattle.jack_machine.specs.Parts.{wanted_in};
ghost use Rattle.jack_machine.specs.Texts.{written_statement};
ghost use Rattle.jack_machine.specs.Effects.{HasEffect};

use crate::looking::from_end;
use jack_core::{Statement, Variable};

/// What a statement does: a variable, a word at an address, or `this` becomes a value; nothing; a branch is chosen
/// by a value; a value is returned.
#[derive(Clone, Copy)]
pub(crate) enum Effect {
    Assigns(Variable, u16),
    Stores(u16, u16),
    SetsThis(u16),
    Drops,
    Chooses(u16),
    Returns(u16),
}

/// The effect of a statement in a frame with this `this`, where these are the values of its expressions.
pub(crate) fn effect_of(this: u16, s: &Statement, values: &[u16]) -> Effect
    requires { length values.now ≡ wanted_in s.now }
    ensures { HasEffect this (written_statement s.now (map Value (reverse values.now))) result }
{
    let w = from_end(values, 1);
    match s {
        Statement::Let { variable, .. } => Effect::Assigns(*variable, w),
        Statement::LetField { field, .. } => Effect::Stores(word16::add(this, *field), w),
        Statement::LetThis { .. } => Effect::SetsThis(w),
        Statement::Store { .. } => {
            let base = from_end(values, 3);
            let index = from_end(values, 2);
            Effect::Stores(word16::add(base, index), w)
        }
        Statement::Do { .. } => Effect::Drops,
        Statement::If { .. } => Effect::Chooses(w),
        Statement::While { .. } => Effect::Chooses(w),
        Statement::Return { .. } => Effect::Returns(w),
    }
}
