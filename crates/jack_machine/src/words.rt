//! The operators on words.

ghost use Rattle.std.specs.Prelude.{◌≡◌};
ghost use Rattle.jack_meaning.specs.Words.{sign_of, operator_of};
ghost use Rattle.jack_core.specs.Reading.{the_sign, the_operator};

use jack_core::{Operator, Sign};

pub(crate) fn sign(sign: Sign, x: u16) -> u16
    ensures { result ≡ sign_of (the_sign sign) x }
{
    match sign {
        Sign::Minus => word16::neg(x),
        Sign::Complement => word16::not(x),
        Sign::ShiftLeft => word16::shl(x),
        Sign::ShiftRight => word16::shr(x),
    }
}

pub(crate) fn operate(operator: Operator, x: u16, y: u16) -> u16
    ensures { result ≡ operator_of (the_operator operator) x y }
{
    match operator {
        Operator::Plus => word16::add(x, y),
        Operator::Subtract => word16::sub(x, y),
        Operator::And => word16::and(x, y),
        Operator::Or => word16::or(x, y),
        Operator::Less => word16::word_lt(x, y),
        Operator::Greater => word16::word_gt(x, y),
        Operator::Equal => word16::word_eq(x, y),
    }
}
