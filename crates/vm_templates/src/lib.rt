//! What each command of the stack machine is in Hack instructions, and what these instructions do. (The book, chapters 7 and 8.)
#![tactic(auto)]

pub mod instructions;
mod laws;
pub mod routines;
pub mod shape;

pub use laws::{budgets_law, commands_law, start_law, templates_law, ways_law};
pub use routines::{Routine, Routines};
pub use shape::Shape;

/// The address of the start code's endless loop.
pub const ENDLESS_LOOP: u16 = 21;

/// How many instructions the start code has.
pub const START_SIZE: u16 = 23;

#[cfg(test)]
mod tests {
    use crate::instructions::{
        AM_IS_M_MINUS_1, D_IS_M, D_IS_NOT_A, IF_D_NOT_EQUAL, IF_D_NOT_LESS, JUMP, M_IS_D_OR_M,
        M_IS_M_MINUS_D, M_IS_M_SHIFTED_LEFT, M_IS_M_SHIFTED_RIGHT, M_IS_NOT_M,
    };
    use hack_isa::encode;

    // The words that the table of chapter 4 gives for the names.
    #[test]
    fn words_of_names(rt: HostRuntime) {
        assert_eq!(rt; encode(&D_IS_M), 0b1111_1100_0001_0000);
        assert_eq!(rt; encode(&AM_IS_M_MINUS_1), 0b1111_1100_1010_1000);
        assert_eq!(rt; encode(&D_IS_NOT_A), 0b1110_1100_0101_0000);
        assert_eq!(rt; encode(&M_IS_M_MINUS_D), 0b1111_0001_1100_1000);
        assert_eq!(rt; encode(&M_IS_D_OR_M), 0b1111_0101_0100_1000);
        assert_eq!(rt; encode(&M_IS_NOT_M), 0b1111_1100_0100_1000);
        assert_eq!(rt; encode(&M_IS_M_SHIFTED_LEFT), 0b1011_1000_0000_1000);
        assert_eq!(rt; encode(&M_IS_M_SHIFTED_RIGHT), 0b1011_0000_0000_1000);
        assert_eq!(rt; encode(&IF_D_NOT_LESS), 0b1110_0011_0000_0011);
        assert_eq!(rt; encode(&IF_D_NOT_EQUAL), 0b1110_0011_0000_0101);
        assert_eq!(rt; encode(&JUMP), 0b1110_1010_1000_0111);
    }
}
