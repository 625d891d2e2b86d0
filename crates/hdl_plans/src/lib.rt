//! Laws of elaboration (book, chapters 1 to 3 and appendix 2), as definitions say it.
//!
//! A plan of a chip says which output of a part drives each bit of a net, and what feeds each bit of a part's input. A chip without faults
//! has the plan that is read off its text, and so have the chips in it, down to the ends. A loop is a circle of bits that feed each other
//! within a cycle. A tree has one exactly where the own graph of a chip in it has one. In that graph a part is known only by which of its
//! outputs depend on which of its inputs.
//!
//! The definitions are in `specs/`: `Plans` says what a plan is, `Planned` has the plan of a text, and `Loops` circles and the names of
//! their nets. `Ways` has the own graph of a chip, and `Rows` facts about small chips.
#![tactic(auto)]

mod laws;

pub use laws::{circle_law, fit_law, plan_law, rank_law, rows_law, sound_law};
