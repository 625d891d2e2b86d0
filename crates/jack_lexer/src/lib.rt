//! Jack texts are cut into tokens (book, chapter 10).
#![tactic(auto)]

mod laws;
mod lexer;

pub use laws::longest_law;
pub use lexer::tokens;
