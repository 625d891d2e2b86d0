//! What every level of the machine has in common. It is moved by keys, one move at a time, and its words and
//! control point can be read. With it come the loop that moves it, and what is printed of it.
#![tactic(auto)]

mod driving;
mod machine;
mod report;
mod screen;
mod words;

pub use driving::{End, Keyboard, Stop, Until, drive, drive_until};
pub use machine::{Level, Moved, Stray};
pub use report::{Head, LevelName, Show, put_head, put_shown, show_report};
pub use screen::{put_screen, show_screen};
pub use words::{put_words, show_words};
