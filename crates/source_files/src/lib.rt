//! Source files of every language: the text of a file as a source, or why it is refused, and the sources of a folder in order of name.
#![tactic(auto)]

mod error;
mod folder;
mod language;
mod laws;
mod loading;

pub use error::{LoadError, Refusal, TextError};
pub use folder::{load_folder, path_in, stem};
pub use language::Language;
pub use laws::names_law;
pub use loading::{load, load_text};
