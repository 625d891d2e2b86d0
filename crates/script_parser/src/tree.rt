//! What a test script says (book, appendix 3).
use outer_world::List;
use scan_text::Place;
use script_columns::Layout;

/// A word of a script, with the place where it stands.
#[derive(Drop)]
pub struct Placed {
    pub text: List<u8>,
    pub place: Place,
}

/// An item of an output list: its variable, and the column that shows it.
#[derive(Drop)]
pub struct Item {
    pub variable: Placed,
    pub layout: Layout,
}

/// A command of one word.
#[derive(Clone, Copy, Debug, PartialEq, Eq)]
pub enum Step {
    Eval,
    Tick,
    Tock,
    TickTock,
    Output,
}

/// A command that is no repetition.
#[derive(Drop)]
pub enum Act {
    Step(Step),
    /// `load`: a chip or a program.
    Load(Placed),
    OutputFile(Placed),
    CompareTo(Placed),
    OutputList(List<Item>),
    /// `set`: the variable, and the word that it gets.
    Set(Placed, u16),
    Echo(List<u8>),
    /// `ROM32K load`: that first word, and the program.
    LoadRom(Placed, Placed),
}

/// A command: an act, or commands that are repeated this many times.
#[derive(Drop)]
pub enum Command {
    Act(Act),
    Repeat(u32, Vec<Command>),
}
