//! What comes first of a text, and how much of it is done.

ghost use Rattle.std.specs.Prelude.{◌≡◌, drop, length, Some};
ghost use Rattle.jack_core.specs.Heights.{height};
ghost use Rattle.jack_machine.specs.Parts.{parts_of, wanted_count};

use jack_core::Statement;

/// What comes first of a text: `do Sys.init();` of the frame `start`, which stands nowhere in the program, with the
/// number of `Sys.init`; a statement of the program; or nothing, where no statement is left.
#[derive(Clone, Copy)]
pub(crate) enum First<'a> {
    Start(u32),
    Statement(&'a Statement),
    Nothing,
}

/// What comes first, how many of its parts are done, and the values that stand in it, the last one last.
#[derive(Drop)]
pub(crate) struct Front<'a> {
    pub first: First<'a>,
    pub done: usize,
    pub values: Vec<u16>,
    // Each part that is left finds its operands, and as many values are left as the statement wants.
    pub ghost fits: { height (length values.items) (drop done (parts_of first))
        ≡ Some (wanted_count first) },
}
