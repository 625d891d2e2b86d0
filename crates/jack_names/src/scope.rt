//! What names stand for in a subroutine.

ghost use Rattle.std.specs.Prelude.{◌≡◌};
ghost use Rattle.jack_names.specs.Inner.Scoped.{the_scope, found_in};

use crate::fault::File;
use jack_tree::{Form, Text};
use name_table::Table;

/// Where a variable is: its number among those of its kind. The statics are numbered through all classes.
#[derive(Clone, Copy, Debug, PartialEq, Eq)]
pub enum Slot {
    Argument(u32),
    Local(u32),
    Field(u16),
    Static(u32),
}

/// A variable: where it is, and the number of the class that is its type, where that is a class.
#[derive(Clone, Copy, Debug)]
pub struct Declared {
    pub slot: Slot,
    pub class: Option<u32>,
}

/// A subroutine: its number among all, its form and how many parameters it has.
#[derive(Clone, Copy, Debug)]
pub struct Signature {
    pub number: u32,
    pub form: Form,
    pub parameters: usize,
}

/// How a call is made: through a class, through a variable, or through neither.
#[derive(Clone, Copy, Debug, PartialEq, Eq)]
pub enum Way {
    ByClass,
    ByObject,
    Own,
}

/// How a call is made, and the number of the class that it goes to.
#[derive(Clone, Copy)]
pub(crate) struct Callee {
    pub way: Way,
    pub class: u32,
}

/// The numbers of all classes, and the subroutines of each.
#[derive(Drop)]
pub(crate) struct Names<'a> {
    pub classes: Table<'a, u32>,
    pub subroutines: Vec<Table<'a, Signature>>,
}

/// What names stand for in the class of a number.
#[derive(Clone, Copy)]
pub(crate) struct ClassScope<'a, 'b> {
    pub names: &'b Names<'a>,
    pub members: &'b Table<'a, Declared>,
    pub own: u32,
    pub file: File<'b>,
}

/// What a subroutine has from its class: the class's name, and how many fields each of its objects has.
#[derive(Clone, Copy)]
pub(crate) struct Owner<'a> {
    pub name: &'a Text,
    pub fields: u16,
}

/// What names stand for in a subroutine of a form, in the class of a number.
#[derive(Clone, Copy)]
pub(crate) struct Scope<'a, 'b> {
    pub names: &'b Names<'a>,
    pub locals: &'b Table<'a, Declared>,
    pub members: &'b Table<'a, Declared>,
    pub form: Form,
    pub own: u32,
    pub file: File<'b>,
}

impl<'a, 'b> Scope<'a, 'b> {
    /// A parameter or local, or else a field or static.
    pub(crate) fn variable(&self, name: &'a [u8]) -> Option<Declared>
        ensures { result ≡ (the_scope self.now).variable name.now }
    {
        match self.locals.find(name) {
            Some(v) => Some(v),
            None => self.members.find(name),
        }
    }

    /// The number of a class.
    pub(crate) fn class(&self, name: &'a [u8]) -> Option<u32>
        ensures { result ≡ (the_scope self.now).class name.now }
    {
        self.names.class(name)
    }

    /// A subroutine of the class of a number.
    pub(crate) fn subroutine(&self, class: u32, name: &'a [u8]) -> Option<Signature>
        ensures { result ≡ (the_scope self.now).subroutine class name.now }
    {
        self.names.subroutine(class, name)
    }
}
