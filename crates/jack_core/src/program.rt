//! Statements, subroutines and whole programs.

ghost use Rattle.std.specs.Prelude.{◌≡◌};
ghost use Rattle.jack_meaning.specs.Text.{number_of};
ghost use Rattle.jack_core.specs.Texts.{the_statement};

use crate::tree::{Expression, Variable};
use outer_world::Name;

/// A statement with its number in its subroutine: statements are numbered from 1 in the order of the text, nested
/// ones included. A constructor's statement 0 is the one that takes its memory.
#[derive(Drop)]
pub enum Statement {
    Let {
        number: u32,
        variable: Variable,
        value: Expression,
    },
    /// `let` of a field of `this`, by its number.
    LetField {
        number: u32,
        field: u16,
        value: Expression,
    },
    /// `this` of a constructor becomes the block of memory that it has taken.
    LetThis {
        number: u32,
        value: Expression,
    },
    /// `let` of an array's element: the word at base plus index becomes the value.
    Store {
        number: u32,
        base: Expression,
        index: Expression,
        value: Expression,
    },
    Do {
        number: u32,
        call: Expression,
    },
    /// Whether the text has an `else`: without one, `fails` is empty.
    If {
        number: u32,
        has_else: bool,
        condition: Expression,
        holds: Vec<Statement>,
        fails: Vec<Statement>,
    },
    While {
        number: u32,
        condition: Expression,
        body: Vec<Statement>,
    },
    Return {
        number: u32,
        value: Expression,
    },
}

// All statements of a folder stand at once.
const _: () = prove!(size_of::<Statement>() == 80);

impl Statement {
    /// Its number.
    pub fn number(&self) -> u32
        ensures { result ≡ number_of (the_statement self.now) }
    {
        match self {
            Statement::Let { number, .. }
            | Statement::LetField { number, .. }
            | Statement::LetThis { number, .. }
            | Statement::Store { number, .. }
            | Statement::Do { number, .. }
            | Statement::If { number, .. }
            | Statement::While { number, .. }
            | Statement::Return { number, .. } => *number,
        }
    }
}

#[derive(Clone, Copy, PartialEq, Eq, Debug)]
pub enum Kind {
    Constructor,
    Function,
    Method,
}

/// A subroutine: its whole name as it is printed (`Main.main`), its kind, the number of its class, and its statements,
/// the last of which is a `Return`. It says how many arguments it takes (a method's object is one), and how many locals
/// it has.
#[derive(Drop)]
pub struct Subroutine {
    pub name: Name,
    pub kind: Kind,
    pub class: u32,
    pub arguments: u32,
    pub locals: u32,
    pub body: Vec<Statement>,
}

/// A class, with subroutines or without: its name, and how many fields and how many statics it has.
#[derive(Drop)]
pub struct Class {
    pub name: Name,
    pub fields: u32,
    pub statics: u32,
}

/// A program: its classes, its subroutines and the number of `Sys.init`. Number 0 is `start`, which no call names.
pub struct Core {
    pub classes: Vec<Class>,
    pub subroutines: Vec<Subroutine>,
    pub init: u32,
}

// By hand, so that whoever drops one calls this.
impl Drop for Core {
    fn drop(self) {
        let Core {
            classes: _,
            subroutines: _,
            init: _,
        } = self;
    }
}
