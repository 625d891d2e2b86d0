//! What can be wrong with a name.

ghost use Rattle.std.specs.Prelude.{◌≡◌, Some};
ghost use Rattle.jack_names.specs.Faults.{Checks, diagnostic_in};
ghost use Rattle.jack_names.specs.Inner.Filed.{the_file};
ghost use Rattle.jack_names.specs.Messages.{kind_word, name_message};
ghost use Rattle.jack_names.specs.declared.fault.NameError.TheVariants.{Memory};

use outer_world::{Detail, Diagnostic, Name as FileName};
use scan_text::Place;
use std::alloc::{AllocError, Global};
use thiserror::Error;

/// What is wrong with a name.
#[derive(Clone, Copy, Debug, PartialEq, Eq)]
pub enum NameKind {
    /// The class is not named as its file.
    FileName,
    /// A class of this name is already there.
    ClassTwice,
    /// Two fields or statics, or two subroutines, of one class have this name.
    MemberTwice,
    /// Two parameters or locals of one subroutine have this name.
    VariableTwice,
    /// A variable that is no local, parameter, field or static.
    UnknownVariable,
    /// A call through what is neither variable nor class, or through a variable whose type is no class.
    UnknownClass,
    /// The class has no subroutine of this name.
    UnknownSubroutine,
    /// The number of arguments differs from the number of parameters.
    ArgumentCount,
    /// A method is called through a class.
    MethodByClass,
    /// A function or constructor is called through a variable, or without a class.
    FunctionByObject,
    /// `this` in a function.
    ThisInFunction,
    /// A field in a function.
    FieldInFunction,
    /// A call without class or variable in a function.
    OwnInFunction,
    /// `Main.main` is not there, or is no function without parameters.
    NoMain,
}

impl NameKind {
    fn word(&self) -> &'static str
        ensures { result.now ≡ kind_word self.now }
    {
        match self {
            NameKind::FileName => "FileName",
            NameKind::ClassTwice => "ClassTwice",
            NameKind::MemberTwice => "MemberTwice",
            NameKind::VariableTwice => "VariableTwice",
            NameKind::UnknownVariable => "UnknownVariable",
            NameKind::UnknownClass => "UnknownClass",
            NameKind::UnknownSubroutine => "UnknownSubroutine",
            NameKind::ArgumentCount => "ArgumentCount",
            NameKind::MethodByClass => "MethodByClass",
            NameKind::FunctionByObject => "FunctionByObject",
            NameKind::ThisInFunction => "ThisInFunction",
            NameKind::FieldInFunction => "FieldInFunction",
            NameKind::OwnInFunction => "OwnInFunction",
            NameKind::NoMain => "NoMain",
        }
    }
}

/// A name with which something is wrong, with the file in which it stands and its place there. A shipped file is one
/// of the operating system.
#[derive(Debug, Drop, Error)]
#[error("{folder}{file}:{line}:{column}: {kind:?} {name}", folder = if *.shipped {"os/"} else {""}, file = .file.as_str(), line = .place.line, column = .place.column, name = .name.escape_ascii())]
pub struct NameFault {
    pub kind: NameKind,
    pub shipped: bool,
    pub file: FileName,
    pub name: Vec<u8>,
    pub place: Place,
}

impl NameFault {
    /// The diagnostic of the fault, beside the path of its file.
    pub fn diagnostic(self) -> Diagnostic
        ensures { result ≡ name_message self }
    {
        let word = self.kind.word();
        Diagnostic::at(
            self.place.line,
            self.place.column,
            word,
            Detail::Name(self.name),
        )
    }
}

/// Why names were not resolved: memory ran out, or a name has a fault.
#[derive(Debug, Drop, Error)]
pub enum NameError {
    #[error("want of memory")]
    Memory,
    #[error(transparent)]
    Fault(NameFault),
}

impl From<AllocError> for NameError {
    ghost from_gives = { λ _ e. e ≡ Memory };

    fn from(_e: AllocError) -> NameError {
        NameError::Memory
    }
}

/// A file: whether it is one of the operating system, and its name.
#[derive(Clone, Copy)]
pub(crate) struct File<'a> {
    pub shipped: bool,
    pub name: &'a FileName,
}

/// The place of what no text names.
pub(crate) const NO_PLACE: Place = Place { line: 0, column: 0 };

/// Tells what is wrong with a name at a place of a file.
pub(crate) fn tell(
    alloc: Global,
    file: File,
    name: &[u8],
    place: Place,
    kind: NameKind,
) -> Result<(), NameError>
    ensures { Checks (Some (diagnostic_in (the_file file.entry) name.now place kind)) result }
{
    let path = file.name.clone()?;
    let name = Vec::from_slice(alloc, name)?;
    Err(NameError::Fault(NameFault {
        kind,
        shipped: file.shipped,
        file: path,
        name,
        place,
    }))
}
