//! The parts of an image that commands share.
ghost use Rattle.std.specs.Prelude.{◌≡◌};
ghost use Rattle.vm_templates.specs.Templates.{routine_size};

/// A routine, which stands once in an image, and through which each command of its kind goes.
#[derive(Clone, Copy, PartialEq, Eq, Debug)]
pub enum Routine {
    /// That of `call`.
    Call,
    /// That of `return`.
    Back,
    /// That of `eq`.
    Equal,
    /// That of `gt`.
    Greater,
    /// That of `lt`.
    Less,
}

impl Routine {
    /// How many instructions it has.
    pub fn size(self) -> u16
        ensures { result ≡ routine_size self }
    {
        match self {
            Routine::Call => 34,
            Routine::Back => 40,
            Routine::Equal => 16,
            Routine::Greater | Routine::Less => 38,
        }
    }
}

/// The addresses of the routines; that of one which does not stand in the image is of no use.
#[derive(Clone, Copy, PartialEq, Eq, Debug)]
pub struct Routines {
    pub call: u16,
    pub back: u16,
    pub equal: u16,
    pub greater: u16,
    pub less: u16,
}
