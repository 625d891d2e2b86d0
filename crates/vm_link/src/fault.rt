//! What is wrong with a program.
ghost use Rattle.std.specs.Prelude.{◌≡◌};
ghost use Rattle.outer_world.specs.Refusals.{message};
ghost use Rattle.vm_link.specs.Messages.{link_message};
ghost use Rattle.vm_link.specs.declared.fault.LinkFault.TheVariants.{Memory};

use outer_world::{Detail, Diagnostic, Name};
use std::alloc::{AllocError, AllocFailed};
use thiserror::Error;

/// Why a program is not linked.
#[derive(Debug, Drop, Error)]
pub enum LinkFault {
    /// A function that is kept calls this name, and no function has it.
    #[error("NoFunction {name}", name = .0.as_str())]
    NoFunction(Name),
    /// Two functions have this name.
    #[error("TwiceDefined {name}", name = .0.as_str())]
    TwiceDefined(Name),
    /// A function goes to this label, and does not have it.
    #[error("NoLabel {name}", name = .0.as_str())]
    NoLabel(Name),
    /// A function has this label twice.
    #[error("LabelTwice {name}", name = .0.as_str())]
    LabelTwice(Name),
    /// There is no function Sys.init.
    #[error("NoSysInit")]
    NoSysInit,
    /// The files have this many static words, which are more than 240.
    #[error("TooManyStatics {0}")]
    TooManyStatics(u64),
    #[error("want of memory")]
    Memory,
}

impl LinkFault {
    /// The diagnostic of the fault. Want of memory has none.
    pub fn diagnostic(self) -> Option<Diagnostic>
        ensures { result ≡ link_message self }
    {
        match self {
            LinkFault::NoFunction(name) => Some(named("NoFunction", name)),
            LinkFault::TwiceDefined(name) => Some(named("TwiceDefined", name)),
            LinkFault::NoLabel(name) => Some(named("NoLabel", name)),
            LinkFault::LabelTwice(name) => Some(named("LabelTwice", name)),
            LinkFault::NoSysInit => Some(Diagnostic::nowhere("NoSysInit", Detail::Nothing)),
            LinkFault::TooManyStatics(words) => {
                Some(Diagnostic::nowhere("TooManyStatics", Detail::Number(words)))
            }
            LinkFault::Memory => None,
        }
    }
}

// The diagnostic of a fault with a name.
fn named(word: &'static str, name: Name) -> Diagnostic
    ensures { result ≡ message 0 0 word.now name }
{
    Diagnostic::nowhere(word, Detail::Name(name.into_bytes()))
}

impl From<AllocError> for LinkFault {
    ghost from_gives = { λ _ e. e ≡ Memory };

    fn from(_e: AllocError) -> LinkFault {
        LinkFault::Memory
    }
}

impl<T: Drop> From<AllocFailed<T>> for LinkFault {
    ghost from_gives = { λ _ e. e ≡ Memory };

    fn from(_e: AllocFailed<T>) -> LinkFault {
        LinkFault::Memory
    }
}
