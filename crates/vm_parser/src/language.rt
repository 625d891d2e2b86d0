//! VM commands as a language of source files.
ghost use Rattle.vm_parser.specs.Inner.Long.{vm_limited};
ghost use Rattle.vm_parser.specs.Language.{RefusesVm, SpellsVmFile};

use crate::reading::parse_file;
use outer_world::Name;
use source_files::{Language, TextError, stem};
use std::alloc::Global;
use vm_tree::File;

/// VM commands, `bare` also before the first function. The name of a file is without its ending.
#[derive(Clone, Copy)]
pub struct VmLanguage {
    pub bare: bool,
}

impl Language for VmLanguage {
    type Source = File;

    ghost spells = { λ vm name text file. SpellsVmFile vm.bare name text file };

    ghost refuses = { λ vm text told. RefusesVm vm.bare text told };

    fn read(&self, alloc: Global, name: &str, text: &[u8]) -> Result<File, TextError> {
        let name = Name::new(alloc, stem(name, ".vm"))?;
        let file = parse_file(alloc, &name, text, self.bare)?;
        Ok(file)
    }

    ghost limited = { λ vm text long. vm_limited vm.bare text long };
}
