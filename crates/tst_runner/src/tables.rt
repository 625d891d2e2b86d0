//! The files of a folder that are those of chips, by the names of these.

ghost use Rattle.std.specs.Prelude.{◌++◌, ◌∷◌, [], ℕ, List, IfOk, OnOk};
ghost use Rattle.tst_runner.specs.Inner.Tables.{ListsFiles};

use name_table::Table;
use outer_world::Name;
use std::alloc::{AllocError, Global};

/// Enters a file, if it is that of a chip.
fn enter_file<'a>(files: &mut Table<'a, &'a Name>, file: &'a Name) -> Result<(), AllocError>
    ensures { OnOk result ((names : List (List ℕ)) → ListsFiles names files.old
        → ListsFiles (names ++ file.now ∷ []) files.new) }
{
    match file.as_bytes().strip_suffix(b".hdl") {
        None => Ok(()),
        Some(stem) => {
            files.enter(stem, file)?;
            Ok(())
        }
    }
}

/// The files of a folder that are those of chips, by the names of these.
pub fn chip_files<'a>(alloc: Global, names: &'a [Name]) -> Result<Table<'a, &'a Name>, AllocError>
    ensures { IfOk result (λ files. ListsFiles names.now files) }
{
    let mut files = Table::new(alloc);
    for file in names {
        enter_file(&mut files, file)?;
    }
    Ok(files)
}
