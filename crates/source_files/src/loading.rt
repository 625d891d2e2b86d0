//! The text of a file, and the source that it spells.
ghost use Rattle.std.specs.Prelude.{ℕ, Vec};
ghost use Rattle.std.specs.declared.alloc.Global.{Global};
ghost use Rattle.outer_world.specs.Files.{LacksFile};
ghost use Rattle.outer_world.specs.State.{Keeps, MissesFile};
ghost use Rattle.source_files.specs.Loads.{CountsLoad, Loads, SpendsOne};
ghost use Rattle.source_files.specs.Sources.{IsFaulty, IsPastLimit, IsText, SpellsAt};

use crate::error::{LoadError, TextError};
use crate::language::Language;
use grammar::MOST_BYTES;
use outer_world::{Detail, Diagnostic, Reading, Shelf};
use std::alloc::Global;

// The longest file that is read has this many bytes: as many as a text may have.
const FILE_LIMIT: u32 = MOST_BYTES as u32;

/// The text of the file at a path, of at most 1,048,576 bytes.
///
/// Otherwise the refusal of a longer one, that the shelf failed, or want of memory. An honest shelf
/// fails only where there is no such file.
pub fn load_text<F: Shelf>(alloc: Global, path: &str, shelf: &mut F) -> Result<Vec<u8>, LoadError>
    ensures loads { Loads
        (λ (text : Vec ℕ Global). IsText (F.state shelf.old).files path.now text.items)
        (IsPastLimit (F.state shelf.old).files path.now)
        (MissesFile (F.state shelf.old) path.now) result }
    ensures counts { CountsLoad (F.faults shelf.old) (F.faults shelf.new) result }
    ensures keeps { Keeps (F.state shelf.old) (F.state shelf.new) }
    ensures spends { SpendsOne (F.unfailing_for shelf.old) (F.unfailing_for shelf.new)
        (LacksFile (F.state shelf.old).files path.now) result }
{
    match shelf.read(alloc, path, FILE_LIMIT) {
        Reading::Bytes(text) => Ok(text),
        Reading::TooLong(_) => {
            let bytes = Detail::Number(u64::from(FILE_LIMIT) + 1);
            Err(LoadError::refused(alloc, path, Diagnostic::nowhere("Range", bytes)))
        }
        Reading::Failed => Err(LoadError::Failed),
        Reading::Memory => Err(LoadError::Memory),
    }
}

/// What the text at a path spells, as that of a file of this name.
///
/// Otherwise its refusal, that the shelf failed, or want of memory. A shelf with no call that is set up to fail fails where
/// there is no such file alone.
pub fn load<L: Language, F: Shelf>(
    alloc: Global,
    language: &L,
    path: &str,
    name: &str,
    shelf: &mut F,
) -> Result<L::Source, LoadError>
    ensures loads { Loads
        (SpellsAt (L.spells language.now name.now) (F.state shelf.old).files path.now)
        (IsFaulty (L.refuses language.now) (F.state shelf.old).files path.now)
        (MissesFile (F.state shelf.old) path.now) result }
    ensures counts { CountsLoad (F.faults shelf.old) (F.faults shelf.new) result }
    ensures keeps { Keeps (F.state shelf.old) (F.state shelf.new) }
    ensures spends { SpendsOne (F.unfailing_for shelf.old) (F.unfailing_for shelf.new)
        (LacksFile (F.state shelf.old).files path.now) result }
{
    let text = load_text(alloc, path, shelf)?;
    match language.read(alloc, name, &text) {
        Ok(source) => Ok(source),
        Err(TextError::Refused(told)) => Err(LoadError::refused(alloc, path, told)),
        Err(TextError::Memory) => Err(LoadError::Memory),
    }
}
