//! Files in the script's folder: images and compare files.
ghost use Rattle.std.specs.Prelude.{◌≡◌, ◌≤◌, ℕ, Bool, Vec, IfOk, length, string_bytes};
ghost use Rattle.std.specs.declared.alloc.Global.{Global};
ghost use Rattle.std.specs.Str.Lossy.{utf8_lossy};
ghost use Rattle.outer_world.specs.Files.{path_in};
ghost use Rattle.outer_world.specs.State.{Keeps, MissesFile};
ghost use Rattle.source_files.specs.Loads.{CountsLoad, Loads};
ghost use Rattle.tst_runner.specs.Inner.Files.{IsCompared, IsTooLong, form_of};
ghost use Rattle.tst_runner.specs.Loading.{IsImage, IsNoImage};
ghost use Rattle.tst_runner.specs.Setting.{folder_of, path_of, setting_of};
ghost use Rattle.hdl_tree.specs.declared.ends.Memories.{Memories};

use hack_asm::{Form, ProgramLanguage};
use outer_world::Shelf;
use source_files::{LoadError, load, load_text, path_in};
use std::alloc::{AllocError, Global};

/// The part of a path before its last slash; nothing where it has none.
pub(crate) fn folder_of(path: &str) -> &str
    ensures { result.now ≡ folder_of path.now }
{
    match path.rfind('/') {
        Some(end) => &path[..end],
        None => "",
    }
}

// The path of a file in the folder of the script at a path.
pub(crate) fn path_beside(alloc: Global, path: &str, file: &[u8]) -> Result<String, AllocError>
    ensures { IfOk result
        (λ beside. string_bytes beside ≡ path_in (folder_of path.now) (utf8_lossy file.now)) }
{
    let name = String::from_utf8_lossy(alloc, file)?;
    path_in(alloc, folder_of(path), name.as_str())
}

// The form of a program's text, by the ending of its file.
fn form_of(file: &[u8]) -> Form
    ensures { result ≡ form_of file.now }
{
    if file.ends_with(b".hack") {
        Form::Image
    } else {
        Form::Assembly
    }
}

/// The words of the program in a file of the script's folder, `.hack` or assembly.
///
/// Otherwise why its text is refused, that the shelf failed, or want of memory. An honest shelf fails only where there is no such file.
pub fn load_image<F: Shelf>(
    alloc: Global,
    path: &str,
    file: &[u8],
    shelf: &mut F,
) -> Result<Vec<u16>, LoadError>
    ensures loads { (memories : Memories) → Loads (λ (words : Vec ℕ Global).
        IsImage (setting_of path.now (F.state shelf.old).files memories) file.now words.items)
        (IsNoImage (setting_of path.now (F.state shelf.old).files memories) file.now)
        (MissesFile (F.state shelf.old)
        (path_of (setting_of path.now (F.state shelf.old).files memories) file.now)) result }
    ensures short { IfOk result (λ words. length words.items ≤ 32768) }
    ensures counts { CountsLoad (F.faults shelf.old) (F.faults shelf.new) result }
    ensures keeps { Keeps (F.state shelf.old) (F.state shelf.new) }
{
    let beside = path_beside(alloc, path, file)?;
    let language = ProgramLanguage {
        form: form_of(file),
    };
    load(alloc, &language, beside.as_str(), beside.as_str(), shelf)
}

/// The text of a compare file of the script's folder, of at most 1,048,576 bytes.
///
/// Otherwise that it is longer, that the shelf failed, or want of memory. An honest shelf fails only where there is no such file.
pub fn load_compared<F: Shelf>(
    alloc: Global,
    path: &str,
    file: &[u8],
    shelf: &mut F,
) -> Result<Vec<u8>, LoadError>
    ensures loads { (memories : Memories) → Loads (λ (text : Vec ℕ Global).
        IsCompared (setting_of path.now (F.state shelf.old).files memories) file.now text.items)
        (IsTooLong (setting_of path.now (F.state shelf.old).files memories) file.now)
        (MissesFile (F.state shelf.old)
        (path_of (setting_of path.now (F.state shelf.old).files memories) file.now)) result }
    ensures counts { CountsLoad (F.faults shelf.old) (F.faults shelf.new) result }
    ensures keeps { Keeps (F.state shelf.old) (F.state shelf.new) }
{
    let beside = path_beside(alloc, path, file)?;
    load_text(alloc, beside.as_str(), shelf)
}
