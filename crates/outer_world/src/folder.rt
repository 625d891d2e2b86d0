//! The names in a folder of files in memory.
ghost use Rattle.std.specs.Prelude.{◌≡◌, ◌≢◌, ℕ, List, MatchOption, true, false, ◌++◌, ◌∷◌};
ghost use Rattle.std.specs.Prelude.{IfOk, OnOk, [], if◌then◌else◌};
ghost use Rattle.outer_world.specs.Files.{IsListing, has_name, has_slash, path_in};
ghost use Rattle.outer_world.specs.Plans.{files_of};

use crate::Name;
use std::alloc::{AllocError, Global};

// The name that makes the path with the folder.
fn entry<'a>(path: &'a str, folder: &str) -> Option<&'a str>
    ensures { MatchOption result
        ((name : List ℕ) → has_slash name ≡ false → path.now ≢ path_in folder.now name)
        (λ name. (has_slash name.now ≡ false) × (path.now ≡ path_in folder.now name.now)) }
{
    if folder.is_empty() {
        return without_slash(path);
    }
    match below(path, folder) {
        Some(name) => without_slash(name),
        None => None,
    }
}

// What follows the folder and a slash.
fn below<'a>(path: &'a str, folder: &str) -> Option<&'a str>
    ensures { MatchOption result ((name : List ℕ) → path.now ≢ folder.now ++ 47 ∷ name)
        (λ name. path.now ≡ folder.now ++ 47 ∷ name.now) }
{
    match path.strip_prefix(folder) {
        Some(rest) => rest.strip_prefix('/'),
        None => None,
    }
}

fn without_slash(name: &str) -> Option<&str>
    ensures { MatchOption result (has_slash name.now ≡ true)
        (λ n. (has_slash name.now ≡ false) × (n.now ≡ name.now)) }
{
    if name.contains('/') { None } else { Some(name) }
}

// Whether a name stands among names.
fn has(names: &[Name], name: &str) -> bool
    ensures { result ≡ has_name names.now name.now }
{
    for other in names {
        if name == other.as_str() {
            return true;
        }
    }
    false
}

// Adds a name that is not there.
fn add(alloc: Global, names: &mut Vec<Name>, name: &str) -> Result<(), AllocError>
    ensures { OnOk result (names.new.items ≡ (if has_name names.old.items name.now
        then names.old.items else names.old.items ++ name.now ∷ [])) }
{
    if has(names, name) {
        return Ok(());
    }
    names.push(Name::new(alloc, name)?)?;
    Ok(())
}

/// The names of a folder, each once.
pub fn names_in(
    alloc: Global,
    files: &[(Name, Vec<u8>)],
    folder: &str,
) -> Result<Vec<Name>, AllocError>
    ensures { IfOk result (λ names. IsListing (files_of files.now) folder.now names.items) }
{
    let mut names = Vec::new(alloc);
    for file in files {
        let Some(name) = entry(file.0.as_str(), folder) else {
            continue;
        };
        add(alloc, &mut names, name)?;
    }
    Ok(names)
}
