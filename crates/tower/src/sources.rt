//! The classes of the operating system that stand beside those of a folder.

ghost use Rattle.std.specs.Prelude.{◌≡◌, IfOk, map};
ghost use Rattle.std.specs.List.{list_any};
ghost use Rattle.jack_os.specs.System.{AreClassesOf};
ghost use Rattle.jack_tree.specs.declared.tree.Class.{Class};
ghost use Rattle.jack_tree.specs.Seen.{the_file};
ghost use Rattle.tower.specs.Sources.{is_named_for, is_replaced, system_beside};

use jack_os::classes;
use jack_tree::Class;
use std::alloc::{AllocError, Global};

// Whether a class of a folder has the name of the class that stands in a file.
fn is_named_for(class: &Class, file: &[u8]) -> bool
    ensures { result ≡ is_named_for file.now (the_file class.now) }
{
    match file.strip_suffix(b".jack") {
        None => false,
        Some(stem) => class.name.text.as_bytes() == stem,
    }
}

// Whether one of the classes of a folder has that name.
fn any_named_for(own: &[Class], file: &[u8]) -> bool
    ensures { result ≡ list_any (λ (c : Class). is_named_for file.now (the_file c)) own.now }
{
    own.iter().any(|class| is_named_for(class, file))
}

// Whether the classes of a folder take the place of a file of the operating system.
fn is_replaced(own: &[Class], file: &[u8]) -> bool
    ensures { result ≡ is_replaced (map the_file own.now) file.now }
{
    file != b"Sys.jack".as_slice() && any_named_for(own, file)
}

/// The classes of the operating system that stand beside those of a folder, in order of file name. They are all of them, or,
/// where the folder's classes replace, those whose name none of them has, and Sys.
pub fn classes_beside(alloc: Global, own: &[Class], replace: bool) -> Result<Vec<Class>, AllocError>
    ensures { IfOk result
        (λ os. AreClassesOf (system_beside replace (map the_file own.now)) os.items) }
{
    let mut os = classes(alloc)?;
    if replace {
        os.retain(|class| !is_replaced(own, class.file.as_bytes()));
    }
    Ok(os)
}
