//! The law of the names of a folder.
ghost use Rattle.source_files.specs.Folder.{NamesLaw};

/// Law: over known files the names of a folder's files that end so, in order, are one list.
pub fn names_law()
    ensures { NamesLaw }
{}
