//! The nets that are reported.

ghost use Rattle.std.specs.Prelude.{◌≡◌, [], OnOk, IfOk, map};
ghost use Rattle.hdl_loops.specs.Inner.Report.{names_of, was_passed, add_name, NotesOne};

use crate::hops::Dependency;
use hdl_tree::Name;
use indexmap::IndexSet;
use std::alloc::{AllocError, Global};

/// A way through the chip in a place of the library.
#[derive(Clone, Copy, PartialEq, Eq, Hash)]
pub struct Passage<'a> {
    pub chip: usize,
    pub through: Dependency<'a>,
}

/// The nets that are reported, in order, and the ways that are.
pub struct Report<'a> {
    names: IndexSet<&'a [u8]>,
    passed: IndexSet<Passage<'a>>,
}

// By hand, so that whoever drops one calls this.
impl Drop for Report<'_> {
    fn drop(self) {
        let Report {
            names: _,
            passed: _,
        } = self;
    }
}

impl<'a> Report<'a> {
    /// None is reported yet.
    pub(crate) fn new(alloc: Global) -> Report<'a>
        ensures names { names_of result ≡ [] }
        ensures passed { result.passed.keys ≡ [] }
    {
        Report {
            names: IndexSet::new(alloc),
            passed: IndexSet::new(alloc),
        }
    }

    /// Reports a net, unless it is reported.
    pub(crate) fn add(&mut self, name: &'a [u8]) -> Result<(), AllocError>
        ensures names { OnOk result (names_of self.new ≡ add_name (names_of self.old) name.now) }
        ensures passed { OnOk result (self.new.passed.keys ≡ self.old.passed.keys) }
    {
        match self.names.insert(name) {
            Ok(_) => Ok(()),
            Err(_) => Err(AllocError),
        }
    }

    /// Whether this way is reported.
    pub(crate) fn has_passed(&self, passage: &Passage<'a>) -> bool
        ensures { result ≡ was_passed self.now passage.now.chip passage.now.through.input.now
            passage.now.through.bit passage.now.through.output.now passage.now.through.out }
    {
        self.passed.contains(passage)
    }

    /// Notes that this way is reported.
    pub(crate) fn note(&mut self, passage: Passage<'a>) -> Result<(), AllocError>
        ensures names { OnOk result (names_of self.new ≡ names_of self.old) }
        ensures passed { OnOk result (NotesOne self.old self.new passage.entry) }
    {
        match self.passed.insert(passage) {
            Ok(_) => Ok(()),
            Err(_) => Err(AllocError),
        }
    }

    /// The names that are reported.
    pub(crate) fn copied(&self, alloc: Global) -> Result<Vec<Name>, AllocError>
        ensures { IfOk result (λ v. v.items ≡ names_of self.now) }
    {
        copied(alloc, self.names.as_slice())
    }
}

/// Names with copies of these bytes.
fn copied(alloc: Global, names: &[&[u8]]) -> Result<Vec<Name>, AllocError>
    ensures { IfOk result (λ v. v.items ≡ map (λ name. name.now) names.now) }
{
    let mut copies = Vec::new(alloc);
    for name in names {
        copies.push(Name::from_bytes(alloc, *name)?)?;
    }
    Ok(copies)
}
