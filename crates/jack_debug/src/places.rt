//! Where the parts of a program's image are, and the names of its variables.
ghost use Rattle.std.specs.Prelude.{◌≡◌, ℕ, List, MatchOption, Some, None, slice_get, get_or, codes};
ghost use Rattle.jack_debug.specs.Walk.{is_in, point_in, sub_at, name_of};
ghost use Rattle.jack_debug.specs.MapText.{class_file, file_of};

use jack_tree::Form;
use outer_world::{List, Name, Point};
use scan_text::Place;

/// The addresses from one up to and without another, the control point that they have, and the place of its statement in
/// the file of the subroutine's class.
#[derive(Clone, Copy, Debug, PartialEq, Eq)]
pub struct PlacedRange {
    pub from: u32,
    pub to: u32,
    pub point: Point,
    pub place: Place,
}

impl PlacedRange {
    /// Whether an address is one of these.
    pub fn contains(&self, a: u16) -> bool
        ensures { result ≡ is_in self.now.from self.now.to a }
    {
        self.from <= a as u32 && (a as u32) < self.to
    }
}

/// A subroutine: its name, its class among the classes, the names of its arguments, without a method's object, and of its
/// locals. Its entry code, which makes the locals, has the addresses from one up to and without another.
#[derive(Drop)]
pub struct SubPlaces {
    pub name: Name,
    pub form: Form,
    pub class: u32,
    pub arguments: List<Name>,
    pub locals: List<Name>,
    pub from: u32,
    pub to: u32,
}

/// A static, and the address of its word, where it has one.
#[derive(Drop)]
pub struct PlacedStatic {
    pub name: Name,
    pub address: Option<u16>,
}

/// A class: its name and its file, and its fields and statics in order of declaration.
#[derive(Drop)]
pub struct ClassPlaces {
    pub name: Name,
    /// The name of its file in the folder; that of a class of the operating system is as `os/Math.jack`.
    pub file: Name,
    pub fields: List<Name>,
    pub statics: List<PlacedStatic>,
}

/// The places of a program: the ranges of its image in order of address, its commits and shared routines, its subroutines
/// and its classes. A subroutine's number is 0 for `start`, and k + 1 for the one of index k here. A class is given by
/// its index.
pub struct Places {
    pub ranges: List<PlacedRange>,
    /// The addresses of the instructions that end a step of the program's meaning.
    pub commits: List<u16>,
    /// The addresses of routines that commands share, each from one up to and without another.
    pub shared: List<(u32, u32)>,
    pub subs: List<SubPlaces>,
    pub classes: List<ClassPlaces>,
    /// The numbers of the subroutines that have a point, in order of address, without `start`.
    pub linked: List<u32>,
    /// The classes of these subroutines, in order of name.
    pub by_name: List<u32>,
}

// By hand, so that whoever drops one calls this.
impl Drop for Places {
    fn drop(self) {
        let Places {
            ranges: _,
            commits: _,
            shared: _,
            subs: _,
            classes: _,
            linked: _,
            by_name: _,
        } = self;
    }
}

impl Places {
    /// The control point of an address, where it has one.
    pub fn point(&self, a: u16) -> Option<Point>
        ensures { result ≡ point_in self.now.ranges a }
    {
        for range in self.ranges.as_slice() {
            if range.contains(a) {
                return Some(range.point);
            }
        }
        None
    }

    /// The subroutine of a number, where it has variables: `start`, which is 0, has none.
    pub fn sub(&self, number: u32) -> Option<&SubPlaces>
        ensures { MatchOption result (sub_at self.now number ≡ None)
            (λ s. sub_at self.now number ≡ Some s.now) }
    {
        if number == 0 {
            return None;
        }
        self.subs.as_slice().get(number as usize - 1)
    }

    /// The name of a subroutine.
    pub fn name(&self, number: u32) -> &str
        ensures { result.now ≡ name_of (sub_at self.now number) number }
    {
        match self.sub(number) {
            Some(sub) => sub.name.as_str(),
            None => if number == 0 { "start" } else { "" },
        }
    }

    /// The class of a number, where there is one.
    pub fn class(&self, k: u32) -> Option<&ClassPlaces>
        ensures { MatchOption result (slice_get self.now.classes k ≡ None)
            (λ c. slice_get self.now.classes k ≡ Some c.now) }
    {
        self.classes.as_slice().get(k as usize)
    }

    // The name of the file of a class.
    fn class_file(&self, k: u32) -> &str
        ensures { result.now ≡ class_file (slice_get self.now.classes k) }
    {
        match self.classes.as_slice().get(k as usize) {
            Some(class) => class.file.as_str(),
            None => "",
        }
    }

    /// The name of the file of a subroutine.
    pub fn file(&self, number: u32) -> &str
        ensures { result.now ≡ file_of self.now number (sub_at self.now number) }
    {
        match self.sub(number) {
            Some(sub) => self.class_file(sub.class),
            None => if number == 0 { "start" } else { "" },
        }
    }
}
