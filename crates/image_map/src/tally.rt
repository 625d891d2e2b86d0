//! What the map of an image counts of a run, address by address: the steps of the program's meaning, and the control point.

ghost use Rattle.std.specs.Prelude.{◌≡◌, ◌<◌, ◌≤◌, ◌+◌, ◌^◌, ℕ, suc, false, nat_eq, nat_lt, if◌then◌else◌, length, slice_index_or, IfOk};
ghost use Rattle.std.specs.List.{list_any};
ghost use Rattle.image_map.specs.Map.{point_in, Covers, CoverSome};
ghost use Rattle.image_map.specs.Tallies.{HasTallied, point_seen};

use crate::{ImageMap, PointRange};
use outer_world::Point;
use std::alloc::{AllocError, Global};
use std::marker::Model;

// Told where there is no control point; address 0 of each image has one.
const NOWHERE: Point = Point { sub: 0, number: 0 };

/// The steps and the control point of a run so far, by the map of its image.
pub struct Tally {
    map: ImageMap,
    // Of each address, whether it is among the commits.
    marks: Vec<bool>,
    // How many addresses have a point, from 0 on.
    mapped: u32,
    // Where the run is.
    at: u16,
    steps: u64,
    // The last address that the run was at and that has a point.
    seen: u16,
}

// By hand, so that whoever drops one calls this.
impl Drop for Tally {
    fn drop(self) {
        let Tally {
            map: _,
            marks: _,
            mapped: _,
            at: _,
            steps: _,
            seen: _,
        } = self;
    }
}

impl Model for Tally {
    ghost use Rattle.image_map.specs.Tallies.{TallyState, point_seen};
    ghost use Rattle.image_map.specs.Inner.Marked.{IsMarked};

    ghost Value = { TallyState };

    ghost view = { λ t. record {
      map = t.map;
      at = t.at;
      steps = t.steps;
      point = point_seen t.map.points t.seen;
    } };

    ghost invariant = { λ t. IsMarked t.marks.items t.map t.mapped };
}

fn no_marks(alloc: Global, n: usize) -> Result<Vec<bool>, AllocError>
    ensures size { IfOk result (λ marks. length marks.items ≡ n) }
    ensures none { IfOk result (λ marks. (k : ℕ) → slice_index_or marks.items k false ≡ false) }
{
    vec![in alloc; false; n]
}

// A mark at each of these addresses.
fn marks(alloc: Global, commits: &[u16]) -> Result<Vec<bool>, AllocError>
    ensures size { IfOk result (λ marks. length marks.items ≡ 65536) }
    ensures marked { IfOk result
        (λ marks. (k : ℕ) → slice_index_or marks.items k false ≡ list_any (nat_eq k) commits.now) }
{
    let mut marks = no_marks(alloc, 65536)?;
    for at in commits {
        marks[*at as usize] = true;
    }
    Ok(marks)
}

// The point of an address, where it has one.
fn point_in(points: &[PointRange], at: u16) -> Option<Point>
    ensures { result ≡ point_in points.now at }
{
    let address = u32::from(at);
    for range in points {
        if range.from <= address && address < range.to {
            return Some(range.point);
        }
    }
    None
}

// How many addresses have a point.
fn mapped(points: &[PointRange]) -> u32
    ensures { (end : ℕ) → Covers 0 points.now end → result ≡ end }
{
    match points.last() {
        Some(range) => range.to,
        None => 0,
    }
}

fn counted(commit: bool, steps: u64) -> u64
    requires { steps < 2 ^ 63 }
    ensures { result ≡ (if commit then suc steps else steps) }
{
    if commit { steps + 1 } else { steps }
}

// The last address with a point, where the run has come to `now`.
fn last_seen(mapped: u32, now: u16, seen: u16) -> u16
    ensures { result ≡ (if nat_lt now mapped then now else seen) }
{
    if u32::from(now) < mapped { now } else { seen }
}

impl Tally {
    /// A run at its start, at address 0 of an image with this map.
    pub fn new(alloc: Global, map: ImageMap) -> Result<Tally, AllocError>
        requires { CoverSome map.points }
        ensures map { IfOk result (λ t. t.map ≡ map) }
        ensures at { IfOk result (λ t. t.at ≡ 0) }
        ensures steps { IfOk result (λ t. t.steps ≡ 0) }
        ensures tallied { IfOk result (λ t. (pc : ℕ → ℕ) → pc 0 ≡ 0 → HasTallied t pc 0) }
    {
        let mapped = mapped(map.points.as_slice());
        Ok(Tally {
            marks: marks(alloc, map.commits.as_slice())?,
            map,
            mapped,
            at: 0,
            steps: 0,
            seen: 0,
        })
    }

    /// The run goes on to an address.
    #[inline(always)]
    pub fn go(&mut self, address: u16)
        requires { self.old.steps < 2 ^ 63 }
        ensures map { self.new.map ≡ self.old.map }
        ensures at { self.new.at ≡ address }
        ensures few { self.new.steps ≤ self.old.steps + 1 }
        ensures tallied { (pc : ℕ → ℕ) (n : ℕ) → HasTallied self.old pc n → pc (suc n) ≡ address
            → HasTallied self.new pc (suc n) }
    {
        let commit = self.marks[self.at as usize];
        self.steps = counted(commit, self.steps);
        self.at = address;
        self.seen = last_seen(self.mapped, address, self.seen);
    }

    /// The address that the run is at.
    pub fn at(&self) -> u16
        ensures { result ≡ self.now.at }
    {
        self.at
    }

    /// The number of steps so far.
    pub fn steps(&self) -> u64
        ensures { result ≡ self.now.steps }
    {
        self.steps
    }

    /// The control point.
    pub fn point(&self) -> Point
        ensures { result ≡ self.now.point }
    {
        point_in(self.map.points.as_slice(), self.seen).unwrap_or(NOWHERE)
    }
}
