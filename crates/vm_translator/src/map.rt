//! The commits and the control points of a program.
ghost use Rattle.std.specs.Prelude.{◌≡◌, ◌≤◌, ◌+◌, ◌++◌, [], ◌∷◌, All, IfOk, OnOk, if◌then◌else◌};
ghost use Rattle.std.specs.List.{filter_map};
ghost use Rattle.vm_templates.specs.Templates.{start_size};
ghost use Rattle.image_map.specs.Computer.{endless_loop};
ghost use Rattle.vm_translator.specs.Image.{commit_of, commits_of, entries_of, entry_range, points_of, range_of, same_point, shared_at, shared_commits, start_commits, start_ranges, stretched_ranges, merged_ranges};
ghost use Rattle.vm_translator.specs.Places.{base_of, program};
ghost use Rattle.vm_translator.specs.Shapes.{step_size};
ghost use Rattle.vm_translator.specs.Shared.{used_routines, words_shared};
ghost use Rattle.vm_translator.specs.Tables.{IsLayout, IsReady, added_range};

use crate::layout::{Layout, Placed};
use crate::shapes::{is_shared, step_size};
use crate::shared::add_lasts;
use image_map::PointRange;
use outer_world::Point;
use std::alloc::{AllocError, Global};
use vm_link::{Linked, Step};
use vm_templates::{ENDLESS_LOOP, Routine, START_SIZE};

// The last address of the start code's `pop temp 0`, which is a commit where the program has some.
fn start_commits(alloc: Global, linked: &Linked) -> Result<Vec<u16>, AllocError>
    ensures { IfOk result (λ v. v.items ≡ start_commits linked.now) }
{
    let mut commits = Vec::new(alloc);
    if !linked.bare && linked.marked {
        commits.push(20)?;
    }
    Ok(commits)
}

/// The addresses of commits, rising.
pub fn commits(
    alloc: Global,
    linked: &Linked,
    layout: &Layout,
    shared: &[Routine],
    from: u16,
) -> Result<Vec<u16>, AllocError>
    requires placed { layout.now.placed.items ≡ program linked.now }
    requires ready { All (IsReady linked.now.functions) layout.now.placed.items }
    requires used { shared.now ≡ used_routines linked.now }
    requires from { from ≡ shared_at linked.now }
    requires fits { from + words_shared shared.now ≤ 32768 }
    ensures { IfOk result (λ v. v.items ≡ commits_of linked.now) }
{
    let mut commits = own_commits(alloc, linked, layout)?;
    add_shared_commits(&mut commits, linked, shared, from)?;
    Ok(commits)
}

// The commits of the routines, in a program that has commits.
fn add_shared_commits(
    commits: &mut Vec<u16>,
    linked: &Linked,
    shared: &[Routine],
    from: u16,
) -> Result<(), AllocError>
    requires used { shared.now ≡ used_routines linked.now }
    requires from { from ≡ shared_at linked.now }
    requires fits { from + words_shared shared.now ≤ 32768 }
    ensures { OnOk result (commits.new.items ≡ commits.old.items ++ shared_commits linked.now) }
{
    if linked.marked {
        return add_lasts(commits, shared, from);
    }
    Ok(())
}

// Those of the start code and of the steps' own instructions.
fn own_commits(alloc: Global, linked: &Linked, layout: &Layout) -> Result<Vec<u16>, AllocError>
    requires { All (IsReady linked.now.functions) layout.now.placed.items }
    ensures { IfOk result
        (λ v. v.items ≡ start_commits linked.now ++ filter_map commit_of layout.now.placed.items) }
{
    let mut commits = start_commits(alloc, linked)?;
    for placed in &layout.placed {
        if let Some(at) = commit_of(placed) {
            commits.push(at)?;
        }
    }
    Ok(commits)
}

// The last address of a step that is a commit, where the step goes through no routine.
fn commit_of(placed: &Placed) -> Option<u16>
    requires { placed.now.at + step_size placed.now.code.step ≤ 32768 }
    ensures { result ≡ commit_of placed.now }
{
    if placed.code.commit && !is_shared(placed.code.step) {
        Some(placed.at + (step_size(placed.code.step) - 1) as u16)
    } else {
        None
    }
}

fn same_point(p: Point, q: Point) -> bool
    ensures { result ≡ same_point p q }
{
    p.sub == q.sub && p.number == q.number
}

// Adds a range, which is one with the last where they have one point.
fn add_range(points: &mut Vec<PointRange>, range: PointRange) -> Result<(), AllocError>
    ensures { OnOk result (points.new.items ≡ added_range points.old.items range) }
{
    let count = points.len();
    if count > 0 {
        let last = points[count - 1];
        if same_point(last.point, range.point) {
            points[count - 1] = PointRange {
                from: last.from,
                to: range.to,
                point: last.point,
            };
            return Ok(());
        }
    }
    points.push(range)?;
    Ok(())
}

fn range_of(placed: &Placed) -> PointRange
    requires { placed.now.at + step_size placed.now.code.step ≤ 32768 }
    ensures { result ≡ range_of placed.now }
{
    PointRange {
        from: placed.at as u32,
        to: placed.at as u32 + step_size(placed.code.step),
        point: placed.point,
    }
}

fn start_points(alloc: Global, bare: bool) -> Result<Vec<PointRange>, AllocError>
    ensures { IfOk result (λ v. v.items ≡ (if bare
        then [] else record { from = 0; to = endless_loop; point = record { sub = 0; number = 1 } }
        ∷ record { from = endless_loop; to = start_size; point = record { sub = 0; number = 2 } }
        ∷ [])) }
{
    let mut points = Vec::new(alloc);
    if !bare {
        points.push(PointRange {
            from: 0,
            to: ENDLESS_LOOP as u32,
            point: Point { sub: 0, number: 1 },
        })?;
        points.push(PointRange {
            from: ENDLESS_LOOP as u32,
            to: START_SIZE as u32,
            point: Point { sub: 0, number: 2 },
        })?;
    }
    Ok(points)
}

// The last range goes to this address.
fn stretch(points: &mut Vec<PointRange>, to: u32)
    ensures { points.new.items ≡ stretched_ranges to points.old.items }
{
    let count = points.len();
    if count > 0 {
        let last = points[count - 1];
        points[count - 1] = PointRange {
            from: last.from,
            to,
            point: last.point,
        };
    }
}

/// The control points of all addresses before the routines, which stand from an address on, rising.
pub fn points(
    alloc: Global,
    linked: &Linked,
    layout: &Layout,
    from: u16,
) -> Result<Vec<PointRange>, AllocError>
    requires layout { IsLayout (base_of linked.now) linked.now.functions layout.now }
    requires ready { All (IsReady linked.now.functions) layout.now.placed.items }
    requires from { from ≡ shared_at linked.now }
    ensures { IfOk result (λ v. v.items ≡ points_of linked.now) }
{
    let mut points = start_points(alloc, linked.bare)?;
    for placed in &layout.placed {
        add_range(&mut points, range_of(placed))?;
    }
    stretch(&mut points, from as u32);
    Ok(points)
}

// The addresses of a step by which a function is entered.
fn entry_range(placed: &Placed) -> Option<(u32, u32)>
    requires { placed.now.at + step_size placed.now.code.step ≤ 32768 }
    ensures { result ≡ entry_range placed.now }
{
    match placed.code.step {
        Step::Function(_) => {
            let from = placed.at as u32;
            Some((from, from + step_size(placed.code.step)))
        }
        _ => None,
    }
}

/// The addresses by which functions are entered, rising.
pub fn entries(
    alloc: Global,
    linked: &Linked,
    layout: &Layout,
) -> Result<Vec<(u32, u32)>, AllocError>
    requires placed { layout.now.placed.items ≡ program linked.now }
    requires ready { All (IsReady linked.now.functions) layout.now.placed.items }
    ensures { IfOk result (λ v. v.items ≡ entries_of linked.now) }
{
    let mut entries = Vec::new(alloc);
    for placed in &layout.placed {
        if let Some(range) = entry_range(placed) {
            entries.push(range)?;
        }
    }
    Ok(entries)
}
