//! Puts the text of a map.
ghost use Rattle.std.specs.Prelude.{◌≡◌, [], map, get_or};
ghost use Rattle.std.specs.List.{flat_map};
ghost use Rattle.outer_world.specs.Held.{Buffers, HaveSameSink, pending, sink_of};
ghost use Rattle.outer_world.specs.Written.{Puts};
ghost use Rattle.image_map.specs.Text.{commit_line, map_text, point_line, point_text, shared_line};

use crate::{ImageMap, PointRange};
use itoa::Buffer;
use outer_world::{Pieces, Put, Sink};

// The name of a subroutine by its number.
fn name_at<'a>(names: &[&'a str], sub: u32) -> &'a str
    ensures { result.now ≡ get_or (map (λ n. n.now) names.now) sub [] }
{
    match names.get(sub as usize) {
        Some(name) => *name,
        None => "",
    }
}

// The line of a range with the name of its subroutine.
fn put_point<S: Sink>(name: &str, range: &PointRange, out: &mut Pieces<'_, S>) -> Put
    ensures same_sink { HaveSameSink out.old out.new }
    ensures passes { Buffers out.old out.new (point_text name.now range.now) result }
{
    let mut from = Buffer::new();
    let mut to = Buffer::new();
    let mut number = Buffer::new();
    out.put_all(&[
        b"point ",
        from.format(range.from).as_bytes(),
        b" ",
        to.format(range.to).as_bytes(),
        b" ",
        name.as_bytes(),
        b" ",
        number.format(range.point.number).as_bytes(),
        b"\n",
    ])
}

// The lines of the points.
fn put_points<S: Sink>(names: &[&str], points: &[PointRange], out: &mut Pieces<'_, S>) -> Put
    ensures same_sink { HaveSameSink out.old out.new }
    ensures passes { Buffers out.old out.new
        (flat_map (point_line (map (λ n. n.now) names.now)) points.now) result }
{
    for range in points {
        match put_point(name_at(names, range.point.sub), range, out) {
            Put::Done => {}
            Put::Failed => return Put::Failed,
        }
    }
    Put::Done
}

// The line of a commit.
fn put_commit<S: Sink>(address: u16, out: &mut Pieces<'_, S>) -> Put
    ensures same_sink { HaveSameSink out.old out.new }
    ensures passes { Buffers out.old out.new (commit_line address) result }
{
    let mut digits = Buffer::new();
    out.put_all(&[b"commit ", digits.format(address).as_bytes(), b"\n"])
}

/// The lines of commits.
pub fn put_commits<S: Sink>(commits: &[u16], out: &mut Pieces<'_, S>) -> Put
    ensures same_sink { HaveSameSink out.old out.new }
    ensures passes { Buffers out.old out.new (flat_map commit_line commits.now) result }
{
    for address in commits {
        match put_commit(*address, out) {
            Put::Done => {}
            Put::Failed => return Put::Failed,
        }
    }
    Put::Done
}

// The line of a routine.
fn put_range<S: Sink>(range: (u32, u32), out: &mut Pieces<'_, S>) -> Put
    ensures same_sink { HaveSameSink out.old out.new }
    ensures passes { Buffers out.old out.new (shared_line range) result }
{
    let mut from = Buffer::new();
    let mut to = Buffer::new();
    out.put_all(&[
        b"shared ",
        from.format(range.0).as_bytes(),
        b" ",
        to.format(range.1).as_bytes(),
        b"\n",
    ])
}

/// The lines of routines that commands share.
pub fn put_shared<S: Sink>(shared: &[(u32, u32)], out: &mut Pieces<'_, S>) -> Put
    ensures same_sink { HaveSameSink out.old out.new }
    ensures passes { Buffers out.old out.new (flat_map shared_line shared.now) result }
{
    for range in shared {
        match put_range(*range, out) {
            Put::Done => {}
            Put::Failed => return Put::Failed,
        }
    }
    Put::Done
}

// All lines.
fn put_lines<S: Sink>(names: &[&str], mapping: &ImageMap, out: &mut Pieces<'_, S>) -> Put
    ensures same_sink { HaveSameSink out.old out.new }
    ensures passes { Buffers out.old out.new
        (map_text (map (λ n. n.now) names.now) mapping.now) result }
{
    match out.put(b"map 1\n") {
        Put::Done => {}
        Put::Failed => return Put::Failed,
    }
    match put_points(names, mapping.points.as_slice(), out) {
        Put::Done => {}
        Put::Failed => return Put::Failed,
    }
    match put_commits(mapping.commits.as_slice(), out) {
        Put::Done => put_shared(mapping.shared.as_slice(), out),
        Put::Failed => Put::Failed,
    }
}

// The same from an empty buffer, which is empty again after it.
fn put_map<S: Sink>(names: &[&str], mapping: &ImageMap, out: &mut Pieces<'_, S>) -> Put
    requires { pending out.old ≡ [] }
    ensures same_sink { HaveSameSink out.old out.new }
    ensures put { Puts (S.state (sink_of out.old)) (S.state (sink_of out.new))
        (map_text (map (λ n. n.now) names.now) mapping.now) result }
{
    match put_lines(names, mapping, out) {
        Put::Done => out.finish(),
        Put::Failed => Put::Failed,
    }
}

/// Puts the map of an image. It has a line for each range of points, with the name of its subroutine, one for each commit, and one for each
/// routine that commands share.
pub fn show_map<S: Sink>(names: &[&str], mapping: &ImageMap, out: &mut S) -> Put
    ensures put { Puts (S.state out.old) (S.state out.new)
        (map_text (map (λ n. n.now) names.now) mapping.now) result }
{
    let mut pieces = Pieces::new(out);
    put_map(names, mapping, &mut pieces)
}
