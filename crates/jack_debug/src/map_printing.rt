//! Puts the map of a program in its second form.
ghost use Rattle.std.specs.Prelude.{◌≡◌, ◌≤◌, [], slice_get};
ghost use Rattle.std.specs.List.{flat_map};
ghost use Rattle.outer_world.specs.Held.{Buffers, HaveSameSink, pending, sink_of};
ghost use Rattle.outer_world.specs.Written.{Puts};
ghost use Rattle.jack_debug.specs.MapText.{class_lines, field_line, field_lines, form_word, image_lines, lines_of_class, lines_of_sub, map_text, point_line, point_text, program_lines, static_line, sub_line, sub_lines, sub_text, variable_line, variable_lines, word_line};
ghost use Rattle.jack_debug.specs.Walk.{sub_at};

use crate::places::{ClassPlaces, PlacedRange, PlacedStatic, Places, SubPlaces};
use crate::walking::first_named;
use image_map::{put_commits, put_shared};
use itoa::Buffer;
use jack_tree::Form;
use outer_world::{Name, Pieces, Put, Sink};

// The line of a range of points, with the names of their subroutine and of its file.
fn put_point<S: Sink>(name: &str, file: &str, range: &PlacedRange, out: &mut Pieces<'_, S>) -> Put
    ensures same_sink { HaveSameSink out.old out.new }
    ensures passes { Buffers out.old out.new (point_text name.now file.now range.now) result }
{
    let mut from = Buffer::new();
    let mut to = Buffer::new();
    let mut number = Buffer::new();
    let mut line = Buffer::new();
    let mut column = Buffer::new();
    out.put_all(&[
        b"point ",
        from.format(range.from).as_bytes(),
        b" ",
        to.format(range.to).as_bytes(),
        b" ",
        name.as_bytes(),
        b" ",
        number.format(range.point.number).as_bytes(),
        b" ",
        file.as_bytes(),
        b" ",
        line.format(range.place.line).as_bytes(),
        b" ",
        column.format(range.place.column).as_bytes(),
        b"\n",
    ])
}

// The same by its places.
fn put_range<S: Sink>(places: &Places, range: &PlacedRange, out: &mut Pieces<'_, S>) -> Put
    ensures same_sink { HaveSameSink out.old out.new }
    ensures passes { Buffers out.old out.new (point_line places.now range.now) result }
{
    let name = places.name(range.point.sub);
    let file = places.file(range.point.sub);
    put_point(name, file, range, out)
}

// The lines of the points.
fn put_points<S: Sink>(places: &Places, ranges: &[PlacedRange], out: &mut Pieces<'_, S>) -> Put
    ensures same_sink { HaveSameSink out.old out.new }
    ensures passes { Buffers out.old out.new (flat_map (point_line places.now) ranges.now) result }
{
    for range in ranges {
        match put_range(places, range, out) {
            Put::Done => {}
            Put::Failed => return Put::Failed,
        }
    }
    Put::Done
}

// The line of a variable of a subroutine.
fn put_variable<'a, S: Sink>(
    sub: &'a Name,
    kind: &'a str,
    name: &'a Name,
    k: usize,
    out: &mut Pieces<'_, S>,
) -> Put
    ensures same_sink { HaveSameSink out.old out.new }
    ensures passes { Buffers out.old out.new (variable_line sub.now kind.now k name.now) result }
{
    let mut index = Buffer::new();
    let kind = kind.as_bytes();
    let sub = sub.as_bytes();
    let name = name.as_bytes();
    let index = index.format(k).as_bytes();
    out.put_all(&[b"var ", sub, b" ", name, b" ", kind, b" ", index, b"\n"])
}

// The lines of variables, the first of which has this index.
fn put_variables<'a, S: Sink>(
    sub: &'a Name,
    kind: &'a str,
    first: usize,
    names: &'a [Name],
    out: &mut Pieces<'_, S>,
) -> Put
    requires { first ≤ 1 }
    ensures same_sink { HaveSameSink out.old out.new }
    ensures passes { Buffers out.old out.new
        (variable_lines sub.now kind.now first names.now) result }
{
    for (i, name) in names.iter().enumerate() {
        match put_variable(sub, kind, name, first + i, out) {
            Put::Done => {}
            Put::Failed => return Put::Failed,
        }
    }
    Put::Done
}

// The word for a form.
fn form_word(form: Form) -> &'static str
    ensures { result.now ≡ form_word form }
{
    match form {
        Form::Constructor => "constructor",
        Form::Function => "function",
        Form::Method => "method",
    }
}

// The line of a subroutine with a word for its form and this many arguments and locals.
fn put_counts<S: Sink>(
    name: &Name,
    form: &str,
    arguments: usize,
    locals: usize,
    out: &mut Pieces<'_, S>,
) -> Put
    ensures same_sink { HaveSameSink out.old out.new }
    ensures passes { Buffers out.old out.new (sub_text name.now form.now arguments locals) result }
{
    let mut first = Buffer::new();
    let mut second = Buffer::new();
    out.put_all(&[
        b"sub ",
        name.as_bytes(),
        b" ",
        form.as_bytes(),
        b" ",
        first.format(arguments).as_bytes(),
        b" ",
        second.format(locals).as_bytes(),
        b"\n",
    ])
}

// The line of a subroutine.
fn put_sub_line<S: Sink>(sub: &SubPlaces, out: &mut Pieces<'_, S>) -> Put
    ensures same_sink { HaveSameSink out.old out.new }
    ensures passes { Buffers out.old out.new (sub_line sub.now) result }
{
    let form = form_word(sub.form);
    let first = first_named(sub.form);
    let arguments = sub.arguments.as_slice();
    let locals = sub.locals.as_slice();
    put_counts(&sub.name, form, first + arguments.len(), locals.len(), out)
}

// The lines of a subroutine and its variables.
fn put_sub<S: Sink>(sub: &SubPlaces, out: &mut Pieces<'_, S>) -> Put
    ensures same_sink { HaveSameSink out.old out.new }
    ensures passes { Buffers out.old out.new (sub_lines sub.now) result }
{
    match put_sub_line(sub, out) {
        Put::Done => {}
        Put::Failed => return Put::Failed,
    }
    let first = first_named(sub.form);
    let arguments = sub.arguments.as_slice();
    match put_variables(&sub.name, "argument", first, arguments, out) {
        Put::Done => put_variables(&sub.name, "local", 0, sub.locals.as_slice(), out),
        Put::Failed => Put::Failed,
    }
}

// The lines of the subroutine of a number.
fn put_sub_at<S: Sink>(places: &Places, number: u32, out: &mut Pieces<'_, S>) -> Put
    ensures same_sink { HaveSameSink out.old out.new }
    ensures passes { Buffers out.old out.new (lines_of_sub (sub_at places.now number)) result }
{
    match places.sub(number) {
        Some(sub) => put_sub(sub, out),
        None => Put::Done,
    }
}

// The lines of the linked subroutines.
fn put_subs<S: Sink>(places: &Places, linked: &[u32], out: &mut Pieces<'_, S>) -> Put
    ensures same_sink { HaveSameSink out.old out.new }
    ensures passes { Buffers out.old out.new
        (flat_map (λ k. lines_of_sub (sub_at places.now k)) linked.now) result }
{
    for number in linked {
        match put_sub_at(places, *number, out) {
            Put::Done => {}
            Put::Failed => return Put::Failed,
        }
    }
    Put::Done
}

// The line of a field.
fn put_field<S: Sink>(class: &Name, k: usize, name: &Name, out: &mut Pieces<'_, S>) -> Put
    ensures same_sink { HaveSameSink out.old out.new }
    ensures passes { Buffers out.old out.new (field_line class.now k name.now) result }
{
    let mut index = Buffer::new();
    let index = index.format(k).as_bytes();
    out.put_all(&[
        b"field ",
        class.as_bytes(),
        b" ",
        name.as_bytes(),
        b" ",
        index,
        b"\n",
    ])
}

// The lines of the fields of a class.
fn put_fields<S: Sink>(class: &Name, names: &[Name], out: &mut Pieces<'_, S>) -> Put
    ensures same_sink { HaveSameSink out.old out.new }
    ensures passes { Buffers out.old out.new (field_lines class.now 0 names.now) result }
{
    for (k, name) in names.iter().enumerate() {
        match put_field(class, k, name, out) {
            Put::Done => {}
            Put::Failed => return Put::Failed,
        }
    }
    Put::Done
}

// The line of a static with the address of its word, if it has one.
fn put_word<S: Sink>(
    class: &Name,
    name: &Name,
    address: Option<u16>,
    out: &mut Pieces<'_, S>,
) -> Put
    ensures same_sink { HaveSameSink out.old out.new }
    ensures passes { Buffers out.old out.new (word_line class.now name.now address) result }
{
    match address {
        None => Put::Done,
        Some(address) => {
            let mut digits = Buffer::new();
            let address = digits.format(address).as_bytes();
            out.put_all(&[
                b"static ",
                class.as_bytes(),
                b" ",
                name.as_bytes(),
                b" ",
                address,
                b"\n",
            ])
        }
    }
}

// The lines of the statics of a class.
fn put_statics<S: Sink>(class: &Name, statics: &[PlacedStatic], out: &mut Pieces<'_, S>) -> Put
    ensures same_sink { HaveSameSink out.old out.new }
    ensures passes { Buffers out.old out.new (flat_map (static_line class.now) statics.now) result }
{
    for variable in statics {
        match put_word(class, &variable.name, variable.address, out) {
            Put::Done => {}
            Put::Failed => return Put::Failed,
        }
    }
    Put::Done
}

// The lines of a class.
fn put_class<S: Sink>(class: &ClassPlaces, out: &mut Pieces<'_, S>) -> Put
    ensures same_sink { HaveSameSink out.old out.new }
    ensures passes { Buffers out.old out.new (class_lines class.now) result }
{
    match put_fields(&class.name, class.fields.as_slice(), out) {
        Put::Done => put_statics(&class.name, class.statics.as_slice(), out),
        Put::Failed => Put::Failed,
    }
}

// The lines of the class of a number.
fn put_class_at<S: Sink>(places: &Places, k: u32, out: &mut Pieces<'_, S>) -> Put
    ensures same_sink { HaveSameSink out.old out.new }
    ensures passes { Buffers out.old out.new
        (lines_of_class (slice_get places.now.classes k)) result }
{
    match places.class(k) {
        Some(class) => put_class(class, out),
        None => Put::Done,
    }
}

// The lines of these classes.
fn put_classes<S: Sink>(places: &Places, by_name: &[u32], out: &mut Pieces<'_, S>) -> Put
    ensures same_sink { HaveSameSink out.old out.new }
    ensures passes { Buffers out.old out.new
        (flat_map (λ k. lines_of_class (slice_get places.now.classes k)) by_name.now) result }
{
    for k in by_name {
        match put_class_at(places, *k, out) {
            Put::Done => {}
            Put::Failed => return Put::Failed,
        }
    }
    Put::Done
}

// The lines of the image.
fn put_image_lines<S: Sink>(places: &Places, out: &mut Pieces<'_, S>) -> Put
    ensures same_sink { HaveSameSink out.old out.new }
    ensures passes { Buffers out.old out.new (image_lines places.now) result }
{
    match put_points(places, places.ranges.as_slice(), out) {
        Put::Done => {}
        Put::Failed => return Put::Failed,
    }
    match put_commits(places.commits.as_slice(), out) {
        Put::Done => put_shared(places.shared.as_slice(), out),
        Put::Failed => Put::Failed,
    }
}

// The lines of the program.
fn put_program_lines<S: Sink>(places: &Places, out: &mut Pieces<'_, S>) -> Put
    ensures same_sink { HaveSameSink out.old out.new }
    ensures passes { Buffers out.old out.new (program_lines places.now) result }
{
    match put_subs(places, places.linked.as_slice(), out) {
        Put::Done => put_classes(places, places.by_name.as_slice(), out),
        Put::Failed => Put::Failed,
    }
}

// All lines.
fn put_all_lines<S: Sink>(places: &Places, out: &mut Pieces<'_, S>) -> Put
    ensures same_sink { HaveSameSink out.old out.new }
    ensures passes { Buffers out.old out.new (map_text places.now) result }
{
    match out.put(b"map 2\n") {
        Put::Done => {}
        Put::Failed => return Put::Failed,
    }
    match put_image_lines(places, out) {
        Put::Done => put_program_lines(places, out),
        Put::Failed => Put::Failed,
    }
}

// The same from an empty buffer, which is empty again after it.
fn put_map<S: Sink>(places: &Places, out: &mut Pieces<'_, S>) -> Put
    requires { pending out.old ≡ [] }
    ensures same_sink { HaveSameSink out.old out.new }
    ensures put { Puts (S.state (sink_of out.old)) (S.state (sink_of out.new))
        (map_text places.now) result }
{
    match put_all_lines(places, out) {
        Put::Done => out.finish(),
        Put::Failed => Put::Failed,
    }
}

/// Puts the map of a program in its second form: its points with their places in the source, its commits, and the routines
/// that commands share. Then come its linked subroutines and their variables, and the fields and statics of their classes.
pub fn print_map<S: Sink>(places: &Places, out: &mut S) -> Put
    ensures put { Puts (S.state out.old) (S.state out.new) (map_text places.now) result }
{
    let mut pieces = Pieces::new(out);
    put_map(places, &mut pieces)
}
