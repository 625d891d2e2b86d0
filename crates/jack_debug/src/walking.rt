//! What a computer's memory shows of the call that it is in.
ghost use Rattle.std.specs.Prelude.{◌≡◌, ◌↔◌, ◌<◌, ◌+◌, ◌^◌, IsTrue, ℕ, Bool, List, map, IfOk, IsSome, slice_get, if◌then◌else◌, length};
ghost use Rattle.jack_debug.specs.Walk.{Callers, IsFrame, ShowsStart, ShowsCall, Walk, is_in, point_in, variables_from, static_variable, statics_of, static_word, this_of, word_at, first_named};

use crate::seen::{Caller, Variable, View};
use crate::words::word_at;
use crate::{ClassPlaces, PlacedStatic, Places, SubPlaces, Words};
use jack_tree::Form;
use outer_world::{List, Name, Point};
use std::alloc::{AllocError, Global};

// Names with their words, which stand from an address on; with 0 where the words are not made yet.
fn variables<W: Words>(
    alloc: Global,
    words: &W,
    names: &[Name],
    base: usize,
    first: usize,
    unmade: bool,
) -> Result<List<Variable>, AllocError>
    requires base { base < 2 ^ 16 }
    requires first { first < 2 }
    ensures { IfOk result (λ shown. shown ≡ variables_from
        (λ k. if unmade then 0 else word_at (W.words words.now) (base + k)) first names.now) }
{
    let mut shown = List::new(alloc);
    for (i, name) in names.iter().enumerate() {
        let word = if unmade {
            0
        } else {
            word_at(words, base + (first + i))
        };
        shown.push(Variable {
            name: name.clone()?,
            word,
        })?;
    }
    Ok(shown)
}

// The word of a static.
fn static_word<W: Words>(words: &W, address: Option<u16>) -> u16
    ensures { result ≡ static_word (W.words words.now) address }
{
    match address {
        Some(a) => word_at(words, a as usize),
        None => 0,
    }
}

// Statics with their words.
fn statics<W: Words>(
    alloc: Global,
    words: &W,
    places: &[PlacedStatic],
) -> Result<List<Variable>, AllocError>
    ensures { IfOk result (λ shown. shown ≡ map (static_variable (W.words words.now)) places.now) }
{
    let mut shown = List::new(alloc);
    for place in places {
        let word = static_word(words, place.address);
        shown.push(Variable {
            name: place.name.clone()?,
            word,
        })?;
    }
    Ok(shown)
}

// The statics of a class.
fn statics_at<W: Words>(
    alloc: Global,
    words: &W,
    classes: &[ClassPlaces],
    class: u32,
) -> Result<List<Variable>, AllocError>
    ensures { IfOk result (λ shown. shown
        ≡ map (static_variable (W.words words.now)) (statics_of (slice_get classes.now class))) }
{
    match classes.get(class as usize) {
        Some(class) => statics(alloc, words, class.statics.as_slice()),
        None => Ok(List::new(alloc)),
    }
}

// Whether the locals of a frame can begin at `l`, where those of the frame above it begin at `above`.
fn is_frame(above: u16, l: u16) -> bool
    ensures { IsTrue result ↔ IsFrame above l }
{
    261 <= l && l <= 2047 && l + 5 <= above
}

// The callers from the innermost, and whether the walk was lost before it came to `start`.
fn callers<W: Words>(
    alloc: Global,
    places: &Places,
    words: &W,
) -> Result<(List<Caller>, bool), AllocError>
    ensures { IfOk result (λ found. Callers places.now (W.words words.now) 2052
        (W.words words.now 1) found.0 found.1) }
{
    let mut found = List::new(alloc);
    let mut above: u16 = 2052;
    let mut frame = words.word(1);
    'frames: loop {
        if !is_frame(above, frame) {
            return Ok((found, true));
        }
        let Some(point) = places.point(words.word(frame - 5)) else {
            return Ok((found, true));
        };
        let sub = Name::new(alloc, places.name(point.sub))?;
        found.push(Caller {
            sub,
            number: point.number,
        })?;
        if point.sub == 0 {
            return Ok((found, false));
        }
        above = frame;
        frame = words.word(frame - 4);
    }
}

// `this` of a call.
fn this<W: Words>(words: &W, form: Form, number: u32) -> Option<u16>
    ensures { result ≡ this_of (W.words words.now) form number }
{
    match form {
        Form::Method => Some(word_at(words, words.word(2) as usize)),
        Form::Constructor => Some(if number == 0 { 0 } else { words.word(3) }),
        Form::Function => None,
    }
}

/// How many arguments have no name.
pub(crate) fn first_named(form: Form) -> usize
    ensures value { result ≡ first_named form }
    ensures few { result < 2 }
{
    match form {
        Form::Method => 1,
        Form::Constructor | Form::Function => 0,
    }
}

// A call of a subroutine with variables.
fn call<W: Words>(
    alloc: Global,
    places: &Places,
    words: &W,
    sub: &SubPlaces,
    point: Point,
    pc: u16,
) -> Result<View, AllocError>
    ensures point { IfOk result (λ v. v.point ≡ point) }
    ensures shows { IfOk result (λ v. ShowsCall places.now (W.words words.now) sub.now pc v) }
{
    let entering = sub.from <= pc as u32 && (pc as u32) < sub.to;
    let first = first_named(sub.form);
    let arguments = variables(
        alloc,
        words,
        sub.arguments.as_slice(),
        words.word(2) as usize,
        first,
        false,
    )?;
    let locals = variables(
        alloc,
        words,
        sub.locals.as_slice(),
        words.word(1) as usize,
        0,
        entering,
    )?;
    let statics = statics_at(alloc, words, places.classes.as_slice(), sub.class)?;
    let (callers, lost) = callers(alloc, places, words)?;
    Ok(View {
        point,
        this: this(words, sub.form, point.number),
        arguments,
        locals,
        statics,
        callers,
        lost,
    })
}

/// The view of a computer with these words whose next instruction is at `pc`, which is an address with a control point.
pub fn view<W: Words>(
    alloc: Global,
    places: &Places,
    words: &W,
    pc: u16,
) -> Result<View, AllocError>
    requires { IsSome (point_in places.now.ranges pc) }
    ensures { IfOk result (λ v. Walk places.now (W.words words.now) pc v) }
{
    let point = match places.point(pc) {
        Some(point) => point,
        None => Point { sub: 0, number: 0 },
    };
    match places.sub(point.sub) {
        Some(sub) => call(alloc, places, words, sub, point, pc),
        None => Ok(View {
            point,
            this: None,
            arguments: List::new(alloc),
            locals: List::new(alloc),
            statics: List::new(alloc),
            callers: List::new(alloc),
            lost: false,
        }),
    }
}
