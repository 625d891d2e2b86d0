//! The places of a program, from the trees of its classes and from its linked code and image.
ghost use Rattle.std.specs.Prelude.{◌≡◌, ◌+◌, ◌++◌, ◌≤◌, ◌<◌, ◌^◌, nat_lt, if◌then◌else◌, Some, None, IfOk, OnOk, map, length, sum_by, codes};
ghost use Rattle.jack_compiler.specs.Statics.{words_in, words_until};
ghost use Rattle.vm_debug.specs.Places.{argument_names, class_subs, entry_in, entry_of, field_names, file_name, linked_numbers, local_names, names_in, names_of_fields, names_of_statics, placed_class, placed_classes, placed_range, placed_statics, placed_subs, sub_with, static_names, the_places, trees_of};
ghost use Rattle.vm_debug.specs.Inner.Tables.{place_by, range_by, table_of};

use image_map::{ImageMap, PointRange};
use jack_debug::{
    ClassPlaces, PlacedRange, PlacedStatic, Places, SubPlaces, classes_by_name, subroutine_places,
};
use jack_tree::{Class, ClassVariables, Locals, Names, Parameter, Scope, Subroutine, Text};
use outer_world::{List, Name, Point};
use scan_text::Place;
use std::alloc::{AllocError, Global};
use vm_link::{Linked, LinkedFile, LinkedFunction};

// Adds the names of a declaration.
fn add_names(alloc: Global, declared: &Names, names: &mut List<Name>) -> Result<(), AllocError>
    ensures { OnOk result (names.new ≡ names.old ++ names_in declared.now) }
{
    names.push(declared.first.text.name(alloc)?)?;
    for name in &declared.more {
        names.push(name.text.name(alloc)?)?;
    }
    Ok(())
}

// The names of arguments.
fn arguments_of(alloc: Global, parameters: &[Parameter]) -> Result<List<Name>, AllocError>
    ensures { IfOk result (λ names. names ≡ argument_names parameters.now) }
{
    let mut names = List::new(alloc);
    for parameter in parameters {
        names.push(parameter.name.text.name(alloc)?)?;
    }
    Ok(names)
}

// The names of locals.
fn locals_of(alloc: Global, locals: &[Locals]) -> Result<List<Name>, AllocError>
    ensures { IfOk result (λ names. names ≡ local_names locals.now) }
{
    let mut names = List::new(alloc);
    for line in locals {
        add_names(alloc, &line.names, &mut names)?;
    }
    Ok(names)
}

// Adds the names of a declaration of statics.
fn add_statics(
    alloc: Global,
    scope: Scope,
    declared: &Names,
    names: &mut List<Name>,
) -> Result<(), AllocError>
    ensures { OnOk result (names.new ≡ names.old ++ names_of_statics scope declared.now) }
{
    match scope {
        Scope::Static => add_names(alloc, declared, names),
        Scope::Field => Ok(()),
    }
}

// The names of the statics among a class's variables.
fn statics_of(alloc: Global, variables: &[ClassVariables]) -> Result<List<Name>, AllocError>
    ensures { IfOk result (λ names. names ≡ static_names variables.now) }
{
    let mut names = List::new(alloc);
    for line in variables {
        add_statics(alloc, line.scope, &line.names, &mut names)?;
    }
    Ok(names)
}

// Adds the names of a declaration of fields.
fn add_fields(
    alloc: Global,
    scope: Scope,
    declared: &Names,
    names: &mut List<Name>,
) -> Result<(), AllocError>
    ensures { OnOk result (names.new ≡ names.old ++ names_of_fields scope declared.now) }
{
    match scope {
        Scope::Static => Ok(()),
        Scope::Field => add_names(alloc, declared, names),
    }
}

// The names of the fields among a class's variables.
fn fields_of(alloc: Global, variables: &[ClassVariables]) -> Result<List<Name>, AllocError>
    ensures { IfOk result (λ names. names ≡ field_names variables.now) }
{
    let mut names = List::new(alloc);
    for line in variables {
        add_fields(alloc, line.scope, &line.names, &mut names)?;
    }
    Ok(names)
}

// The entry of a number among entries.
fn entry_at(entries: &[(u32, u32)], k: usize) -> (u32, u32)
    ensures { result ≡ entry_in entries.now k }
{
    match entries.get(k) {
        Some(entry) => *entry,
        None => (0, 0),
    }
}

// The entry code of the function of a number, where it is linked.
fn entry(functions: &[LinkedFunction], entries: &[(u32, u32)], number: usize) -> (u32, u32)
    ensures { result ≡ entry_of functions.now entries.now number }
{
    for (k, function) in functions.iter().enumerate() {
        if function.number as usize == number {
            return entry_at(entries, k);
        }
    }
    (0, 0)
}

// The static words of the files before one, and its own.
fn file_words(files: &[LinkedFile], k: usize) -> (u32, u32)
    requires { sum_by (λ f. f.statics) files.now ≤ 240 }
    ensures before { result.0 ≡ words_until files.now k }
    ensures own { result.1 ≡ words_in files.now k }
    ensures few { result.0 + result.1 ≤ 240 }
{
    let mut before = 0;
    for (i, file) in files.iter().enumerate() {
        if i == k {
            return (before, file.statics);
        }
        before += file.statics;
    }
    (before, 0)
}

// The address of a static, where it has a word.
fn static_address(first: u32, words: u32, k: usize) -> Option<u16>
    requires { first + words ≤ 256 }
    ensures { result ≡ (if nat_lt k words then Some (first + k) else None) }
{
    if k < words as usize {
        Some((first as usize + k) as u16)
    } else {
        None
    }
}

// Statics of a class with their addresses.
fn statics_at(
    alloc: Global,
    names: &[Name],
    first: u32,
    words: u32,
) -> Result<List<PlacedStatic>, AllocError>
    requires { first + words ≤ 256 }
    ensures { IfOk result (λ placed. placed ≡ placed_statics first words 0 names.now) }
{
    let mut placed = List::new(alloc);
    for (k, name) in names.iter().enumerate() {
        placed.push(PlacedStatic {
            name: name.clone()?,
            address: static_address(first, words, k),
        })?;
    }
    Ok(placed)
}

// The name of the file of the class of number k, where this many classes are the folder's own.
fn file_of(alloc: Global, own: usize, k: usize, file: &Name) -> Result<Name, AllocError>
    ensures { IfOk result (λ name. name ≡ file_name own k file.now) }
{
    if k < own {
        return file.clone();
    }
    let mut name = String::from_str(alloc, "os/")?;
    name.push_str(file.as_str())?;
    Name::new(alloc, name.as_str())
}

// The class of number k.
fn class_at(
    alloc: Global,
    files: &[LinkedFile],
    own: usize,
    k: usize,
    class: &Class,
) -> Result<ClassPlaces, AllocError>
    requires { sum_by (λ f. f.statics) files.now ≤ 240 }
    ensures { IfOk result (λ placed. placed ≡ placed_class files.now own k class.now) }
{
    let names = statics_of(alloc, &class.variables)?;
    let (before, words) = file_words(files, k);
    let statics = statics_at(alloc, names.as_slice(), 16 + before, words)?;
    Ok(ClassPlaces {
        name: class.name.text.name(alloc)?,
        file: file_of(alloc, own, k, &class.file)?,
        fields: fields_of(alloc, &class.variables)?,
        statics,
    })
}

// Adds classes to those before them.
fn add_classes(
    alloc: Global,
    classes: &[Class],
    files: &[LinkedFile],
    own: usize,
    placed: &mut List<ClassPlaces>,
) -> Result<(), AllocError>
    requires { sum_by (λ f. f.statics) files.now ≤ 240 }
    ensures { OnOk result
        (placed.new ≡ placed.old ++ placed_classes files.now own (length placed.old) classes.now) }
{
    for class in classes {
        let k = placed.as_slice().len();
        placed.push(class_at(alloc, files, own, k, class)?)?;
    }
    Ok(())
}

// The whole name of a subroutine, as `Main.main`.
fn whole_name(alloc: Global, class: &Text, sub: &Text) -> Result<Name, AllocError>
    ensures { IfOk result (λ name. name ≡ class.now ++ (codes "." ++ sub.now)) }
{
    let mut name = String::from_str(alloc, class.as_str())?;
    name.push_str(".")?;
    name.push_str(sub.as_str())?;
    Name::new(alloc, name.as_str())
}

// A subroutine of a class, and its entry code.
fn sub_at(
    alloc: Global,
    sub: &Subroutine,
    class: u32,
    name: &Text,
    entry: (u32, u32),
) -> Result<SubPlaces, AllocError>
    ensures { IfOk result (λ placed. placed ≡ sub_with class name.now entry sub.now) }
{
    Ok(SubPlaces {
        name: whole_name(alloc, name, &sub.name.text)?,
        form: sub.form,
        class,
        arguments: arguments_of(alloc, &sub.parameters)?,
        locals: locals_of(alloc, &sub.locals)?,
        from: entry.0,
        to: entry.1,
    })
}

// Adds the subroutines of a class to those before them.
fn add_class_subs(
    alloc: Global,
    class: &Class,
    k: u32,
    functions: &[LinkedFunction],
    entries: &[(u32, u32)],
    subs: &mut List<SubPlaces>,
) -> Result<(), AllocError>
    ensures { OnOk result (subs.new ≡ subs.old ++ class_subs functions.now entries.now k
        class.now.name.text (length subs.old + 1) class.now.subroutines.items) }
{
    for sub in &class.subroutines {
        let entry = entry(functions, entries, subs.as_slice().len() + 1);
        subs.push(sub_at(alloc, sub, k, &class.name.text, entry)?)?;
    }
    Ok(())
}

// Adds the subroutines of classes to those before them.
fn add_subs(
    alloc: Global,
    classes: &[Class],
    first: usize,
    functions: &[LinkedFunction],
    entries: &[(u32, u32)],
    subs: &mut List<SubPlaces>,
) -> Result<(), AllocError>
    requires { first + length classes.now < 2 ^ 32 }
    ensures { OnOk result (subs.new ≡ subs.old
        ++ placed_subs functions.now entries.now first (length subs.old + 1) classes.now) }
{
    for (i, class) in classes.iter().enumerate() {
        add_class_subs(alloc, class, (first + i) as u32, functions, entries, subs)?;
    }
    Ok(())
}

// Adds the places of the statements of subroutines, a table for each.
fn add_sub_tables(
    alloc: Global,
    subs: &[Subroutine],
    tables: &mut List<List<Place>>,
) -> Result<(), AllocError>
    ensures { OnOk result (tables.new ≡ tables.old ++ map table_of subs.now) }
{
    for sub in subs {
        tables.push(subroutine_places(alloc, sub)?)?;
    }
    Ok(())
}

// Adds the tables of the subroutines of classes.
fn add_tables(
    alloc: Global,
    classes: &[Class],
    tables: &mut List<List<Place>>,
) -> Result<(), AllocError>
    ensures { OnOk result (tables.new ≡ tables.old ++ map table_of (trees_of classes.now)) }
{
    for class in classes {
        add_sub_tables(alloc, &class.subroutines, tables)?;
    }
    Ok(())
}

// What is in no text.
const NOWHERE: Place = Place { line: 0, column: 0 };

// The place of a point's statement, by the tables of the subroutines from number 1 on.
fn place_at(tables: &[List<Place>], point: Point) -> Place
    ensures { result ≡ place_by tables.now point }
{
    if point.sub == 0 {
        return NOWHERE;
    }
    let Some(places) = tables.get(point.sub as usize - 1) else {
        return NOWHERE;
    };
    match places.as_slice().get(point.number as usize) {
        Some(place) => *place,
        None => NOWHERE,
    }
}

// The ranges of an image.
fn ranges_of(
    alloc: Global,
    tables: &[List<Place>],
    points: &[PointRange],
) -> Result<List<PlacedRange>, AllocError>
    ensures { IfOk result (λ ranges. ranges ≡ map (range_by tables.now) points.now) }
{
    let mut ranges = List::new(alloc);
    for range in points {
        ranges.push(PlacedRange {
            from: range.from,
            to: range.to,
            point: range.point,
            place: place_at(tables, range.point),
        })?;
    }
    Ok(ranges)
}

// The ranges of an image, by the classes of its program.
fn placed_ranges(
    alloc: Global,
    own: &[Class],
    system: &[Class],
    points: &[PointRange],
) -> Result<List<PlacedRange>, AllocError>
    ensures { IfOk result
        (λ ranges. ranges ≡ map (placed_range (trees_of (own.now ++ system.now))) points.now) }
{
    let mut tables = List::new(alloc);
    add_tables(alloc, own, &mut tables)?;
    add_tables(alloc, system, &mut tables)?;
    ranges_of(alloc, tables.as_slice(), points)
}

// The numbers of linked functions.
fn numbers_of(alloc: Global, functions: &[LinkedFunction]) -> Result<List<u32>, AllocError>
    ensures { IfOk result (λ numbers. numbers ≡ linked_numbers functions.now) }
{
    let mut numbers = List::new(alloc);
    for function in functions {
        numbers.push(function.number)?;
    }
    Ok(numbers)
}

// Addresses once more.
fn commits_of(alloc: Global, commits: &[u16]) -> Result<List<u16>, AllocError>
    ensures { IfOk result (λ copy. copy ≡ commits.now) }
{
    let mut copy = List::new(alloc);
    for address in commits {
        copy.push(*address)?;
    }
    Ok(copy)
}

// Ranges of addresses once more.
fn shared_of(alloc: Global, shared: &[(u32, u32)]) -> Result<List<(u32, u32)>, AllocError>
    ensures { IfOk result (λ copy. copy ≡ shared.now) }
{
    let mut copy = List::new(alloc);
    for range in shared {
        copy.push(*range)?;
    }
    Ok(copy)
}

// The subroutines of classes, with their entry code.
fn subs_of(
    alloc: Global,
    own: &[Class],
    system: &[Class],
    functions: &[LinkedFunction],
    entries: &[(u32, u32)],
) -> Result<List<SubPlaces>, AllocError>
    requires { length own.now + length system.now < 2 ^ 32 }
    ensures { IfOk result
        (λ subs. subs ≡ placed_subs functions.now entries.now 0 1 (own.now ++ system.now)) }
{
    let mut subs = List::new(alloc);
    add_subs(alloc, own, 0, functions, entries, &mut subs)?;
    add_subs(alloc, system, own.len(), functions, entries, &mut subs)?;
    Ok(subs)
}

// The classes.
fn classes_of(
    alloc: Global,
    own: &[Class],
    system: &[Class],
    files: &[LinkedFile],
) -> Result<List<ClassPlaces>, AllocError>
    requires { sum_by (λ f. f.statics) files.now ≤ 240 }
    ensures { IfOk result
        (λ classes. classes ≡ placed_classes files.now (length own.now) 0 (own.now ++ system.now)) }
{
    let mut classes = List::new(alloc);
    add_classes(alloc, own, files, own.len(), &mut classes)?;
    add_classes(alloc, system, files, own.len(), &mut classes)?;
    Ok(classes)
}

/// The places of the program of these classes and of those of the operating system, whose linked code is `linked` and whose
/// image has this map.
pub fn places_of(
    alloc: Global,
    own: &[Class],
    system: &[Class],
    linked: &Linked,
    map: &ImageMap,
) -> Result<Places, AllocError>
    requires few { length own.now + length system.now < 2 ^ 32 }
    requires statics { sum_by (λ f. f.statics) linked.now.files ≤ 240 }
    ensures { IfOk result (λ places. places ≡ the_places own.now system.now linked.now map.now) }
{
    let functions = linked.functions.as_slice();
    let subs = subs_of(alloc, own, system, functions, map.entries.as_slice())?;
    let classes = classes_of(alloc, own, system, linked.files.as_slice())?;
    let numbers = numbers_of(alloc, functions)?;
    let by_name = classes_by_name(
        alloc,
        classes.as_slice(),
        subs.as_slice(),
        numbers.as_slice(),
    )?;
    Ok(Places {
        ranges: placed_ranges(alloc, own, system, map.points.as_slice())?,
        commits: commits_of(alloc, map.commits.as_slice())?,
        shared: shared_of(alloc, map.shared.as_slice())?,
        subs,
        classes,
        linked: numbers,
        by_name,
    })
}
