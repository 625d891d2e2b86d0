//! The VM program of a program with resolved names.
ghost use Rattle.std.specs.Prelude.{◌≡◌, ◌+◌, ◌^◌, ◌++◌, ◌∷◌, ◌<◌, ◌≤◌, ℕ, [], OnOk, IfOk, MatchResult, map, length, slice_index, slice_get, drop, get_or, false, option_map};
ghost use Rattle.jack_core.specs.Texts.{the_class, the_kind, the_subroutine, names_of, class_names_of};
ghost use Rattle.jack_compiler.specs.Lines.{object_lines};
ghost use Rattle.jack_compiler.specs.Files.{files_of, statics_before};
ghost use Rattle.jack_compiler.specs.Inner.Added.{AddsFunction, AreFiles};
ghost use Rattle.jack_compiler.specs.Files.{file_of as file_made, function_of as function_made};
ghost use Rattle.jack_compiler.specs.Inner.Hollow.{is_wanted, whole_if, whole_where, hollow_files};
ghost use Rattle.jack_compiler.specs.Inner.Surroundings.{the_around};
ghost use Rattle.jack_compiler.specs.Inner.Named.{NamesAll};
ghost use Rattle.jack_compiler.specs.Resolved.{IsResolvedCore};

use crate::bodies::{Body, add_statements, first_number};
use crate::expressions::{Around, name_at};
use crate::lines::quiet;
use jack_core::{Class, Core, Kind, Subroutine};
use outer_world::List;
use std::alloc::{AllocError, Global};
use vm_tree::{Command, File, Function, Line, Program, Segment};

// A method's object is its first argument.
fn add_object(lines: &mut List<Line>, kind: Kind, n: u32) -> Result<(), AllocError>
    ensures { OnOk result (lines.new ≡ lines.old ++ object_lines (the_kind kind) n) }
{
    if kind == Kind::Method {
        quiet(lines, n, Command::Push(Segment::Argument, 0))?;
        quiet(lines, n, Command::Pop(Segment::Pointer, 0))?;
    }
    Ok(())
}

// The function of a subroutine.
fn function_of(around: &Around<'_>, number: usize, sub: &Subroutine) -> Result<Function, AllocError>
    requires { NamesAll around.now number (the_subroutine sub.now) }
    ensures { IfOk result
        (λ f. f ≡ function_made (the_around around.now) number (the_subroutine sub.now)) }
{
    let mut body = Body {
        lines: List::new(around.alloc),
        ifs: 0,
        whiles: 0,
    };
    add_object(&mut body.lines, sub.kind, first_number(0, &sub.body))?;
    add_statements(&mut body, around, 0, &sub.body)?;
    let name = name_at(around, number)?;
    Ok(Function {
        name,
        locals: sub.locals as u16,
        lines: body.lines,
    })
}

// A sum. Memory is wanted only where 32 bits do not have it.
fn sum(a: u32, b: u32) -> Result<u32, AllocError>
    ensures { MatchResult result (λ n. n ≡ a + b) (λ _. 2 ^ 32 ≤ a + b) }
{
    a.checked_add(b).ok_or(AllocError)
}

// How many statics the classes before each class have.
fn statics_before(alloc: Global, classes: &[Class]) -> Result<Vec<u32>, AllocError>
    ensures { IfOk result
        (λ v. (length v.items ≡ length classes.now) × ((k : ℕ) → k < length classes.now
        → slice_index v.items k ≡ statics_before (map the_class classes.now) k)) }
{
    let mut before = Vec::new(alloc);
    let mut statics: u32 = 0;
    for class in classes {
        before.push(statics)?;
        statics = sum(statics, class.statics)?;
    }
    Ok(before)
}

// A file for each class, without functions.
fn files(alloc: Global, classes: &[Class]) -> Result<Vec<File>, AllocError>
    ensures { IfOk result (λ v. v.items ≡ map (λ class. file_made class.name []) classes.now) }
{
    let mut files = Vec::new(alloc);
    for class in classes {
        files.push(File {
            name: class.name.clone()?,
            opening: List::new(alloc),
            functions: List::new(alloc),
        })?;
    }
    Ok(files)
}

// The function of a subroutine without its commands.
fn hollow_function(
    around: &Around<'_>,
    number: usize,
    sub: &Subroutine,
) -> Result<Function, AllocError>
    requires { NamesAll around.now number (the_subroutine sub.now) }
    ensures { IfOk result (λ f. f
        ≡ function_made (the_around around.now) number (whole_if false (the_subroutine sub.now))) }
{
    let name = name_at(around, number)?;
    Ok(Function {
        name,
        locals: sub.locals as u16,
        lines: List::new(around.alloc),
    })
}

// The function of a subroutine, with its commands where it is wanted.
fn function_where(
    around: &Around<'_>,
    number: usize,
    sub: &Subroutine,
    wanted: bool,
) -> Result<Function, AllocError>
    requires { NamesAll around.now number (the_subroutine sub.now) }
    ensures { IfOk result (λ f. f
        ≡ function_made (the_around around.now) number (whole_if wanted (the_subroutine sub.now))) }
{
    if wanted {
        function_of(around, number, sub)
    } else {
        hollow_function(around, number, sub)
    }
}

// The function of a subroutine comes to the file of its class.
fn add_function(
    files: &mut Vec<File>,
    around: &Around<'_>,
    number: usize,
    sub: &Subroutine,
    wanted: bool,
) -> Result<(), AllocError>
    requires names { NamesAll around.now number (the_subroutine sub.now) }
    requires class { sub.now.class < length files.old.items }
    ensures { OnOk result (AddsFunction (the_around around.now) number
        (whole_if wanted (the_subroutine sub.now)) files.old.items files.new.items) }
{
    let function = function_where(around, number, sub, wanted)?;
    files[sub.class as usize].functions.push(function)?;
    Ok(())
}

// Whether the commands of a subroutine are wanted. Without marks all are.
fn is_wanted(marks: Option<&[bool]>, number: usize) -> bool
    ensures { result ≡ is_wanted (option_map (λ m. m.now) marks.entry) number }
{
    match marks {
        Some(marks) => marks.get(number).copied().unwrap_or(false),
        None => true,
    }
}

// The files with the functions of each class, in order of their numbers. (Subroutine 0 has none.)
fn with_functions(
    alloc: Global,
    core: &Core,
    others: &[Subroutine],
    marks: Option<&[bool]>,
) -> Result<Vec<File>, AllocError>
    requires resolved { IsResolvedCore core.now }
    requires others { others.now ≡ drop 1 core.now.subroutines.items }
    ensures { IfOk result (λ v. AreFiles (map the_class core.now.classes.items) (names_of core.now)
        (class_names_of core.now) (whole_where (option_map (λ m. m.now) marks.entry) 1
        (map the_subroutine others.now)) v.items) }
{
    let before = statics_before(alloc, &core.classes)?;
    let mut files = files(alloc, &core.classes)?;
    for (index, sub) in others.iter().enumerate() {
        let around = Around {
            alloc,
            subroutines: &core.subroutines,
            before: before[sub.class as usize],
        };
        let wanted = is_wanted(marks, index + 1);
        add_function(&mut files, &around, index + 1, sub, wanted)?;
    }
    Ok(files)
}

// All subroutines but the first one.
fn others(core: &Core) -> &[Subroutine]
    requires { IsResolvedCore core.now }
    ensures { result.now ≡ drop 1 core.now.subroutines.items }
{
    &core.subroutines[1..]
}

/// The VM program of a program with resolved names. It has a file for each class, with its name and the commands of the book's chapters 7 to
/// 11 for its subroutines. Each command has the number of its statement, and whether it ends a step of the meaning.
pub fn compile(alloc: Global, core: &Core) -> Result<Program, AllocError>
    requires resolved { IsResolvedCore core.now }
    ensures { IfOk result (λ program. program ≡ files_of core.now) }
{
    let files = with_functions(alloc, core, others(core), None)?;
    Ok(List::of(files))
}

/// The same of the subroutines that are marked: the functions of the others have no commands.
pub(crate) fn compile_marked(
    alloc: Global,
    core: &Core,
    marks: &[bool],
) -> Result<Program, AllocError>
    requires resolved { IsResolvedCore core.now }
    ensures { IfOk result (λ program. program ≡ hollow_files marks.now core.now) }
{
    let files = with_functions(alloc, core, others(core), Some(marks))?;
    Ok(List::of(files))
}
