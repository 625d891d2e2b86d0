//! The line that words are.
ghost use Rattle.std.specs.Prelude.{◌≡◌, ◌≤◌, ℕ, List, Some, true, false, IfOk, MatchOption, MatchResult, codes, map, option_map, string_bytes};
ghost use Rattle.clap.specs.Words.{Row, Text, first_of, subcommand_rows_of};
ghost use Rattle.command_line.specs.Line.{AreOneLine, HasClassWork, IsFormatOf, IsInRange, IsLine, IsNoLine, IsLevelOf, IsReading, Line, Reads, ReadsFlag, ReadsFormat, ReadsLevel, ReadsNumber, ReadsPoint, ReadsShown, class_command, class_work_of, kind_of, line_of, rows_in};

use crate::commands::table;
use crate::number::number;
use crate::point::point;
use crate::request::{
    ClassWork, DebugRun, Exec, FileWork, MapFormat, Request, Run, RunLevel, Shown, Source,
    SourceKind,
};
use clap::ArgMatches;
use clap::error::ErrorKind;
use machine_io::Show;
use std::alloc::Global;
use thiserror::Error;

const MOST_CYCLES: u32 = 1_000_000_000;

const MOST_ADDRESS: u32 = 32_767;

const MOST_FORMAT: u32 = 2;

const MOST_SEED: u32 = 1_000_000;

const MOST_COUNT: u32 = 1_000;

/// Why words give no request.
#[derive(Clone, Copy, Debug, PartialEq, Eq, Error)]
pub enum LineError {
    /// The words are no line.
    #[error("usage: nand COMMAND ARGUMENTS")]
    Usage,
    /// There was no memory to read them.
    #[error("want of memory")]
    Memory,
}

// The first value of an argument.
fn text_in<'a>(matches: &ArgMatches<'a>, id: &str) -> Option<&'a str>
    ensures { option_map (λ s. s.now) result ≡ first_of id.now (rows_in matches.now) }
{
    matches.get_str(id)
}

// The first value of an argument, as a number of at most `most`.
fn number_in(matches: &ArgMatches<'_>, id: &str, most: u32) -> Option<u32>
    requires { most ≤ 1000000000 }
    ensures { ReadsNumber (rows_in matches.now) id.now most result }
{
    number(text_in(matches, id)?.as_bytes(), most)
}

fn asm<'a>(matches: &ArgMatches<'a>) -> Option<Request<'a>>
    ensures { Reads (codes "asm") (rows_in matches.now) result }
{
    let path = text_in(matches, "path")?;
    Some(Request::File {
        path,
        work: FileWork::Asm,
    })
}

fn exec<'a>(matches: &ArgMatches<'a>) -> Option<Request<'a>>
    ensures { Reads (codes "exec") (rows_in matches.now) result }
{
    let path = text_in(matches, "path")?;
    let Some(cycles) = number_in(matches, "cycles", MOST_CYCLES) else {
        return None;
    };
    let Some(from) = number_in(matches, "from", MOST_ADDRESS) else {
        return None;
    };
    let Some(to) = number_in(matches, "to", MOST_ADDRESS) else {
        return None;
    };
    let exec = Exec {
        cycles,
        from: from as u16,
        to: to as u16,
    };
    Some(Request::File {
        path,
        work: FileWork::Exec(exec),
    })
}

// Whether an option without a value of its own stands.
fn flag_in(matches: &ArgMatches<'_>, id: &str) -> Option<bool>
    ensures { ReadsFlag (rows_in matches.now) id.now result }
{
    let Some(text) = text_in(matches, id) else {
        return None;
    };
    match text {
        "true" => Some(true),
        "false" => Some(false),
        _ => None,
    }
}

fn vm<'a>(matches: &ArgMatches<'a>) -> Option<Request<'a>>
    ensures { Reads (codes "vm") (rows_in matches.now) result }
{
    let folder = text_in(matches, "path")?;
    let Some(bare) = flag_in(matches, "bare") else {
        return None;
    };
    Some(Request::Vm { folder, bare })
}

// The kind of source that a path names.
fn kind_of(path: &str) -> Option<SourceKind>
    ensures { result ≡ kind_of path.now }
{
    if path.as_bytes().ends_with(b".vm") {
        Some(SourceKind::Vm)
    } else if path.as_bytes().ends_with(b".jack") {
        Some(SourceKind::Jack)
    } else if path.as_bytes().ends_with(b".hdl") {
        Some(SourceKind::Hdl)
    } else {
        None
    }
}

fn show<'a>(matches: &ArgMatches<'a>) -> Option<Request<'a>>
    ensures { Reads (codes "show") (rows_in matches.now) result }
{
    let path = text_in(matches, "path")?;
    let Some(kind) = kind_of(path) else {
        return None;
    };
    Some(Request::File {
        path,
        work: FileWork::Show(kind),
    })
}

// The value of `--show`.
fn shown_in(matches: &ArgMatches<'_>) -> Option<Shown>
    ensures { ReadsShown (rows_in matches.now) result }
{
    let Some(text) = text_in(matches, "show") else {
        return None;
    };
    match text {
        "none" => Some(Shown::Words(Show::Nothing)),
        "heap" => Some(Shown::Words(Show::Heap)),
        "screen" => Some(Shown::Words(Show::Screen)),
        "nets" => Some(Shown::Nets),
        _ => None,
    }
}

// The level of a word, at which this is shown.
fn plain_level(word: &str, shown: Shown) -> Option<RunLevel>
    ensures { IsLevelOf word.now shown false result }
{
    match (word, shown) {
        ("jack", Shown::Words(show)) => Some(RunLevel::Jack(show)),
        ("vm", Shown::Words(show)) => Some(RunLevel::Vm(show)),
        ("hack", Shown::Words(show)) => Some(RunLevel::Hack(show)),
        ("gates", shown) => Some(RunLevel::Gates(shown)),
        _ => None,
    }
}

// The same with a netlist that is simplified.
fn simple_level(word: &str, shown: Shown) -> Option<RunLevel>
    ensures { IsLevelOf word.now shown true result }
{
    match (word, shown) {
        ("gates", Shown::Words(show)) => Some(RunLevel::Simplified(show)),
        _ => None,
    }
}

// Either of them.
fn level_of(word: &str, shown: Shown, simplify: bool) -> Option<RunLevel>
    ensures { IsLevelOf word.now shown simplify result }
{
    if simplify {
        simple_level(word, shown)
    } else {
        plain_level(word, shown)
    }
}

// The level, by the values of `--level`, `--show` and `--simplify`.
fn level_in(matches: &ArgMatches<'_>) -> Option<RunLevel>
    ensures { ReadsLevel (rows_in matches.now) result }
{
    let Some(shown) = shown_in(matches) else {
        return None;
    };
    let Some(word) = text_in(matches, "level") else {
        return None;
    };
    let Some(simplify) = flag_in(matches, "simplify") else {
        return None;
    };
    level_of(word, shown, simplify)
}

// A work with the classes of a folder, whose other values are read.
fn with_classes<'a>(matches: &ArgMatches<'a>, work: ClassWork<'a>) -> Option<Request<'a>>
    requires { HasClassWork (rows_in matches.now) (class_work_of work) }
    ensures { Reads (class_command (class_work_of work.entry)) (rows_in matches.now) result }
{
    let folder = text_in(matches, "path")?;
    let Some(replace) = flag_in(matches, "replace") else {
        return None;
    };
    let source = Source { folder, replace };
    Some(Request::Classes { source, work })
}

fn run<'a>(matches: &ArgMatches<'a>) -> Option<Request<'a>>
    ensures { Reads (codes "run") (rows_in matches.now) result }
{
    let Some(level) = level_in(matches) else {
        return None;
    };
    let Some(cycles) = number_in(matches, "cycles", MOST_CYCLES) else {
        return None;
    };
    let keys = text_in(matches, "keys");
    let run = Run {
        level,
        cycles,
        keys,
    };
    with_classes(matches, ClassWork::Run(run))
}

// The form of a map that has this number.
fn format_of(number: u32) -> Option<MapFormat>
    ensures { IsFormatOf number result }
{
    match number {
        1 => Some(MapFormat::Points),
        2 => Some(MapFormat::Places),
        _ => None,
    }
}

// The form of a map, by the value of `--format`.
fn format_in(matches: &ArgMatches<'_>) -> Option<MapFormat>
    ensures { ReadsFormat (rows_in matches.now) result }
{
    let Some(number) = number_in(matches, "format", MOST_FORMAT) else {
        return None;
    };
    format_of(number)
}

fn map<'a>(matches: &ArgMatches<'a>) -> Option<Request<'a>>
    ensures { Reads (codes "map") (rows_in matches.now) result }
{
    let Some(format) = format_in(matches) else {
        return None;
    };
    with_classes(matches, ClassWork::Map(format))
}

fn chip<'a>(matches: &ArgMatches<'a>) -> Option<Request<'a>>
    ensures { Reads (codes "chip") (rows_in matches.now) result }
{
    let name = text_in(matches, "name")?;
    Some(Request::Chip { name })
}

fn test<'a>(matches: &ArgMatches<'a>) -> Option<Request<'a>>
    ensures { Reads (codes "test") (rows_in matches.now) result }
{
    let path = text_in(matches, "path")?;
    let Some(gates) = flag_in(matches, "gates") else {
        return None;
    };
    let Some(simplify) = flag_in(matches, "simplify") else {
        return None;
    };
    Some(Request::Test {
        path,
        gates,
        simplify,
    })
}

fn soak<'a>(matches: &ArgMatches<'a>) -> Option<Request<'a>>
    ensures { Reads (codes "soak") (rows_in matches.now) result }
{
    let Some(seed) = number_in(matches, "seed", MOST_SEED) else {
        return None;
    };
    let Some(count) = number_in(matches, "count", MOST_COUNT) else {
        return None;
    };
    Some(Request::Soak { seed, count })
}

// The value of `--break`: a statement.
fn point_in<'a>(matches: &ArgMatches<'a>) -> Option<(&'a str, u32)>
    ensures { ReadsPoint (rows_in matches.now) result }
{
    let Some(text) = text_in(matches, "break") else {
        return None;
    };
    point(text)
}

fn debug<'a>(matches: &ArgMatches<'a>) -> Option<Request<'a>>
    ensures { Reads (codes "debug") (rows_in matches.now) result }
{
    let Some((sub, number)) = point_in(matches) else {
        return None;
    };
    let Some(cycles) = number_in(matches, "cycles", MOST_CYCLES) else {
        return None;
    };
    let keys = text_in(matches, "keys");
    let debug = DebugRun {
        sub,
        number,
        cycles,
        keys,
    };
    with_classes(matches, ClassWork::Debug(debug))
}

// The request of a command and its matches.
fn reading<'a>(name: &str, matches: &ArgMatches<'a>) -> Option<Request<'a>>
    ensures { Reads name.now (rows_in matches.now) result }
{
    match name {
        "asm" => asm(matches),
        "exec" => exec(matches),
        "vm" => vm(matches),
        "show" => show(matches),
        "run" => run(matches),
        "compile" => with_classes(matches, ClassWork::Compile),
        "build" => with_classes(matches, ClassWork::Build),
        "map" => map(matches),
        "debug" => debug(matches),
        "chip" => chip(matches),
        "test" => test(matches),
        "soak" => soak(matches),
        _ => None,
    }
}

// The request of the command that the matches have entered.
fn entered<'a>(matches: &ArgMatches<'a>) -> Option<Request<'a>>
    ensures { MatchOption result ((l : Line) (name : Text) (rows : List Row)
        → subcommand_rows_of matches.now ≡ Some (name, rows) → ¬ IsReading name rows l)
        (λ r. (name : Text) × (rows : List Row)
        × (subcommand_rows_of matches.now ≡ Some (name, rows)) × IsReading name rows (line_of r)) }
{
    let Some((name, inner)) = matches.subcommand() else {
        return None;
    };
    reading(name, inner)
}

/// The line that the words are, the program's own name not among them.
///
/// # Errors
/// `Usage` where they are no line; `Memory` where there is too little of it.
pub fn read<'a>(alloc: Global, words: &'a [String]) -> Result<Request<'a>, LineError>
    ensures line { MatchResult result (λ r. IsLine (map string_bytes words.now) (line_of r))
        (λ e. e ≡ LineError.Usage → IsNoLine (map string_bytes words.now)) }
    ensures range { IfOk result (λ r. IsInRange (line_of r)) }
{
    let Ok(command) = table(alloc) else {
        return Err(LineError::Memory);
    };
    match command.try_get_matches_from(words) {
        Ok(matches) => match entered(&matches) {
            Some(request) => Ok(request),
            None => Err(LineError::Usage),
        },
        Err(error) => match error.kind() {
            ErrorKind::OutOfMemory => Err(LineError::Memory),
            _ => Err(LineError::Usage),
        },
    }
}

/// The law that makes `the line of words` a thing to speak of: no code, only the statement.
#[tactic(auto, using(crate::proofs::Lines::one_line))]
pub fn one_line_law()
    ensures { AreOneLine }
{}
