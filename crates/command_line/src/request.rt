//! What a line asks for.

use machine_io::Show;

/// Where the Jack classes of a program are read.
#[derive(Clone, Copy, PartialEq, Eq)]
pub struct Source<'a> {
    /// Their folder.
    pub folder: &'a str,
    /// Whether they take the place of the classes of the operating system that have their names, but for Sys: `--replace`.
    pub replace: bool,
}

/// `exec F --cycles N --from A --to B`: words of the memory after a run of the instruction machine.
#[derive(Clone, Copy, PartialEq, Eq)]
pub struct Exec {
    /// How many cycles are made, at most 1,000,000,000.
    pub cycles: u32,
    /// The first address that is shown, at most 32,767.
    pub from: u16,
    /// The last address that is shown, at most 32,767.
    pub to: u16,
}

/// The kinds of source texts.
#[derive(Clone, Copy, PartialEq, Eq)]
pub enum SourceKind {
    /// A VM text: `.vm`.
    Vm,
    /// A Jack class: `.jack`.
    Jack,
    /// A chip: `.hdl`.
    Hdl,
}

/// What is shown after a report.
#[derive(Clone, Copy, PartialEq, Eq)]
pub enum Shown {
    /// Words of the memory.
    Words(Show),
    /// The outputs of all parts of the computer.
    Nets,
}

/// The levels at which a program can be run, each with what is shown after its report.
#[derive(Clone, Copy, PartialEq, Eq)]
pub enum RunLevel {
    /// The meaning of the Jack text.
    Jack(Show),
    /// The virtual machine, command by command.
    Vm(Show),
    /// The computer, instruction by instruction.
    Hack(Show),
    /// The computer made of gates, the only one that has parts.
    Gates(Shown),
    /// The same with its netlist simplified, of which no parts are shown: `--simplify`.
    Simplified(Show),
}

/// `run D --level L --cycles N [--keys F] [--show W] [--replace] [--simplify]`: the report of a run of a program.
#[derive(Clone, Copy, PartialEq, Eq)]
pub struct Run<'a> {
    /// The level, with what is shown after the report.
    pub level: RunLevel,
    /// How many moves are made, at most 1,000,000,000.
    pub cycles: u32,
    /// The file of the key script, if there is one.
    pub keys: Option<&'a str>,
}

/// The forms of a map.
#[derive(Clone, Copy, PartialEq, Eq)]
pub enum MapFormat {
    /// Form 1: the control points of the image, its commits and its shared routines.
    Points,
    /// Form 2: besides, where each point stands in the source, and the variables of subroutines and classes.
    Places,
}

/// `debug D --break SUB:K --cycles N [--keys F] [--replace]`: what the computer made of gates shows where it comes to a statement.
#[derive(Clone, Copy, PartialEq, Eq)]
pub struct DebugRun<'a> {
    /// The name of the statement's subroutine, as `Main.main`; or `start`.
    pub sub: &'a str,
    /// The number of the statement, at most 1,000,000,000.
    pub number: u32,
    /// How many cycles are made at most, at most 1,000,000,000.
    pub cycles: u32,
    /// The file of the key script, if there is one.
    pub keys: Option<&'a str>,
}

/// What is done with the Jack classes of a source.
#[derive(Clone, Copy, PartialEq, Eq)]
pub enum ClassWork<'a> {
    /// `compile D [--replace]`: the VM text of a folder's own classes.
    Compile,
    /// `build D [--replace]`: the image of a folder's program, as `.hack` text.
    Build,
    /// `map D [--format K] [--replace]`: the map of that image, in form 2 unless form 1 is asked for.
    Map(MapFormat),
    Run(Run<'a>),
    Debug(DebugRun<'a>),
}

/// What is done with one file.
#[derive(Clone, Copy, PartialEq, Eq)]
pub enum FileWork {
    /// `asm F`: the words of an assembly file, as `.hack` text.
    Asm,
    Exec(Exec),
    /// `show F`: the printed form of a source; its path decides the kind.
    Show(SourceKind),
}

/// A line, by what it reads: a command with its values.
#[derive(Clone, Copy, PartialEq, Eq)]
pub enum Request<'a> {
    /// A work with the Jack classes of a folder.
    Classes {
        source: Source<'a>,
        work: ClassWork<'a>,
    },
    /// A work with one file.
    File {
        path: &'a str,
        work: FileWork,
    },
    /// `vm D [--bare]`: the assembly of the VM files of a folder, with `bare` without start code.
    Vm {
        folder: &'a str,
        bare: bool,
    },
    /// `chip NAME`: the printed form of a shipped chip.
    Chip {
        name: &'a str,
    },
    /// `test F [--gates] [--simplify]`: what a test script puts, with `gates` over memories made of gates, with `simplify` over netlists that are
    /// simplified.
    Test {
        path: &'a str,
        gates: bool,
        simplify: bool,
    },
    /// `soak SEED N`: the summary of the programs that are generated from a seed, at most 1,000,000, as far as a number of them, at most 1,000.
    Soak {
        seed: u32,
        count: u32,
    },
}
