//! Texts that are lines, and texts that are no lines. The words of a text stand apart by single spaces, and two spaces
//! have an empty word between them.
use command_line::{
    ClassWork, DebugRun, FileWork, MapFormat, Request, RunLevel, Shown, Source, SourceKind,
};
use machine_io::Show;

// Lines of `exec`, each with its path, its cycles and its two addresses.
const EXECS: &[(&str, &str, u32, u16, u16)] = &[
    // the options before, after and about the path, in any order, as one word or two
    ("exec a.asm --cycles 6 --from 0 --to 1", "a.asm", 6, 0, 1),
    ("exec --cycles 6 --from 0 --to 1 a.asm", "a.asm", 6, 0, 1),
    ("exec --cycles 6 a.asm --from 0 --to 1", "a.asm", 6, 0, 1),
    ("exec --to 1 --from 0 --cycles 6 a.asm", "a.asm", 6, 0, 1),
    ("exec a.asm --to=1 --cycles=6 --from=0", "a.asm", 6, 0, 1),
    ("exec a.asm --cycles=6 --from 0 --to=1", "a.asm", 6, 0, 1),
    // the ends of the ranges, leading zeros, from greater than to
    ("exec a --cycles 0 --from 0 --to 0", "a", 0, 0, 0),
    (
        "exec a --cycles 1000000000 --from 32767 --to 32767",
        "a",
        1_000_000_000,
        32_767,
        32_767,
    ),
    (
        "exec a --cycles 00000000000000000000012 --from 007 --to 000",
        "a",
        12,
        7,
        0,
    ),
    (
        "exec a --cycles=0001000000000 --from=00032767 --to=5",
        "a",
        1_000_000_000,
        32_767,
        5,
    ),
    // a path is used as it is
    (
        "exec prog.hack.asm --cycles 1 --from 2 --to 3",
        "prog.hack.asm",
        1,
        2,
        3,
    ),
    ("exec .hac --cycles 1 --from 2 --to 3", ".hac", 1, 2, 3),
    ("exec prog/ --cycles 1 --from 2 --to 3", "prog/", 1, 2, 3),
    ("exec exec --cycles 1 --from 2 --to 3", "exec", 1, 2, 3),
    ("exec help --cycles 1 --from 2 --to 3", "help", 1, 2, 3),
    ("exec 5 --cycles 1 --from 2 --to 3", "5", 1, 2, 3),
    ("exec a=b --cycles 1 --from 2 --to 3", "a=b", 1, 2, 3),
    ("exec é --cycles 1 --from 2 --to 3", "é", 1, 2, 3),
    ("exec - --cycles 1 --from 2 --to 3", "-", 1, 2, 3),
    ("exec  --cycles 1 --from 2 --to 3", "", 1, 2, 3),
    // also a path of a file of words
    (
        "exec prog.hack --cycles 1 --from 2 --to 3",
        "prog.hack",
        1,
        2,
        3,
    ),
    ("exec .hack --cycles 1 --from 2 --to 3", ".hack", 1, 2, 3),
    (
        "exec --cycles 1 --from 2 --to 3 -- -.hack",
        "-.hack",
        1,
        2,
        3,
    ),
    // `--` ends the options
    ("exec --cycles 1 --from 2 --to 3 -- a", "a", 1, 2, 3),
    ("exec --cycles 1 --from 2 --to 3 -- -a", "-a", 1, 2, 3),
    ("exec --cycles 1 --from 2 --to 3 -- --to", "--to", 1, 2, 3),
    ("exec --cycles 1 --from 2 --to 3 -- --", "--", 1, 2, 3),
    ("exec a --cycles 1 --from 2 --to 3 --", "a", 1, 2, 3),
];

// The folders of Jack classes, whose classes replace none of the operating system, and one whose classes do.
pub(super) const PROG: Source<'static> = Source {
    folder: "prog",
    replace: false,
};

const REPLACING: Source<'static> = Source {
    folder: "prog",
    replace: true,
};

const DASHED: Source<'static> = Source {
    folder: "-p",
    replace: false,
};

// Lines of `run` of the folder prog, each with its level, its cycles and its key script.
const RUNS: &[(&str, RunLevel, u32, Option<&str>)] = &[
    (
        "run prog --level jack --cycles 100",
        RunLevel::Jack(Show::Nothing),
        100,
        None,
    ),
    (
        "run --cycles=100 --level=jack prog",
        RunLevel::Jack(Show::Nothing),
        100,
        None,
    ),
    (
        "run prog --level jack --cycles 0 --show none",
        RunLevel::Jack(Show::Nothing),
        0,
        None,
    ),
    (
        "run --show screen prog --level jack --cycles 1000000000",
        RunLevel::Jack(Show::Screen),
        1_000_000_000,
        None,
    ),
    (
        "run --show=heap prog --cycles 07 --level jack",
        RunLevel::Jack(Show::Heap),
        7,
        None,
    ),
    (
        "run prog --keys k.txt --level jack --cycles 7",
        RunLevel::Jack(Show::Nothing),
        7,
        Some("k.txt"),
    ),
    (
        "run prog --keys= --level jack --cycles 7",
        RunLevel::Jack(Show::Nothing),
        7,
        Some(""),
    ),
    (
        "run prog --keys=-k --level jack --cycles 7",
        RunLevel::Jack(Show::Nothing),
        7,
        Some("-k"),
    ),
    (
        "run prog --level vm --cycles 2000 --show heap",
        RunLevel::Vm(Show::Heap),
        2000,
        None,
    ),
    (
        "run prog --level hack --cycles 2000 --show screen",
        RunLevel::Hack(Show::Screen),
        2000,
        None,
    ),
    (
        "run prog --level gates --cycles 9 --show=heap",
        RunLevel::Gates(Shown::Words(Show::Heap)),
        9,
        None,
    ),
    (
        "run prog --show nets --level gates --cycles 9 --keys k",
        RunLevel::Gates(Shown::Nets),
        9,
        Some("k"),
    ),
    (
        "run prog --level gates --cycles 9 --simplify",
        RunLevel::Simplified(Show::Nothing),
        9,
        None,
    ),
    (
        "run --simplify prog --show screen --level gates --cycles 9",
        RunLevel::Simplified(Show::Screen),
        9,
        None,
    ),
];

// The other lines, and what they ask for.
const LINES: &[(&str, Request<'static>)] = &[
    (
        "debug prog --break Main.main:3 --cycles 5",
        Request::Classes {
            source: PROG,
            work: ClassWork::Debug(DebugRun {
                sub: "Main.main",
                number: 3,
                cycles: 5,
                keys: None,
            }),
        },
    ),
    (
        "debug prog --keys k --cycles=1000000000 --break=start:0001000000000",
        Request::Classes {
            source: PROG,
            work: ClassWork::Debug(DebugRun {
                sub: "start",
                number: 1_000_000_000,
                cycles: 1_000_000_000,
                keys: Some("k"),
            }),
        },
    ),
    (
        "debug prog --replace --break A.b:1 --cycles 7",
        Request::Classes {
            source: REPLACING,
            work: ClassWork::Debug(DebugRun {
                sub: "A.b",
                number: 1,
                cycles: 7,
                keys: None,
            }),
        },
    ),
    (
        "debug prog --break _A1.b_2:0 --cycles 0",
        Request::Classes {
            source: PROG,
            work: ClassWork::Debug(DebugRun {
                sub: "_A1.b_2",
                number: 0,
                cycles: 0,
                keys: None,
            }),
        },
    ),
    (
        "asm a.asm",
        Request::File {
            path: "a.asm",
            work: FileWork::Asm,
        },
    ),
    (
        "asm a",
        Request::File {
            path: "a",
            work: FileWork::Asm,
        },
    ),
    (
        "asm -- --a",
        Request::File {
            path: "--a",
            work: FileWork::Asm,
        },
    ),
    (
        "asm help",
        Request::File {
            path: "help",
            work: FileWork::Asm,
        },
    ),
    (
        "vm v",
        Request::Vm {
            folder: "v",
            bare: false,
        },
    ),
    (
        "vm v --bare",
        Request::Vm {
            folder: "v",
            bare: true,
        },
    ),
    (
        "vm --bare v",
        Request::Vm {
            folder: "v",
            bare: true,
        },
    ),
    (
        "vm -- --bare",
        Request::Vm {
            folder: "--bare",
            bare: false,
        },
    ),
    (
        "show a.vm",
        Request::File {
            path: "a.vm",
            work: FileWork::Show(SourceKind::Vm),
        },
    ),
    (
        "show prog/A.jack",
        Request::File {
            path: "prog/A.jack",
            work: FileWork::Show(SourceKind::Jack),
        },
    ),
    (
        "show .vm",
        Request::File {
            path: ".vm",
            work: FileWork::Show(SourceKind::Vm),
        },
    ),
    (
        "show .jack",
        Request::File {
            path: ".jack",
            work: FileWork::Show(SourceKind::Jack),
        },
    ),
    (
        "show a.jack.vm",
        Request::File {
            path: "a.jack.vm",
            work: FileWork::Show(SourceKind::Vm),
        },
    ),
    (
        "show a.vm.jack",
        Request::File {
            path: "a.vm.jack",
            work: FileWork::Show(SourceKind::Jack),
        },
    ),
    (
        "show -- -a.vm",
        Request::File {
            path: "-a.vm",
            work: FileWork::Show(SourceKind::Vm),
        },
    ),
    (
        "show t/And.hdl",
        Request::File {
            path: "t/And.hdl",
            work: FileWork::Show(SourceKind::Hdl),
        },
    ),
    (
        "compile prog",
        Request::Classes {
            source: PROG,
            work: ClassWork::Compile,
        },
    ),
    (
        "compile -- -p",
        Request::Classes {
            source: DASHED,
            work: ClassWork::Compile,
        },
    ),
    (
        "build prog",
        Request::Classes {
            source: PROG,
            work: ClassWork::Build,
        },
    ),
    (
        "build -- -p",
        Request::Classes {
            source: DASHED,
            work: ClassWork::Build,
        },
    ),
    (
        "map prog",
        Request::Classes {
            source: PROG,
            work: ClassWork::Map(MapFormat::Places),
        },
    ),
    (
        "map prog --format 2",
        Request::Classes {
            source: PROG,
            work: ClassWork::Map(MapFormat::Places),
        },
    ),
    (
        "map --format=01 prog",
        Request::Classes {
            source: PROG,
            work: ClassWork::Map(MapFormat::Points),
        },
    ),
    (
        "compile prog --replace",
        Request::Classes {
            source: REPLACING,
            work: ClassWork::Compile,
        },
    ),
    (
        "build --replace prog",
        Request::Classes {
            source: REPLACING,
            work: ClassWork::Build,
        },
    ),
    (
        "map prog --replace --format 1",
        Request::Classes {
            source: REPLACING,
            work: ClassWork::Map(MapFormat::Points),
        },
    ),
    ("chip Not", Request::Chip { name: "Not" }),
    ("chip map", Request::Chip { name: "map" }),
    ("soak 1 0", Request::Soak { seed: 1, count: 0 }),
    (
        "soak 0001000000 1000",
        Request::Soak {
            seed: 1_000_000,
            count: 1_000,
        },
    ),
];

// Texts that are no lines.
const NO_LINES: &[&str] = &[
    // `--` ends the options
    "exec --cycles 1 --from 2 --to 3 -- a b",
    "exec --cycles 1 --from 2 --to 3 --",
    "exec a --cycles 1 --from 2 -- --to 3",
    "-- exec a --cycles 1 --from 2 --to 3",
    // no command, or none that works
    "",
    "nand exec a --cycles 1 --from 2 --to 3",
    "Exec a --cycles 1 --from 2 --to 3",
    "exe a --cycles 1 --from 2 --to 3",
    "a.asm --cycles 1 --from 2 --to 3",
    "--cycles 1 exec a --from 2 --to 3",
    "builds prog",
    "build prog --replace --replace",
    "build prog --replace=true",
    "vm prog --replace",
    "show a.jack --replace",
    // a statement that is no statement of a program
    "debug prog --break Main.main --cycles 5",
    "debug prog --break Main.main: --cycles 5",
    "debug prog --break Main.main:x --cycles 5",
    "debug prog --break Main.main:1:1 --cycles 5",
    "debug prog --break Main.main:1000000001 --cycles 5",
    "debug prog --break main:1 --cycles 5",
    "debug prog --break .main:1 --cycles 5",
    "debug prog --break Main.:1 --cycles 5",
    "debug prog --break Main.1main:1 --cycles 5",
    "debug prog --break A.b.c:1 --cycles 5",
    "debug prog --break Start:1 --cycles 5",
    "debug prog --cycles 5",
    "debug prog --break Main.main:1",
    "debug prog --break Main.main:1 --cycles 5 --level gates",
    "debug prog --break Main.main:1 --cycles 5 --simplify",
    // a path too few, too many
    "exec",
    "exec --cycles 1 --from 2 --to 3",
    "exec a b --cycles 1 --from 2 --to 3",
    "exec a --cycles 1 --from 2 --to 3 b",
    // an option too few, twice, unknown, cut short, without a value
    "exec a",
    "exec a --cycles 1 --from 2",
    "exec a --cycles 1 --to 3",
    "exec a --from 2 --to 3",
    "exec a --cycles 1 --from 2 --to 3 --to 3",
    "exec a --cycles 1 --cycles=1 --from 2 --to 3",
    "exec a --cycles 1 --from 2 --to 3 --keys k",
    "exec a --cyc 1 --from 2 --to 3",
    "exec a -c 1 --from 2 --to 3",
    "exec a --cycles 1 --from 2 --to",
    "exec a --cycles --from 2 --to 3",
    // numbers: a sign, past the range, empty, no decimal digits
    "exec a --cycles +5 --from 2 --to 3",
    "exec a --cycles=-5 --from 2 --to 3",
    "exec a --cycles -5 --from 2 --to 3",
    "exec a --cycles 1000000001 --from 2 --to 3",
    "exec a --cycles 18446744073709551617 --from 2 --to 3",
    "exec a --cycles 1 --from 32768 --to 3",
    "exec a --cycles 1 --from 2 --to 65536",
    "exec a --cycles= --from 2 --to 3",
    "exec a --cycles  --from 2 --to 3",
    "exec a --cycles 1_0 --from 2 --to 3",
    "exec a --cycles 0x1 --from 2 --to 3",
    "exec a --cycles 1 --from 2 --to ٣",
    // help
    "--help",
    "-h",
    "help",
    "help exec",
    "--version",
    "-V",
    "exec --help",
    "exec -h",
    "exec --version",
    "exec a --cycles 1 --from 2 --to 3 --help",
    "exec a --cycles 1 --from 2 --to 3 -h",
    "exec a --cycles 1 --from 2 --to 3 --version",
    // the other commands
    "asm",
    "asm a b",
    "asm --a",
    "asm a --cycles 1",
    "asm --help",
    "asm a -h",
    "vm",
    "vm --bare",
    "vm v w",
    "vm v --bare --bare",
    "vm v --bare=true",
    "vm v --bare true",
    "vm v --bar",
    "vm v --cycles 1",
    // another ending, a path too few, too many, an option
    "show a",
    "show ",
    "show a.asm",
    "show a.Hdl",
    "show a.Vm",
    "show a.JACK",
    "show avm",
    "show ajack",
    "show vm",
    "show jack",
    "show a.vmx",
    "show a.vm/",
    "show a.jack.",
    "show",
    "show a.vm b.vm",
    "show --a.vm",
    "show a.vm --cycles 1",
    "show a.jack --show none",
    "Show a.vm",
    "compile",
    "compile a b",
    "compile a --bare",
    "Compile a",
    "build",
    "build a b",
    "build a --bare",
    "map",
    "map a b",
    "map a --format",
    "map a --format 0",
    "map a --format 3",
    "map a --format x",
    "map a --format 1 --format 2",
    "build a --format 1",
    "chip",
    "chip Not And",
    "chips Not",
    "soak",
    "soak 1",
    "soak 1 2 3",
    "soak 1001 1001",
    "soak 1000001 0",
    "soak 1 -1",
    "soak +1 1",
    "soak one 1",
    "soak 1 2 --cycles 3",
    "Soak 1 2",
    // other runs
    "run prog",
    "run prog --level jack",
    "run prog --cycles 1",
    "run --level jack --cycles 1",
    "run prog other --level jack --cycles 1",
    "run prog --level Jack --cycles 1",
    "run prog --level VM --cycles 1",
    "run prog --level vm --cycles 1 --show nets",
    "run prog --level gate --cycles 1",
    "run prog --level jack --cycles 1 --show nets",
    "run prog --level hack --cycles 1 --show nets",
    "run prog --level gates --cycles 1 --show net",
    "run prog --level hack --cycles 1 --simplify",
    "run prog --level jack --cycles 1 --simplify",
    "run prog --level vm --cycles 1 --simplify",
    "run prog --level gates --cycles 1 --simplify --show nets",
    "run prog --level gates --cycles 1 --simplify --simplify",
    "run prog --level gates --cycles 1 --simplify=true",
    "build prog --simplify",
    "run prog --level  --cycles 1",
    "run prog --level jack --level jack --cycles 1",
    "run prog --level jack --cycles +1",
    "run prog --level jack --cycles 1000000001",
    "run prog --level jack --cycles 1 --show",
    "run prog --level jack --cycles 1 --show stack",
    "run prog --level jack --cycles 1 --show=",
    "run prog --level jack --cycles 1 --show heap --show heap",
    "run prog --level jack --cycles 1 --keys -k",
    "run prog --level jack --cycles 1 --keys",
    "run prog --level jack --cycles 1 --keys a --keys b",
    "run prog --level jack --cycles 1 --from 2",
];

pub(super) fn execs() -> &'static [(&'static str, &'static str, u32, u16, u16)] {
    EXECS
}

pub(super) fn runs() -> &'static [(&'static str, RunLevel, u32, Option<&'static str>)] {
    RUNS
}

pub(super) fn read_lines() -> &'static [(&'static str, Request<'static>)] {
    LINES
}

pub(super) fn no_lines() -> &'static [&'static str] {
    NO_LINES
}
