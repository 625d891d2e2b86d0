//! Shelves and sinks, in memory and real, each on its happy path and where it fails.
use crate::checks::{holds, is_number, is_put, is_told, is_written};
use crate::entries::Entries;
use outer_world::{
    Detail, Diagnostic, FolderShelf, Listing, MemoryShelf, MemorySink, Name, Pieces, PlainSink,
    Put, Reading, Shelf, Sink, StdSink,
};
use std::alloc::{AllocError, AllocGlobal, Global};
use std::io::{ErrorKind, Write};
use std::process::Abort;
use std::rt::Files;
use std::test::Fail;
use std::{env, fs, io, process};

// What a reading says, as a text.
fn shown(alloc: Global, reading: Reading) -> Result<String, AllocError> {
    match reading {
        Reading::Bytes(bytes) => Ok(format!(in alloc; "{:?}", bytes.as_slice())?),
        Reading::TooLong(limit) => Ok(format!(in alloc; "longer than {limit}")?),
        Reading::Failed => String::from_str(alloc, "failed"),
        Reading::Memory => String::from_str(alloc, "memory"),
    }
}

// The names of a listing in order, each before a space.
fn names_of(alloc: Global, listing: Listing) -> Result<String, AllocError> {
    let mut names = match listing {
        Listing::Names(names) => names,
        Listing::Failed => return String::from_str(alloc, "failed"),
        Listing::Memory => return String::from_str(alloc, "memory"),
    };
    names.sort()?;
    let mut text = String::new(alloc);
    for name in &names {
        text.push_str(name.as_str())?;
        text.push(' ')?;
    }
    Ok(text)
}

fn shelf_of(
    alloc: Global,
    files: &[(&str, &str)],
    fails: &[u64],
) -> Result<MemoryShelf, AllocError> {
    let mut held = Vec::new(alloc);
    for (path, text) in files {
        held.push((Name::new(alloc, path)?, text.as_bytes().to_vec(alloc)?))?;
    }
    Ok(MemoryShelf::new(held, fails.to_vec(alloc)?))
}

// What a shelf answers to a path: with a limit the bytes of the file, and with none the names in the folder.
fn answer<S: Shelf>(
    alloc: Global,
    shelf: &mut S,
    path: &str,
    limit: Option<u32>,
) -> Result<String, AllocError> {
    match limit {
        Some(limit) => shown(alloc, shelf.read(alloc, path, limit)),
        None => names_of(alloc, shelf.list(alloc, path)),
    }
}

const FILES: &[(&str, &str)] = &[
    ("prog/Main.jack", "abc"),
    ("prog/Ball.jack", ""),
    ("prog/Main.jack", "later"),
    ("prog/sub/Main.jack", "x"),
    ("program", "y"),
    ("Add.asm", "@2\n"),
];

// Calls one after the other, each a path and a limit, and what they answer. The third and the tenth fail.
const IN_MEMORY: &[(&str, Option<u32>, &str)] = &[
    ("prog", None, "Ball.jack Main.jack "),
    ("", None, "Add.asm program "),
    ("prog", None, "failed"),
    ("pro", None, ""),
    ("prog/sub", None, "Main.jack "),
    ("prog/Main.jack", Some(3), "[97, 98, 99]"),
    ("prog/Main.jack", Some(2), "longer than 2"),
    ("prog/Ball.jack", Some(0), "[]"),
    ("Sub.asm", Some(9), "failed"),
    ("Add.asm", Some(9), "failed"),
    ("Add.asm", Some(9), "[64, 50, 10]"),
];

fn in_memory() -> &'static [(&'static str, Option<u32>, &'static str)] {
    IN_MEMORY
}

// A shelf in memory answers so.
fn answers(
    rt: &impl Abort,
    alloc: Global,
    shelf: &mut MemoryShelf,
    (path, limit, expected): (&str, Option<u32>, &str),
) -> Result<(), Fail> {
    let answered = answer(alloc, shelf, path, limit)?;
    is_told(rt, path, &answered, expected);
    Ok(())
}

#[test]
fn shelf_in_memory(rt: HostRuntime) -> Result<(), Fail> {
    let mut shelf = shelf_of(rt.alloc(), FILES, &[3, 10])?;
    for row in in_memory() {
        answers(&rt, rt.alloc(), &mut shelf, *row)?;
    }
    Ok(())
}

#[test]
fn sink_in_memory(rt: HostRuntime) -> Result<(), Fail> {
    let alloc = rt.alloc();
    let plan = [(2, 1), (4, 9), (4, 0)].to_vec(alloc)?;
    let mut sink = MemorySink::new(alloc, 11, plan)?;
    let puts: [(&str, Put); 7] = [
        ("abc", Put::Done),
        ("def", Put::Failed),
        ("", Put::Done),
        ("ghi", Put::Failed),
        ("jkl", Put::Done),
        ("mn", Put::Failed),
        ("", Put::Done),
    ];
    for (piece, expected) in &puts {
        is_put(&rt, piece, sink.put(piece.as_bytes()), *expected);
    }
    is_written(&rt, "what was put", sink.bytes(), b"abcdghijklm");
    is_put(&rt, "plain", PlainSink::new().put(b"abc"), Put::Done);
    Ok(())
}

// Puts 3,000 times `012`, and finishes.
fn put_many<S: Sink>(pieces: &mut Pieces<'_, S>) -> Put {
    for _ in 0..1500u32 {
        if pieces.put_all(&[b"0", b"12012"]) == Put::Failed {
            return Put::Failed;
        }
    }
    pieces.finish()
}

// The bytes are `012` again and again.
fn turns(rt: &impl Abort, bytes: &[u8]) {
    for (place, byte) in bytes.iter().enumerate() {
        let expected = 48 + place as u64 % 3;
        is_number(rt, "many", place as u64, u64::from(*byte), expected);
    }
}

#[test]
fn buffer_of_pieces(rt: HostRuntime) -> Result<(), Fail> {
    let alloc = rt.alloc();
    for (fails, expected, length) in [
        (&[].as_slice(), Put::Done, 9000),
        (&[(3, 5)].as_slice(), Put::Failed, 4096 + 4096 + 5),
        (&[(2, 4096)].as_slice(), Put::Failed, 4096 + 4096),
        (&[(4, 0)].as_slice(), Put::Done, 9000),
    ] {
        let mut sink = MemorySink::new(alloc, 1_000_000, fails.to_vec(alloc)?)?;
        let put = put_many(&mut Pieces::new(&mut sink));
        is_put(&rt, "many", put, expected);
        is_number(&rt, "length", 0, sink.bytes().len() as u64, length);
        turns(&rt, sink.bytes());
    }
    Ok(())
}

// Makes a file of a folder, without text.
fn put_empty(rt: &(impl Files + AllocGlobal), alloc: Global, folder: &str) -> Result<(), Fail> {
    let ball = format!(in alloc; "{folder}/Ball.jack")?;
    fs::write(rt, ball.as_str(), "")?;
    Ok(())
}

fn put_link(
    rt: &impl Files,
    alloc: Global,
    folder: &str,
    name: &str,
    to: &str,
) -> Result<(), Fail> {
    let link = format!(in alloc; "{folder}/{name}")?;
    rt.symlink(to, link.as_str())?;
    Ok(())
}

// Makes a folder with a folder and a file in it, and with links: to nothing, to itself, through a file, to a file and to
// a folder.
fn put_entries(rt: &(impl Files + AllocGlobal), alloc: Global, folder: &str) -> Result<(), Fail> {
    let inner = format!(in alloc; "{folder}/sub")?;
    fs::create_dir_all(rt, inner.as_str())?;
    put_empty(rt, alloc, folder)?;
    put_link(rt, alloc, folder, ".#Main.jack", "founder@host.1234")?;
    put_link(rt, alloc, folder, "Circle.jack", "Circle.jack")?;
    put_link(rt, alloc, folder, "Through.jack", "Ball.jack/Main.jack")?;
    put_link(rt, alloc, folder, "Linked.jack", "Ball.jack")?;
    put_link(rt, alloc, folder, "Folder.jack", "sub")
}

// Makes a file with the 9,000 bytes of this text.
fn put_main(rt: &(impl Files + AllocGlobal + Abort), main: &str) -> Result<String, Fail> {
    let mut sink = StdSink::new(fs::create(rt, main)?);
    let put = put_many(&mut Pieces::new(&mut sink));
    is_put(rt, "many", put, Put::Done);
    let text = fs::read_to_string(rt, main)?;
    is_number(rt, "length", 0, text.len() as u64, 9000);
    holds(rt, "front", text.as_str().starts_with("012012"));
    Ok(text)
}

// Paths from that folder on, and what a shelf answers to them.
const IN_FOLDER: &[(&str, Option<u32>, &str)] = &[
    ("", None, "Ball.jack Linked.jack Main.jack "),
    ("/sub", None, ""),
    ("/Linked.jack", Some(0), "[]"),
    ("/Main.jack", None, "failed"),
    ("/Ball.jack", Some(0), "[]"),
    ("/Main.jack", Some(8999), "longer than 8999"),
    ("/sub", Some(9000), "failed"),
];

fn answers_in<S: Shelf>(
    alloc: Global,
    shelf: &mut S,
    folder: &str,
) -> Result<Vec<String>, AllocError> {
    let mut answers = Vec::new(alloc);
    for (path, limit, _) in IN_FOLDER {
        let path = format!(in alloc; "{folder}{path}")?;
        answers.push(answer(alloc, shelf, path.as_str(), *limit)?)?;
    }
    Ok(answers)
}

// Entries of a folder, and the names that are listed of it. A name that is no text is left out, but where it ends like
// a source.
const ENTRIES: &[(&[u8], &str)] = &[
    (b"Main.jack\0Ball.jack\0", "Ball.jack Main.jack "),
    (
        b"Main.jack\0Caf\xe9.txt\0\xff\0Caf\xe9.jac\0Ball.jack\0",
        "Ball.jack Main.jack ",
    ),
    (b"Main.jack\0Caf\xe9.jack\0Ball.jack\0", "failed"),
    (b"Main.jack\0Caf\xe9.vm\0", "failed"),
    (b"\x80.hdl\0", "failed"),
];

// Names of more than two blocks, of which the last alone is that of a file.
fn many_names(alloc: Global) -> Result<Vec<u8>, AllocError> {
    let mut names = Vec::new(alloc);
    for _ in 0..1000u32 {
        names.extend_from_slice(b"Gone.jack\0")?;
    }
    names.extend_from_slice(b"Ball.jack\0")?;
    Ok(names)
}

fn listed_of_many(
    rt: &(impl Files + Clone + Drop),
    alloc: Global,
    folder: &str,
) -> Result<String, AllocError> {
    let names = many_names(alloc)?;
    let mut shelf = FolderShelf::new((
        Entries {
            files: rt,
            names: names.as_slice(),
        },
        alloc,
    ));
    answer(alloc, &mut shelf, folder, None)
}

fn listed(
    rt: &(impl Files + Clone + Drop),
    alloc: Global,
    folder: &str,
) -> Result<Vec<String>, AllocError> {
    let mut answers = Vec::new(alloc);
    for (names, _) in ENTRIES {
        let mut shelf = FolderShelf::new((Entries { files: rt, names }, alloc));
        answers.push(answer(alloc, &mut shelf, folder, None)?)?;
    }
    Ok(answers)
}

fn answers_are(rt: &impl Abort, answers: &[String], listings: &[String]) {
    for ((path, _, expected), answered) in IN_FOLDER.iter().zip(answers.iter()) {
        is_told(rt, path, answered.as_str(), expected);
    }
    for ((_, expected), listing) in ENTRIES.iter().zip(listings.iter()) {
        is_told(rt, expected, listing.as_str(), expected);
    }
}

fn is_read(rt: &impl Abort, read: &Reading, text: &[u8]) {
    match read {
        Reading::Bytes(bytes) => is_written(rt, "the file", bytes.as_slice(), text),
        _ => holds(rt, "the file was read", false),
    }
}

// A folder for this run alone.
fn own_folder(rt: &HostRuntime, alloc: Global) -> Result<String, Fail> {
    let temp = env::temp_dir(rt)?;
    let id = process::id(rt.process());
    Ok(format!(in alloc; "{}/nand-outer-world-{}", temp.as_str(), id)?)
}

fn folder_is_read(
    rt: &(impl Files + AllocGlobal + Abort + Clone + Drop),
    alloc: Global,
    folder: &str,
) -> Result<(), Fail> {
    let main = format!(in alloc; "{folder}/Main.jack")?;
    put_entries(rt, alloc, folder)?;
    let text = put_main(rt, main.as_str())?;
    let mut shelf = FolderShelf::new(rt.clone()?);
    let answers = answers_in(alloc, &mut shelf, folder)?;
    let listings = listed(rt, alloc, folder)?;
    let of_many = listed_of_many(rt, alloc, folder)?;
    let whole = shelf.read(alloc, main.as_str(), 9000);
    fs::remove_dir_all(rt, folder)?;
    answers_are(rt, &answers, &listings);
    is_told(rt, "many names", of_many.as_str(), "Ball.jack ");
    is_read(rt, &whole, text.as_bytes());
    Ok(())
}

#[test]
fn real_files(rt: HostRuntime) -> Result<(), Fail> {
    let folder = own_folder(&rt, rt.alloc())?;
    folder_is_read(&rt, rt.alloc(), folder.as_str())
}

// A writer of five bytes a call that fails at its third.
#[derive(Drop)]
struct Halting {
    calls: u32,
}

impl Write for Halting {
    fn write(&mut self, buf: &[u8]) -> io::Result<usize> {
        self.calls = self.calls.saturating_add(1);
        if self.calls == 3 {
            return Err(io::Error::from(ErrorKind::BrokenPipe));
        }
        Ok(buf.len().min(5))
    }

    fn flush(&mut self) -> io::Result<()> {
        Ok(())
    }
}

#[test]
fn real_stream_that_fails(rt: HostRuntime) {
    let mut sink = StdSink::new(Halting { calls: 0 });
    is_put(&rt, "first", sink.put(b"0123456"), Put::Done);
    is_put(&rt, "second", sink.put(b"0123456"), Put::Failed);
    is_put(&rt, "third", sink.put(b"0123456"), Put::Done);
}

#[test]
fn names(rt: HostRuntime) -> Result<(), Fail> {
    let alloc = rt.alloc();
    let name = Name::new(alloc, "Main")?;
    let copy = name.clone()?;
    is_written(&rt, "copy", copy.as_bytes(), b"Main");
    holds(&rt, "same", name == copy);
    holds(&rt, "later", name > Name::new(alloc, "Ball")?);
    Ok(())
}

// A line is put of each, and the second put of the first fails.
fn put_faults(rt: &impl Abort, told: &Diagnostic, sink: &mut MemorySink) {
    is_put(rt, "first", told.put("f/Max.asm", sink), Put::Done);
    is_put(rt, "second", told.put("f/Max.asm", sink), Put::Failed);
    let number = Diagnostic::nowhere("TooLarge", Detail::Number(32769));
    is_put(rt, "number", number.put("D", sink), Put::Done);
    let nothing = Diagnostic::nowhere("NoSysInit", Detail::Nothing);
    is_put(rt, "nothing", nothing.put("D", sink), Put::Done);
}

const FAULTS: &[u8] =
    b"f/Max.asm:3:14: LabelTwice LOOP\nf/Max.asmD:0:0: TooLarge 32769\nD:0:0: NoSysInit\n";

#[test]
fn lines_of_faults(rt: HostRuntime) -> Result<(), Fail> {
    let alloc = rt.alloc();
    let twice = Detail::Name(b"LOOP".to_vec(alloc)?);
    let told = Diagnostic::at(3, 14, "LabelTwice", twice);
    let plan = [(2, 9)].to_vec(alloc)?;
    let mut sink = MemorySink::new(alloc, 1000, plan)?;
    put_faults(&rt, &told, &mut sink);
    is_written(&rt, "lines", sink.bytes(), FAULTS);
    Ok(())
}
