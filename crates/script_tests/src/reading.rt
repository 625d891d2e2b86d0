use grammar::ReadError;
use scan_text::Place;
use script_columns::Format;
use script_parser::*;
use std::alloc::Global;
use std::test::*;

fn write_word(out: &mut String, alloc: Global, word: &Placed) -> Result<(), Fail> {
    let text = String::from_utf8_lossy(alloc, word.text.as_slice())?;
    let Place { line, column } = word.place;
    write!(out, " {text}@{line}:{column}")?;
    Ok(())
}

fn write_item(out: &mut String, alloc: Global, item: &Item) -> Result<(), Fail> {
    write_word(out, alloc, &item.variable)?;
    let layout = item.layout;
    let format = match layout.format {
        Format::Binary => "B",
        Format::Decimal => "D",
        Format::Text => "S",
    };
    write!(
        out,
        "%{format}{}.{}.{}",
        layout.left, layout.shown, layout.right
    )?;
    Ok(())
}

fn step_name(step: Step) -> &'static str {
    match step {
        Step::Eval => "eval",
        Step::Tick => "tick",
        Step::Tock => "tock",
        Step::TickTock => "ticktock",
        Step::Output => "output",
    }
}

fn write_act(out: &mut String, alloc: Global, act: &Act) -> Result<(), Fail> {
    match act {
        Act::Step(step) => out.push_str(step_name(*step))?,
        Act::Load(file) => {
            out.push_str("load")?;
            write_word(out, alloc, file)?;
        }
        Act::OutputFile(file) => {
            out.push_str("output-file")?;
            write_word(out, alloc, file)?;
        }
        Act::CompareTo(file) => {
            out.push_str("compare-to")?;
            write_word(out, alloc, file)?;
        }
        Act::OutputList(items) => {
            out.push_str("output-list")?;
            for item in items.as_slice() {
                write_item(out, alloc, item)?;
            }
        }
        Act::Set(variable, word) => {
            out.push_str("set")?;
            write_word(out, alloc, variable)?;
            write!(out, " {word}")?;
        }
        Act::Echo(text) => {
            let text = String::from_utf8_lossy(alloc, text.as_slice())?;
            write!(out, "echo {text}")?;
        }
        Act::LoadRom(rom, program) => {
            out.push_str("rom")?;
            write_word(out, alloc, rom)?;
            write_word(out, alloc, program)?;
        }
    }
    Ok(())
}

// The commands, each after a bar, and repeated ones in brackets.
fn write_commands(out: &mut String, alloc: Global, commands: &[Command]) -> Result<(), Fail> {
    for command in commands {
        out.push_str("|")?;
        match command {
            Command::Act(act) => write_act(out, alloc, act)?,
            Command::Repeat(times, body) => {
                write!(out, "{times}[")?;
                write_commands(out, alloc, body)?;
                out.push_str("]")?;
            }
        }
    }
    Ok(())
}

// What a script says, or its first fault.
fn told(alloc: Global, text: &[u8]) -> Result<String, Fail> {
    let mut out = String::new(alloc);
    match parse_script(alloc, text) {
        Ok(script) => write_commands(&mut out, alloc, &script)?,
        Err(ReadError::Fault(fault)) => write!(out, "{fault}")?,
        Err(ReadError::Memory) => out.push_str("memory")?,
    }
    Ok(out)
}

#[test]
fn scripts(rt: HostRuntime) -> Result<(), Fail> {
    let rows: [(&str, &str); 16] = [
        ("", ""),
        ("// a chip\r\n/* \"; */", ""),
        (
            "load And.hdl,\noutput-file And.out,\r\n\tcompare-to d/And.cmp,\noutput-list a%B3.1.3 time%S1.4.1 RAM[0]%D0.00255.1 out;",
            "|load And.hdl@1:6|output-file And.out@2:13|compare-to d/And.cmp@3:13|output-list a@4:13%B3.1.3 time@4:22%S1.4.1 RAM[0]@4:34%D0.255.1 out@4:52%B1.1.1",
        ),
        (
            "eval,tick;tock!ticktock,output;",
            "|eval|tick|tock|ticktock|output",
        ),
        (
            "set a 0, set b 065535, set c -32768, set d -0;",
            "|set a@1:5 0|set b@1:14 65535|set c@1:28 32768|set d@1:42 0",
        ),
        (
            "set a %B101, set b %B1111111111111111;",
            "|set a@1:5 5|set b@1:18 65535",
        ),
        ("set a %D7, set b %D-1;", "|set a@1:5 7|set b@1:16 65535"),
        ("echo \"\", echo \"a // b\";", "|echo |echo a // b"),
        (
            "ROM32K load Add.hack, load Add.asm;",
            "|rom ROM32K@1:1 Add.hack@1:13|load Add.asm@1:28",
        ),
        (
            "repeat 3 { set a 1, repeat 02 { tick; } } tock;",
            "|3[|set a@1:16 1|2[|tick]]|tock",
        ),
        ("repeat 0 {} eval;", "|0[]|eval"),
        (
            "repeat 1000000000 { } repeat 50000 { repeat 20000 { eval; } }",
            "|1000000000[]|50000[|20000[|eval]]",
        ),
        ("set set 5, set load 1;", "|set set@1:5 5|set load@1:16 1"),
        ("load d/a//b\n.hdl;", "1:6: Grammar"),
        ("load a/b/c.hdl//d\n;", "|load a/b/c.hdl@1:6"),
        ("eval;tick/**/;", "|eval|tick"),
    ];
    for (text, wanted) in rows {
        assert_eq!(rt; told(rt.alloc(), text.as_bytes())?.as_str(), wanted);
    }
    Ok(())
}

#[test]
fn faults(rt: HostRuntime) -> Result<(), Fail> {
    let rows: [(&str, &str); 33] = [
        ("eval", "1:5: Grammar"),
        ("eval; foo;", "1:7: Grammar"),
        (";", "1:1: Grammar"),
        ("Eval;", "1:1: Grammar"),
        ("eval eval;", "1:6: Grammar"),
        ("repeat { tick; }", "1:8: Grammar"),
        ("repeat -1 { tick; }", "1:8: Grammar"),
        ("repeat 2 { tick }", "1:17: Grammar"),
        ("repeat 2 { tick; ", "1:18: Grammar"),
        ("tick; }", "1:7: Grammar"),
        ("echo hi;", "1:6: Grammar"),
        ("load a.txt;", "1:6: Grammar"),
        ("load \"a.hdl\";", "1:6: Grammar"),
        ("ROM32K load a.hdl;", "1:13: Grammar"),
        ("ROM32K tick;", "1:8: Grammar"),
        ("output-list ;", "1:13: Grammar"),
        ("output-list a%X1.1.1;", "1:13: Grammar"),
        ("output-list a%B1.1;", "1:13: Grammar"),
        ("output-list a b%B1.1.1x;", "1:15: Grammar"),
        ("output-list a b%D1.256.1;", "1:20: Range 256"),
        ("output-list a%B1.1.0300;", "1:20: Range 300"),
        ("output-list a%B256.257.258;", "1:16: Range 256"),
        ("set a;", "1:6: Grammar"),
        ("set a 1x;", "1:7: Grammar"),
        ("set a %B12;", "1:7: Grammar"),
        ("set a %B00000000000000000;", "1:7: Grammar"),
        ("set a 65536;", "1:7: Range 65536"),
        ("set a %D-32769;", "1:10: Range 32769"),
        ("set a -99999999999;", "1:8: Range 1000000000"),
        ("repeat 1000000001 { }", "1:8: Range 1000000000"),
        (
            "repeat 50000 { repeat 50000 { } }",
            "1:23: Range 1000000000",
        ),
        // what begins no token comes before what stands before it
        ("foo; echo \"a\n\";", "1:11: Grammar"),
        ("foo; /* ", "1:6: Grammar"),
    ];
    for (text, wanted) in rows {
        assert_eq!(rt; told(rt.alloc(), text.as_bytes())?.as_str(), wanted);
    }
    Ok(())
}

// 256 repetitions may be nested, and each is round all its tokens.
#[test]
fn nesting(rt: HostRuntime) -> Result<(), Fail> {
    let mut text = Vec::new(rt.alloc());
    for _ in 0..256 {
        text.extend_from_slice(b"repeat 1 {\n")?;
    }
    assert_eq!(rt; told(rt.alloc(), &text)?.as_str(), "257:1: Grammar");
    text.extend_from_slice(b"eval; repeat")?;
    assert_eq!(rt; told(rt.alloc(), &text)?.as_str(), "257:7: Range 257");
    Ok(())
}

#[test]
fn longest_text(rt: HostRuntime) -> Result<(), Fail> {
    let mut blanks = vec![in rt.alloc(); b' '; 1048576]?;
    assert_eq!(rt; told(rt.alloc(), &blanks)?.as_str(), "");
    blanks.push(b' ')?;
    assert_eq!(rt; told(rt.alloc(), &blanks)?.as_str(), "0:0: Range 1048577");
    Ok(())
}
