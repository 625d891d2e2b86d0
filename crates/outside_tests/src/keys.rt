//! Key scripts: the codes at moments, and the faults of texts that are no key scripts.
use crate::checks::{is_number, is_told};
use key_script::{KeyError, Keys, read_keys};
use std::alloc::{AllocError, Global};
use std::process::Abort;
use std::test::Fail;

// Scripts, and the codes at some moments.
const SCRIPTS: &[(&str, &[(u64, u16)])] = &[
    (
        "500 65\n501 0",
        &[
            (0, 0),
            (499, 0),
            (500, 65),
            (501, 0),
            (18_446_744_073_709_551_615, 0),
        ],
    ),
    // leading zeros, blanks, tabs, CRLF, limits, and a code that is held until the next line
    (
        "\t00 65535\r\n 7\t130 \n1000000000 1 \r\n  ",
        &[
            (0, 65_535),
            (6, 65_535),
            (7, 130),
            (999_999_999, 130),
            (1_000_000_000, 1),
        ],
    ),
    ("", &[(5, 0)]),
];

// Texts that are no scripts, and their faults.
const FAULTS: &[(&str, &str)] = &[
    ("5 65\n5 66\n", "2:1: NotRising"),
    ("0 65536", "1:3: Range 65536"),
    ("0 9999999999", "1:3: Range 1000000000"),
    ("1000000001 5", "1:1: Range 1000000000"),
    ("x", "1:1: Grammar"),
    ("\t5\n\n6 7", "1:3: Grammar"),
    ("5 6\n \r\n", "2:2: Grammar"),
    ("5 6\r7 8", "1:4: Grammar"),
    ("5", "1:2: Grammar"),
    ("5 6 7", "1:5: Grammar"),
    // a token that isn't one comes before a moment that does not rise
    ("5 6\n5 6\n#", "3:1: Grammar"),
];

// The fault of a text, or what there is in its place.
fn fault_of(alloc: Global, read: &Result<Keys, KeyError>) -> Result<String, AllocError> {
    match read {
        Ok(_) => String::from_str(alloc, "a script"),
        Err(KeyError::Fault(fault)) => Ok(format!(in alloc; "{fault}")?),
        Err(KeyError::Memory) => String::from_str(alloc, "memory"),
    }
}

fn has_codes(rt: &impl Abort, alloc: Global, text: &str, codes: &[(u64, u16)]) -> Result<(), Fail> {
    let Ok(keys) = read_keys(alloc, text.as_bytes()) else {
        return Err(Fail::from("the text is a script"));
    };
    for (moment, code) in codes {
        let found = u64::from(keys.at(*moment));
        is_number(rt, text, *moment, found, u64::from(*code));
    }
    Ok(())
}

fn has_fault(rt: &impl Abort, alloc: Global, text: &[u8], fault: &str) -> Result<(), Fail> {
    let told = fault_of(alloc, &read_keys(alloc, text))?;
    is_told(rt, fault, &told, fault);
    Ok(())
}

fn scripts_table() -> &'static [(&'static str, &'static [(u64, u16)])] {
    SCRIPTS
}

fn faults_table() -> &'static [(&'static str, &'static str)] {
    FAULTS
}

#[test]
fn scripts_and_faults(rt: HostRuntime) -> Result<(), Fail> {
    let alloc = rt.alloc();
    for (text, codes) in scripts_table() {
        has_codes(&rt, alloc, text, codes)?;
    }
    for (text, fault) in faults_table() {
        has_fault(&rt, alloc, text.as_bytes(), fault)?;
    }
    is_number(&rt, "no keys", 5, u64::from(Keys::none(alloc).at(5)), 0);
    Ok(())
}

#[test]
fn the_longest_script(rt: HostRuntime) -> Result<(), Fail> {
    let alloc = rt.alloc();
    let blanks = vec![in alloc; b' '; 1_048_577]?;
    has_fault(&rt, alloc, &blanks, "0:0: Range 1048577")?;
    has_fault(&rt, alloc, &blanks[1..], "a script")
}
