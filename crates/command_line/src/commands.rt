//! The table of commands, as `clap` is given it.
ghost use Rattle.std.specs.Prelude.{◌≡◌, IfOk, false, map};
ghost use Rattle.clap.specs.Words.{app_of, rule_of, shape_of, with_subcommand};
ghost use Rattle.clap.specs.declared.builder.Command.TheViews.{out-Command as fields_of};
ghost use Rattle.command_line.specs.Table.{bare_table, command, default_rule, extra_rule, flag_rule, option_rule, word_rule};
ghost use Rattle.command_line.specs.Table as table;
ghost use Rattle.command_line.specs.Inner.Rows.{rule_in, shape_in, with_subcommands};

use clap::{Arg, ArgAction, Command};
use std::alloc::{AllocError, Global};

// A cell of a row.
#[derive(Clone, Copy)]
enum Cell<'a> {
    // A word that stands by itself.
    Word(&'a str),
    // `--name V` or `--name=V`, which must stand.
    Value(&'a str),
    // The same, which may be left out.
    Extra(&'a str),
    // The same, with the value that is meant where it is left out.
    Default(&'a str, &'a str),
    // `--name`, which may be left out.
    Flag(&'a str),
}

// The name of a command, and its cells in order.
#[derive(Clone, Copy)]
struct Row<'a> {
    name: &'a str,
    cells: &'a [Cell<'a>],
}

// The commands that work.
const ROWS: &[Row<'static>] = &[
    Row {
        name: "asm",
        cells: &[Cell::Word("path")],
    },
    Row {
        name: "exec",
        cells: &[
            Cell::Word("path"),
            Cell::Value("cycles"),
            Cell::Value("from"),
            Cell::Value("to"),
        ],
    },
    Row {
        name: "vm",
        cells: &[Cell::Word("path"), Cell::Flag("bare")],
    },
    Row {
        name: "show",
        cells: &[Cell::Word("path")],
    },
    Row {
        name: "run",
        cells: &[
            Cell::Word("path"),
            Cell::Value("level"),
            Cell::Value("cycles"),
            Cell::Extra("keys"),
            Cell::Default("show", "none"),
            Cell::Flag("replace"),
            Cell::Flag("simplify"),
        ],
    },
    Row {
        name: "compile",
        cells: &[Cell::Word("path"), Cell::Flag("replace")],
    },
    Row {
        name: "build",
        cells: &[Cell::Word("path"), Cell::Flag("replace")],
    },
    Row {
        name: "map",
        cells: &[
            Cell::Word("path"),
            Cell::Default("format", "2"),
            Cell::Flag("replace"),
        ],
    },
    Row {
        name: "chip",
        cells: &[Cell::Word("name")],
    },
    Row {
        name: "test",
        cells: &[
            Cell::Word("path"),
            Cell::Flag("gates"),
            Cell::Flag("simplify"),
        ],
    },
    Row {
        name: "soak",
        cells: &[Cell::Word("seed"), Cell::Word("count")],
    },
    Row {
        name: "debug",
        cells: &[
            Cell::Word("path"),
            Cell::Value("break"),
            Cell::Value("cycles"),
            Cell::Extra("keys"),
            Cell::Flag("replace"),
        ],
    },
];

// A word that stands by itself.
fn word(alloc: Global, name: &str) -> Arg<'_>
    ensures rule { rule_of result ≡ word_rule name.now }
    ensures local { result.global ≡ false }
{
    Arg::new(alloc, name).required(true)
}

// `--name V` or `--name=V`, which must stand.
fn option(alloc: Global, name: &str) -> Arg<'_>
    ensures rule { rule_of result ≡ option_rule name.now }
    ensures local { result.global ≡ false }
{
    Arg::new(alloc, name).long(name).required(true)
}

// The same, which may be left out.
fn extra(alloc: Global, name: &str) -> Arg<'_>
    ensures rule { rule_of result ≡ extra_rule name.now }
    ensures local { result.global ≡ false }
{
    Arg::new(alloc, name).long(name)
}

// The same, with the value that is meant where it is left out.
fn default<'a>(alloc: Global, name: &'a str, meant: &'a str) -> Arg<'a>
    ensures rule { rule_of result ≡ default_rule name.now meant.now }
    ensures local { result.global ≡ false }
{
    extra(alloc, name).default_value(meant)
}

// `--name`, which may be left out.
fn flag(alloc: Global, name: &str) -> Arg<'_>
    ensures rule { rule_of result ≡ flag_rule name.now }
    ensures local { result.global ≡ false }
{
    extra(alloc, name).action(ArgAction::SetTrue)
}

// The argument of a cell.
fn argument<'a>(alloc: Global, cell: Cell<'a>) -> Arg<'a>
    ensures rule { rule_of result ≡ rule_in cell.entry }
    ensures local { result.global ≡ false }
{
    match cell {
        Cell::Word(name) => word(alloc, name),
        Cell::Value(name) => option(alloc, name),
        Cell::Extra(name) => extra(alloc, name),
        Cell::Default(name, meant) => default(alloc, name, meant),
        Cell::Flag(name) => flag(alloc, name),
    }
}

// The command of this name with these cells.
fn command_of<'a>(
    alloc: Global,
    name: &'a str,
    cells: &[Cell<'a>],
) -> Result<Command<'a>, AllocError>
    ensures shape { IfOk result (λ c. shape_of c ≡ command name.now (map rule_in cells.now)) }
    ensures local { IfOk result (λ c. (fields_of c).has_globals ≡ false) }
{
    let mut command = Command::new(alloc, name);
    for cell in cells {
        command = command.arg(argument(alloc, *cell))?;
    }
    Ok(command)
}

// Adds the command of a row.
fn with_row<'a>(alloc: Global, top: Command<'a>, row: &Row<'a>) -> Result<Command<'a>, AllocError>
    ensures { IfOk result (λ c. app_of c ≡ with_subcommand (app_of top.entry) (shape_in row.now)) }
{
    top.subcommand(command_of(alloc, row.name, row.cells)?)
}

// The table without its commands.
fn bare<'a>(alloc: Global) -> Command<'a>
    ensures { app_of result ≡ bare_table }
{
    Command::new(alloc, "nand")
        .no_binary_name(true)
        .subcommand_required(true)
}

// The table with the commands of rows.
fn table_of<'a>(alloc: Global, rows: &[Row<'a>]) -> Result<Command<'a>, AllocError>
    ensures { IfOk result (λ c. app_of c ≡ with_subcommands bare_table (map shape_in rows.now)) }
{
    let mut top = bare(alloc);
    for row in rows {
        top = with_row(alloc, top, row)?;
    }
    Ok(top)
}

/// The table of the commands that work.
pub fn table<'a>(alloc: Global) -> Result<Command<'a>, AllocError>
    ensures { IfOk result (λ c. app_of c ≡ table.table) }
{
    table_of(alloc, ROWS)
}
