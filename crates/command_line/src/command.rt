//! The command line as a clap command.
ghost use Rattle.std.specs.Prelude.{◌≡◌, IfOk, drop, false, map, take};
ghost use Rattle.clap.specs.Words.{app_of, rule_of, with_subcommand};
ghost use Rattle.command_line.specs.Arguments.{rule_for, with_commands, without_commands};
ghost use Rattle.command_line.specs.Commands.{commands};
ghost use Rattle.command_line.specs.Clap.{word_rule, names_rule, option_rule, command_with, warcdx};

use crate::help::archives::{GET, INDEX, LIST, SCAN, VERIFY};
use crate::help::indexes::{
    CHECK, COMPRESSED_CHECK, COMPRESSED_MERGE, COMPRESSED_PAGES, COMPRESSED_QUERY,
    COMPRESSED_SERVE, MERGE, PAGES, QUERY, SERVE,
};
use crate::help::{
    ARCHIVE, CDXJ, LENGTH, NAME, OFFSET, Operand, PROGRAM, Page, QUERY_TEXT, SIZES, TYPES,
    compressed,
};
use crate::program::Program;
use clap::{Arg, Command};
use std::alloc::{AllocError, Global};

/// An argument of a command.
#[derive(Clone, Copy)]
enum Argument {
    Types,
    Name,
    Length,
    Sizes,
    Query,
    Offset,
    /// One archive.
    Archive,
    /// The last operand, one archive or more.
    Archives,
    /// The last operand, one index or more.
    Indexes,
}

/// Returns the clap command of a program. The only error is refused memory.
pub fn command_line<'a>(alloc: Global, of: Program) -> Result<Command<'a>, AllocError>
    ensures { IfOk result (λ command. app_of command ≡ warcdx) }
{
    let program = with_archive_commands(program(alloc, of)?, alloc, of)?;
    let program = with_index_commands(program, alloc, of)?;
    with_record_commands(program, alloc, of)
}

/// Returns the page that a program has: the first one for plain archives, the other one where they
/// may be compressed.
fn page_of(of: Program, plain: Page<'static>, compressed: Page<'static>) -> Page<'static> {
    match of {
        Program::Warcdx => plain,
        Program::WarcdxGz => compressed,
    }
}

/// Returns the clap command of a program without subcommands.
fn program<'a>(alloc: Global, of: Program) -> Result<Command<'a>, AllocError>
    ensures { IfOk result (λ command. app_of command ≡ without_commands) }
{
    let page = page_of(of, PROGRAM, compressed::PROGRAM);
    Command::new(alloc, "warcdx")
        .about(page.about)
        .after_help(page.details)
        .no_binary_name(true)
        .disable_help_subcommand(true)
        .bin_name(of.name())
}

/// Adds the subcommands that list, verify and index archives.
fn with_archive_commands<'a>(
    program: Command<'a>,
    alloc: Global,
    of: Program,
) -> Result<Command<'a>, AllocError>
    ensures { IfOk result (λ more. app_of more
        ≡ with_commands (app_of program.entry) (take 3 commands)) }
{
    let page = page_of(of, LIST, compressed::LIST);
    let list = with_command(program, alloc, "list", page, &[Argument::Archives])?;
    let page = page_of(of, VERIFY, compressed::VERIFY);
    let verify = with_command(list, alloc, "verify", page, &[Argument::Archives])?;
    with_command(
        verify,
        alloc,
        "index",
        page_of(of, INDEX, compressed::INDEX),
        &[Argument::Types, Argument::Name, Argument::Archives],
    )
}

/// Adds the subcommands over indexes.
fn with_index_commands<'a>(
    program: Command<'a>,
    alloc: Global,
    of: Program,
) -> Result<Command<'a>, AllocError>
    ensures { IfOk result (λ more. app_of more
        ≡ with_commands (app_of program.entry) (take 5 (drop 3 commands))) }
{
    let page = page_of(of, MERGE, COMPRESSED_MERGE);
    let merge = with_command(program, alloc, "merge", page, &[Argument::Indexes])?;
    let page = page_of(of, CHECK, COMPRESSED_CHECK);
    let check = with_command(merge, alloc, "check", page, &[Argument::Indexes])?;
    let query = with_command(
        check,
        alloc,
        "query",
        page_of(of, QUERY, COMPRESSED_QUERY),
        &[Argument::Query, Argument::Indexes],
    )?;
    let pages = with_command(
        query,
        alloc,
        "pages",
        page_of(of, PAGES, COMPRESSED_PAGES),
        &[Argument::Sizes, Argument::Query, Argument::Indexes],
    )?;
    let page = page_of(of, SERVE, COMPRESSED_SERVE);
    with_command(pages, alloc, "serve", page, &[Argument::Indexes])
}

/// Adds the subcommands that write one record of an archive, and answer a query over archives.
fn with_record_commands<'a>(
    program: Command<'a>,
    alloc: Global,
    of: Program,
) -> Result<Command<'a>, AllocError>
    ensures { IfOk result (λ more. app_of more
        ≡ with_commands (app_of program.entry) (drop 8 commands)) }
{
    let get = with_command(
        program,
        alloc,
        "get",
        page_of(of, GET, compressed::GET),
        &[Argument::Length, Argument::Offset, Argument::Archive],
    )?;
    with_command(
        get,
        alloc,
        "scan",
        page_of(of, SCAN, compressed::SCAN),
        &[
            Argument::Types,
            Argument::Name,
            Argument::Sizes,
            Argument::Query,
            Argument::Archives,
        ],
    )
}

/// Adds a subcommand that takes these arguments, in this order.
fn with_command<'a>(
    program: Command<'a>,
    alloc: Global,
    name: &'a str,
    page: Page<'a>,
    arguments: &[Argument],
) -> Result<Command<'a>, AllocError>
    ensures { IfOk result (λ more. app_of more ≡ with_subcommand (app_of program.entry)
        (command_with name.entry.now (map rule_for arguments.now))) }
{
    let mut command = Command::new(alloc, name)
        .about(page.about)
        .after_help(page.details);
    for argument in arguments {
        command = command.arg(clap_argument(alloc, *argument))?;
    }
    program.subcommand(command)
}

fn clap_argument<'a>(alloc: Global, argument: Argument) -> Arg<'a>
    ensures rule { rule_of result ≡ rule_for argument }
    ensures local { result.global ≡ false }
{
    match argument {
        Argument::Types => option(alloc, "types", TYPES),
        Argument::Name => option(alloc, "name", NAME),
        Argument::Length => option(alloc, "length", LENGTH),
        Argument::Sizes => word(alloc, "sizes", SIZES),
        Argument::Query => word(alloc, "query", QUERY_TEXT),
        Argument::Offset => word(alloc, "offset", OFFSET),
        Argument::Archive => word(alloc, "name", ARCHIVE),
        Argument::Archives => names(alloc, ARCHIVE),
        Argument::Indexes => names(alloc, CDXJ),
    }
}

/// Returns an option that takes a value.
fn option<'a>(alloc: Global, id: &'a str, operand: Operand<'a>) -> Arg<'a>
    ensures rule { rule_of result ≡ option_rule id.entry.now }
    ensures local { result.global ≡ false }
{
    Arg::new(alloc, id)
        .long(id)
        .value_name(operand.name)
        .help(operand.help)
}

/// Returns an operand that is given once or more.
fn names<'a>(alloc: Global, operand: Operand<'a>) -> Arg<'a>
    ensures rule { rule_of result ≡ names_rule }
    ensures local { result.global ≡ false }
{
    word(alloc, "names", operand).num_args(1..)
}

/// Returns an operand that is given once.
fn word<'a>(alloc: Global, id: &'a str, operand: Operand<'a>) -> Arg<'a>
    ensures rule { rule_of result ≡ word_rule id.entry.now }
    ensures local { result.global ≡ false }
{
    Arg::new(alloc, id)
        .required(true)
        .value_name(operand.name)
        .help(operand.help)
}
