//! The texts of usage errors.
ghost use Rattle.std.specs.Prelude.{◌≡◌, Some};
ghost use Rattle.std.specs.Option.{IfSome};
ghost use Rattle.clap.specs.Words.{kind_of};
ghost use Rattle.command_line.specs.Commands.{IsUsage, refusal_of};
ghost use Rattle.command_line.specs.Clap.{refusal_for};

use crate::fault::WordsFault;
use crate::matches::operand_word;
use capture_core::Types;
use cdxj_places::read_offset;
use clap::error::ErrorKind;
use clap::{ArgMatches, Error};
use std::alloc::{AllocError, Global};

const SIZES: &str = "<SIZES>";

const SIZES_RULE: &str =
    "sizes are 1 to 1,000 numbers from 1 to 1,000,000, with ',' between, and precede the query";

const TYPES_RULE: &str =
    "types are response, resource, revisit, conversion and metadata, each once at most, with ',' between";

const LENGTH_RULE: &str = "a length is 1 to 19 digits, below 2^63";

const OFFSET: &str = "<OFFSET>";

const OFFSET_RULE: &str =
    "an offset is 1 to 19 digits, below 2^63, and precedes the archive; warcdx-fetch takes a URL";

const COMMANDS: &str =
    "the commands are list, verify, index, merge, check, query, pages, serve, get and scan";

/// Returns the fault for clap's error over these arguments, with its text or one that says more.
pub fn fault_of(alloc: Global, words: &[String], error: &Error) -> WordsFault
    ensures { IfSome (refusal_of result) (λ refusal. refusal_for (kind_of error.now)
        ≡ Some refusal) }
{
    let Ok(text) = error.to_string(alloc) else {
        return WordsFault::Memory;
    };
    match error.kind() {
        ErrorKind::OutOfMemory => WordsFault::Memory,
        ErrorKind::DisplayHelp => WordsFault::Help(text),
        ErrorKind::InvalidSubcommand => no_command(alloc, words, text),
        ErrorKind::MissingRequiredArgument => no_argument(alloc, words, text),
        ErrorKind::UnknownArgument => one_too_many(alloc, words, text),
        _ => WordsFault::Usage(text),
    }
}

/// Returns the usage error for a first argument that isn't a command. `text` is clap's, which suggests a similar one if
/// there is one.
fn no_command(alloc: Global, words: &[String], text: String) -> WordsFault
    ensures { IsUsage result }
{
    let word = first_word(words);
    match command_tip(word) {
        Some(tip) => with_tip(alloc, "unrecognized subcommand", word, tip),
        None if text.contains("similar subcommand") => WordsFault::Usage(text),
        None => with_tip(alloc, "unrecognized subcommand", word, COMMANDS),
    }
}

fn first_word(words: &[String]) -> &str {
    match words {
        [word, ..] => word,
        [] => "",
    }
}

fn command_tip(word: &str) -> Option<&'static str> {
    match word {
        "help" => Some("'--help' stands alone, or behind a command, as in 'index --help'"),
        "version" => Some("'--version' prints the version"),
        "extract" | "cat" | "read" | "fetch" => Some("'get OFFSET FILE' writes a record"),
        "search" | "find" | "grep" | "lookup" => {
            Some("'query QUERY INDEX' writes the captures that a query selects")
        }
        "cdx" | "cdxj" | "indexer" => Some("'index FILE' writes a CDXJ index"),
        "sort" => Some("'index' and 'merge' write sorted lines"),
        "validate" | "test" => Some("'verify' checks the digests of archives, and 'check' indexes"),
        "convert" => Some("warcdx-cdx converts CDX files to indexes, and back"),
        "update" | "add" => Some("warcdx-update keeps one index of the archives in a folder"),
        "gateway" | "server" | "replay" => {
            Some("warcdx-gateway answers over HTTP, and 'serve' line by line")
        }
        "compress" | "recompress" => Some("'warcio recompress' compresses archives"),
        _ if is_file_name(word) => Some("a command precedes the files, as in 'index FILE'"),
        _ => None,
    }
}

fn is_file_name(word: &str) -> bool {
    word == "-" || word.contains('.') || word.contains('/')
}

/// Returns the usage error for too few arguments. `text` is clap's, which doesn't see that the sizes are missing.
fn no_argument(alloc: Global, words: &[String], text: String) -> WordsFault
    ensures { IsUsage result }
{
    match words {
        [command, query, ..] if takes_sizes(command) && query.contains('=') => invalid(
            alloc, query, SIZES, SIZES_RULE,
        ),
        [_command, .., last] if last.contains('=') => with_more(
            alloc,
            &text,
            "a query stands in single quotes, since & ends a command of a shell",
        ),
        [command, _file] if command.as_str() == "query" => with_more(
            alloc,
            &text,
            "a query precedes the indexes, as in 'query url=example.com INDEX'",
        ),
        [command, file] if command.as_str() == "get" && read_offset(file).is_none() => invalid(
            alloc,
            file,
            OFFSET,
            OFFSET_RULE,
        ),
        [command, _file] if takes_sizes(command) => with_more(
            alloc,
            &text,
            "sizes and a query precede the files, as in 'scan 100 url=example.com FILE'",
        ),
        _ => WordsFault::Usage(text),
    }
}

/// Returns clap's text, with what to do.
fn with_more(alloc: Global, text: &str, tip: &str) -> WordsFault
    ensures { IsUsage result }
{
    usage(format!(in alloc; "{text}\n  tip: {tip}\n"))
}

/// Returns the usage error for an argument too many. `text` is clap's, which doesn't see that a number behind an offset is a length.
fn one_too_many(alloc: Global, words: &[String], text: String) -> WordsFault
    ensures { IsUsage result }
{
    match words {
        [command, _offset, length, _archive]
            if command.as_str() == "get" && read_offset(length).is_some() => with_tip(
            alloc,
            "unexpected argument",
            length,
            "a length precedes the offset, as in 'get --length LENGTH OFFSET FILE'",
        ),
        _ => WordsFault::Usage(text),
    }
}

fn takes_sizes(command: &str) -> bool {
    command == "pages" || command == "scan"
}

/// Returns the usage error for an unknown option. clap's own text would suggest `-- -x`, which is refused too.
pub fn unexpected(alloc: Global, option: &str) -> WordsFault
    ensures { IsUsage result }
{
    with_tip(alloc, "unexpected option", option, tip_for(option))
}

/// Returns the usage error for an argument, with what to do.
fn with_tip(alloc: Global, what: &str, word: &str, tip: &str) -> WordsFault
    ensures { IsUsage result }
{
    usage(format!(in alloc;
        "error: {what} '{word}'\n\n  \
         tip: {tip}\n\n\
         For more information, try '--help'.\n"
    ))
}

/// Returns what to do about an option, which may have a value behind `=`.
fn tip_for(option: &str) -> &'static str {
    match option.split_once('=') {
        Some(("--types" | "--name" | "--length", _value)) => {
            "an option and its value are two arguments, as '--types response'"
        }
        Some((name, _value)) => tip_for_name(name),
        None => tip_for_name(option),
    }
}

fn tip_for_name(option: &str) -> &'static str {
    if option.starts_with("--type") {
        "'--types TYPES' stands once, directly after 'index' or 'scan'"
    } else if option.starts_with("--length") {
        "'--length LENGTH' stands once, directly after 'get'"
    } else if option.starts_with("--name") {
        "'--name NAME' stands once, directly after 'index', 'scan' or their '--types TYPES'"
    } else if option == "--version" || option == "-V" {
        "'--version' is the only argument"
    } else if option == "-o" || option.starts_with("--out") {
        "the output is standard output: write '> FILE' behind the command"
    } else if matches!(option, "-j" | "--jobs" | "-r" | "--recursive") {
        "'warcdx-update' indexes folders, several archives at a time"
    } else if matches!(option, "-s" | "--sort") {
        "'index' and 'merge' write sorted lines"
    } else if option == "-v" || option == "--verbose" {
        "no option prints more; '-V' as the only argument prints the version"
    } else if option == "-q" || option == "--quiet" {
        "standard error has faults alone: write '2> FILE' behind the command"
    } else if matches!(option, "--json" | "--cdxj" | "--cdx" | "--format") {
        "'index' writes CDXJ, and a query with 'output=json' JSON"
    } else if matches!(option, "-p" | "--port" | "--bind") {
        "warcdx-gateway answers over HTTP, and 'serve' line by line"
    } else if is_of_query(option) {
        "the parameters of a query stand in its text, as 'url=example.com&limit=5'"
    } else if is_command(option) {
        "a command is written without '-', as in 'list FILE'"
    } else if is_negative(option) {
        "an offset, a length and a size are numbers without '-'"
    } else if option == "--payload" {
        "warcdx-fetch writes the body of a page, by its URL"
    } else if option.starts_with("--offset") {
        "an offset is written alone, as in 'get OFFSET FILE'"
    } else {
        "'--help' prints the options; a file whose name begins with '-' is written './-name'"
    }
}

/// Returns `true` for what other programs take as an option, and a query takes as a parameter.
fn is_of_query(option: &str) -> bool {
    matches!(
        option,
        "--url"
            | "--from"
            | "--to"
            | "--limit"
            | "-n"
            | "--filter"
            | "-f"
            | "--fl"
            | "--fields"
            | "--match-type"
            | "--matchType"
            | "--collapse"
    )
}

fn is_command(option: &str) -> bool {
    matches!(
        option,
        "--list"
            | "--verify"
            | "--get"
            | "--index"
            | "--merge"
            | "--check"
            | "--query"
            | "--pages"
            | "--serve"
            | "--scan"
    )
}

fn is_negative(option: &str) -> bool {
    option.bytes().skip(1).all(|byte| byte.is_ascii_digit())
}

/// Returns the usage error for types, sizes, a length or an offset. clap accepts any argument for them; the texts are in its
/// style.
pub fn no_task(alloc: Global, matches: &ArgMatches) -> WordsFault
    ensures { IsUsage result }
{
    match operand_word(matches, "types") {
        Some(word) if Types::read(word).is_none() => invalid(
            alloc,
            word,
            "--types <TYPES>",
            TYPES_RULE,
        ),
        _ => no_numbers(alloc, matches),
    }
}

fn no_numbers(alloc: Global, matches: &ArgMatches) -> WordsFault
    ensures { IsUsage result }
{
    match operand_word(matches, "sizes") {
        Some(word) => invalid(alloc, word, SIZES, SIZES_RULE),
        None => no_place(alloc, matches),
    }
}

fn no_place(alloc: Global, matches: &ArgMatches) -> WordsFault
    ensures { IsUsage result }
{
    match operand_word(matches, "length") {
        Some(word) if read_offset(word).is_none() => invalid(
            alloc,
            word,
            "--length <LENGTH>",
            LENGTH_RULE,
        ),
        _ => {
            let word = operand_word(matches, "offset").unwrap_or("");
            invalid(alloc, word, OFFSET, OFFSET_RULE)
        }
    }
}

/// Returns the usage error for a value of this operand or option, which isn't as the rule says.
fn invalid(alloc: Global, value: &str, operand: &str, rule: &str) -> WordsFault
    ensures { IsUsage result }
{
    usage(format!(in alloc;
        "error: invalid value '{value}' for '{operand}': {rule}\n\n\
         For more information, try '--help'.\n"
    ))
}

pub fn no_input(alloc: Global) -> WordsFault
    ensures { IsUsage result }
{
    usage(format!(in alloc;
        "error: '--name <NAME>' names the archive '-', which isn't given\n\n\
         For more information, try '--help'.\n"
    ))
}

fn usage(text: Result<String, AllocError>) -> WordsFault
    ensures { IsUsage result }
{
    match text {
        Ok(text) => WordsFault::Usage(text),
        Err(_refused) => WordsFault::Memory,
    }
}
