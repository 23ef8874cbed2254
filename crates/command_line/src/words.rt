//! Reading the arguments of a command line.
ghost use Rattle.std.specs.Prelude.{◌≡◌, ◌++◌, is_some, IfOk, IfErr, OnOk, true, false, Err, Ok, Some, [], ◌∷◌, string_bytes, take};
ghost use Rattle.std.specs.List.{list_any};
ghost use Rattle.std.specs.Option.{IfSome, ok_or};
ghost use Rattle.clap.specs.Words.{kind_of, subcommand_rows_of};
ghost use Rattle.command_line.specs.Words.{texts, asks_for_help, is_unknown_option};
ghost use Rattle.command_line.specs.Commands.{IsMeant, Help, Usage, asked, asked_of, help_or_usage, is_input, named_as, other_words, refusal_of, view, with_input};
ghost use Rattle.command_line.specs.Clap.{matches_task, refusal_for};

use crate::command::command_line;
use crate::fault::WordsFault;
use crate::help::{VERSION, compressed};
use crate::matches::task_of;
use crate::options::{
    NamedInput, asks_for_version, help_option, input_of, named, other_words, unknown_option,
};
use crate::program::Program;
use crate::task::Task;
use crate::usage_errors::{fault_of, no_input, no_task, unexpected};
use clap::{ArgMatches, Error};
use std::alloc::{AllocError, Global};

/// Reads the arguments after the program's name. No arguments at all mean `list -`.
///
/// `-V` and `--version`, as the only argument, ask for the version. `-h` and `--help` ask for help: as the first argument for the program's help, after a command for the command's
/// help, whatever the number of its arguments. `--types` is an option of `index` and `scan` only, and `--length` one of
/// `get`. Each stands directly after the command. `--name` is an option of `index` and `scan`, directly after the command
/// or after `--types` and its text: it gives a name to the archive `-`.
///
/// # Errors
///
/// - `Help` if an argument is `-h` or `--help`, or if the only one is `-V` or `--version`.
/// - `Usage` for another argument that begins with `-`, except `-` alone, wherever it stands. Otherwise for a first
///   argument that isn't a command, for a wrong number of arguments, for an offset or a length that isn't 1 to 19
///   digits below 2^63, for sizes that aren't 1 to 1,000 numbers from 1 to 1,000,000, each of at most 7 digits, separated by commas,
///   for types that `Types::read` doesn't accept, and for a name without an archive `-`.
/// - `Memory` if memory could not be allocated.
pub fn read_words(alloc: Global, of: Program, words: &[String]) -> Result<Task, WordsFault>
    ensures { IsMeant (asked (texts words.now)) result }
{
    if asks_for_version(words) {
        return Err(version(alloc, of));
    }
    match named(words) {
        Some(named) => read_named_task(alloc, of, &named),
        None => read_task(alloc, of, words),
    }
}

/// Reads arguments that give a name to standard input.
fn read_named_task(alloc: Global, of: Program, named: &NamedInput<'_>) -> Result<Task, WordsFault>
    ensures { IsMeant (named_as (string_bytes named.now.name.now)
        (asked_of (texts named.now.before.now ++ texts named.now.after.now))) result }
{
    let words = joined(alloc, named.before, named.after)?;
    let task = read_task(alloc, of, &words)?;
    with_input(alloc, task, named.name)
}

/// Gives a name to standard input, which has to be an archive of the task.
fn with_input(alloc: Global, task: Task, name: &str) -> Result<Task, WordsFault>
    ensures { IsMeant (named_as name.now (Ok (view task))) result }
{
    if !takes_name(&task) {
        return Err(no_input(alloc));
    }
    let name = String::from_str(alloc, name)?;
    Ok(replace_name(task, name))
}

/// Returns `true` for a task that indexes archives, one of which is standard input.
fn takes_name(task: &Task) -> bool
    ensures { result ≡ is_some (with_input [] (view task.now)) }
{
    match task {
        Task::Index { names, .. } | Task::Scan { names, .. } => has_input(names),
        _ => false,
    }
}

fn replace_name(task: Task, name: String) -> Task
    requires { is_some (with_input (string_bytes name) (view task)) ≡ true }
    ensures { Some (view result) ≡ with_input (string_bytes name) (view task) }
{
    match task {
        Task::Index {
            types,
            input: _input,
            names,
        } => Task::Index {
            types,
            input: Some(name),
            names,
        },
        Task::Scan {
            types,
            input: _input,
            sizes,
            query,
            names,
        } => Task::Scan {
            types,
            input: Some(name),
            sizes,
            query,
            names,
        },
        task => task,
    }
}

fn has_input(names: &[String]) -> bool
    ensures { result ≡ list_any is_input (texts names.now) }
{
    input_of(names).is_some()
}

/// Returns copies of these arguments.
fn joined(alloc: Global, before: &[String], after: &[String]) -> Result<Vec<String>, AllocError>
    ensures { IfOk result (λ words. texts words.items ≡ texts before.now ++ texts after.now) }
{
    let mut words = Vec::new(alloc);
    push_copies(&mut words, before)?;
    push_copies(&mut words, after)?;
    Ok(words)
}

fn push_copies(words: &mut Vec<String>, more: &[String]) -> Result<(), AllocError>
    ensures { OnOk result (texts words.new.items ≡ texts words.old.items ++ texts more.now) }
{
    for word in more {
        words.push(word.clone()?)?;
    }
    Ok(())
}

/// Returns the program's name and version, as a help text.
fn version(alloc: Global, of: Program) -> WordsFault
    ensures { IfSome (refusal_of result) (λ refusal. refusal ≡ Help) }
{
    let text = match of {
        Program::Warcdx => VERSION,
        Program::WarcdxGz => compressed::VERSION,
    };
    match String::from_str(alloc, text) {
        Ok(text) => WordsFault::Help(text),
        Err(_refused) => WordsFault::Memory,
    }
}

/// Reads arguments that don't ask for the version.
fn read_task(alloc: Global, of: Program, words: &[String]) -> Result<Task, WordsFault>
    ensures { IsMeant (asked_of (texts words.now)) result }
{
    let others = other_words(words);
    if let Some(option) = unknown_option(others) {
        return Err(unexpected(alloc, option));
    }
    if let Some(help) = help_option(others) {
        return Err(help_fault(alloc, of, words, help));
    }
    match matches_of(alloc, of, words) {
        Ok(matches) => match task_of(alloc, &matches)? {
            Some(task) => Ok(task),
            None => Err(no_task(alloc, &matches)),
        },
        Err(error) => Err(fault_of(alloc, words, &error)),
    }
}

/// Returns clap's result for arguments without options, except a choice of types.
fn matches_of<'a>(alloc: Global, of: Program, words: &'a [String]) -> Result<ArgMatches<'a>, Error>
    requires known { list_any is_unknown_option (other_words (texts words.now)) ≡ false }
    requires plain { list_any asks_for_help (other_words (texts words.now)) ≡ false }
    ensures matches { IfOk result (λ matches. asked_of (texts words.entry.now)
        ≡ ok_or (matches_task (subcommand_rows_of matches)) Usage) }
    ensures refused { IfErr result (λ error. IfSome (refusal_for (kind_of error))
        (λ refusal. asked_of (texts words.entry.now) ≡ Err refusal)) }
{
    // the proof needs that a slice has fewer than 2^64 words
    let _count = words.len();
    command_line(alloc, of)?.try_get_matches_from(words)
}

/// Returns clap's result for the first argument and the one that asks for help. Given all arguments, clap could first
/// refuse one too many.
fn help_fault(alloc: Global, of: Program, words: &[String], help: &String) -> WordsFault
    requires known { list_any is_unknown_option (take 1 (texts words.now)) ≡ false }
    requires asks { asks_for_help (string_bytes help.now) ≡ true }
    ensures { IfSome (refusal_of result) (λ refusal. refusal ≡ help_or_usage (texts words.now)) }
{
    let first = words.first().unwrap_or(help);
    fault_of(alloc, words, &help_error(alloc, of, first, help))
}

fn help_error(alloc: Global, of: Program, first: &str, help: &str) -> Error
    requires known { is_unknown_option first.now ≡ false }
    requires asks { asks_for_help help.now ≡ true }
    ensures { IfSome (refusal_for (kind_of result)) (λ refusal. refusal
        ≡ help_or_usage (first.now ∷ [])) }
{
    match command_line(alloc, of) {
        Ok(command) => match command.try_get_matches_from(&[first, help]) {
            Ok(_matches) => unreachable!(),
            Err(error) => error,
        },
        Err(refused) => Error::from(refused),
    }
}
