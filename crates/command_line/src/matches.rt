//! The task that clap's matches give.
ghost use Rattle.std.specs.Prelude.{◌≡◌, IfOk, Some, option_map, codes, map, string_bytes};
ghost use Rattle.clap.specs.Words.{all_of, first_of, found_of, rows_of, subcommand_rows_of};
ghost use Rattle.command_line.specs.Words.{texts};
ghost use Rattle.command_line.specs.Commands.{Offset, Query, Sizes, ToGet, ToPages, ToQuery, Typed, TypedSizes, list_input, to_index, to_scan, view};
ghost use Rattle.command_line.specs.Clap.{chosen_length, chosen_types, matches_task, offset_and_name, sized_query, values_task};

use crate::sizes::read_sizes;
use crate::task::Task;
use capture_core::Types;
use cdxj_places::read_offset;
use clap::ArgMatches;
use std::alloc::{AllocError, Global};

/// Returns the task, or `None` if the matches give none. The only error is refused memory.
pub fn task_of(alloc: Global, matches: &ArgMatches) -> Result<Option<Task>, AllocError>
    ensures { IfOk result (λ task. option_map view task
        ≡ matches_task (subcommand_rows_of matches.now)) }
{
    match matches.subcommand() {
        Some((command, values)) => command_task(alloc, command, values),
        None => Ok(Some(list_input(alloc)?)),
    }
}

/// Returns the value given for types, for sizes or for an offset, as it was given.
pub fn operand_word<'a>(matches: &ArgMatches<'a>, id: &str) -> Option<&'a str> {
    let (_command, values) = matches.subcommand()?;
    values.get_str(id)
}

fn command_task(
    alloc: Global,
    command: &str,
    values: &ArgMatches,
) -> Result<Option<Task>, AllocError>
    ensures { IfOk result (λ task. option_map view task
        ≡ matches_task (Some (command.now, rows_of (found_of values.now)))) }
{
    match command {
        "list" => Ok(names_of(alloc, values)?.map(Task::List)),
        "verify" => Ok(names_of(alloc, values)?.map(Task::Verify)),
        "index" => index_task(alloc, values),
        "merge" => Ok(names_of(alloc, values)?.map(Task::Merge)),
        "check" => Ok(names_of(alloc, values)?.map(Task::Check)),
        "query" => query_task(alloc, values),
        "pages" => pages_task(alloc, values),
        "serve" => Ok(names_of(alloc, values)?.map(Task::Serve)),
        "get" => get_task(alloc, values),
        "scan" => scan_task(alloc, values),
        _ => Ok(None),
    }
}

fn list_input(alloc: Global) -> Result<Task, AllocError>
    ensures { IfOk result (λ task. view task ≡ list_input) }
{
    let name = String::from_str(alloc, "-")?;
    Ok(Task::List(vec![in alloc; name]?))
}

fn index_task(alloc: Global, values: &ArgMatches) -> Result<Option<Task>, AllocError>
    ensures { IfOk result (λ task. option_map view task
        ≡ values_task (Typed to_index) (rows_of (found_of values.now))) }
{
    let Some(types) = chosen_types(values) else {
        return Ok(None);
    };
    match names_of(alloc, values)? {
        Some(names) => Ok(Some(Task::Index {
            types,
            input: None,
            names,
        })),
        None => Ok(None),
    }
}

fn query_task(alloc: Global, values: &ArgMatches) -> Result<Option<Task>, AllocError>
    ensures { IfOk result (λ task. option_map view task
        ≡ values_task (Query ToQuery) (rows_of (found_of values.now))) }
{
    let Some(query) = text_of(alloc, values, "query")? else {
        return Ok(None);
    };
    match names_of(alloc, values)? {
        Some(names) => Ok(Some(Task::Query { query, names })),
        None => Ok(None),
    }
}

fn pages_task(alloc: Global, values: &ArgMatches) -> Result<Option<Task>, AllocError>
    ensures { IfOk result (λ task. option_map view task
        ≡ values_task (Sizes ToPages) (rows_of (found_of values.now))) }
{
    match sized_query(alloc, values)? {
        Some((sizes, query, names)) => Ok(Some(Task::Pages {
            sizes,
            query,
            names,
        })),
        None => Ok(None),
    }
}

fn scan_task(alloc: Global, values: &ArgMatches) -> Result<Option<Task>, AllocError>
    ensures { IfOk result (λ task. option_map view task
        ≡ values_task (TypedSizes to_scan) (rows_of (found_of values.now))) }
{
    let Some(types) = chosen_types(values) else {
        return Ok(None);
    };
    match sized_query(alloc, values)? {
        Some((sizes, query, names)) => Ok(Some(Task::Scan {
            types,
            input: None,
            sizes,
            query,
            names,
        })),
        None => Ok(None),
    }
}

/// Returns the sizes, the query and the names.
fn sized_query(
    alloc: Global,
    values: &ArgMatches,
) -> Result<Option<(Vec<u64>, String, Vec<String>)>, AllocError>
    ensures { IfOk result
        (λ asked. option_map (λ a. (a.0.items, string_bytes a.1, texts a.2.items)) asked
        ≡ sized_query (rows_of (found_of values.now))) }
{
    let Some(sizes) = value_of(values, "sizes") else {
        return Ok(None);
    };
    let Some(query) = text_of(alloc, values, "query")? else {
        return Ok(None);
    };
    let Some(names) = names_of(alloc, values)? else {
        return Ok(None);
    };
    match read_sizes(alloc, sizes)? {
        Some(sizes) => Ok(Some((sizes, query, names))),
        None => Ok(None),
    }
}

fn get_task(alloc: Global, values: &ArgMatches) -> Result<Option<Task>, AllocError>
    ensures { IfOk result (λ task. option_map view task
        ≡ values_task (Offset ToGet) (rows_of (found_of values.now))) }
{
    let Some(length) = chosen_length(values) else {
        return Ok(None);
    };
    match offset_and_name(alloc, values)? {
        Some((offset, name)) => Ok(Some(Task::Get {
            length,
            offset,
            name,
        })),
        None => Ok(None),
    }
}

fn offset_and_name(alloc: Global, values: &ArgMatches) -> Result<Option<(u64, String)>, AllocError>
    ensures { IfOk result (λ place. option_map (λ p. (p.0, string_bytes p.1)) place
        ≡ offset_and_name (rows_of (found_of values.now))) }
{
    let Some(offset) = value_of(values, "offset") else {
        return Ok(None);
    };
    let Some(offset) = read_offset(offset) else {
        return Ok(None);
    };
    match text_of(alloc, values, "name")? {
        Some(name) => Ok(Some((offset, name))),
        None => Ok(None),
    }
}

/// Returns the length that the option gives, or no length if the option isn't given. `None` is for a value that isn't
/// a length.
fn chosen_length(values: &ArgMatches) -> Option<Option<u64>>
    ensures { result ≡ chosen_length (rows_of (found_of values.now)) }
{
    match value_of(values, "length") {
        Some(text) => read_offset(text).map(Some),
        None => Some(None),
    }
}

/// Returns the types that the option's value names, or the usual types if the option isn't given.
fn chosen_types(values: &ArgMatches) -> Option<Types>
    ensures { result ≡ chosen_types (rows_of (found_of values.now)) }
{
    match value_of(values, "types") {
        Some(text) => Types::read(text),
        None => Some(Types::usual()),
    }
}

fn text_of(alloc: Global, values: &ArgMatches, id: &str) -> Result<Option<String>, AllocError>
    ensures { IfOk result (λ text. option_map string_bytes text
        ≡ first_of id.now (rows_of (found_of values.now))) }
{
    match value_of(values, id) {
        Some(word) => Ok(Some(String::from_str(alloc, word)?)),
        None => Ok(None),
    }
}

fn value_of<'a>(values: &ArgMatches<'a>, id: &str) -> Option<&'a str>
    ensures { option_map (λ word. word.now) result
        ≡ first_of id.now (rows_of (found_of values.now)) }
{
    values.get_str(id)
}

fn names_of(alloc: Global, values: &ArgMatches) -> Result<Option<Vec<String>>, AllocError>
    ensures { IfOk result (λ names. option_map (λ n. texts n.items) names
        ≡ all_of (codes "names") (rows_of (found_of values.now))) }
{
    match values_of(values, "names") {
        Some(words) => Ok(Some(copied(alloc, words)?)),
        None => Ok(None),
    }
}

fn values_of<'m, 'a>(values: &'m ArgMatches<'a>, id: &str) -> Option<&'m [&'a str]>
    ensures { option_map (λ words. map (λ word. word.now) words.now) result
        ≡ all_of id.now (rows_of (found_of values.now)) }
{
    values.get_strs(id)
}

fn copied(alloc: Global, words: &[&str]) -> Result<Vec<String>, AllocError>
    ensures { IfOk result (λ names. texts names.items ≡ map (λ word. word.now) words.now) }
{
    let mut names = Vec::new(alloc);
    for word in words {
        names.push(String::from_str(alloc, word)?)?;
    }
    Ok(names)
}
