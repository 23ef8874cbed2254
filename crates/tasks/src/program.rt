//! What the program does with its arguments, over any files and with any output.
ghost use Rattle.std.specs.Prelude.{◌≡◌, OnOk};
ghost use Rattle.command_line.specs.Commands.{asked, view};
ghost use Rattle.command_line.specs.Words.{texts};
ghost use Rattle.outcomes.specs.Outcome.{exit_status_of};
ghost use Rattle.tasks.specs.Performing.{openings, Performs};
ghost use Rattle.tasks.specs.Running.{Begins, EndsWith0, PerformsAndFlushes, PrintsText};
ghost use Rattle.tasks.specs.Running.{RunsWords, WritesAndFlushes};
ghost use Rattle.tasks.specs.Writes.{CountsWrites};

use crate::checks::check_all;
use crate::conversing::serve_all;
use crate::fetching::fetch;
use crate::flush::Flush;
use crate::indexing::index_all;
use crate::merging::merge_all;
use crate::opening::Opener;
use crate::queries::{answer_query, write_pages};
use crate::reports::{ArchiveReport, report_on};
use crate::scanning::scan_all;
use crate::standard_input::StandardInput;
use command_line::{Task, WordsFault, read_words};
use index_core::IndexFault;
use outcomes::{Console, Outcome, end_advice, flushed_outcome, message, say_advice, status};
use query_core::AnswerFault;
use std::rt::Runtime;
use warc_core::{DeviceFault, Output, put};

const MEMORY: Outcome = Outcome::Index(IndexFault::Memory);

/// Runs the program with these arguments over these files, and returns its exit status. Its output
/// is `out`, and it reports faults on standard error.
///
/// The status is 0 only if the task of the arguments ended as done, or they asked for help, and all
/// of the output was flushed. It is 2 if they can't be read, and 3 if the output couldn't be
/// flushed, or memory failed before the task.
pub fn run_on<R: Runtime + AllocGlobal, F: Opener, O: Flush>(
    console: &Console<R>,
    words: &[String],
    files: &F,
    input: StandardInput,
    out: &mut O,
) -> u8
    ensures runs { RunsWords O.written O.flushed O.failures (openings F.tells_archive F.index_bytes
        F.archive_failed F.index_failed F.tells_input files.now)
        (asked (texts words.now)) out.old out.new result }
    ensures done { result ≡ 0 → EndsWith0 O.written O.flushed O.failures (openings
        F.tells_archive F.index_bytes F.archive_failed F.index_failed F.tells_input files.now)
        (asked (texts words.now)) out.old out.new }
{
    say_terminal(console, words, input);
    match read_words(console.alloc(), console.program, words) {
        Ok(task) => run_task(console, files, &task, out),
        Err(WordsFault::Memory) => say_memory(console),
        Err(WordsFault::Help(text)) => print_text(console, &text, out),
        Err(WordsFault::Usage(text)) => {
            let _ = eprint!(console.rt; "{text}");
            2
        }
    }
}

/// Reports on standard error that the program waits for a terminal, if no argument names an
/// archive.
fn say_terminal<R: Runtime>(console: &Console<R>, words: &[String], input: StandardInput) {
    if words.is_empty() && input == StandardInput::Terminal {
        let program = console.program();
        let _ = eprintln!(console.rt;
            "{program}: reading a WARC file from the terminal; see '{program} --help'"
        );
    }
}

/// Reports on standard error that memory failed, and returns the exit status.
pub fn say_memory<R: Runtime>(console: &Console<R>) -> u8
    ensures { result ≡ 3 }
{
    say_outcome(console, MEMORY);
    3
}

/// Performs the task, and flushes its output.
fn run_task<R: Runtime + AllocGlobal, F: Opener, O: Flush>(
    console: &Console<R>,
    files: &F,
    task: &Task,
    out: &mut O,
) -> u8
    ensures { PerformsAndFlushes O.written O.flushed O.failures (openings F.tells_archive
        F.index_bytes F.archive_failed F.index_failed F.tells_input files.now)
        (view task.now) out.old out.new result }
{
    begin(task, out);
    let outcome = perform(console, files, task, out);
    let is_flushed = out.flush().is_ok();
    end(console, flushed_outcome(outcome, is_flushed), out)
}

/// Has each reply of a conversation handed on at once.
fn begin<O: Flush>(task: &Task, out: &mut O)
    ensures { Begins O.written O.flushed O.failures (view task.now) out.old out.new }
{
    if let Task::Serve(_names) = task {
        out.hand_on_replies();
    }
}

/// Writes a text, and flushes the output.
fn print_text<R: Runtime, O: Flush>(console: &Console<R>, text: &str, out: &mut O) -> u8
    ensures { PrintsText O.written O.flushed O.failures text.now out.old out.new result }
{
    let is_printed = put_and_flush(out, text.as_bytes()).is_ok();
    end(console, flushed_outcome(Outcome::Done, is_printed), out)
}

fn put_and_flush<O: Flush>(out: &mut O, bytes: &[u8]) -> Result<(), DeviceFault>
    ensures { OnOk result
        (WritesAndFlushes O.written O.flushed O.failures bytes.now out.old out.new) }
{
    put(out, bytes)?;
    out.flush()
}

/// Reports on standard error what failed at a command's end, if anything did, with the system's
/// reason if the output did. Returns the exit status.
fn end<R: Runtime, O: Flush>(console: &Console<R>, outcome: Outcome, out: &O) -> u8
    ensures { result ≡ exit_status_of outcome }
{
    say_outcome(console, outcome);
    if let Some(reason) = out.reason()
        && is_of_output(outcome)
    {
        let _ = eprintln!(console.rt; "  {reason}");
    }
    status(&outcome)
}

/// Reports on standard error what failed at a command's end, if anything did.
fn say_outcome<R: Runtime>(console: &Console<R>, outcome: Outcome) {
    if let Some(message) = message(outcome) {
        let program = console.program();
        let _ = eprintln!(console.rt; "{program}: {message}");
    }
    say_advice(console, end_advice(outcome));
}

/// Returns `true` if the outcome is a failed output.
fn is_of_output(outcome: Outcome) -> bool {
    match outcome {
        Outcome::Index(IndexFault::Write)
        | Outcome::Answer(AnswerFault::Write)
        | Outcome::CannotFlush => true,
        _ => false,
    }
}

/// Performs the task with this output.
#[tactic(auto, unfolding(crate::specs::Performing::Performs))]
pub fn perform<R: Runtime + AllocGlobal, F: Opener, O: Output>(
    console: &Console<R>,
    files: &F,
    task: &Task,
    out: &mut O,
) -> Outcome
    ensures performs { Performs (openings F.tells_archive F.index_bytes F.archive_failed
        F.index_failed F.tells_input files.now)
        (O.written out.old) (O.written out.new) (out.new ≡ out.old) result (view task.now) }
    ensures writes { CountsWrites result (O.failures out.old) (O.failures out.new) }
{
    match task {
        Task::List(names) => report_on(console, files, names, ArchiveReport::Listing, out),
        Task::Verify(names) => report_on(console, files, names, ArchiveReport::Verdicts, out),
        Task::Index {
            types,
            input,
            names,
        } => index_all(console, files, *types, input.as_deref(), names, out),
        Task::Merge(names) => merge_all(console, files, names, out),
        Task::Check(names) => check_all(console, files, names, out),
        Task::Query { query, names } => answer_query(console, files, query, names, out),
        Task::Pages {
            sizes,
            query,
            names,
        } => write_pages(console, files, sizes, query, names, out),
        Task::Serve(names) => serve_all(console, files, names, &mut files.input(), out),
        Task::Get {
            length,
            offset,
            name,
        } => fetch(console, files, *length, *offset, name, out),
        Task::Scan {
            types,
            input,
            sizes,
            query,
            names,
        } => {
            let input = input.as_deref();
            scan_all(console, files, *types, input, sizes, query, names, out)
        }
    }
}
