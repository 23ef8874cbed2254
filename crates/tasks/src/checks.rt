//! The checking of indexes.
ghost use Rattle.std.specs.Prelude.{◌≡◌, ◌++◌, MatchResult};
ghost use Rattle.devices.specs.Device.{CountsFailure};
ghost use Rattle.devices.specs.Writing.{WritesText};
ghost use Rattle.command_line.specs.Words.{texts};
ghost use Rattle.tasks.specs.Checks.{ChecksIndex, ChecksIndexes, ChecksOne, WritesCount, checked_line, count_text};
ghost use Rattle.tasks.specs.Writes.{CountsWrites};

use crate::each::with_each;
use crate::opening::Opener;
use arrayvec::ArrayString;
use devices::DeviceFault;
use itoa::Buffer;
use outcomes::{Console, Outcome, say_answer_fault};
use query_core::{AnswerFault, Source, check};
use std::rt::Runtime;
use warc_core::{Output, put};

/// Checks each index, and writes the number of its lines. Faults of an index are reported on
/// standard error.
pub fn check_all<R: Runtime + AllocGlobal, F: Opener, O: Output>(
    console: &Console<R>,
    files: &F,
    names: &[String],
    out: &mut O,
) -> Outcome
    ensures checks { ChecksIndexes (F.index_bytes files.now) (F.index_failed files.now)
        (texts names.now) (O.written out.old) (O.written out.new) result }
    ensures writes { CountsWrites result (O.failures out.old) (O.failures out.new) }
{
    with_each(
        names,
        out,
        |out, name|
            ensures checks { ChecksOne (F.index_bytes files.entry.now)
                (F.index_failed files.entry.now)
                (O.written out.old) name.now result (O.written out.new) }
            ensures writes { CountsWrites result (O.failures out.old) (O.failures out.new) }
        { check_opened(console, name, files.open_index(name), out) },
    )
}

/// Checks an index, unless it couldn't be opened.
fn check_opened<R: Runtime + AllocGlobal, S: Source + Drop, O: Output>(
    console: &Console<R>,
    name: &str,
    opened: Result<S, Outcome>,
    out: &mut O,
) -> Outcome
    ensures checks { MatchResult opened
        (λ source. ChecksIndex name.now (S.text source) result (O.written out.old)
        (O.written out.new))
        (λ outcome. (result ≡ outcome) × (out.new ≡ out.old)) }
    ensures writes { MatchResult opened
        (λ _. CountsWrites result (O.failures out.old) (O.failures out.new))
        (λ _. out.new ≡ out.old) }
{
    match opened {
        Ok(mut source) => match check(console.alloc(), &mut source) {
            Ok(count) => write_count(name, count, out),
            Err(fault) => {
                say_answer_fault(console, name, fault);
                Outcome::Answer(fault)
            }
        },
        Err(outcome) => outcome,
    }
}

fn write_count<O: Output>(name: &str, count: u64, out: &mut O) -> Outcome
    ensures line { WritesCount name.now count result (O.written out.old) (O.written out.new) }
    ensures writes { CountsWrites result (O.failures out.old) (O.failures out.new) }
{
    match put_count(name, count, out) {
        Ok(()) => Outcome::Done,
        Err(_) => Outcome::Answer(AnswerFault::Write),
    }
}

/// Writes `NAME COUNT` and a line feed.
fn put_count<O: Output>(name: &str, count: u64, out: &mut O) -> Result<(), DeviceFault>
    ensures line { WritesText result (O.written out.old) (O.written out.new)
        (checked_line name.now count) }
    ensures failures { CountsFailure result (O.failures out.old) (O.failures out.new) }
{
    let text = count_text(count);
    put(out, name.as_bytes())?;
    put(out, text.as_bytes())?;
    Ok(())
}

/// Returns what follows the name.
fn count_text(count: u64) -> ArrayString<32>
    ensures { result.bytes ≡ count_text count }
{
    let mut digits = Buffer::new();
    let mut text = ArrayString::new();
    text.push_str(" ");
    text.push_str(digits.format(count));
    text.push_str("\n");
    text
}
