//! The indexing of archives.
ghost use Rattle.std.specs.Prelude.{◌≡◌, true, false, IfOk, MatchResult};
ghost use Rattle.archives.specs.State.{IsUnread, told_of};
ghost use Rattle.command_line.specs.Words.{texts};
ghost use Rattle.tasks.specs.Indexing.{AddsArchive, AddsOne, bytes_of_name, IndexesArchives, WritesIndex};
ghost use Rattle.outcomes.specs.Outcome.{ends_command};
ghost use Rattle.tasks.specs.Writes.{CountsWrites};

use crate::archive_names::archive_name;
use crate::each::with_each;
use crate::opening::Opener;
use capture_core::Types;
use index_core::{Archive, Indexer};
use outcomes::{Console, Outcome, ends_command, said_outcome};
use std::rt::Runtime;
use warc_core::Output;

/// Writes one index of the archives' records of these types. `input` is the name of standard input.
/// An archive that can't be read to its end is indexed up to the fault. If memory failed before the
/// index is written, nothing is written.
pub fn index_all<R: Runtime + AllocGlobal, F: Opener, O: Output>(
    console: &Console<R>,
    files: &F,
    types: Types,
    input: Option<&str>,
    names: &[String],
    out: &mut O,
) -> Outcome
    ensures indexes { IndexesArchives (F.tells_archive files.now) (F.archive_failed files.now)
        types (bytes_of_name input.entry) (texts names.now) (O.written out.old)
        (O.written out.new) (out.new ≡ out.old)
        result }
    ensures writes { CountsWrites result (O.failures out.old) (O.failures out.new) }
{
    let mut indexer = Indexer::new(console.alloc(), types);
    let added = with_each(
        names,
        &mut indexer,
        |indexer, name|
            ensures adds { AddsOne (F.tells_archive files.entry.now)
                (F.archive_failed files.entry.now) (bytes_of_name input.entry)
                indexer.old name.now result indexer.new }
            ensures unwritten { CountsWrites result 0 0 }
        {
            let opened = files.open_archive(name);
            add_opened(console, indexer, name, archive_name(input, name), opened)
        },
    );
    write_index(&indexer, added, out)
}

/// Adds an archive under this name, unless it couldn't be opened.
fn add_opened<R: Runtime, A: Archive + Drop>(
    console: &Console<R>,
    indexer: &mut Indexer,
    name: &str,
    file_name: &str,
    opened: Result<A, Outcome>,
) -> Outcome
    requires { IfOk opened (λ archive. IsUnread (A.state archive)) }
    ensures adds { MatchResult opened
        (λ archive. AddsArchive file_name.now (told_of (A.state archive)) indexer.old indexer.new
        result)
        (λ outcome. (result ≡ outcome) × (indexer.new ≡ indexer.old)) }
    ensures unwritten { MatchResult opened (λ _. CountsWrites result 0 0)
        (λ outcome. result ≡ outcome) }
{
    match opened {
        Ok(mut archive) => {
            let answer = indexer.add(file_name, &mut archive);
            said_outcome(console, name, answer)
        }
        Err(outcome) => outcome,
    }
}

/// Writes the index, unless the command has ended.
#[tactic(auto, unfolding(outcomes::specs::Outcome::ends_command))]
fn write_index<O: Output>(indexer: &Indexer, added: Outcome, out: &mut O) -> Outcome
    ensures ended { ends_command added ≡ true → (result ≡ added) × (out.new ≡ out.old) }
    ensures written { ends_command added ≡ false →
        WritesIndex indexer.now added (O.written out.old) (O.written out.new) result }
    ensures writes { ends_command added ≡ false →
        CountsWrites result (O.failures out.old) (O.failures out.new) }
{
    if ends_command(&added) {
        return added;
    }
    match indexer.write(out) {
        Ok(_count) => added,
        Err(fault) => Outcome::Index(fault),
    }
}
