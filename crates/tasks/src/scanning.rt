//! Queries over archives.
ghost use Rattle.std.specs.Prelude.{◌≡◌, Any, ◌∷◌, ◌++◌, [], IfOk, MatchResult, map};
ghost use Rattle.capture_core.specs.Types.{includes};
ghost use Rattle.command_line.specs.Words.{texts};
ghost use Rattle.tasks.specs.Indexing.{archive_name, bytes_of_name};
ghost use Rattle.tasks.specs.Opening.{IsUnopened, OpensFirst};
ghost use Rattle.std.specs.List.{AllByRecursion};
ghost use Rattle.archives.specs.State.{IsUnread, told_of};
ghost use Rattle.tasks.specs.Scanning.{AreOpened, ScansArchives, ScansNamed, ScansTold, archive_names, inputs, scan_outcome};
ghost use Rattle.tasks.specs.Writes.{CountsWrites};

use crate::archive_names::archive_name;
use crate::opening::Opener;
use crate::queries::read_query;
use capture_core::Types;
use index_core::{Archive, IndexFault};
use outcomes::{Console, Outcome, say_scan_fault};
use scan_core::{Named, ScanFault, scan};
use std::alloc::{AllocError, Global};
use std::rt::Runtime;
use warc_core::Output;

/// Writes the pages of the query text over the captures of these archives' records of these types.
/// Each page has its size, and the last size is repeated. `input` is the name of standard input.
/// Faults are reported on standard error.
pub fn scan_all<R: Runtime + AllocGlobal, F: Opener, O: Output>(
    console: &Console<R>,
    files: &F,
    types: Types,
    input: Option<&str>,
    sizes: &[u64],
    query: &str,
    names: &[String],
    out: &mut O,
) -> Outcome
    ensures scans { ScansNamed (F.tells_archive files.now) (F.archive_failed files.now)
        (includes types) (bytes_of_name input.entry) sizes.now query.now (texts names.now)
        (O.written out.old) (O.written out.new) (out.new ≡ out.old) result }
    ensures writes { CountsWrites result (O.failures out.old) (O.failures out.new) }
{
    match read_query(console, query) {
        Ok(_query) => open_and_scan(console, files, types, input, sizes, query, names, out),
        Err(outcome) => outcome,
    }
}

/// Opens the archives of these names, and writes the pages of the query over them.
fn open_and_scan<R: Runtime + AllocGlobal, F: Opener, O: Output>(
    console: &Console<R>,
    files: &F,
    types: Types,
    input: Option<&str>,
    sizes: &[u64],
    query: &str,
    names: &[String],
    out: &mut O,
) -> Outcome
    ensures scans { OpensFirst
        (IsUnopened (Any (F.archive_failed files.now) (texts names.now)) result)
        (out.new ≡ out.old)
        (ScansTold (F.tells_archive files.now) (includes types)
        (map (archive_name (bytes_of_name input.entry)) (texts names.now)) (texts names.now)
        sizes.now query.now (O.written out.old) (O.written out.new) result) }
    ensures writes { CountsWrites result (O.failures out.old) (O.failures out.new) }
{
    match open_archives(console.alloc(), files, input, names) {
        Ok(mut archives) => scan_opened(console, types, sizes, query, names, &mut archives, out),
        Err(outcome) => outcome,
    }
}

/// Opens the archives of these arguments, under the names under which they are indexed. Returns the
/// outcome of the first that can't be opened, if there is one.
fn open_archives<F: Opener>(
    alloc: Global,
    files: &F,
    input: Option<&str>,
    names: &[String],
) -> Result<Vec<Named<F::Archive>>, Outcome>
    ensures { MatchResult result
        (λ archives. AreOpened F.Archive.state (F.tells_archive files.now)
        (bytes_of_name input.entry) (texts names.now) archives.items)
        (IsUnopened (Any (F.archive_failed files.now) (texts names.now))) }
{
    let mut archives = Vec::new(alloc);
    for name in names {
        let archive = files.open_archive(name)?;
        if push_named(alloc, &mut archives, archive_name(input, name), archive).is_err() {
            return Err(Outcome::Index(IndexFault::Memory));
        }
    }
    Ok(archives)
}

fn push_named<A: Drop>(
    alloc: Global,
    archives: &mut Vec<Named<A>>,
    name: &str,
    archive: A,
) -> Result<(), AllocError>
    ensures names { IfOk result (λ _.
        archive_names archives.new.items ≡ archive_names archives.old.items ++ name.now ∷ []) }
    ensures inputs { IfOk result (λ _.
        inputs archives.new.items ≡ inputs archives.old.items ++ archive ∷ []) }
{
    let name = String::from_str(alloc, name)?;
    archives.push(Named { name, archive })?;
    Ok(())
}

/// Writes the pages over archives that were opened by these arguments.
fn scan_opened<R: Runtime + AllocGlobal, A: Archive, O: Output>(
    console: &Console<R>,
    types: Types,
    sizes: &[u64],
    query: &str,
    names: &[String],
    archives: &mut [Named<A>],
    out: &mut O,
) -> Outcome
    requires { AllByRecursion (λ a. IsUnread (A.state a.archive)) archives.old }
    ensures scans { ScansArchives (includes types) (archive_names archives.old)
        (map (λ a. told_of (A.state a.archive)) archives.old) sizes.now query.now
        (O.written out.old) (O.written out.new) result }
    ensures writes { CountsWrites result (O.failures out.old) (O.failures out.new) }
{
    let answer = scan(console.alloc(), archives, types, sizes, query, out);
    if let Err(fault) = answer {
        say_scan_fault(console, names, fault);
    }
    scan_outcome(answer)
}

/// Returns the outcome of a scan.
fn scan_outcome(answer: Result<u64, ScanFault>) -> Outcome
    ensures { result ≡ scan_outcome answer }
{
    match answer {
        Ok(_count) => Outcome::Done,
        Err(ScanFault::Query(fault)) => Outcome::Query(fault),
        Err(ScanFault::Archive(_archive, fault)) => Outcome::Index(fault),
        Err(ScanFault::Answer(fault)) => Outcome::Answer(fault),
    }
}
