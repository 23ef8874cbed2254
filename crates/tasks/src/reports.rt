//! Reports on archives, one archive after another.
ghost use Rattle.std.specs.Prelude.{◌≡◌, IfOk, MatchResult};
ghost use Rattle.archives.specs.State.{IsUnread, told_of};
ghost use Rattle.devices.specs.Device.{CountsFailure};
ghost use Rattle.devices.specs.Writing.{WritesText};
ghost use Rattle.index_core.specs.Counting.{CountsInput};
ghost use Rattle.command_line.specs.Words.{texts};
ghost use Rattle.outcomes.specs.Outcome.{answer_of};
ghost use Rattle.tasks.specs.Reports.{ReportsOn, ReportsOnOne, WritesReport, WritesBelow, heading, heading_among};
ghost use Rattle.tasks.specs.Writes.{CountsWrites};

use crate::each::with_each;
use crate::opening::Opener;
use devices::DeviceFault;
use index_core::{Archive, IndexFault, list, verify};
use outcomes::{Console, Outcome, outcome_of, verification_outcome};
use std::rt::Runtime;
use warc_core::{Output, put};

/// The kind of a report on an archive.
#[derive(Clone, Copy)]
pub enum ArchiveReport {
    /// A line for each record.
    Listing,
    /// A line for each record's digest.
    Verdicts,
}

/// Writes the report on each archive. If there are several archives, each report stands under the
/// name of its archive.
pub fn report_on<R: Runtime + AllocGlobal, F: Opener, O: Output>(
    console: &Console<R>,
    files: &F,
    names: &[String],
    report: ArchiveReport,
    out: &mut O,
) -> Outcome
    ensures report { ReportsOn (F.tells_archive files.now) (F.archive_failed files.now) report
        (texts names.now) (O.written out.old) (O.written out.new) result }
    ensures writes { CountsWrites result (O.failures out.old) (O.failures out.new) }
{
    let among = names.len();
    with_each(
        names,
        out,
        |out, name|
            ensures report { ReportsOnOne (F.tells_archive files.entry.now)
                (F.archive_failed files.entry.now) report among
                (O.written out.old) name.now result (O.written out.new) }
            ensures writes { CountsWrites result (O.failures out.old) (O.failures out.new) }
        { report_on_opened(name, among, report, files.open_archive(name), out) },
    )
}

/// Writes the report on an archive, unless it couldn't be opened. `among` is the number of
/// archives.
fn report_on_opened<A: Archive + Drop, O: Output>(
    name: &str,
    among: usize,
    report: ArchiveReport,
    opened: Result<A, Outcome>,
    out: &mut O,
) -> Outcome
    requires { IfOk opened (λ archive. IsUnread (A.state archive)) }
    ensures report { MatchResult opened
        (λ archive. WritesBelow (heading_among among name.now) report
        (told_of (A.state archive)) result (O.written out.old) (O.written out.new))
        (λ outcome. (result ≡ outcome) × (out.new ≡ out.old)) }
    ensures writes { MatchResult opened
        (λ _. CountsWrites result (O.failures out.old) (O.failures out.new))
        (λ _. out.new ≡ out.old) }
{
    match opened {
        Ok(mut archive) => report_below(name, among, report, &mut archive, out),
        Err(outcome) => outcome,
    }
}

/// Writes the report below its archive's heading.
fn report_below<A: Archive, O: Output>(
    name: &str,
    among: usize,
    report: ArchiveReport,
    archive: &mut A,
    out: &mut O,
) -> Outcome
    requires { IsUnread (A.state archive.old) }
    ensures report { WritesBelow (heading_among among name.now) report
        (told_of (A.state archive.old)) result (O.written out.old) (O.written out.new) }
    ensures reads { CountsInput (answer_of result) (A.state archive.old).failures
        (A.state archive.new).failures }
    ensures writes { CountsWrites result (O.failures out.old) (O.failures out.new) }
{
    match put_heading_among(among, name, out) {
        Ok(()) => write_report(report, archive, out),
        Err(_) => Outcome::Index(IndexFault::Write),
    }
}

/// Writes `NAME:` if there are several archives.
fn put_heading_among<O: Output>(among: usize, name: &str, out: &mut O) -> Result<(), DeviceFault>
    ensures heading { WritesText result (O.written out.old) (O.written out.new)
        (heading_among among name.now) }
    ensures failures { CountsFailure result (O.failures out.old) (O.failures out.new) }
{
    if among > 1 {
        put_heading(name, out)?;
    }
    Ok(())
}

/// Writes `NAME:` and a line feed.
fn put_heading<O: Output>(name: &str, out: &mut O) -> Result<(), DeviceFault>
    ensures heading { WritesText result (O.written out.old) (O.written out.new) (heading name.now) }
    ensures failures { CountsFailure result (O.failures out.old) (O.failures out.new) }
{
    put(out, name.as_bytes())?;
    put(out, b":\n")?;
    Ok(())
}

fn write_report<A: Archive, O: Output>(
    report: ArchiveReport,
    archive: &mut A,
    out: &mut O,
) -> Outcome
    requires { IsUnread (A.state archive.old) }
    ensures report { WritesReport report (told_of (A.state archive.old)) result
        (O.written out.old) (O.written out.new) }
    ensures reads { CountsInput (answer_of result) (A.state archive.old).failures
        (A.state archive.new).failures }
    ensures writes { CountsWrites result (O.failures out.old) (O.failures out.new) }
{
    match report {
        ArchiveReport::Listing => outcome_of(list(archive, out)),
        ArchiveReport::Verdicts => verification_outcome(verify(archive, out)),
    }
}
