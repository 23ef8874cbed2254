//! The lines of reports, written without allocating memory.
ghost use Rattle.std.specs.Prelude.{◌≡◌, ◌+◌, ◌≤◌, ◌++◌, length};
ghost use Rattle.arrayvec.specs.ArrayVec.{array_vec_len};
ghost use Rattle.arrayvec.specs.ArrayString.{array_string_len};
ghost use Rattle.index_core.specs.Listing.{record_line};
ghost use Rattle.index_core.specs.Report.{fault_line};
ghost use Rattle.index_core.specs.Verifying.{verdict_line};

use archives::PlacedRecord;
use arrayvec::ArrayString;
use capture_core::Verdict;
use itoa::Buffer;
use warc_core::Fault;

/// A line of a report, with its LF.
pub type ReportLine = ArrayString<64>;

/// Returns the line `OFFSET LENGTH KIND`.
#[tactic(auto, unfolding(crate::specs::Listing::record_line))]
pub fn record_line(placed: &PlacedRecord) -> ReportLine
    ensures { result.bytes ≡ record_line placed.now }
{
    let mut digits = Buffer::new();
    let mut line = ReportLine::new();
    line.push_str(digits.format(placed.place.offset));
    line.push_str(" ");
    line.push_str(digits.format(placed.place.length));
    line.push_str(" ");
    line.push_str(placed.head.kind().name());
    line.push_str("\n");
    line
}

/// Returns the line `OFFSET VERDICT`.
#[tactic(auto, unfolding(crate::specs::Verifying::verdict_line))]
pub fn verdict_line(offset: u64, verdict: Verdict) -> ReportLine
    ensures { result.bytes ≡ verdict_line offset verdict }
{
    let mut digits = Buffer::new();
    let mut line = ReportLine::new();
    line.push_str(digits.format(offset));
    line.push_str(" ");
    line.push_str(verdict.name());
    line.push_str("\n");
    line
}

/// Returns the line `fault OFFSET CAUSE`.
#[tactic(auto, unfolding(crate::specs::Report::fault_line))]
pub fn fault_line(fault: Fault) -> ReportLine
    ensures { result.bytes ≡ fault_line fault }
{
    let mut digits = Buffer::new();
    let mut line = ReportLine::new();
    line.push_str("fault ");
    line.push_str(digits.format(fault.offset));
    line.push_str(" ");
    line.push_str(fault.cause.name());
    line.push_str("\n");
    line
}
