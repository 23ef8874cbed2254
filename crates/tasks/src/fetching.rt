//! The writing of one record.
ghost use Rattle.std.specs.Prelude.{◌≡◌, IfErr, IfOk, MatchResult};
ghost use Rattle.index_core.specs.Counting.{CountsIndexWrite};
ghost use Rattle.archives.specs.State.{IsUnread, told_of};
ghost use Rattle.index_core.specs.FetchingIn.{FetchesIn, IsUnwrittenBy};
ghost use Rattle.index_core.specs.OneRecord.{WritesOneRecord};
ghost use Rattle.warc_core.specs.declared.next.TheConstants.{HEAD_LIMIT};
ghost use Rattle.tasks.specs.Fetching.{WritesRecord};
ghost use Rattle.tasks.specs.Opening.{IsUnopened, OpensFirst, WithTold};
ghost use Rattle.tasks.specs.Writes.{CountsWrites};

use crate::opening::Opener;
use index_core::{Fetch, IndexFault};
use outcomes::{Console, Outcome, said_outcome};
use std::rt::Runtime;
use warc_core::Output;

/// Writes the record that begins at the offset of the archive of this name; `-` is standard input.
/// With a length, only a record of this length, and without reading what precedes it as records.
pub fn fetch<R: Runtime + AllocGlobal, F: Opener, O: Output>(
    console: &Console<R>,
    files: &F,
    length: Option<u64>,
    offset: u64,
    name: &str,
    out: &mut O,
) -> Outcome
    ensures record { OpensFirst (IsUnopened (F.archive_failed files.now name.now) result)
        (out.new ≡ out.old)
        (WithTold (F.tells_archive files.now name.now) (λ told. WritesRecord length offset told
        (O.written out.old) (O.written out.new) (out.new ≡ out.old) result)) }
    ensures writes { CountsWrites result (O.failures out.old) (O.failures out.new) }
{
    fetch_opened(console, length, offset, name, files.open_archive(name), out)
}

/// Writes the record of an archive, unless the archive couldn't be opened.
fn fetch_opened<R: Runtime, A: Fetch + Drop, O: Output>(
    console: &Console<R>,
    length: Option<u64>,
    offset: u64,
    name: &str,
    opened: Result<A, Outcome>,
    out: &mut O,
) -> Outcome
    requires { IfOk opened (λ archive. IsUnread (A.state archive)) }
    ensures record { MatchResult opened
        (λ archive. WritesRecord length offset (told_of (A.state archive)) (O.written out.old)
        (O.written out.new) (out.new ≡ out.old) result)
        (λ outcome. (result ≡ outcome) × (out.new ≡ out.old)) }
    ensures writes { MatchResult opened
        (λ _. CountsWrites result (O.failures out.old) (O.failures out.new))
        (λ _. out.new ≡ out.old) }
{
    match opened {
        Ok(mut archive) => {
            let answer = get_record(length, offset, &mut archive, out);
            said_outcome(console, name, answer)
        }
        Err(outcome) => outcome,
    }
}

/// Writes the record at an offset, or the one of this length, as `get` and `get_at` do.
fn get_record<A: Fetch, O: Output>(
    length: Option<u64>,
    offset: u64,
    archive: &mut A,
    out: &mut O,
) -> Result<u64, IndexFault>
    requires { IsUnread (A.state archive.old) }
    ensures fetches { FetchesIn (A.state archive.old).packing length offset
        (A.state archive.old).ahead result (O.written out.old) (O.written out.new) }
    ensures record { WritesOneRecord HEAD_LIMIT result (O.written out.old) (O.written out.new) }
    ensures unwritten { IfErr result (λ fault. IsUnwrittenBy (A.state archive.old).packing length
        offset fault → out.new ≡ out.old) }
    ensures writes { CountsIndexWrite result (O.failures out.old) (O.failures out.new) }
{
    match length {
        Some(length) => archive.get_at(offset, length, out),
        None => archive.get(offset, out),
    }
}
