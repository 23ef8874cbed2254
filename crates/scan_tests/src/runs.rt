//! Runs of scans, over archives in memory and devices that may fail.
ghost use Rattle.std.specs.Prelude.{IfOk};
ghost use Rattle.std.specs.List.{AllByRecursion};
ghost use Rattle.scan_core.specs.State.{IsUnread};

use capture_core::{CaptureFault, Types};
use devices::{Fuse, Gather, Slice};
use fixtures::{RESOURCE, RESPONSE, Refused, joined};
use index_core::{IndexFault, PlainArchive};
use query_core::{AnswerFault, QueryFault};
use scan_core::{Named, ScanFault, scan};
use std::alloc::{AllocError, Global};
use std::test::Fail;
use warc_core::Cause;

/// The name of an archive, and its pieces.
pub type Archive = (&'static str, &'static [&'static [u8]]);

/// Archives, the sizes of pages and a query, with the result of a scan and what it writes.
#[derive(Drop)]
pub struct Case {
    pub archives: &'static [Archive],
    pub sizes: &'static [u64],
    pub query: &'static str,
    pub answer: Result<u64, ScanFault>,
    pub written: &'static [u8],
}

/// Two archives.
pub const ARCHIVES: &[Archive] = &[("a.warc", &[RESPONSE]), ("b.warc", &[RESPONSE, RESOURCE])];

/// A query of all their captures.
pub const QUERY: &str = "url=example.com&matchType=prefix&fl=urlkey,filename,offset";

/// Its pages of two captures.
pub const PAGES: &[u8] =
    b"com,example)/ a.warc 0\ncom,example)/ b.warc 0\n\ncom%2Cexample%29%2F+20160919172024+b.warc+0\ncom,example)/r b.warc 264\n";

/// The scan that writes these pages.
pub const PAGED: Case = Case {
    archives: ARCHIVES,
    sizes: &[2],
    query: QUERY,
    answer: Ok(2),
    written: PAGES,
};

/// Returns the bytes of archives.
fn texts(alloc: Global, archives: &[Archive]) -> Result<Vec<Vec<u8>>, AllocError> {
    let mut texts = Vec::new(alloc);
    for (_name, pieces) in archives {
        texts.push(joined(alloc, pieces)?)?;
    }
    Ok(texts)
}

/// How many bytes each call of an archive's input and of the output transfers, and which call of an archive and of the
/// output fails; 0 means none.
#[derive(Clone, Copy)]
pub struct Devices {
    pub read_at_once: usize,
    pub archive: usize,
    pub failing_read: u64,
    pub written_at_once: usize,
    pub failing_write: u64,
}

/// No call fails.
pub const SOUND: Devices = Devices {
    read_at_once: 100,
    archive: 0,
    failing_read: 0,
    written_at_once: 8_192,
    failing_write: 0,
};

/// Returns archives with their names.
#[tactic(auto, using(crate::proofs::UnreadLemmas::all_more))]
fn inputs<'a>(
    alloc: Global,
    archives: &[Archive],
    texts: &'a [Vec<u8>],
    devices: Devices,
) -> Result<Vec<Named<PlainArchive<Fuse<Slice<'a>>>>>, AllocError>
    ensures { IfOk result (λ inputs. AllByRecursion (λ n. IsUnread
        (⟦<PlainArchive<Fuse<Slice<'a>>> as index_core::Archive>⟧.state n.archive))
        inputs.items) }
{
    let mut inputs = Vec::new(alloc);
    'archives: for (i, ((name, _pieces), text)) in archives.iter().zip(texts).enumerate() {
        let at = if i == devices.archive {
            devices.failing_read
        } else {
            0
        };
        inputs.push(Named {
            name: String::from_str(alloc, name)?,
            archive: PlainArchive::new(
                alloc,
                Fuse::new(Slice::new(text.as_slice()), devices.read_at_once, at),
            ),
        })?;
    }
    Ok(inputs)
}

fn is_memory(fault: ScanFault) -> bool {
    match fault {
        ScanFault::Query(fault) => fault == QueryFault::Memory,
        ScanFault::Answer(fault) => fault == AnswerFault::Memory,
        ScanFault::Archive(_, IndexFault::Memory) => true,
        ScanFault::Archive(_, IndexFault::Capture(CaptureFault::Archive(fault))) => {
            fault.cause == Cause::Memory
        }
        ScanFault::Archive(..) => false,
    }
}

/// Returns `true` if the fault names what is done while this many of the archives were begun: the query before all, an
/// archive once those before it were begun and none after it, the pages after all.
fn is_named_rightly(fault: ScanFault, begun: usize, count: usize) -> bool {
    match fault {
        ScanFault::Query(_fault) => begun == 0,
        ScanFault::Archive(i, _fault) => begun == i || begun == i.saturating_add(1),
        ScanFault::Answer(_fault) => begun == count,
    }
}

/// Returns how many of the archives were read, or asked for bytes.
fn begun(inputs: &[Named<PlainArchive<Fuse<Slice<'_>>>>]) -> usize {
    inputs
        .iter()
        .filter(|named| named.archive.input().calls > 0)
        .count()
}

/// Returns the result of a scan of these archives, unless memory could not be allocated.
pub fn with_memory(
    answer: Result<u64, ScanFault>,
    inputs: &[Named<PlainArchive<Fuse<Slice<'_>>>>],
) -> Result<Result<u64, ScanFault>, Fail> {
    match answer {
        Err(fault) if is_memory(fault) => {
            if is_named_rightly(fault, begun(inputs), inputs.len()) {
                Err(Refused::Memory)?
            } else {
                Err("the fault names something else")?
            }
        }
        answer => Ok(answer),
    }
}

/// Returns the result of a scan of the case's archives for these types, and its output.
pub fn scanned(
    alloc: Global,
    case: &Case,
    types: Types,
    devices: Devices,
) -> Result<(Result<u64, ScanFault>, Fuse<Gather>), Fail> {
    let texts = texts(alloc, case.archives)?;
    let mut inputs = inputs(alloc, case.archives, &texts, devices)?;
    let mut out = Fuse::new(
        Gather::new(alloc),
        devices.written_at_once,
        devices.failing_write,
    );
    let answer = scan(alloc, &mut inputs, types, case.sizes, case.query, &mut out);
    if answer == Err(ScanFault::Answer(AnswerFault::Write)) && out.calls != devices.failing_write {
        return Err(Refused::Memory)?;
    }
    Ok((with_memory(answer, &inputs)?, out))
}
