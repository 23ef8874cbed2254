//! The pages of a query over archives.
ghost use Rattle.std.specs.List.{AllByRecursion, AllZip};
ghost use Rattle.archives.specs.State.{IsUnread, told_of};
ghost use Rattle.std.specs.Prelude.{◌≡◌, ◌<◌, ◌≤◌, List, length, map, true, Err, IfOk, IfErr};
ghost use Rattle.std.specs.Prelude.{string_bytes};
ghost use Rattle.capture_core.specs.Types.{includes};
ghost use Rattle.cdxj_core.specs.declared.limit.TheConstants.{LINE_LIMIT};
ghost use Rattle.cdxj_core.specs.Indexes.{IsIndex};
ghost use Rattle.cdxj_core.specs.Members.{Member};
ghost use Rattle.devices.specs.Gathered.{gathered};
ghost use Rattle.merge_core.specs.Collections.{collection};
ghost use Rattle.source_core.specs.Slices.{slice_text};
ghost use Rattle.query_core.specs.declared.merging.TheConstants.{SOURCES_LIMIT};
ghost use Rattle.query_core.specs.Paging.{are_sizes};
ghost use Rattle.scan_core.specs.Failures.{CountsWriting, CountsInputs, CountsOutput};
ghost use Rattle.scan_core.specs.Scanning.{Scanned, WritesKnownPages, IsScanFault};
ghost use Rattle.scan_core.specs.Scanning.{IsBeforeWriting, LeavesUnread};

use crate::fault::ScanFault;
use crate::indexing::index_archives;
use crate::named::Named;
use capture_core::Types;
use devices::{Gather, Output};
use index_core::Archive;
use page_core::pages_join;
use query_core::{
    AnswerFault, Query, SOURCES_LIMIT, SliceSource, are_sizes, indexes_have_no_line_at_fault,
    pages, pages_are_selected,
};
use std::alloc::{AllocError, Global};

/// Returns the indexes as sources.
fn sources_of(alloc: Global, indexes: &[Gather]) -> Result<Vec<SliceSource<'_>>, AllocError>
    ensures { IfOk result (λ sources. map slice_text sources.items ≡ map gathered indexes.now) }
{
    let mut sources = Vec::new(alloc);
    for index in indexes {
        sources.push(SliceSource::new(index.bytes()))?;
    }
    Ok(sources)
}

/// Writes the pages of a query over indexes.
fn write_pages<O: Output>(
    alloc: Global,
    indexes: &[Gather],
    query: &Query,
    sizes: &[u64],
    out: &mut O,
) -> Result<u64, AnswerFault>
    requires sizes { are_sizes sizes.now ≡ true }
    requires few { length indexes.now ≤ SOURCES_LIMIT }
    ensures pages { (members : List (List Member))
        → AllZip (IsIndex LINE_LIMIT) (map gathered indexes.now) members
        → WritesKnownPages query.now (collection members) sizes.now result (O.written out.old)
        (O.written out.new) }
    ensures failures { CountsWriting result (O.failures out.old) (O.failures out.new) }
{
    pages_join();
    pages_are_selected();
    indexes_have_no_line_at_fault();
    let mut sources = sources_of(alloc, indexes)?;
    pages(alloc, &mut sources, query, sizes, out)
}

/// Writes the pages of a query over archives, and returns their number. The records of these types
/// are indexed in memory, each archive into its own index. The captures have the archives' names as
/// file names. The pages are those of `pages` over these indexes. The sizes are in captures, and
/// the last size is repeated. The query's limit isn't used, nor whether it shows a resume key.
///
/// Errors, in this order: `Answer(BadSizes)` if there are no sizes, or one of them is 0; `Query`
/// for a text that is refused; `Answer(TooManySources)` for more than `SOURCES_LIMIT` archives.
/// Then, archive by archive, `Archive`: `BadName` and `DuplicateName` before the archive is read,
/// then the fault that its captures end with, and `Memory` if memory could not be allocated. Up to
/// here nothing was written. Then `Answer(Memory)`, and `Answer(Write)` at the output's first
/// failure: a prefix of the pages was written.
#[tactic(auto, unfolding(crate::specs::Scanning::IsScanFault, crate::specs::Scanning::LeavesUnread))]
pub fn scan<A: Archive, O: Output>(
    alloc: Global,
    inputs: &mut [Named<A>],
    types: Types,
    sizes: &[u64],
    query: &str,
    out: &mut O,
) -> Result<u64, ScanFault>
    requires { AllByRecursion (λ n. IsUnread (A.state n.archive)) inputs.old }
    ensures names { map (λ n. string_bytes n.name) inputs.new
        ≡ map (λ n. string_bytes n.name) inputs.old }
    ensures scanned { IfErr result (λ fault. IsBeforeWriting fault → ⊥) → Scanned (includes types)
        (map (λ n. string_bytes n.name) inputs.old)
        (map (λ n. told_of (A.state n.archive)) inputs.old) sizes.now query.now result
        (O.written out.old) (O.written out.new) }
    ensures fault { IfErr result
        (IsScanFault (includes types) (map (λ n. string_bytes n.name) inputs.old)
        (map (λ n. told_of (A.state n.archive)) inputs.old) sizes.now query.now) }
    ensures unwritten { IfErr result (λ fault. IsBeforeWriting fault → out.new ≡ out.old) }
    ensures unread { IfErr result (LeavesUnread inputs.old inputs.new) }
    ensures inputs { CountsInputs result (map (λ n. (A.state n.archive).failures) inputs.old)
        (map (λ n. (A.state n.archive).failures) inputs.new) }
    ensures output { CountsOutput result (O.failures out.old) (O.failures out.new) }
{
    if !are_sizes(sizes) {
        return Err(ScanFault::Answer(AnswerFault::BadSizes));
    }
    let query = Query::read(alloc, query)?;
    if inputs.len() > SOURCES_LIMIT {
        return Err(ScanFault::Answer(AnswerFault::TooManySources));
    }
    let indexes = index_archives(alloc, inputs, types)?;
    Ok(write_pages(alloc, &indexes, &query, sizes, out)?)
}
