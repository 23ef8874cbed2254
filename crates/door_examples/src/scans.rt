//! Scanning archives, by `scan_core` alone.
ghost use Rattle.std.specs.Prelude.{◌∷◌, [], map, IfOk, string_bytes};
ghost use Rattle.std.specs.List.{AllByRecursion};
ghost use Rattle.scan_core.specs.Scanning.{Scanned};
ghost use Rattle.scan_core.specs.State.{IsUnread, told_of};
ghost use Rattle.scan_core.specs.Types.{includes, usual_types};

use scan_core::{Archive, Named, Output, PlainArchive, ScanFault, Slice, Types, scan};
use std::alloc::{AllocError, Global};

/// Returns an archive in memory, with the file name that its captures have.
pub fn in_memory<'a>(
    alloc: Global,
    name: &str,
    bytes: &'a [u8],
) -> Result<Named<PlainArchive<Slice<'a>>>, AllocError>
    ensures { IfOk result (λ n.
        IsUnread (⟦<PlainArchive<Slice<'a>> as Archive>⟧.state n.archive)) }
{
    Ok(Named {
        name: String::from_str(alloc, name)?,
        archive: PlainArchive::new(alloc, Slice::new(bytes)),
    })
}

/// Writes the pages of a query over archives of which nothing was read, of 100 captures each, and
/// returns their number.
pub fn write_pages<A: Archive, O: Output>(
    alloc: Global,
    archives: &mut [Named<A>],
    query: &str,
    out: &mut O,
) -> Result<u64, ScanFault>
    requires { AllByRecursion (λ n. IsUnread (A.state n.archive)) archives.old }
    ensures pages { IfOk result (λ _. Scanned (includes usual_types)
        (map (λ n. string_bytes n.name) archives.old)
        (map (λ n. told_of (A.state n.archive)) archives.old) (100 ∷ []) query.now result
        (O.written out.old) (O.written out.new)) }
{
    scan(alloc, archives, Types::usual(), &[100], query, out)
}
