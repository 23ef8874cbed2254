//! Indexing an archive, by `index_core` alone.
ghost use Rattle.std.specs.Prelude.{◌≡◌, ℕ, List, Some, IfOk};
ghost use Rattle.std.specs.Io.KnownBytes.{Appends};
ghost use Rattle.index_core.specs.Accepted.{IsAccepted};
ghost use Rattle.index_core.specs.CaptureAnswer.{usual_limits};
ghost use Rattle.index_core.specs.Entries.{EntryValue};
ghost use Rattle.index_core.specs.Packing.{form_of};
ghost use Rattle.index_core.specs.State.{IsUnread};
ghost use Rattle.index_core.specs.Indexing.{index_text};
ghost use Rattle.index_core.specs.Types.{includes, usual_types};

use index_core::{Archive, IndexFault, Indexer, Output, Types};
use std::alloc::Global;

/// Writes the index of an archive of which nothing was read, and returns the number of its lines.
///
/// Errors are `BadName` for a name that isn't 1 to 255 bytes, the fault that the archive's captures
/// end with, `Memory`, and `Write` if the output failed. Before `Write` nothing is written.
pub fn write_index<A: Archive, O: Output>(
    alloc: Global,
    name: &str,
    archive: &mut A,
    out: &mut O,
) -> Result<u64, IndexFault>
    requires { IsUnread (A.state archive.old) }
    ensures index { (bytes : List ℕ) → (A.state archive.old).ahead ≡ Some bytes
        → IfOk result (λ count. (captures : List EntryValue)
        × IsAccepted (includes usual_types) usual_limits (form_of (A.state archive.old).packing)
        name.now bytes captures
        × Appends (O.written out.old) (O.written out.new) (index_text captures)) }
{
    let mut indexer = Indexer::new(alloc, Types::usual());
    indexer.add(name, archive)?;
    indexer.write(out)
}
