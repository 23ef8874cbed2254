//! Archives that are opened by their first bytes.
ghost use Rattle.archives.specs.Opened.{OpensOver};

use crate::archive::Archive;
use crate::either_archive::EitherArchive;
use crate::failed_archive::FailedArchive;
use crate::looked::Looked;
use crate::packed_archive::PackedArchive;
use crate::plain_archive::PlainArchive;
use capture_core::Input;
use std::alloc::Global;

/// An archive of either form over an input whose first bytes were looked at.
pub type AnyArchive<I> = EitherArchive<
    PlainArchive<Looked<I>>,
    PackedArchive<Looked<I>>,
    FailedArchive<Looked<I>>,
>;

/// Opens an archive over an input. Its first two bytes say how it keeps its records. If memory or
/// the input fails, the first call says so.
pub fn open<I: Input + Drop>(alloc: Global, input: I) -> AnyArchive<I>
    ensures { OpensOver (I.remaining input) (⟦<AnyArchive<I> as Archive>⟧.state result) }
{
    let looked = Looked::new(input);
    if looked.has_failed() {
        return EitherArchive::Failed(FailedArchive::new(looked));
    }
    if looked.is_compressed() {
        EitherArchive::Packed(PackedArchive::new(alloc, looked))
    } else {
        EitherArchive::Plain(PlainArchive::new(alloc, looked))
    }
}
