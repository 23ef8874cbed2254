//! Archives of either form.

use crate::archive::Archive;
use crate::placed_record::PlacedRecord;
use capture_core::{BlockStart, CaptureFault, Fault, Head, HeldLine, Types, Verdict};

/// An archive that keeps its records one after another, or one whose records are members of gzip,
/// or one whose input failed before that was known.
#[derive(Drop)]
pub enum EitherArchive<P, Q, F> {
    Plain(P),
    Packed(Q),
    Failed(F),
}

impl<P: Archive, Q: Archive, F: Archive> Archive for EitherArchive<P, Q, F> {
    ghost use Rattle.archives.specs.Either.{either_state};

    ghost state = { either_state P.state Q.state F.state };

    fn next_record(&mut self) -> Result<Option<PlacedRecord>, Fault> {
        match self {
            EitherArchive::Plain(archive) => archive.next_record(),
            EitherArchive::Packed(archive) => archive.next_record(),
            EitherArchive::Failed(archive) => archive.next_record(),
        }
    }

    fn next_verdict(&mut self) -> Result<Option<(PlacedRecord, Verdict)>, Fault> {
        match self {
            EitherArchive::Plain(archive) => archive.next_verdict(),
            EitherArchive::Packed(archive) => archive.next_verdict(),
            EitherArchive::Failed(archive) => archive.next_verdict(),
        }
    }

    fn next_capture(
        &mut self,
        front: &mut BlockStart,
        name: &str,
        types: Types,
    ) -> Result<Option<(PlacedRecord, Option<HeldLine>)>, CaptureFault> {
        match self {
            EitherArchive::Plain(archive) => archive.next_capture(front, name, types),
            EitherArchive::Packed(archive) => archive.next_capture(front, name, types),
            EitherArchive::Failed(archive) => archive.next_capture(front, name, types),
        }
    }

    fn recycle(&mut self, head: Head) {
        match self {
            EitherArchive::Plain(archive) => archive.recycle(head),
            EitherArchive::Packed(archive) => archive.recycle(head),
            EitherArchive::Failed(archive) => archive.recycle(head),
        }
    }
}
