//! Plain archives: records one after another.

use crate::archive::Archive;
use crate::placed_record::PlacedRecord;
use crate::walk::{next_capture, next_record, next_verdict};
use capture_core::{
    BlockStart, CaptureFault, Fault, Head, HeldLine, Input, Reader, Types, Verdict,
};
use std::alloc::Global;

/// A plain archive: its records stand one after another.
#[derive(Drop)]
pub struct PlainArchive<I> {
    alloc: Global,
    /// Or the fault for memory that couldn't be allocated.
    pub reader: Result<Reader, Fault>,
    pub input: I,
    ghost memory: { (f : Fault) → reader ≡ Err f → f ≡ no_memory },
}

ghost use Rattle.std.specs.Prelude.{◌≡◌, Err};
ghost use Rattle.warc_core.specs.declared.fault.Fault.{Fault};
ghost use Rattle.archives.specs.Plain.{no_memory};

impl<I: Input> PlainArchive<I> {
    ghost use Rattle.archives.specs.Packing.{Plain};
    ghost use Rattle.archives.specs.Plain.{plain_state};
    ghost use Rattle.archives.specs.State.{IsUnread};

    /// Creates an archive of which nothing was read, with a buffer of 65,536 bytes. If there is no
    /// memory for it, the first call says so.
    pub fn new(alloc: Global, input: I) -> PlainArchive<I>
        ensures unread { IsUnread (plain_state result.reader (I.remaining result.input)
            (I.failures result.input)) }
        ensures bytes { (plain_state result.reader (I.remaining result.input)
            (I.failures result.input)).ahead ≡ I.remaining input }
        ensures failures { I.failures result.input ≡ I.failures input }
    {
        PlainArchive {
            alloc,
            reader: Reader::new(alloc),
            input,
        }
    }

    /// Returns the input. Some of its bytes may be held by the archive.
    pub fn input(&self) -> &I
        ensures { result.now ≡ self.now.input }
    {
        &self.input
    }
}

impl<I: Input> Archive for PlainArchive<I> {
    ghost use Rattle.archives.specs.Plain.{plain_state};

    ghost state = { λ a. plain_state a.reader (I.remaining a.input) (I.failures a.input) };

    fn next_record(&mut self) -> Result<Option<PlacedRecord>, Fault> {
        match &mut self.reader {
            Ok(reader) => next_record(reader, &mut self.input),
            Err(fault) => Err(*fault),
        }
    }

    fn next_verdict(&mut self) -> Result<Option<(PlacedRecord, Verdict)>, Fault> {
        match &mut self.reader {
            Ok(reader) => next_verdict(reader, &mut self.input),
            Err(fault) => Err(*fault),
        }
    }

    fn next_capture(
        &mut self,
        front: &mut BlockStart,
        name: &str,
        types: Types,
    ) -> Result<Option<(PlacedRecord, Option<HeldLine>)>, CaptureFault> {
        match &mut self.reader {
            Ok(reader) => next_capture(self.alloc, front, reader, &mut self.input, name, types),
            Err(fault) => Err(CaptureFault::Archive(*fault)),
        }
    }

    fn recycle(&mut self, head: Head) {
        match &mut self.reader {
            Ok(reader) => reader.recycle(head),
            Err(_) => {}
        }
    }
}
