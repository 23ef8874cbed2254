//! Compressed archives: each record is a member of gzip of its own.
ghost use Rattle.std.specs.Prelude.{◌≡◌, [], IfSome};

use crate::archive::Archive;
use crate::member_captures::{Captured, next_capture};
use crate::member_reading::Reading;
use crate::member_records::{next_record, next_verdict};
use crate::placed_record::PlacedRecord;
use capture_core::{
    BlockStart, CaptureFault, Cause, Fault, Head, HeldLine, Input, Reader, Types, Verdict,
};
use crc_32::Crc32;
use gzip_members::{Body, CheckedInput, Members, ReadAhead};
use std::alloc::Global;
use std::mem;

/// A compressed archive: each record is a member of gzip of its own.
#[derive(Drop)]
pub struct PackedArchive<I: Input> {
    alloc: Global,
    pub file: PackedFile<I>,
}

/// The file of a compressed archive.
#[derive(Drop)]
pub enum PackedFile<I: Input> {
    /// Its members, and the reader of what they hold.
    Ready(Members<I>, Reader),
    /// It was not read, since memory couldn't be allocated.
    NoMemory(I),
    /// It is away while a call reads it.
    Away,
}

/// Memory couldn't be allocated for an archive.
const NO_MEMORY: Fault = Fault {
    offset: 0,
    cause: Cause::Memory,
};

/// What a compressed file is read in.
struct Rooms {
    ahead: ReadAhead,
    crc: Crc32,
    body: Body,
    reader: Reader,
}

impl Rooms {
    /// Allocates them, or returns `None` if there is no memory.
    fn new(alloc: Global) -> Option<Rooms>
        ensures ahead { IfSome result (λ r. r.ahead ≡ []) }
        ensures bits { IfSome result (λ r. r.body.bits ≡ 0) }
    {
        let Ok(ahead) = ReadAhead::new(alloc) else {
            return None;
        };
        let crc = Crc32::new(alloc).ok()?;
        let body = Body::new(alloc).ok()?;
        let reader = Reader::new(alloc).ok()?;
        Some(Rooms {
            ahead,
            crc,
            body,
            reader,
        })
    }
}

impl<I: Input> PackedArchive<I> {
    ghost use Rattle.archives.specs.MemberReading.{within_file};
    ghost use Rattle.archives.specs.PackedState.{packed_state};
    ghost use Rattle.archives.specs.State.{IsUnread};

    /// Creates an archive of which nothing was read. It takes some 400 kB, whatever the members
    /// hold. If there is no memory for it, the first call says so.
    // Where it is inlined into `open`, LLVM doesn't end.
    #[inline(never)]
    pub fn new(alloc: Global, input: I) -> PackedArchive<I>
        ensures unread { IsUnread (packed_state result.file) }
        ensures bytes { (packed_state result.file).ahead ≡ within_file 0 (I.remaining input) }
        ensures failures { (packed_state result.file).failures ≡ I.failures input }
    {
        let file = match Rooms::new(alloc) {
            Some(
                Rooms {
                    ahead,
                    crc,
                    body,
                    reader,
                },
            ) => {
                let source = CheckedInput {
                    input,
                    ahead,
                    crc,
                    checksum: 0,
                    passed: 0,
                };
                let members = Members {
                    source,
                    body,
                    is_too_far: false,
                };
                PackedFile::Ready(members, reader)
            }
            None => PackedFile::NoMemory(input),
        };
        PackedArchive { alloc, file }
    }
}

impl<I: Input + Drop> Archive for PackedArchive<I> {
    ghost use Rattle.archives.specs.PackedState.{packed_state};

    ghost state = { λ a. packed_state a.file };

    fn next_record(&mut self) -> Result<Option<PlacedRecord>, Fault> {
        match mem::replace(&mut self.file, PackedFile::Away) {
            PackedFile::Ready(members, reader) => {
                let mut reader = reader;
                let Reading { members, result } = next_record(members, &mut reader);
                self.file = PackedFile::Ready(members, reader);
                result
            }
            PackedFile::NoMemory(input) => {
                self.file = PackedFile::NoMemory(input);
                Err(NO_MEMORY)
            }
            PackedFile::Away => Err(NO_MEMORY),
        }
    }

    fn next_verdict(&mut self) -> Result<Option<(PlacedRecord, Verdict)>, Fault> {
        match mem::replace(&mut self.file, PackedFile::Away) {
            PackedFile::Ready(members, reader) => {
                let mut reader = reader;
                let Reading { members, result } = next_verdict(members, &mut reader);
                self.file = PackedFile::Ready(members, reader);
                result
            }
            PackedFile::NoMemory(input) => {
                self.file = PackedFile::NoMemory(input);
                Err(NO_MEMORY)
            }
            PackedFile::Away => Err(NO_MEMORY),
        }
    }

    fn next_capture(
        &mut self,
        front: &mut BlockStart,
        name: &str,
        types: Types,
    ) -> Result<Option<(PlacedRecord, Option<HeldLine>)>, CaptureFault> {
        match mem::replace(&mut self.file, PackedFile::Away) {
            PackedFile::Ready(members, reader) => {
                let mut reader = reader;
                let Captured { members, result } = next_capture(
                    self.alloc,
                    front,
                    members,
                    &mut reader,
                    name,
                    types,
                );
                self.file = PackedFile::Ready(members, reader);
                result
            }
            PackedFile::NoMemory(input) => {
                self.file = PackedFile::NoMemory(input);
                Err(CaptureFault::Archive(NO_MEMORY))
            }
            PackedFile::Away => Err(CaptureFault::Archive(NO_MEMORY)),
        }
    }

    fn recycle(&mut self, head: Head) {
        match &mut self.file {
            PackedFile::Ready(_, reader) => reader.recycle(head),
            PackedFile::NoMemory(_) => {}
            PackedFile::Away => {}
        }
    }
}
