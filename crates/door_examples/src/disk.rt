//! The tasks of the command line over the files of a disk that returns what was written, and that
//! nobody changes meanwhile.
ghost use Rattle.std.specs.List.{AllByRecursion};
ghost use Rattle.std.specs.Prelude.{◌≡◌, ℕ, List, Some};
ghost use Rattle.cdxj_core.specs.declared.limit.TheConstants.{LINE_LIMIT};
ghost use Rattle.cdxj_core.specs.Indexes.{IsIndex};
ghost use Rattle.cdxj_core.specs.Members.{Member};
ghost use Rattle.command_line.specs.Commands.{view};
ghost use Rattle.door_examples.specs.Archives.{a_archive};
ghost use Rattle.door_examples.specs.Shelf.{WritesOfShelf, query_line};
ghost use Rattle.door_examples.specs.Texts.{a_line};
ghost use Rattle.index_core.specs.OneText.{HasFront};
ghost use Rattle.tasks.specs.OneText.{indexes_of};
ghost use Rattle.tasks.specs.OpeningLaws.{OpensAllFirst};

use cdxj_core::index_has_one_list_of_members;
use command_line::Task;
use index_core::{
    FromFile, PlainArchive, Positioned, archive_has_one_list_of_captures,
    one_thing_stands_at_an_offset, plain_archive_is_its_records,
};
use query_core::{
    AnswerFault, FileSource, FromRead, Output, ReadAt, pages_write_one_text,
    replies_over_indexes_are_one,
};
use scan_core::scan_writes_one_text;
use std::alloc::Global;
use std::io::Cursor;
use std::rt::Runtime;
use tasks::{
    Console, Opener, Outcome, done_tasks_write_one_text, failed_tasks_leave_a_front, perform,
};
use warc_core::laws::one_reading;

/// A disk: the file of a name, once it is opened, is a stream of its bytes, and is read at any
/// offset.
pub trait Disk {
    ghost use Rattle.std.specs.Prelude.{◌≡◌, List, ℕ, Some, IfOk};

    /// An open file.
    type File: Positioned + ReadAt + Drop;

    /// The bytes of the file of a name.
    ghost bytes_of: { Self → List ℕ → List ℕ };

    /// Opens the file of this name at its start.
    fn open(&self, name: &str) -> Result<Self::File, Outcome>
        ensures stream { IfOk result (λ file. Self.File.stream file
            ≡ Some (record { position = 0; bytes = bytes_of self.now name.now })) }
        ensures contents { IfOk result (λ file. Self.File.contents file
            ≡ Some (bytes_of self.now name.now)) };
}

/// A disk with archives, one with indexes, and standard input.
#[derive(Drop)]
pub struct DiskFiles<'a, D> {
    pub alloc: Global,
    pub archives: &'a D,
    pub indexes: &'a D,
    pub input: &'a [u8],
}

impl<'a, D: Disk> Opener for DiskFiles<'a, D> {
    ghost use Rattle.std.specs.Prelude.{◌≡◌, ⊤, Some};
    ghost use Rattle.index_core.specs.Packing.{Plain};

    type Archive = PlainArchive<FromFile<D::File>>;

    type Index = FileSource<D::File>;

    type Lines = FromRead<&'a [u8]>;

    ghost tells_archive = { λ files name told. told
        ≡ record { packing = Plain; bytes = Some (D.bytes_of files.archives.now name) } };

    ghost index_bytes = { λ files name. Some (D.bytes_of files.indexes.now name) };

    ghost tells_input = { λ files told. told ≡ Some files.input.now };

    ghost archive_failed = { λ _ _. ⊤ };

    ghost index_failed = { λ _ _. ⊤ };

    fn open_archive(&self, name: &str) -> Result<Self::Archive, Outcome> {
        let Ok(file) = self.archives.open(name) else {
            return Err(Outcome::CannotOpen);
        };
        match FromFile::new(file) {
            Ok(input) => Ok(PlainArchive::new(self.alloc, input)),
            Err(_) => Err(Outcome::CannotOpen),
        }
    }

    fn open_index(&self, name: &str) -> Result<Self::Index, Outcome> {
        let Ok(file) = self.indexes.open(name) else {
            return Err(Outcome::CannotOpen);
        };
        match FileSource::new(file) {
            Ok(source) => Ok(source),
            Err(_) => Err(Outcome::Answer(AnswerFault::Read(0))),
        }
    }

    fn input(&self) -> FromRead<&'a [u8]> {
        FromRead::new(self.input)
    }
}

/// A disk in memory, on which all names are those of one file.
#[derive(Drop)]
pub struct MemoryDisk<'a> {
    pub bytes: &'a [u8],
}

impl<'a> Disk for MemoryDisk<'a> {
    type File = Cursor<&'a [u8]>;

    ghost bytes_of = { λ disk _. disk.bytes.now };

    fn open(&self, name: &str) -> Result<Cursor<&'a [u8]>, Outcome> {
        let _ = name;
        Ok(Cursor::new(self.bytes))
    }
}

/// Performs a task over the files of two disks. If these are the archive, the index and the input
/// of the examples, and the task ends as done, it has written the text that the examples say to an
/// output whose bytes are known.
pub fn perform_on_disk<R: Runtime + AllocGlobal, D: Disk, O: Output>(
    console: &Console<R>,
    files: &DiskFiles<'_, D>,
    task: &Task,
    out: &mut O,
) -> Outcome
    ensures { D.bytes_of files.now.archives.now ≡ (λ _. a_archive)
        → D.bytes_of files.now.indexes.now ≡ (λ _. a_line) → files.now.input.now ≡ query_line
        → result ≡ Outcome.Done
        → (before after : List ℕ) → O.written out.old ≡ Some before → O.written out.new ≡ Some after
        → WritesOfShelf (view task.now) before after }
{
    one_reading();
    plain_archive_is_its_records();
    one_thing_stands_at_an_offset();
    archive_has_one_list_of_captures();
    index_has_one_list_of_members();
    pages_write_one_text();
    replies_over_indexes_are_one();
    scan_writes_one_text();
    perform(console, files, task, out)
}

/// Performs a task over the files of two disks, and again with another output. If both end as done,
/// and the files that the task reads as indexes are indexes, both have written the same bytes. If
/// only the first does, of a task that opens all its files first, the second has written a front of these.
pub fn perform_twice<R: Runtime + AllocGlobal, D: Disk, O: Output>(
    console: &Console<R>,
    files: &DiskFiles<'_, D>,
    task: &Task,
    out: &mut O,
    other: &mut O,
) -> (Outcome, Outcome)
    ensures same { AllByRecursion (λ name. (members : List Member)
        × IsIndex LINE_LIMIT (D.bytes_of files.now.indexes.now name) members)
        (indexes_of (view task.now))
        → result.0 ≡ Outcome.Done → result.1 ≡ Outcome.Done
        → (before : List ℕ) → O.written out.old ≡ Some before → O.written other.old ≡ Some before
        → O.written out.new ≡ O.written other.new }
    ensures front { AllByRecursion (λ name. (members : List Member)
        × IsIndex LINE_LIMIT (D.bytes_of files.now.indexes.now name) members)
        (indexes_of (view task.now)) → OpensAllFirst (view task.now) → result.0 ≡ Outcome.Done
        → (before : List ℕ) → O.written out.old ≡ Some before → O.written other.old ≡ Some before
        → HasFront before (O.written out.new) (O.written other.new) }
{
    done_tasks_write_one_text::<DiskFiles<'_, D>, O>(files);
    failed_tasks_leave_a_front::<DiskFiles<'_, D>, O>(files);
    let first = perform(console, files, task, out);
    (first, perform(console, files, task, other))
}
