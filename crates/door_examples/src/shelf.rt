//! The tasks of the command line over files in memory, by `tasks` alone.
ghost use Rattle.std.specs.Prelude.{◌≡◌, Some};
ghost use Rattle.command_line.specs.Commands.{view};
ghost use Rattle.command_line.specs.Words.{texts};
ghost use Rattle.devices.specs.Gathered.{gathered};
ghost use Rattle.door_examples.specs.Archives.{a_archive};
ghost use Rattle.door_examples.specs.Shelf.{RunsOfShelf, WritesOfShelf, query_line};
ghost use Rattle.door_examples.specs.Texts.{a_line};

use cdxj_core::index_has_one_list_of_members;
use command_line::Task;
use index_core::{
    Gather, PlainArchive, Slice, archive_has_one_list_of_captures, one_thing_stands_at_an_offset,
    plain_archive_is_its_records,
};
use query_core::{SliceSource, pages_write_one_text, replies_over_indexes_are_one};
use scan_core::scan_writes_one_text;
use std::alloc::Global;
use std::rt::Runtime;
use tasks::{Console, Opener, Outcome, StandardInput, perform, run_on};
use warc_core::laws::one_reading;

/// An archive, an index and standard input in memory. All names of archives are those of the
/// archive, and all names of indexes those of the index.
#[derive(Drop)]
pub struct Shelf<'a> {
    pub alloc: Global,
    pub archive: &'a [u8],
    pub index: &'a [u8],
    pub input: &'a [u8],
}

impl<'a> Opener for Shelf<'a> {
    ghost use Rattle.std.specs.Prelude.{◌≡◌, Some};
    ghost use Rattle.index_core.specs.Packing.{Plain};

    type Archive = PlainArchive<Slice<'a>>;

    type Index = SliceSource<'a>;

    type Lines = Slice<'a>;

    ghost tells_archive = { λ shelf _ told. told
        ≡ record { packing = Plain; bytes = Some shelf.archive.now } };

    ghost index_bytes = { λ shelf _. Some shelf.index.now };

    ghost tells_input = { λ shelf told. told ≡ Some shelf.input.now };

    ghost archive_failed = { λ _ _. ⊥ };

    ghost index_failed = { λ _ _. ⊥ };

    fn open_archive(&self, name: &str) -> Result<PlainArchive<Slice<'a>>, Outcome> {
        let _ = name;
        Ok(PlainArchive::new(self.alloc, Slice::new(self.archive)))
    }

    fn open_index(&self, name: &str) -> Result<SliceSource<'a>, Outcome> {
        let _ = name;
        Ok(SliceSource::new(self.index))
    }

    fn input(&self) -> Slice<'a> {
        Slice::new(self.input)
    }
}

/// Performs a task over the files of a shelf. If these are the archive, the index and the input of
/// the examples, and the task ends as done, it has written the text that the examples say.
pub fn perform_on_shelf<R: Runtime + AllocGlobal>(
    console: &Console<R>,
    shelf: &Shelf<'_>,
    task: &Task,
    out: &mut Gather,
) -> Outcome
    ensures { shelf.now.archive.now ≡ a_archive → shelf.now.index.now ≡ a_line
        → shelf.now.input.now ≡ query_line → result ≡ Outcome.Done
        → WritesOfShelf (view task.now) (gathered out.old) (gathered out.new) }
{
    one_reading();
    plain_archive_is_its_records();
    one_thing_stands_at_an_offset();
    archive_has_one_list_of_captures();
    index_has_one_list_of_members();
    pages_write_one_text();
    replies_over_indexes_are_one();
    scan_writes_one_text();
    perform(console, shelf, task, out)
}

/// Runs the program with these arguments over the files of a shelf. If these are the archive, the
/// index and the input of the examples, and the exit status is 0, it has written the text that the
/// examples say.
pub fn run_on_shelf<R: Runtime + AllocGlobal>(
    console: &Console<R>,
    shelf: &Shelf<'_>,
    words: &[String],
    out: &mut Gather,
) -> u8
    ensures { shelf.now.archive.now ≡ a_archive → shelf.now.index.now ≡ a_line
        → shelf.now.input.now ≡ query_line → result ≡ 0
        → RunsOfShelf (texts words.now) (gathered out.old) (gathered out.new) }
{
    one_reading();
    plain_archive_is_its_records();
    run_on(console, words, shelf, StandardInput::Other, out)
}
