//! The opening of archives and indexes by name.
ghost use Rattle.std.specs.Prelude.{◌≡◌, ℕ, List, Option, MatchResult, map};
ghost use Rattle.command_line.specs.Words.{texts};
ghost use Rattle.archives.specs.State.{ToldArchive};
ghost use Rattle.tasks.specs.Opening.{IsAny, IsPlain, IsUnopened, IsUnopenedIndex};
ghost use Rattle.tasks.specs.Opening.{AreUnopenedIndexes, OpensAs};

use index_core::{AnyArchive, Fetch, PlainArchive, open};
use outcomes::Outcome;
use query_core::{AnswerFault, RememberingSource, Source};
use std::alloc::Global;
use warc_core::Input;

/// An archive over an input of which nothing was read.
pub trait ArchiveOver<I>: Fetch + Drop {
    /// How an archive over any input may be.
    ghost may_be: { ToldArchive → Type 0 };

    /// Creates the archive. If memory or the input fails, its first call says so.
    fn over(alloc: Global, input: I) -> Self
        ensures { OpensAs may_be (Self.state result) };
}

impl<I: Input + Drop> ArchiveOver<I> for PlainArchive<I> {
    ghost may_be = { IsPlain };

    fn over(alloc: Global, input: I) -> PlainArchive<I> {
        PlainArchive::new(alloc, input)
    }
}

impl<I: Input + Drop> ArchiveOver<I> for AnyArchive<I> {
    ghost may_be = { IsAny };

    fn over(alloc: Global, input: I) -> AnyArchive<I> {
        open(alloc, input)
    }
}

/// What opens archives and indexes by name. The contracts of the commands are stated over the bytes
/// that it opens.
pub trait Opener {
    /// An archive.
    type Archive: Fetch + Drop;

    /// An index.
    type Index: Source + Drop;

    /// Standard input.
    type Lines: Input + Drop;

    /// That the archive of a name may be so: its form, and its bytes if they are known.
    ghost tells_archive: { Self → List ℕ → ToldArchive → Type 0 };

    /// The bytes of the index of a name, if they are known.
    ghost index_bytes: { Self → List ℕ → Option (List ℕ) };

    /// That standard input may have these bytes, if they are known.
    ghost tells_input: { Self → Option (List ℕ) → Type 0 };

    /// That the archive of a name couldn't be opened.
    ghost archive_failed: { Self → List ℕ → Type 0 };

    /// That the index of a name couldn't be opened, or its size couldn't be determined.
    ghost index_failed: { Self → List ℕ → Type 0 };

    /// Opens the archive of this name; `-` is standard input. Reports on standard error that it
    /// can't be opened.
    fn open_archive(&self, name: &str) -> Result<Self::Archive, Outcome>
        ensures { MatchResult result
            (λ archive. OpensAs (tells_archive self.now name.now) (Self.Archive.state archive))
            (IsUnopened (archive_failed self.now name.now)) };

    /// Opens the index of this name. Reports on standard error that it can't be opened, or that its
    /// size can't be determined.
    fn open_index(&self, name: &str) -> Result<Self::Index, Outcome>
        ensures { MatchResult result
            (λ index. Self.Index.text index ≡ index_bytes self.now name.now)
            (IsUnopenedIndex (index_failed self.now name.now)) };

    /// Returns standard input.
    fn input(&self) -> Self::Lines
        ensures { tells_input self.now (Self.Lines.remaining result) };
}

/// Opens the indexes of these names, in their order. Returns the outcome of the first that can't be
/// opened, if there is one.
pub fn open_indexes<F: Opener>(
    alloc: Global,
    files: &F,
    names: &[String],
) -> Result<Vec<F::Index>, Outcome>
    ensures { MatchResult result
        (λ indexes.
        map F.Index.text indexes.items ≡ map (F.index_bytes files.now) (texts names.now))
        (AreUnopenedIndexes (F.index_failed files.now) (texts names.now)) }
{
    let mut indexes = Vec::new(alloc);
    for name in names {
        let index = files.open_index(name)?;
        if indexes.push(index).is_err() {
            return Err(Outcome::Answer(AnswerFault::Memory));
        }
    }
    Ok(indexes)
}

/// The bytes that are remembered of all indexes of a conversation together.
const REMEMBERED: usize = 8_388_608;

/// Opens the indexes of these names so, for many searches: each remembers the lines at which their
/// first steps look.
pub fn open_remembering<F: Opener>(
    alloc: Global,
    files: &F,
    names: &[String],
) -> Result<Vec<RememberingSource<F::Index>>, Outcome>
    ensures { MatchResult result
        (λ indexes.
        map (λ index. index.text) indexes.items ≡ map (F.index_bytes files.now) (texts names.now))
        (AreUnopenedIndexes (F.index_failed files.now) (texts names.now)) }
{
    let room = REMEMBERED / names.len().max(1);
    let mut indexes = Vec::new(alloc);
    for name in names {
        let index = files.open_index(name)?;
        if indexes
            .push(RememberingSource::new(alloc, index, room))
            .is_err()
        {
            return Err(Outcome::Answer(AnswerFault::Memory));
        }
    }
    Ok(indexes)
}
