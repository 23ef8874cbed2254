//! The indexer.
use crate::captures::add_captures;
use crate::fault::IndexFault;
use crate::index_lines::put_index;
use crate::names::{Names, is_name};
use archives::Archive;
use capture_core::{BlockStart, HeldLine, Types};
use std::alloc::Global;
use std::fmt;
use std::marker::Model;
use warc_core::Output;

/// Collects the captures of archives, and writes them as an index.
#[derive(Drop)]
pub struct Indexer {
    alloc: Global,
    types: Types,
    names: Names,
    captures: Vec<HeldLine>,
    /// The buffer for the start of a block, which serves all records.
    front: BlockStart,
}

impl fmt::Debug for Indexer {
    fn fmt<W: fmt::Write>(&self, f: &mut fmt::Formatter<W>) -> fmt::Result {
        f.debug_struct("Indexer")
            .field("types", &self.types)
            .finish_non_exhaustive()
    }
}

impl Model for Indexer {
    ghost use Rattle.cdxj_core.specs.declared.limit.TheConstants.{LINE_LIMIT};
    ghost use Rattle.index_core.specs.Indexing.{Held, AreSound};

    ghost Value = { Held };

    ghost view = { λ i. record { types = i.types; names = i.names; captures = i.captures.items } };

    ghost invariant = { λ i. AreSound LINE_LIMIT i.names i.captures.items };
}

impl Indexer {
    ghost use Rattle.std.specs.Prelude.{◌≡◌, ◌↔◌, true, [], length, map, Err, IfOk, IfErr};
    ghost use Rattle.cdxj_core.specs.declared.limit.TheConstants.{LINE_LIMIT};
    ghost use Rattle.cdxj_core.specs.Indexes.{IsIndex};
    ghost use Rattle.cdxj_core.specs.Members.{entry_member};
    ghost use Rattle.devices.specs.Writing.{WritesText};
    ghost use Rattle.capture_core.specs.Types.{includes};
    ghost use Rattle.capture_core.specs.CaptureAnswer.{usual_limits};
    ghost use Rattle.archives.specs.Packing.{form_of};
    ghost use Rattle.archives.specs.State.{IsUnread};
    ghost use Rattle.index_core.specs.Adding.{Adds, IsAddFault, IsRefusal};
    ghost use Rattle.index_core.specs.Counting.{CountsIndex, CountsIndexWrite};
    ghost use Rattle.index_core.specs.Indexing.{IsWriteFault, IsName, is_among, index_text};
    ghost use Rattle.index_core.specs.Indexing.{in_places, AreSound};

    /// Creates an indexer of records of these types, which holds nothing. It takes no memory.
    pub fn new(alloc: Global, types: Types) -> Indexer
        ensures { result ≡ record { types = types; names = []; captures = [] } }
    {
        Indexer {
            alloc,
            types,
            names: Names::new(alloc),
            captures: Vec::new(alloc),
            front: BlockStart::new(alloc),
        }
    }

    /// Adds the captures of an archive's records of the indexer's types under the archive's name,
    /// of 1 to 255 bytes. Nothing was read of the archive before. Returns the number of captures
    /// added.
    ///
    /// Errors are `BadName`, `DuplicateName` for a name that an earlier call has kept, and `Memory`
    /// if the name can't be kept. After these, nothing was read and nothing has changed. Any other
    /// error is `Capture`. After it, the name is kept, and with it the captures of the whole
    /// records that end at or before the fault's offset, and nothing else.
    pub fn add<A: Archive>(&mut self, name: &str, archive: &mut A) -> Result<u64, IndexFault>
        requires { IsUnread (A.state archive.old) }
        ensures bad { (result ≡ Err IndexFault.BadName) ↔ ¬ (IsName name.now) }
        ensures duplicate { (result ≡ Err IndexFault.DuplicateName)
            ↔ (IsName name.now × (is_among self.old.names name.now ≡ true)) }
        ensures adds { Adds (includes self.old.types) usual_limits
            (form_of (A.state archive.old).packing) name.now (A.state archive.old).ahead self.old
            self.new result }
        ensures refusals { IfErr result IsAddFault }
        ensures unread { IfErr result (λ fault. IsRefusal fault → archive.new ≡ archive.old) }
        ensures failures { CountsIndex result (A.state archive.old).failures
            (A.state archive.new).failures }
    {
        if !is_name(name) {
            return Err(IndexFault::BadName);
        }
        if self.names.contains(name) {
            return Err(IndexFault::DuplicateName);
        }
        match self.names.add(self.alloc, name) {
            Ok(()) => {}
            Err(_) => return Err(IndexFault::Memory),
        }
        Ok(add_captures(
            &mut self.front,
            &mut self.captures,
            name,
            self.types,
            archive,
        )?)
    }

    /// Forgets the captures that are held. Names that were added stay in use.
    pub fn forget_captures(&mut self)
        ensures { self.new ≡ record self.old { captures = [] } }
    {
        self.captures.clear();
    }

    /// Writes the index: a line for each capture that is held, in the order of places. Returns the
    /// number of lines.
    ///
    /// Errors are `Memory`, and `Write` at the output's first failure. After an error, the first
    /// lines may have been written.
    pub fn write<O: Output>(&self, out: &mut O) -> Result<u64, IndexFault>
        ensures lines { WritesText result (O.written out.old) (O.written out.new)
            (index_text self.now.captures) }
        ensures index { IsIndex LINE_LIMIT (index_text self.now.captures)
            (map entry_member (in_places self.now.captures)) }
        ensures number { IfOk result (λ n. n ≡ length (in_places self.now.captures)) }
        ensures sound { AreSound LINE_LIMIT self.now.names self.now.captures }
        ensures all { length (in_places self.now.captures) ≡ length self.now.captures }
        ensures refusals { IfErr result IsWriteFault }
        ensures failures { CountsIndexWrite result (O.failures out.old) (O.failures out.new) }
    {
        put_index(self.alloc, out, &self.captures)
    }
}
