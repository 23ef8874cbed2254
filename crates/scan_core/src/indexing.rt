//! Archives that are indexed in memory.
ghost use Rattle.std.specs.Prelude.{◌≡◌, ◌∷◌, ◌++◌, [], length, map, IfOk, IfErr, OnOk};
ghost use Rattle.std.specs.Prelude.{string_bytes};
ghost use Rattle.capture_core.specs.Types.{includes};
ghost use Rattle.cdxj_core.specs.declared.limit.TheConstants.{LINE_LIMIT};
ghost use Rattle.cdxj_core.specs.Indexes.{IsIndex};
ghost use Rattle.devices.specs.Gathered.{gathered};
ghost use Rattle.index_core.specs.Counting.{CountsIndex};
ghost use Rattle.std.specs.List.{AllByRecursion};
ghost use Rattle.archives.specs.State.{IsUnread, told_of};
ghost use Rattle.scan_core.specs.Archives.{HasIndex, HaveIndexes, HaveLines, IsFaultOfArchive};
ghost use Rattle.scan_core.specs.Archives.{IsNameFault, index_members};
ghost use Rattle.scan_core.specs.Failures.{CountsInputs};
ghost use Rattle.scan_core.specs.Scanning.{LeavesUnread, IsArchiveFault};

use crate::fault::ScanFault;
use crate::named::Named;
use capture_core::Types;
use devices::Gather;
use index_core::{Archive, IndexFault, Indexer};
use std::alloc::Global;

/// Returns the index of the captures that an indexer holds.
fn index_of(alloc: Global, indexer: &Indexer) -> Result<Gather, IndexFault>
    ensures index { IfOk result (λ index.
        IsIndex LINE_LIMIT (gathered index) (index_members indexer.now.captures)) }
    ensures lines { HaveLines indexer.now.captures }
    ensures memory { IfErr result (λ fault. fault ≡ IndexFault.Memory) }
{
    let mut index = Gather::new(alloc);
    match indexer.write(&mut index) {
        Ok(_count) => Ok(index),
        Err(_fault) => Err(IndexFault::Memory),
    }
}

/// Indexes an archive. The indexer holds no captures before or after, and the names of the archives
/// up to this one.
fn index_archive<A: Archive>(
    alloc: Global,
    indexer: &mut Indexer,
    archive: &mut Named<A>,
) -> Result<Gather, IndexFault>
    requires empty { indexer.old.captures ≡ [] }
    requires unread { IsUnread (A.state archive.old.archive) }
    ensures name { archive.new.name ≡ archive.old.name }
    ensures held { OnOk result
        (indexer.new ≡ record indexer.old
        { names = indexer.old.names ++ string_bytes archive.old.name ∷ []; captures = [] }) }
    ensures index { IfOk result (λ index. HasIndex (includes indexer.old.types) indexer.old.names
        (string_bytes archive.old.name) (told_of (A.state archive.old.archive)) (gathered index)) }
    ensures refused { IfErr result
        (IsFaultOfArchive (includes indexer.old.types) indexer.old.names
        (string_bytes archive.old.name) (told_of (A.state archive.old.archive))) }
    ensures unread { IfErr result (λ fault. IsNameFault fault → archive.new ≡ archive.old) }
    ensures failures { CountsIndex result (A.state archive.old.archive).failures
        (A.state archive.new.archive).failures }
{
    indexer.add(archive.name.as_str(), &mut archive.archive)?;
    let index = index_of(alloc, indexer);
    indexer.forget_captures();
    index
}

/// Indexes the archives' records of these types, each archive into its own index.
/// Errors are the first fault of an archive, or of its name.
pub fn index_archives<A: Archive>(
    alloc: Global,
    inputs: &mut [Named<A>],
    types: Types,
) -> Result<Vec<Gather>, ScanFault>
    requires { AllByRecursion (λ n. IsUnread (A.state n.archive)) inputs.old }
    ensures names { map (λ n. string_bytes n.name) inputs.new
        ≡ map (λ n. string_bytes n.name) inputs.old }
    ensures indexes { IfOk result (λ indexes. HaveIndexes (includes types)
        (map (λ n. string_bytes n.name) inputs.old)
        (map (λ n. told_of (A.state n.archive)) inputs.old) (map gathered indexes.items)) }
    ensures number { IfOk result (λ indexes. length indexes.items ≡ length inputs.old) }
    ensures refused { IfErr result
        (IsArchiveFault (includes types) (map (λ n. string_bytes n.name) inputs.old)
        (map (λ n. told_of (A.state n.archive)) inputs.old)) }
    ensures unread { IfErr result (LeavesUnread inputs.old inputs.new) }
    ensures failures { CountsInputs result (map (λ n. (A.state n.archive).failures) inputs.old)
        (map (λ n. (A.state n.archive).failures) inputs.new) }
{
    let mut indexer = Indexer::new(alloc, types);
    let mut indexes = Vec::new(alloc);
    for i in 0..inputs.len() {
        let index = match index_archive(alloc, &mut indexer, &mut inputs[i]) {
            Ok(index) => index,
            Err(fault) => return Err(ScanFault::Archive(i, fault)),
        };
        match indexes.push(index) {
            Ok(()) => {}
            Err(_) => return Err(ScanFault::Archive(i, IndexFault::Memory)),
        }
    }
    Ok(indexes)
}
