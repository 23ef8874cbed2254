//! Indexes of archives.
mod faults;

use crate::reports::settled;
use capture_core::Types;
use fixtures::{
    METADATA, RESOURCE, RESOURCE_LINE, RESPONSE, RESPONSE_LINE, Refused, damaged_archive, joined,
    repeated,
};
use index_core::{IndexFault, Indexer, PlainArchive};
use std::alloc::Global;
use std::test::Fail;
use warc_core::{Cause, Fault, Gather, Slice};

/// Adds an archive.
fn added(
    alloc: Global,
    indexer: &mut Indexer,
    name: &str,
    archive: &[u8],
) -> Result<Result<u64, Fault>, Refused> {
    let mut archive = PlainArchive::new(alloc, Slice::new(archive));
    settled(indexer.add(name, &mut archive))
}

/// Returns `true` if these lines are written, and whether there are this many.
pub fn writes(
    alloc: Global,
    indexer: &Indexer,
    lines: &[u8],
    number: u64,
) -> Result<bool, Refused> {
    let mut out = Gather::new(alloc);
    Ok(settled(indexer.write(&mut out))? == Ok(number) && out.bytes() == lines)
}

/// Returns `true` if the archive has this result, and its index these lines.
fn indexes(
    alloc: Global,
    archive: &[u8],
    answer: Result<u64, Fault>,
    lines: &[u8],
    number: u64,
) -> Result<bool, Refused> {
    let mut indexer = Indexer::new(alloc, Types::usual());
    Ok(
        added(alloc, &mut indexer, "b.warc", archive)? == answer
            && writes(alloc, &indexer, lines, number)?,
    )
}

/// Returns `true` if the name is refused with this fault, before anything is read.
fn refuses(alloc: Global, indexer: &mut Indexer, name: &str, fault: IndexFault) -> bool {
    indexer.add(name, &mut PlainArchive::new(alloc, Slice::new(RESPONSE))) == Err(fault)
}

/// Returns `true` if the damaged archive, followed by this, has the captures of its two whole records, and this fault.
fn indexes_to_fault(alloc: Global, behind: &[u8], cause: Cause) -> Result<bool, Refused> {
    let archive = joined(alloc, &[&damaged_archive(alloc)?, behind])?;
    let lines = joined(alloc, &[RESPONSE_LINE, RESOURCE_LINE])?;
    let fault = Fault { offset: 448, cause };
    indexes(alloc, &archive, Err(fault), &lines, 2)
}

#[test]
fn indexes_have_the_captures_of_whole_records(rt: HostRuntime) -> Result<(), Refused> {
    let alloc = rt.alloc();
    assert!(rt; indexes(alloc, b"", Ok(0), b"", 0)?);
    assert!(rt; indexes(alloc, RESPONSE, Ok(1), RESPONSE_LINE, 1)?);
    assert!(rt; indexes_to_fault(alloc, b"", Cause::ShortBlock)?);
    assert!(rt; indexes_to_fault(alloc, RESOURCE, Cause::Closing)?);
    Ok(())
}

/// A name may be used once, and has 1 to 255 bytes.
#[test]
fn an_indexer_takes_each_name_once(rt: HostRuntime) -> Result<(), Fail> {
    let alloc = rt.alloc();
    let long = repeated(alloc, b"a", 256)?;
    let long = str::from_utf8(long.as_slice())?;
    let mut indexer = Indexer::new(alloc, Types::usual());
    assert!(rt; added(rt.alloc(), &mut indexer, "b.warc", RESPONSE)? == Ok(1));
    assert!(rt; refuses(rt.alloc(), &mut indexer, "", IndexFault::BadName));
    assert!(rt; refuses(rt.alloc(), &mut indexer, long, IndexFault::BadName));
    assert!(rt;
        refuses(
            rt.alloc(),
            &mut indexer,
            "b.warc",
            IndexFault::DuplicateName
        )
    );
    assert!(rt; writes(alloc, &indexer, RESPONSE_LINE, 1)?);
    Ok(())
}

/// Returns `true` if a capture is added and then forgotten.
fn is_forgotten(alloc: Global, indexer: &mut Indexer) -> Result<bool, Refused> {
    let count = added(alloc, indexer, "a.warc", RESOURCE)?;
    indexer.forget_captures();
    Ok(count == Ok(1) && writes(alloc, indexer, b"", 0)?)
}

/// Each archive gets its own index, and its name stays used.
#[test]
fn captures_are_forgotten_and_names_are_not(rt: HostRuntime) -> Result<(), Fail> {
    let alloc = rt.alloc();
    let mut indexer = Indexer::new(alloc, Types::usual());
    assert!(rt; is_forgotten(alloc, &mut indexer)?);
    assert!(rt;
        refuses(
            rt.alloc(),
            &mut indexer,
            "a.warc",
            IndexFault::DuplicateName
        )
    );
    assert!(rt; added(rt.alloc(), &mut indexer, "b.warc", RESPONSE)? == Ok(1));
    assert!(rt; writes(alloc, &indexer, RESPONSE_LINE, 1)?);
    Ok(())
}

/// The metadata record's line.
const METADATA_LINE: &[u8] =
    b"com,example)/r 20160919172024 {\"url\": \"http://example.com/r\", \"mime\": \"text/plain\", \"status\": \"-\", \"digest\": \"VGMT4NSHA2AWVOR6EVYXQUGCNSONBWE5\", \"length\": \"184\", \"offset\": \"0\", \"filename\": \"m.warc\"}\n";

/// Texts of types, an archive, and its index.
const CHOSEN: &[(&str, &[u8], &[u8])] = &[
    ("response,resource,revisit", METADATA, b""),
    ("metadata", METADATA, METADATA_LINE),
    ("conversion,metadata", METADATA, METADATA_LINE),
    ("metadata", RESPONSE, b""),
];

/// Each index has one line or none.
#[test]
fn an_indexer_takes_records_of_its_types(rt: HostRuntime) -> Result<(), Fail> {
    for (types, archive, lines) in CHOSEN {
        let chosen = Types::read(types).ok_or("no set of types")?;
        let number = u64::from(!lines.is_empty());
        let mut indexer = Indexer::new(rt.alloc(), chosen);
        assert!(rt;
            added(rt.alloc(), &mut indexer, "m.warc", archive)? == Ok(number),
            "{types}"
        );
        assert!(rt; writes(rt.alloc(), &indexer, lines, number)?, "{types}");
    }
    Ok(())
}
