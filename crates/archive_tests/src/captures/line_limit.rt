//! How long the line of a capture is.
use super::next_capture;
use capture_core::CaptureFault;
use fixtures::{RESOURCE, RESPONSE, joined};
use std::alloc::Global;
use std::test::Fail;
use warc_core::{Reader, Slice};

/// If the line of the first record's capture is too long, returns the offset in the fault, and the start of the record
/// that is read after it.
fn too_long(alloc: Global, archive: &[u8], name: &str) -> Result<Option<(u64, u64)>, Fail> {
    let mut input = Slice::new(archive);
    let mut reader = Reader::new(alloc)?;
    match next_capture(alloc, &mut reader, &mut input, name) {
        Ok(_captured) => Ok(None),
        Err(CaptureFault::LineTooLong(offset)) => {
            Ok(reader.next(&mut input)?.map(|head| (offset, head.start())))
        }
        Err(fault) => Err(fault)?,
    }
}

/// How many letters a name has, and whether the line is then too long.
const LENGTHS: &[(usize, bool)] = &[
    (1_048_576, false),
    (16_777_024, false),
    (16_777_025, true),
    (16_777_216, true),
];

/// Under a name of six letters, the line has 198 bytes. The second record can be read after a line that is too long.
#[test]
fn lines_of_captures_are_limited(rt: HostRuntime) -> Result<(), Fail> {
    let archive = joined(rt.alloc(), &[RESPONSE, RESOURCE])?;
    for (letters, is_too_long) in LENGTHS {
        let name = "a".repeat(rt.alloc(), *letters)?;
        let found = too_long(rt.alloc(), &archive, name.as_str())?;
        assert!(rt; found == is_too_long.then_some((0, 264)), "{letters}");
    }
    Ok(())
}
