//! The captures of an archive, read record by record.
ghost use Rattle.std.specs.Prelude.{◌≡◌, ℕ, ◌<◌, ◌++◌, List, true, length, OnOk, OnErr};
ghost use Rattle.std.specs.Prelude.{option_to_list};
ghost use Rattle.cdxj_core.specs.declared.limit.TheConstants.{LINE_LIMIT};
ghost use Rattle.cdxj_core.specs.Entries.{EntryValue};
ghost use Rattle.capture_core.specs.Types.{includes};
ghost use Rattle.capture_core.specs.CaptureAnswer.{usual_limits};
ghost use Rattle.archives.specs.Captures.{CountsCapture};
ghost use Rattle.archives.specs.Packing.{form_of};
ghost use Rattle.archives.specs.State.{IsUnread};
ghost use Rattle.index_core.specs.Adding.{Gains};
ghost use Rattle.index_core.specs.Indexing.{AreSound, StandBefore, is_among};

use archives::Archive;
use capture_core::{BlockStart, CaptureFault, HeldLine, Types};
use std::alloc::AllocError;
use warc_core::{Cause, Fault};

/// Appends the capture of a record, if it has one.
fn keep(captures: &mut Vec<HeldLine>, captured: Option<HeldLine>) -> Result<(), AllocError>
    ensures ok { OnOk result (captures.new.items ≡ captures.old.items ++ option_to_list captured) }
    ensures err { OnErr result (captures.new.items ≡ captures.old.items) }
{
    match captured {
        None => Ok(()),
        Some(line) => match captures.push(line) {
            Ok(()) => Ok(()),
            Err(_) => Err(AllocError),
        },
    }
}

/// Adds the captures of an archive's records of these types under its name, and returns their
/// number. Nothing was read of the archive before.
///
/// Errors are those of `next_capture`. The captures before the fault were then added.
pub fn add_captures<A: Archive>(
    front: &mut BlockStart,
    captures: &mut Vec<HeldLine>,
    name: &str,
    types: Types,
    archive: &mut A,
) -> Result<u64, CaptureFault>
    requires named { 0 < length name.now }
    requires unread { IsUnread (A.state archive.old) }
    requires unused { StandBefore name.now 0 captures.old.items }
    ensures gains { (gained : List EntryValue) × (captures.new.items ≡ captures.old.items ++ gained)
        × Gains (includes types) usual_limits (form_of (A.state archive.old).packing) name.now
        (A.state archive.old).ahead gained result }
    ensures sound { (names : List (List ℕ)) → is_among names name.now ≡ true
        → AreSound LINE_LIMIT names captures.old.items
        → AreSound LINE_LIMIT names captures.new.items }
    ensures failures { CountsCapture result (A.state archive.old).failures
        (A.state archive.new).failures }
{
    let held = captures.len();
    loop {
        match archive.next_capture(front, name, types) {
            Ok(None) => return Ok((captures.len() - held) as u64),
            Ok(Some((record, captured))) => match keep(captures, captured) {
                Ok(()) => archive.recycle(record.head),
                Err(_) => {
                    return Err(CaptureFault::Archive(Fault {
                        offset: record.place.offset,
                        cause: Cause::Memory,
                    }));
                }
            },
            Err(fault) => return Err(fault),
        }
    }
}
