//! The fetching of a record of a compressed archive.
ghost use Rattle.std.specs.Prelude.{◌≡◌, drop, option_map, IfErr};
ghost use Rattle.warc_core.specs.declared.fault.Cause.TheVariants.{Memory};
ghost use Rattle.warc_core.specs.declared.next.TheConstants.{HEAD_LIMIT};
ghost use Rattle.capture_core.specs.declared.fault.CaptureFault.TheVariants.{Archive};
ghost use Rattle.index_core.specs.declared.fault.IndexFault.TheVariants.{Capture};
ghost use Rattle.archives.specs.PackedState.{packed_state};
ghost use Rattle.archives.specs.Packing.{Packed};
ghost use Rattle.archives.specs.State.{IsUnread};
ghost use Rattle.index_core.specs.Counting.{CountsIndex, CountsIndexWrite};
ghost use Rattle.index_core.specs.Fetching.{IsFetchFault};
ghost use Rattle.index_core.specs.FetchingIn.{FetchesMember, IsUnwrittenBy};
ghost use Rattle.index_core.specs.OneRecord.{WritesOneRecord};

use crate::fault::IndexFault;
use crate::fetch::Fetch;
use crate::member_fetching::{Fetched, get_member};
use archives::{PackedArchive, PackedFile};
use std::mem;
use warc_core::{Cause, Fault, Input, Output};

/// Writes the record of the member that begins at an offset of a file of which nothing was read.
/// With a length, the member has it.
fn get_packed<I: Input + Drop, O: Output>(
    file: &mut PackedFile<I>,
    asked: Option<u64>,
    offset: u64,
    out: &mut O,
) -> Result<u64, IndexFault>
    requires { IsUnread (packed_state file.old) }
    ensures fetches { FetchesMember HEAD_LIMIT asked offset
        (option_map (drop offset) (packed_state file.old).ahead) result (O.written out.old)
        (O.written out.new) }
    ensures record { WritesOneRecord HEAD_LIMIT result (O.written out.old)
        (O.written out.new) }
    ensures refusals { IfErr result IsFetchFault }
    ensures unwritten { IfErr result (λ fault. IsUnwrittenBy Packed asked offset fault
        → out.new ≡ out.old) }
    ensures reads { CountsIndex result (packed_state file.old).failures
        (packed_state file.new).failures }
    ensures writes { CountsIndexWrite result (O.failures out.old) (O.failures out.new) }
{
    match mem::replace(file, PackedFile::Away) {
        PackedFile::Ready(members, reader) => {
            let mut reader = reader;
            let Fetched { members, result } = get_member(members, &mut reader, asked, offset, out);
            *file = PackedFile::Ready(members, reader);
            result
        }
        PackedFile::NoMemory(input) => {
            *file = PackedFile::NoMemory(input);
            Err(no_memory(offset))
        }
        PackedFile::Away => Err(no_memory(offset)),
    }
}

/// The fault for memory that couldn't be allocated, where a record was to be read.
fn no_memory(offset: u64) -> IndexFault
    ensures { result ≡ Capture (Archive (record { offset = offset; cause = Memory })) }
{
    IndexFault::from(Fault {
        offset,
        cause: Cause::Memory,
    })
}

impl<I: Input + Drop> Fetch for PackedArchive<I> {
    /// The file is read to the end of the member at the offset. `NoRecord` is returned if no member
    /// begins there, or one without text. The member's own fault comes before that of its record.
    fn get<O: Output>(&mut self, offset: u64, out: &mut O) -> Result<u64, IndexFault> {
        get_packed(&mut self.file, None, offset, out)
    }

    /// `NoRecord` is also returned for a member of another length, whose record was then written.
    fn get_at<O: Output>(
        &mut self,
        offset: u64,
        length: u64,
        out: &mut O,
    ) -> Result<u64, IndexFault> {
        get_packed(&mut self.file, Some(length), offset, out)
    }
}
