//! The fetching of a record of an archive of either form.
ghost use Rattle.std.specs.Prelude.{◌≡◌, None, Some, IfErr};
ghost use Rattle.warc_core.specs.declared.next.TheConstants.{HEAD_LIMIT};
ghost use Rattle.archives.specs.State.{IsUnread};
ghost use Rattle.index_core.specs.Counting.{CountsIndex, CountsIndexWrite};
ghost use Rattle.index_core.specs.Fetching.{IsFetchFault};
ghost use Rattle.index_core.specs.FetchingIn.{FetchesIn, IsUnwrittenBy};
ghost use Rattle.index_core.specs.OneRecord.{WritesOneRecord};

use crate::fault::IndexFault;
use archives::Archive;
use warc_core::Output;

/// An archive of which one record is fetched.
pub trait Fetch: Archive {
    /// Writes the record that begins at `offset`, in bytes from the archive's start, and returns
    /// its length in bytes. A record of a plain archive is written as it is stored, and the text of
    /// a member unpacked. Nothing of the archive was read before.
    ///
    /// Errors are `NoRecord` if no record begins there; the archive's fault there, or of a plain
    /// archive before it; the input's failure at the archive's start; and `Write` at the output's
    /// first failure.
    fn get<O: Output>(&mut self, offset: u64, out: &mut O) -> Result<u64, IndexFault>
        requires { IsUnread (Self.state self.old) }
        ensures fetches { FetchesIn (Self.state self.old).packing None offset
            (Self.state self.old).ahead result (O.written out.old) (O.written out.new) }
        ensures record { WritesOneRecord HEAD_LIMIT result (O.written out.old)
            (O.written out.new) }
        ensures refusals { IfErr result IsFetchFault }
        ensures unwritten { IfErr result (λ fault. IsUnwrittenBy (Self.state self.old).packing None
            offset fault → out.new ≡ out.old) }
        ensures reads { CountsIndex result (Self.state self.old).failures
            (Self.state self.new).failures }
        ensures writes { CountsIndexWrite result (O.failures out.old) (O.failures out.new) };

    /// The same of the record of `length` bytes, or whose member has as many. What precedes the
    /// offset is passed over, and not read as records.
    fn get_at<O: Output>(
        &mut self,
        offset: u64,
        length: u64,
        out: &mut O,
    ) -> Result<u64, IndexFault>
        requires { IsUnread (Self.state self.old) }
        ensures fetches { FetchesIn (Self.state self.old).packing (Some length) offset
            (Self.state self.old).ahead result (O.written out.old) (O.written out.new) }
        ensures record { WritesOneRecord HEAD_LIMIT result (O.written out.old)
            (O.written out.new) }
        ensures refusals { IfErr result IsFetchFault }
        ensures unwritten { IfErr result (λ fault. IsUnwrittenBy (Self.state self.old).packing
            (Some length) offset fault → out.new ≡ out.old) }
        ensures reads { CountsIndex result (Self.state self.old).failures
            (Self.state self.new).failures }
        ensures writes { CountsIndexWrite result (O.failures out.old) (O.failures out.new) };
}
