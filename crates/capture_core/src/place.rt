//! The place of a record in its archive.
ghost use Rattle.std.specs.Prelude.{◌≡◌, ◌<◌, ◌^◌};
ghost use Rattle.capture_core.specs.Capture.{plain_place};

use warc_core::Head;

/// The place of a record in its archive: in a plain archive, where the record stands.
#[derive(Clone, Copy, Debug, PartialEq, Eq)]
pub struct Place {
    /// The offset in bytes from the archive's start.
    pub offset: u64,
    /// The length in bytes.
    pub length: u64,
}

/// Returns the place of the record with this head in a plain archive.
pub fn plain_place(head: &Head) -> Place
    ensures place { result ≡ plain_place head.now }
    ensures offset { result.offset < 2 ^ 63 }
    ensures size { result.length < 2 ^ 63 }
{
    Place {
        offset: head.start(),
        length: head.record_length(),
    }
}
