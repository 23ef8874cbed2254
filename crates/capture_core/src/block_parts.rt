//! What a record's block holds for its capture.
use crate::payload_digest::PayloadDigest;

/// What a record's block holds for its capture, but for the media type.
#[derive(Clone, Copy)]
pub(crate) struct BlockParts<'a> {
    /// The status code of the HTTP head, of three digits.
    pub code: Option<u16>,
    pub digest: PayloadDigest<'a>,
}
