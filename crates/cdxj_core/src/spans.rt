//! Where the parts of a line stand in its text.
use cdxj_objects::{Members, Span};

/// The space before the stamp.
pub(crate) const TO_STAMP: usize = 1;

pub(crate) const TO_STAMP_END: usize = 15;
/// A space, the stamp and a space.
pub(crate) const TO_OBJECT: usize = TO_STAMP_END + 1;

/// Where the parts of a line stand in its text, as offsets in bytes from the text's start.
///
/// The texts of a line's members stand in the line, if none of them has escapes there. Otherwise the
/// line is followed by a plain object that has them without escapes.
#[derive(Clone, Copy, Debug, Drop)]
pub(crate) struct Spans {
    /// The end of the line, without its line feed.
    pub size: usize,
    /// The end of the key, which begins the line.
    pub key: usize,
    pub stamp: [u8; 14],
    pub texts: Members<Span>,
}
