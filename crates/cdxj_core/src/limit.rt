/// The maximum length of a line in bytes. It includes a line feed, whether the line has one or not.
pub const LINE_LIMIT: usize = 16_777_216;
