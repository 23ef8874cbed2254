//! Archives and their names.

/// An archive, and the file name that its captures have.
#[derive(Debug, Drop)]
pub struct Named<A> {
    /// 1 to 255 bytes, different from the names of the other archives.
    pub name: String,
    /// The archive.
    pub archive: A,
}
