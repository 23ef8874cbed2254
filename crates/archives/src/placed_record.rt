//! A record of an archive, and where it stands.

use capture_core::{Head, Place};

/// A record of an archive: its head, and the place at which it is stored.
#[derive(Drop)]
pub struct PlacedRecord {
    pub head: Head,
    pub place: Place,
}
