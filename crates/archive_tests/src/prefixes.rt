//! The prefixes of an archive of three records.
use warc_core::{Cause, Fault};

/// Returns how many whole records the first `length` bytes of the three records have, and the fault that follows.
pub fn prefix_gives(length: usize) -> (u64, Option<Fault>) {
    let fault = |offset, cause| Some(Fault { offset, cause });
    match length {
        0 => (0, None),
        1..=200 => (0, fault(0, Cause::ShortHead)),
        201..=259 => (0, fault(0, Cause::ShortBlock)),
        260..=263 => (0, fault(0, Cause::Closing)),
        264 => (1, None),
        265..=440 => (1, fault(264, Cause::ShortHead)),
        441..=443 => (1, fault(264, Cause::ShortBlock)),
        444..=447 => (1, fault(264, Cause::Closing)),
        448 => (2, None),
        449..=648 => (2, fault(448, Cause::ShortHead)),
        649..=707 => (2, fault(448, Cause::ShortBlock)),
        708..=711 => (2, fault(448, Cause::Closing)),
        _ => (3, None),
    }
}
