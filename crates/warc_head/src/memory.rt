//! The memory of heads.
ghost use Rattle.std.specs.Prelude.{◌≡◌, IfOk};

use crate::field_lines::USUAL_FIELDS;
use crate::spans::FieldSpan;
use std::alloc::{AllocError, Global};

/// The memory of a head, for the next one.
#[derive(Drop)]
pub struct HeadMemory {
    pub(crate) text: Vec<u8>,
    pub(crate) spans: Vec<FieldSpan>,
}

impl HeadMemory {
    /// Takes memory for the fields of most heads.
    pub fn new(alloc: Global) -> Result<HeadMemory, AllocError> {
        Ok(HeadMemory {
            text: Vec::new(alloc),
            spans: Vec::with_capacity(alloc, USUAL_FIELDS)?,
        })
    }
}

/// Copies a text into this memory.
pub(crate) fn copied(memory: Vec<u8>, text: &[u8]) -> Result<Vec<u8>, AllocError>
    ensures { IfOk result (λ copy. copy.items ≡ text.now) }
{
    let mut copy = memory;
    copy.clear();
    copy.extend_from_slice(text)?;
    Ok(copy)
}
