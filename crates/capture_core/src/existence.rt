//! That each record has a capture, or isn't indexed.
ghost use Rattle.capture_core.specs.Capture.{HasCapture};
ghost use Rattle.capture_core.specs.Types.{includes};

use crate::http_head::{EMPTY_SPANS, HTTP_FIELD_LIMIT, HTTP_HEAD_LIMIT};
use crate::payload::part;
use crate::types::Types;
use warc_core::Head;

/// A record with this head and this block has a capture under a name, or isn't indexed. The call
/// only looks for an HTTP head at the start of the block, and takes no memory.
pub fn record_has_a_capture(head: &Head, block: &[u8], name: &str, types: Types)
    ensures { HasCapture (includes types) HTTP_HEAD_LIMIT HTTP_FIELD_LIMIT head.now block.now
        name.now }
{
    // For the proof alone: what the types of these say of them.
    let _head = head;
    let _name = name;
    let _types = types;
    let _parted = part(block, &mut EMPTY_SPANS);
}
