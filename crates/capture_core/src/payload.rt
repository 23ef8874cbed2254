//! The start of a record's block, split into its HTTP head and the payload.
ghost use Rattle.std.specs.Prelude.{◌≡◌, ◌<◌, ◌≤◌, ℕ, List, ◌++◌, length, drop, Option, option_map};
ghost use Rattle.std.specs.Prelude.{IfOk, IfSome, IfNone};
ghost use Rattle.httparse.specs.Grammar.{ResponseHead};
ghost use Rattle.capture_core.specs.Capture.{response_of, payload_of};
ghost use Rattle.capture_core.specs.RecordReading.{front_limit, front_length};
ghost use Rattle.capture_core.specs.HttpHead.{HasNoHead, IsHeadOf};
ghost use Rattle.capture_core.specs.ResponseView.{response_view};
ghost use Rattle.capture_core.specs.CaptureAnswer.{PartsBlock, usual_limits};

use crate::http_head::{HTTP_FIELD_LIMIT, HTTP_HEAD_LIMIT, UsualSpans, http_head};
use crate::http_record::may_have_head;
use crate::response::HttpHead;
use warc_core::Head;

/// The first bytes of a record's block, with the HTTP head, if there is one, and the start of the
/// payload in them.
#[derive(Clone, Copy)]
pub(crate) struct SplitBlock<'a> {
    pub bytes: &'a [u8],
    pub response: Option<HttpHead<'a>>,
    pub payload: &'a [u8],
}

/// Returns the maximum number of bytes at the start of the record's block that are searched for an
/// HTTP head.
fn front_limit(head: &Head) -> usize
    ensures { result ≡ front_limit HTTP_HEAD_LIMIT head.now }
{
    if may_have_head(head) {
        HTTP_HEAD_LIMIT
    } else {
        0
    }
}

/// Returns the number of bytes at the start of the record's block that are searched for an HTTP
/// head.
pub(crate) fn front_length(head: &Head) -> usize
    ensures { result ≡ front_length HTTP_HEAD_LIMIT head.now }
{
    let limit = front_limit(head) as u64;
    head.length().min(limit) as usize
}

/// Splits the first bytes of a record's block, or returns `None` if no HTTP head ends in them and
/// more bytes, up to `whole` in all, may hold one.
pub(crate) fn part_decided<'a>(
    head: &Head,
    front: &'a [u8],
    whole: usize,
    spans: &mut UsualSpans,
) -> Option<SplitBlock<'a>>
    requires whole { whole ≡ front_length HTTP_HEAD_LIMIT head.now }
    requires front { length front.now ≤ whole }
    ensures parts { IfSome result (λ p. PartsBlock usual_limits head.now p.bytes.now
        (option_map response_view p.response) p.payload.now) }
    ensures bytes { IfSome result (λ p. p.bytes.now ≡ front.now) }
    ensures open { IfNone result (length front.now < whole) }
{
    // For the proof alone: what the type says of the head.
    let _head = head;
    let parted = part(front, spans);
    if parted.response.is_some() || front.len() == whole {
        Some(parted)
    } else {
        None
    }
}

/// Splits the first bytes of a record's block.
pub(crate) fn part<'a>(front: &'a [u8], spans: &mut UsualSpans) -> SplitBlock<'a>
    ensures parts { (found : Option (ResponseHead × List ℕ))
        × IsHeadOf HTTP_HEAD_LIMIT HTTP_FIELD_LIMIT front.now found
        × (option_map response_view result.response ≡ option_map (λ f. response_of f.0) found)
        × (result.payload.now ≡ payload_of front.now found) }
    ensures bytes { result.bytes.now ≡ front.now }
{
    match http_head(front, spans) {
        Some(head) => SplitBlock {
            bytes: front,
            response: Some(head),
            payload: &front[head.len..],
        },
        None => SplitBlock {
            bytes: front,
            response: None,
            payload: front,
        },
    }
}
