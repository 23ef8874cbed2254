//! The records that are indexed, and their URLs.
ghost use Rattle.std.specs.Prelude.{◌≡◌, ◌<◌, length, MatchOption, IfSome, Some, None};
ghost use Rattle.capture_core.specs.Indexed.{target_uri, url_of};
ghost use Rattle.capture_core.specs.Types.{includes};

use crate::field_value::{non_empty, without_brackets};
use crate::types::Types;
use warc_core::Head;

/// Returns the value of `WARC-Target-URI` without one enclosing pair of `<` and `>`, or `None` if
/// nothing is left.
fn target(head: &Head) -> Option<&[u8]>
    ensures { MatchOption result (target_uri head.now ≡ None)
        (λ t. target_uri head.now ≡ Some t.now) }
{
    match head.field(b"WARC-Target-URI") {
        Some(value) => non_empty(without_brackets(value)),
        None => None,
    }
}

/// Returns the URL under which a record is indexed: its target, if its type is one of these.
pub(crate) fn url(head: &Head, types: Types) -> Option<&[u8]>
    ensures value { MatchOption result (url_of (includes types) head.now ≡ None)
        (λ url. url_of (includes types) head.now ≡ Some url.now) }
    ensures filled { IfSome result (λ url. 0 < length url.now) }
{
    if types.includes(head.kind()) {
        target(head)
    } else {
        None
    }
}
