//! Texts that need no escapes between their quotes: no quote, no backslash, no control.
ghost use Rattle.std.specs.Prelude.{◌≡◌, true, IfSome};
ghost use Rattle.std.specs.List.{list_all};
ghost use Rattle.json.specs.Run.{is_plain};
ghost use Rattle.cdxj_objects.specs.Plain.{is_plain_ascii};

/// Returns `true` if JSON writes the text between quotes without escapes. It is one pass without an
/// early exit, which compiles to vector tests.
pub fn is_plain_text(text: &[u8]) -> bool
    ensures { result ≡ list_all is_plain text.now }
{
    let mut good = true;
    for byte in text {
        good &= !(*byte == b'"' || *byte == b'\\' || *byte < b' ');
    }
    good
}

/// Returns `true` if the text is ASCII and plain, in one pass like that of `is_plain_text`.
fn is_plain_ascii(text: &[u8]) -> bool
    ensures { result ≡ list_all is_plain_ascii text.now }
{
    let mut good = true;
    for byte in text {
        good &= *byte < 0x80 && !(*byte == b'"' || *byte == b'\\' || *byte < b' ');
    }
    good
}

/// Returns the text, if it is UTF-8 and JSON writes it between quotes without escapes. Most are
/// ASCII, which is the faster test.
#[tactic(auto, using(crate::proofs::PlainBytes::ascii_is_utf8, crate::proofs::PlainBytes::ascii_is_plain))]
pub fn plain_utf8(text: &[u8]) -> Option<&str>
    ensures value { IfSome result (λ t. t.now ≡ text.now) }
    ensures plain { IfSome result (λ t. list_all is_plain t.now ≡ true) }
{
    if is_plain_ascii(text) {
        Some(unsafe { str::from_utf8_unchecked(text) })
    } else {
        plain_beyond_ascii(text)
    }
}

/// Like `plain_utf8`, for a text that isn't ASCII.
#[cold]
fn plain_beyond_ascii(text: &[u8]) -> Option<&str>
    ensures value { IfSome result (λ t. t.now ≡ text.now) }
    ensures plain { IfSome result (λ t. list_all is_plain t.now ≡ true) }
{
    if is_plain_text(text) {
        str::from_utf8(text).ok()
    } else {
        None
    }
}
