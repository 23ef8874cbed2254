//! The value of a field that gives a digest.
ghost use Rattle.std.specs.Prelude.{◌≡◌, codes, MatchOption, None, Some};
ghost use Rattle.std.specs.List.{list_all};
ghost use Rattle.warc_head.specs.Names.{same_name};
ghost use Rattle.warc_core.specs.BlockDigest.{digest_verdict, is_base32_letter, is_base32_text, sha1_text};

use crate::digest_text::base32;
use crate::verdict::Verdict;

/// Returns `true` if the label of a digest is `sha1:`, ignoring ASCII case. Most records write it
/// in lower case, which is the faster test.
pub fn is_sha1(label: &[u8]) -> bool
    ensures { result ≡ same_name label.now (codes "sha1:") }
{
    label == b"sha1:".as_slice() || label.eq_ignore_ascii_case(b"sha1:")
}

/// Returns the text of the SHA-1 digest in a value: 32 characters of base 32 after `sha1:`, each in either case.
#[tactic(auto, unfolding(crate::specs::BlockDigest::sha1_text))]
pub(crate) fn sha1_text(value: &[u8]) -> Option<&[u8]>
    ensures { MatchOption result (sha1_text value.now ≡ None)
        (λ text. sha1_text value.now ≡ Some text.now) }
{
    let (label, text) = value.split_at_checked(5)?;
    if is_sha1(label) && is_base32_text(text) {
        Some(text)
    } else {
        None
    }
}

fn is_base32_text(text: &[u8]) -> bool
    ensures { result ≡ is_base32_text text.now }
{
    text.len() == 32 && has_base32_letters(text)
}

fn has_base32_letters(text: &[u8]) -> bool
    ensures { result ≡ list_all is_base32_letter text.now }
{
    text.iter().all(|byte| is_base32_letter(*byte))
}

fn is_base32_letter(byte: u8) -> bool
    ensures { result ≡ is_base32_letter byte }
{
    matches!(byte, b'A'..=b'Z' | b'a'..=b'z' | b'2'..=b'7')
}

/// Compares the text with that of the digest, ignoring ASCII case.
pub(crate) fn digest_verdict(text: &[u8], digest: &[u8; 20]) -> Verdict
    ensures { result ≡ digest_verdict text.now digest.now }
{
    if text.eq_ignore_ascii_case(&base32(digest)) {
        Verdict::Same
    } else {
        Verdict::Differs
    }
}
