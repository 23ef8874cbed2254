//! Abbreviated keys, which decide most comparisons without reading the keys.
ghost use Rattle.std.specs.Prelude.{◌≡◌, ◌+◌, ◌≤◌, length, take, drop, All};
ghost use Rattle.cdxj_places.specs.Abbreviated.{AreBytes, StartsWith, bytes_value, padded, start_words};

use crate::order::HasPlace;

/// Returns the first `N` bytes, padded with zeros if there are fewer.
#[tactic(auto, using(crate::proofs::Abbreviations::padded_copied))]
pub fn abbreviated<const N: usize>(bytes: &[u8]) -> [u8; N]
    ensures { result ≡ padded N bytes.now }
{
    let length = bytes.len().min(N);
    let mut abbreviation = [0; N];
    abbreviation[..length].copy_from_slice(&bytes[..length]);
    abbreviation
}

/// Returns the eight bytes from `at` on as a big-endian number.
fn word(bytes: &[u8; 16], at: usize) -> u64
    requires { at + 8 ≤ 16 }
    ensures { result ≡ bytes_value 0 (take 8 (drop at bytes.now)) }
{
    u64::from_be_bytes([
        bytes[at],
        bytes[at + 1],
        bytes[at + 2],
        bytes[at + 3],
        bytes[at + 4],
        bytes[at + 5],
        bytes[at + 6],
        bytes[at + 7],
    ])
}

/// Returns the first sixteen bytes as two numbers, which compare as the bytes do. Fewer bytes are followed by zeros.
pub(crate) fn start_words(bytes: &[u8]) -> (u64, u64)
    ensures words { result ≡ start_words 8 bytes.now }
    ensures bytes { AreBytes bytes.now }
{
    let bytes = abbreviated(bytes);
    (word(&bytes, 0), word(&bytes, 8))
}

/// Returns the length in bytes of the longest common prefix of two keys.
fn common_length(a: &[u8], b: &[u8]) -> usize
    ensures bound { result ≤ length a.now }
    ensures same { take result a.now ≡ take result b.now }
{
    let mut length = 0;
    while length < a.len() && length < b.len() && a[length] == b[length] {
        length += 1;
    }
    length
}

/// Returns the longest common prefix of a start and a key.
fn common_start<'a>(start: &'a [u8], key: &[u8]) -> &'a [u8]
    ensures start { StartsWith result.now start.now }
    ensures key { StartsWith result.now key.now }
{
    if key.starts_with(start) {
        start
    } else {
        &start[..common_length(start, key)]
    }
}

/// Returns the prefix that the keys of all things have in common.
pub(crate) fn shared_start<T: HasPlace>(things: &[T]) -> &[u8]
    ensures { All (λ e. StartsWith result.now (T.place_of e).key) things.now }
{
    match things.first() {
        Some(first) => {
            let mut shared = first.key_bytes();
            for thing in things {
                shared = common_start(shared, thing.key_bytes());
            }
            shared
        }
        None => &[],
    }
}
