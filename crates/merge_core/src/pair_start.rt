//! The starts of pairs, as numbers.
ghost use Rattle.std.specs.Prelude.{◌≡◌, ◌+◌, ◌≤◌, true, take, drop};
ghost use Rattle.cdxj_core.specs.Members.{member_pair};
ghost use Rattle.cdxj_places.specs.Abbreviated.{AreBytes, bytes_value, start_words, words};
ghost use Rattle.cdxj_places.specs.Pair.{is_key};
ghost use Rattle.merge_core.specs.PairStarts.{IsStart, pair_text};

use cdxj_core::Line;
use cdxj_places::abbreviated;

/// The length of a space and a stamp.
const AFTER_KEY: usize = 15;

/// The first 32 bytes of a line's key, space and stamp as two numbers, which compare as pairs do.
/// Fewer bytes are followed by zeros.
pub type PairStart = (u128, u128);

/// Returns the sixteen bytes from `at` on as a big-endian number.
fn word(bytes: &[u8; 32], at: usize) -> u128
    requires { at + 16 ≤ 32 }
    ensures { result ≡ bytes_value 0 (take 16 (drop at bytes.now)) }
{
    u128::from_be_bytes([
        bytes[at],
        bytes[at + 1],
        bytes[at + 2],
        bytes[at + 3],
        bytes[at + 4],
        bytes[at + 5],
        bytes[at + 6],
        bytes[at + 7],
        bytes[at + 8],
        bytes[at + 9],
        bytes[at + 10],
        bytes[at + 11],
        bytes[at + 12],
        bytes[at + 13],
        bytes[at + 14],
        bytes[at + 15],
    ])
}

fn words_of(bytes: &[u8; 32]) -> PairStart
    ensures { result ≡ words 16 bytes.now }
{
    (word(bytes, 0), word(bytes, 16))
}

/// Returns the first 32 bytes as two numbers. Fewer bytes are followed by zeros.
fn start_of(bytes: &[u8]) -> PairStart
    ensures words { result ≡ start_words 16 bytes.now }
    ensures bytes { AreBytes bytes.now }
{
    match bytes.first_chunk::<32>() {
        Some(front) => words_of(front),
        None => words_of(&abbreviated(bytes)),
    }
}

/// Returns the key, the space and the stamp of a line.
fn pair_bytes(line: &Line) -> &[u8]
    ensures text { result.now ≡ pair_text (member_pair line.now) }
    ensures key { is_key line.now.values.key ≡ true }
{
    &line.line()[..line.pair().key.len() + AFTER_KEY]
}

/// Returns the start of a line's pair.
pub(crate) fn pair_start(line: &Line) -> PairStart
    ensures { IsStart result (member_pair line.now) }
{
    start_of(pair_bytes(line))
}
