//! The text of a digest.
ghost use Rattle.std.specs.Prelude.{◌≡◌, ◌<◌, ◌∷◌, []};
ghost use Rattle.warc_core.specs.Base32.{letter_of, letters_of, base32_of};

/// Returns the base 32 of a SHA-1 digest (RFC 4648, section 6): 32 of the characters `A` to `Z` and `2` to `7`.
#[tactic(auto, unfolding(crate::specs::Base32::base32_of))]
pub fn base32(digest: &[u8; 20]) -> [u8; 32]
    ensures { result ≡ base32_of digest.now }
{
    let d = *digest;
    let parts = [
        letters(d[0], d[1], d[2], d[3], d[4]),
        letters(d[5], d[6], d[7], d[8], d[9]),
        letters(d[10], d[11], d[12], d[13], d[14]),
        letters(d[15], d[16], d[17], d[18], d[19]),
    ];
    let mut text = [0; 32];
    text.copy_from_slice(parts.as_flattened());
    text
}

/// Returns the eight characters for the 40 bits of five bytes.
fn letters(a: u8, b: u8, c: u8, d: u8, e: u8) -> [u8; 8]
    ensures { result ≡ letters_of (a ∷ b ∷ c ∷ d ∷ e ∷ []) 8 }
{
    [
        letter(a / 8),
        letter(a % 8 * 4 + b / 64),
        letter(b / 2 % 32),
        letter(b % 2 * 16 + c / 16),
        letter(c % 16 * 2 + d / 128),
        letter(d / 4 % 32),
        letter(d % 4 * 8 + e / 32),
        letter(e % 32),
    ]
}

/// Returns the character for five bits.
fn letter(value: u8) -> u8
    requires { value < 32 }
    ensures { result ≡ letter_of value }
{
    if value < 26 {
        b'A' + value
    } else {
        b'2' + (value - 26)
    }
}
