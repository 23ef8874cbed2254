//! The forms of keys and of stamps.
ghost use Rattle.std.specs.Prelude.{◌≡◌};
ghost use Rattle.std.specs.List.{list_all};
ghost use Rattle.std.specs.Char.{is_ascii_digit};
ghost use Rattle.cdxj_places.specs.Pair.{is_key, is_stamp};

/// Returns `true` if each byte is an ASCII digit.
pub fn has_digits(text: &[u8]) -> bool
    ensures { result ≡ list_all is_ascii_digit text.now }
{
    text.iter().all(|&b| b.is_ascii_digit())
}

/// Returns `true` if these bytes can be the key of a line: one or more, none of them up to 0x20 or 0x7F.
pub fn is_key(text: &[u8]) -> bool
    ensures { result ≡ is_key text.now }
{
    // No early exit, so that it compiles to vector tests.
    let mut good = !text.is_empty();
    for byte in text {
        good &= *byte > b' ' && *byte != 0x7f;
    }
    good
}

/// Returns `true` if these bytes can be the stamp of a line: 14 ASCII digits.
pub fn is_stamp(text: &[u8]) -> bool
    ensures { result ≡ is_stamp text.now }
{
    text.len() == 14 && has_digits(text)
}
