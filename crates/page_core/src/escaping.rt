//! The escaping of values in text pages: spaces, control characters and DEL.
ghost use Rattle.std.specs.Prelude.{◌≡◌, ◌<◌, ◌++◌, IfOk};
ghost use Rattle.page_core.specs.Rows.{hex_digit, escaped};

use crate::hidden::DELETE;
use std::alloc::AllocError;

fn hex_digit(digit: u8) -> u8
    requires { digit < 16 }
    ensures { result ≡ hex_digit digit }
{
    if digit < 10 {
        b'0' + digit
    } else {
        b'A' + (digit - 10)
    }
}

/// Appends the value to the text. Each space, control character and DEL is written as `%` and two
/// hexadecimal digits.
pub(crate) fn push_escaped(text: &mut Vec<u8>, value: &str) -> Result<(), AllocError>
    ensures { IfOk result (λ _. text.new.items ≡ text.old.items ++ escaped value.now) }
{
    for byte in value.as_bytes() {
        if *byte <= b' ' || *byte == DELETE {
            text.extend_from_slice(&[b'%', hex_digit(*byte >> 4), hex_digit(*byte & 15)])?;
        } else {
            text.extend_from_slice(&[*byte])?;
        }
    }
    Ok(())
}
