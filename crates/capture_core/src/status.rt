//! The status of a capture.
ghost use Rattle.std.specs.Prelude.{◌≡◌, ℕ, ◌+◌, ◌<◌, true, Some};
ghost use Rattle.std.specs.List.{list_all};
ghost use Rattle.json.specs.Run.{is_plain};
ghost use Rattle.capture_core.specs.Capture.{status_of, three_digits};

use arrayvec::ArrayString;

/// The text of a status: three digits, or `-`.
pub(crate) type Status = ArrayString<3>;

fn digit(value: u16) -> char
    requires { value < 10 }
    ensures value { result ≡ 48 + value }
    ensures ascii { result < 128 }
{
    (b'0' + value as u8) as char
}

fn three_digits(code: u16) -> Status
    requires { code < 1000 }
    ensures digits { result.bytes ≡ three_digits code }
    ensures plain { list_all is_plain result.bytes ≡ true }
{
    let mut text = Status::new();
    text.push(digit(code / 100));
    text.push(digit(code / 10 % 10));
    text.push(digit(code % 10));
    text
}

/// Returns a status code in three digits, or `-` if there is none.
pub(crate) fn status(code: Option<u16>) -> Status
    requires { (number : ℕ) → code ≡ Some number → number < 1000 }
    ensures value { result.bytes ≡ status_of code }
    ensures plain { list_all is_plain result.bytes ≡ true }
{
    match code {
        Some(code) => three_digits(code),
        None => {
            let mut text = Status::new();
            text.push_str("-");
            text
        }
    }
}
