//! Texts cut at a space.
ghost use Rattle.std.specs.Prelude.{◌≡◌};
ghost use Rattle.std.specs.List.{before_first, after_first, before_last, after_last};
ghost use Rattle.cdxj_places.specs.Pair.{is_space};

use memchr::memchr;

/// Returns the text before the first space, or the whole text if there is none, and the text after
/// that space.
#[tactic(auto, using(crate::proofs::Found::cut_rules))]
pub fn cut_first(text: &str) -> (&str, &str)
    ensures before { result.0.now ≡ before_first is_space text.now }
    ensures after { result.1.now ≡ after_first is_space text.now }
{
    let Some(at) = memchr(b' ', text.as_bytes()) else {
        return (text, "");
    };
    (&text[..at], &text[at + 1..])
}

/// Returns the text before the last space, or an empty text if there is none, and the text after
/// that space.
pub fn cut_last(text: &str) -> (&str, &str)
    ensures before { result.0.now ≡ before_last is_space text.now }
    ensures after { result.1.now ≡ after_last is_space text.now }
{
    match text.rsplit_once(' ') {
        Some(parts) => parts,
        None => ("", text),
    }
}
