//! Texts without controls.
ghost use Rattle.std.specs.Prelude.{◌≡◌};
ghost use Rattle.std.specs.List.{list_all};
ghost use Rattle.cdxj_objects.specs.Plain.{is_printable};

/// Returns `true` if no byte is a control. It is one pass without an early exit,
/// which compiles to vector tests.
pub(crate) fn is_printable(text: &[u8]) -> bool
    ensures { result ≡ list_all is_printable text.now }
{
    let mut good = true;
    for byte in text {
        good &= *byte >= b' ';
    }
    good
}
