//! The names of fields.
ghost use Rattle.std.specs.Prelude.{◌≡◌, true};
ghost use Rattle.warc_head.specs.Names.{is_name, same_name};

/// Returns `true` if the text is one or more bytes that a field name may contain.
#[tactic(auto, using(crate::proofs::NameLemmas::token_is_name))]
pub fn is_name(name: &[u8]) -> bool
    ensures { result ≡ is_name name.now }
{
    httparse::is_token(name)
}

/// The offset of a byte in which the names of the mandatory fields differ.
const TELLING: usize = 5;

/// Returns `true` if a field's name is this one, ignoring ASCII case. Most names have another length, are spelled alike
/// or differ at [`TELLING`], which are the faster tests.
#[inline(always)]
pub fn is_named<const N: usize>(name: &[u8], wanted: &[u8; N]) -> bool
    ensures { result ≡ same_name name.now wanted.now }
{
    match <&[u8; N]>::try_from(name) {
        Ok(spelled) => may_be_same(spelled, wanted) && is_same(spelled, wanted),
        Err(_) => false,
    }
}

/// Returns `false` for many names that are not the same: one byte is compared.
#[inline(always)]
fn may_be_same<const N: usize>(name: &[u8; N], wanted: &[u8; N]) -> bool
    ensures { same_name name.now wanted.now ≡ true → result ≡ true }
{
    N <= TELLING || name[TELLING].eq_ignore_ascii_case(&wanted[TELLING])
}

/// Returns `true` if the text is this one, ignoring ASCII case. Most texts have another length, are spelled alike or begin
/// with another byte, which are the faster tests.
#[inline(always)]
pub fn is_spelled<const N: usize>(text: &[u8], wanted: &[u8; N]) -> bool
    ensures { result ≡ same_name text.now wanted.now }
{
    match <&[u8; N]>::try_from(text) {
        Ok(spelled) => begin_alike(spelled, wanted) && is_same(spelled, wanted),
        Err(_) => false,
    }
}

#[inline(always)]
fn begin_alike<const N: usize>(text: &[u8; N], wanted: &[u8; N]) -> bool
    ensures { same_name text.now wanted.now ≡ true → result ≡ true }
{
    N == 0 || text[0].eq_ignore_ascii_case(&wanted[0])
}

#[inline(always)]
fn is_same<const N: usize>(name: &[u8; N], wanted: &[u8; N]) -> bool
    ensures { result ≡ same_name name.now wanted.now }
{
    name == wanted || is_same_in_another_case(name.as_slice(), wanted.as_slice())
}

/// Compares names that aren't spelled alike. It is compiled apart, since few are the same.
#[cold]
#[inline(never)]
fn is_same_in_another_case(name: &[u8], wanted: &[u8]) -> bool
    ensures { result ≡ same_name name.now wanted.now }
{
    name.eq_ignore_ascii_case(wanted)
}

/// Returns `true` if the names are the same, ignoring ASCII case. Most names that are the same are spelled alike, which
/// is the faster test.
pub fn same_name(name: &[u8], other: &[u8]) -> bool
    ensures { result ≡ same_name name.now other.now }
{
    name == other || name.eq_ignore_ascii_case(other)
}
