//! The sizes of pages.
ghost use Rattle.std.specs.Prelude.{◌≡◌, nat_lt, true};
ghost use Rattle.std.specs.List.{list_all};
ghost use Rattle.page_core.specs.Pages.{AllPositive, first_size, later_sizes};
ghost use Rattle.query_core.specs.WrittenPages.{are_sizes};

fn are_positive(sizes: &[u64]) -> bool
    ensures { result ≡ list_all (λ size. nat_lt 0 size) sizes.now }
{
    sizes.iter().all(|&size| size > 0)
}

/// Returns `true` if there are sizes, and none of them is 0.
#[tactic(auto, using(crate::proofs::PagesLemmas::all_positive))]
pub fn are_sizes(sizes: &[u64]) -> bool
    ensures value { result ≡ are_sizes sizes.now }
    ensures positive { result ≡ true → AllPositive sizes.now }
{
    !sizes.is_empty() && are_positive(sizes)
}

pub(crate) fn first_size(sizes: &[u64]) -> u64
    ensures { result ≡ first_size sizes.now }
{
    match sizes {
        [first, ..] => *first,
        [] => 0,
    }
}

/// Returns all sizes but the first. The last one is repeated.
pub(crate) fn later_sizes(sizes: &[u64]) -> &[u64]
    ensures { result.now ≡ later_sizes sizes.now }
{
    match sizes {
        [_, later @ ..] if !later.is_empty() => later,
        _ => sizes,
    }
}
