//! The sizes of pages.
ghost use Rattle.std.specs.Prelude.{◌≡◌, IfOk, map, option_map};
ghost use Rattle.std.specs.List.{slice_split};
ghost use Rattle.capture_core.specs.Types.{is_comma};
ghost use Rattle.command_line.specs.Sizes.{all_sizes, size_of, sizes_of};

use cdxj_places::has_digits;
use std::alloc::{AllocError, Global};

/// The greatest number of sizes in an argument.
const SIZES_LIMIT: usize = 1_000;

/// Reads the sizes in an argument, separated by commas: 1 to 1,000 numbers from 1 to 1,000,000, each of at most 7
/// digits. Returns `None` for any other argument. The only error is refused memory.
pub fn read_sizes(alloc: Global, word: &str) -> Result<Option<Vec<u64>>, AllocError>
    ensures { IfOk result (λ sizes. option_map (λ s. s.items) sizes ≡ sizes_of word.now) }
{
    let parts = cut_parts(alloc, word)?;
    if parts.len() > SIZES_LIMIT {
        return Ok(None);
    }
    all_sizes(alloc, &parts)
}

fn cut_parts(alloc: Global, word: &str) -> Result<Vec<&str>, AllocError>
    ensures { IfOk result (λ parts. map (λ part. part.now) parts.items
        ≡ slice_split is_comma word.now) }
{
    word.split(',').collect(alloc)
}

fn all_sizes(alloc: Global, parts: &[&str]) -> Result<Option<Vec<u64>>, AllocError>
    ensures { IfOk result (λ sizes. option_map (λ s. s.items) sizes
        ≡ all_sizes (map (λ part. part.now) parts.now)) }
{
    let mut sizes = Vec::new(alloc);
    for part in parts {
        let Some(size) = read_size(part) else {
            return Ok(None);
        };
        sizes.push(size)?;
    }
    Ok(Some(sizes))
}

#[tactic(auto, using(crate::proofs::SizeDigits::size_parsed))]
fn read_size(digits: &str) -> Option<u64>
    ensures { result ≡ size_of digits.now }
{
    if digits.is_empty() || digits.len() > 7 || !has_digits(digits.as_bytes()) {
        return None;
    }
    match digits.parse::<u64>() {
        Ok(size) if size > 0 && size <= 1_000_000 => Some(size),
        _ => None,
    }
}
