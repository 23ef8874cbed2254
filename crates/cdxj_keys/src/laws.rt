//! Laws of the definitions that the contracts cite. These functions do nothing: each law is a
//! contract.
ghost use Rattle.std.specs.Prelude.{◌≡◌, ◌++◌, ℕ, List, Some};
ghost use Rattle.cdxj_keys.specs.Key.{key_of, host_key_of};

/// The key of a web URL begins with its host key.
#[tactic(auto, using(crate::proofs::KeyLaw::host_begins_key))]
pub fn host_key_begins_key()
    ensures { (target host : List ℕ) → host_key_of target ≡ Some host
        → (rest : List ℕ) × (key_of target ≡ host ++ rest) }
{}
