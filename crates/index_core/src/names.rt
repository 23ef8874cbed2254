//! The names of archives.
ghost use Rattle.std.specs.Prelude.{◌↔◌, IsTrue};
ghost use Rattle.index_core.specs.Indexing.{IsName};

use indexmap::IndexSet;
use std::alloc::{AllocError, Global};
use std::marker::Model;

/// Returns `true` if an archive may have this name.
pub fn is_name(name: &str) -> bool
    ensures { IsTrue result ↔ IsName name.now }
{
    !name.is_empty() && name.len() <= 255
}

/// The names of the archives that were added, in the order of adding.
#[derive(Drop)]
pub struct Names {
    set: IndexSet<String>,
}

impl Model for Names {
    ghost use Rattle.std.specs.Prelude.{ℕ, List, map};
    ghost use Rattle.std.specs.String.{string_bytes};

    ghost Value = { List (List ℕ) };

    ghost view = { λ n. map string_bytes n.set.keys };
}

impl Names {
    ghost use Rattle.std.specs.Prelude.{◌≡◌, ◌∷◌, [], ◌++◌, false, OnOk, OnErr};
    ghost use Rattle.index_core.specs.Indexing.{is_among};

    /// Creates a list of no names. It takes no memory.
    pub fn new(alloc: Global) -> Names
        ensures { result ≡ [] }
    {
        Names {
            set: IndexSet::new(alloc),
        }
    }

    /// Returns `true` if the name is among these.
    #[tactic(auto, using(crate::proofs::NameLemmas::among_texts))]
    pub fn contains(&self, name: &str) -> bool
        ensures { result ≡ is_among self.now name.now }
    {
        self.set.contains(name)
    }

    /// Adds a copy of a name that isn't among these. The only error is refused memory.
    pub fn add(&mut self, alloc: Global, name: &str) -> Result<(), AllocError>
        requires { is_among self.old name.now ≡ false }
        ensures ok { OnOk result (self.new ≡ self.old ++ name.now ∷ []) }
        ensures err { OnErr result (self.new ≡ self.old) }
    {
        let copy = String::from_str(alloc, name)?;
        match self.set.insert(copy) {
            Ok(_) => Ok(()),
            Err(_) => Err(AllocError),
        }
    }
}
