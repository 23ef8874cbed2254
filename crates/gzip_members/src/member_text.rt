//! The text of a member as an input.
ghost use Rattle.std.specs.Prelude.{◌≡◌, ℕ, ◌≤◌, List, Option, Result, Some, None, option_map};
ghost use Rattle.deflate_bits.specs.declared.fault.DeflateFault.{DeflateFault};
ghost use Rattle.gzip_members.specs.Left.{behind_of, left_of, text_of};
ghost use Rattle.gzip_members.specs.Reading.{taken, total_of};

use crate::members::Members;
use devices::{DeviceFault, Input};
use std::marker::{Brand, PhantomData};

/// What is known of a member while generic code reads its text, for proofs alone. A call at `Brand`
/// picks it.
pub trait Outcome {
    /// What stands behind the member, or why there is none, where that is known.
    ghost behind: { Option (Result (List ℕ) DeflateFault) };

    /// The number of bytes of the file that were taken at least.
    ghost from: { ℕ };

    /// The file's length in bytes, where that is known.
    ghost total: { Option ℕ };
}

impl Outcome for Brand {
    ghost behind = { None };

    ghost from = { 0 };

    ghost total = { None };
}

/// The text of the member that is read of a file. What is known of the member stays true.
#[derive(Drop)]
pub struct MemberText<I: Input, M: Outcome> {
    pub members: Members<I>,
    pub outcome: PhantomData<M>,
    pub ghost behind: { (r : Result (List ℕ) DeflateFault) → M.behind ≡ Some r
        → option_map behind_of (left_of members) ≡ Some r },
    pub ghost onward: { M.from ≤ members.source.passed },
    pub ghost counted: { (total : ℕ) → M.total ≡ Some total
        → total_of (taken members.source) ≡ Some total },
}

impl<I: Input, M: Outcome> MemberText<I, M> {
    /// Creates the text of the member that is read.
    pub fn new(members: Members<I>) -> MemberText<I, M>
        requires behind { (r : Result (List ℕ) DeflateFault) → M.behind ≡ Some r
            → option_map behind_of (left_of members) ≡ Some r }
        requires onward { M.from ≤ members.source.passed }
        requires counted { (total : ℕ) → M.total ≡ Some total
            → total_of (taken members.source) ≡ Some total }
        ensures { result.members ≡ members }
    {
        MemberText {
            members,
            outcome: PhantomData,
        }
    }

    /// Returns the file, of which the member may not be read to its end.
    pub fn into_members(self) -> Members<I>
        ensures { result ≡ self.members }
    {
        self.members
    }
}

impl<I: Input, M: Outcome> Input for MemberText<I, M> {
    ghost remaining = { λ text. text_of (left_of text.members) };

    ghost failures = { λ text. I.failures text.members.source.input };

    fn read(&mut self, piece: &mut [u8]) -> Result<usize, DeviceFault> {
        self.members.read(piece)
    }

    fn skip(&mut self, count: u64) -> Result<u64, DeviceFault> {
        self.members.skip(count)
    }
}
