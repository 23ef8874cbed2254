//! The verdict on a block by its digest.
ghost use Rattle.std.specs.Prelude.{◌≡◌};

/// The result of comparing a block with its digest (ISO 28500:2017, WARC-Block-Digest).
#[derive(Clone, Copy, Debug, PartialEq, Eq)]
pub enum Verdict {
    /// The block has the digest that its head gives.
    Same,
    /// The block has another digest.
    Differs,
    /// The head gives a digest in another form than `sha1:` and 32 characters of base 32.
    NotSha1,
    /// The head gives no digest of the block.
    Absent,
}

impl Verdict {
    ghost use Rattle.warc_core.specs.BlockDigest.{verdict_name};

    /// Returns the verdict as listings print it: `same`, `differs`, `not-sha1` or `absent`.
    pub fn name(self) -> &'static str
        ensures { result.now ≡ verdict_name self }
    {
        match self {
            Verdict::Same => "same",
            Verdict::Differs => "differs",
            Verdict::NotSha1 => "not-sha1",
            Verdict::Absent => "absent",
        }
    }
}
