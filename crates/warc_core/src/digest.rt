//! The SHA-1 of a block's bytes.
ghost use Rattle.std.specs.Prelude.{◌≡◌, ℕ};
ghost use Rattle.warc_core.specs.declared.phase.Phase.TheVariants.{Open};
ghost use Rattle.warc_core.specs.ReaderView.{HasLeft, IfOpen, state_of};
ghost use Rattle.warc_core.specs.Calls.{ReadsTo};
ghost use Rattle.warc_core.specs.RestDigest.{digest_of_rest};

use crate::fault::Fault;
use crate::reader::Reader;
use devices::Input;
use sha1::Sha1;

/// Returns the SHA-1 (FIPS 180-4) of `start` followed by the rest of the open record's block. It takes no memory.
///
/// Errors are those of `Reader::block`.
#[tactic(auto, using(crate::proofs::DigestLemmas::digest_rules))]
pub fn digest_rest<I: Input>(
    reader: &mut Reader,
    input: &mut I,
    start: &[u8],
) -> Result<[u8; 20], Fault>
    requires { HasLeft 0 reader.old.phase }
    ensures { IfOpen reader.old.phase (λ left len.
        ReadsTo (digest_of_rest left start.now) reader.old.offset (Open 0 len)
        (state_of reader.old (I.remaining input.old) (I.failures input.old))
        (state_of reader.new (I.remaining input.new) (I.failures input.new)) result) }
{
    let mut hasher = Sha1::new();
    hasher.update(start);
    let mut piece = [0; 8192];
    'pieces: loop {
        let count = reader.block(input, &mut piece)?;
        if count == 0 {
            break;
        }
        hasher.update(&piece[..count]);
    }
    Ok(hasher.finalize())
}
