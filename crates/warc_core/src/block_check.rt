//! The check of a block against the digest that its head gives.
ghost use Rattle.std.specs.Prelude.{◌≡◌, ℕ, ◌+◌, codes};
ghost use Rattle.warc_head.specs.Fields.{value_of};
ghost use Rattle.warc_core.specs.declared.phase.Phase.TheVariants.{Between, Open};
ghost use Rattle.warc_core.specs.HeadView.{record_length};
ghost use Rattle.warc_core.specs.ReaderView.{IsUnread, HasLeft, IfOpen, state_of};
ghost use Rattle.sha1.specs.Sha1.{sha1};
ghost use Rattle.warc_core.specs.Calls.{ReadsTo};
ghost use Rattle.warc_core.specs.BlockDigest.{verdict_of, digest_verdict, judge_record};

use crate::digest::digest_rest;
use crate::digest_value::{digest_verdict, sha1_text};
use crate::fault::Fault;
use crate::head::Head;
use crate::reader::Reader;
use crate::verdict::Verdict;
use devices::Input;

/// Reads an unread record to its end, and returns the verdict on its block by the digest that `WARC-Block-Digest` gives
/// (ISO 28500:2017, 5.8). It takes no memory.
///
/// Errors are those of `Reader::finish`.
pub fn block_digest<I: Input>(
    reader: &mut Reader,
    input: &mut I,
    head: &Head,
) -> Result<Verdict, Fault>
    requires { IsUnread reader.old head.now }
    ensures { ReadsTo (judge_record
        (verdict_of (value_of (codes "WARC-Block-Digest") head.now.parts.fields))
        head.now.parts.block_length) (head.now.start + record_length head.now) Between
        (state_of reader.old (I.remaining input.old) (I.failures input.old))
        (state_of reader.new (I.remaining input.new) (I.failures input.new)) result }
{
    match head.field(b"WARC-Block-Digest") {
        Some(value) => match sha1_text(value) {
            Some(text) => compare(reader, input, text),
            None => pass(reader, input, Verdict::NotSha1),
        },
        None => pass(reader, input, Verdict::Absent),
    }
}

/// Reads the rest of the open record, and returns this verdict without examining the block.
#[tactic(auto, using(crate::proofs::VerdictLemmas::judge_rules))]
fn pass<I: Input>(reader: &mut Reader, input: &mut I, verdict: Verdict) -> Result<Verdict, Fault>
    ensures { IfOpen reader.old.phase (λ left len.
        ReadsTo (judge_record (λ _. verdict) left) (reader.old.offset + len) Between
        (state_of reader.old (I.remaining input.old) (I.failures input.old))
        (state_of reader.new (I.remaining input.new) (I.failures input.new)) result) }
{
    reader.finish(input)?;
    Ok(verdict)
}

/// Reads the rest of the open record, and compares its block with the text of a digest.
fn compare<I: Input>(reader: &mut Reader, input: &mut I, text: &[u8]) -> Result<Verdict, Fault>
    requires { HasLeft 0 reader.old.phase }
    ensures { IfOpen reader.old.phase (λ left len.
        ReadsTo (judge_record (λ block. digest_verdict text.now (sha1 block)) left)
        (reader.old.offset + len) Between
        (state_of reader.old (I.remaining input.old) (I.failures input.old))
        (state_of reader.new (I.remaining input.new) (I.failures input.new)) result) }
{
    let digest = digest_rest(reader, input, &[])?;
    reader.finish(input)?;
    Ok(digest_verdict(text, &digest))
}
