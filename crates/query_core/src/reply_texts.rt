//! The texts of replies that aren't pages.
ghost use Rattle.devices.specs.Writing.{WritesText};
ghost use Rattle.query_core.specs.Replies.{refusal_text, reply_fault_line};
ghost use Rattle.query_core.specs.ReplyFaults.{CountsReply};

use crate::fault::AnswerFault;
use devices::{Output, put};
use std::alloc::Global;

/// Writes a text to the output.
pub(crate) fn put_text<O: Output>(text: &[u8], out: &mut O) -> Result<(), AnswerFault>
    ensures text { WritesText result (O.written out.old) (O.written out.new) text.now }
    ensures failures { CountsReply result (O.failures out.old) (O.failures out.new) }
{
    match put(out, text) {
        Ok(()) => Ok(()),
        Err(_) => Err(AnswerFault::Write),
    }
}

/// Writes that a line was refused, with the name of the refusal.
#[tactic(auto, using(devices::proofs::WritingLemmas::wrote_nothing))]
pub(crate) fn put_refusal<O: Output>(
    alloc: Global,
    name: &str,
    out: &mut O,
) -> Result<(), AnswerFault>
    ensures text { WritesText result (O.written out.old) (O.written out.new)
        (refusal_text name.now) }
    ensures failures { CountsReply result (O.failures out.old) (O.failures out.new) }
{
    let text = format!(in alloc; "refused {name}\n")?;
    put_text(text.as_bytes(), out)
}

/// Writes, after what was written of a page, the name of a fault, the number of the index, and the
/// offset of the line.
#[tactic(auto, using(devices::proofs::WritingLemmas::wrote_nothing))]
pub(crate) fn put_fault_line<O: Output>(
    alloc: Global,
    name: &str,
    index: usize,
    offset: u64,
    out: &mut O,
) -> Result<(), AnswerFault>
    ensures text { WritesText result (O.written out.old) (O.written out.new)
        (reply_fault_line name.now index offset) }
    ensures failures { CountsReply result (O.failures out.old) (O.failures out.new) }
{
    let text = format!(in alloc; "\nfault {name} {index} {offset}\n")?;
    put_text(text.as_bytes(), out)
}
