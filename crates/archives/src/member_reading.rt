//! The text of a member, as the reader of records takes it.
ghost use Rattle.std.specs.Prelude.{◌≡◌, IfOk, IfSome, option_map};
ghost use Rattle.std.specs.Io.KnownBytes.{prepend_known};
ghost use Rattle.warc_core.specs.Answers.{cause_only, causes_of, CountsRead};
ghost use Rattle.warc_core.specs.BlockDigest.{judge_record};
ghost use Rattle.warc_core.specs.Reading.{Reads};
ghost use Rattle.warc_core.specs.ReaderView.{IsUnread};
ghost use Rattle.warc_core.specs.Record.{after_record};
ghost use Rattle.capture_core.specs.CaptureAnswer.{GivesParts, usual_limits};
ghost use Rattle.capture_core.specs.Indexed.{url_of};
ghost use Rattle.capture_core.specs.RecordReading.{reading_by};
ghost use Rattle.capture_core.specs.Types.{includes};
ghost use Rattle.archives.specs.Walking.{verdict_on};
ghost use Rattle.warc_core.specs.declared.next.TheConstants.{HEAD_LIMIT};
ghost use Rattle.warc_core.specs.declared.phase.Phase.TheVariants.{Between};
ghost use Rattle.warc_core.specs.Calls.{GoesNext};
ghost use Rattle.gzip_members.specs.Left.{left_of, text_of};
ghost use Rattle.gzip_members.specs.Reading.{taken};
ghost use Rattle.archives.specs.MemberReading.{IsKnown, ReadsOn, text_state};

use capture_core::{
    BlockStart, CaptureParts, Fault, Head, Input, Reader, Types, Verdict, block_digest,
    read_capture,
};
use gzip_members::{MemberText, Members, Outcome};
use std::marker::Brand;

/// A file in whose member was read, and what was read.
#[derive(Drop)]
pub struct Reading<I: Input, T> {
    pub members: Members<I>,
    pub result: Result<T, Fault>,
}

/// Reads the head at the front of a member's text.
fn head_known<I: Input, M: Outcome>(
    members: Members<I>,
    reader: &mut Reader,
) -> Reading<I, Option<Head>>
    requires between { reader.old.phase ≡ Between }
    requires known { IsKnown M.behind M.from M.total (left_of members) (taken members.source) }
    ensures known { IsKnown M.behind M.from M.total (left_of result.members)
        (taken result.members.source) }
    ensures next { GoesNext HEAD_LIMIT (text_state reader.old members)
        (text_state reader.new result.members) result.result }
{
    let mut text: MemberText<I, M> = MemberText::new(members);
    let result = reader.next(&mut text);
    Reading {
        members: text.into_members(),
        result,
    }
}

/// Reads the head at the front of a member's text.
pub fn read_head<I: Input>(members: Members<I>, reader: &mut Reader) -> Reading<I, Option<Head>>
    requires { reader.old.phase ≡ Between }
    ensures reads { ReadsOn (left_of members) (taken members.source) (left_of result.members)
        (taken result.members.source) }
    ensures next { GoesNext HEAD_LIMIT (text_state reader.old members)
        (text_state reader.new result.members) result.result }
{
    head_known::<I, Brand>(members, reader)
}

/// Reads the rest of the record in a member's text.
fn finish_known<I: Input, M: Outcome>(
    members: Members<I>,
    reader: &mut Reader,
    head: &Head,
) -> Reading<I, u64>
    requires unread { IsUnread reader.old head.now }
    requires known { IsKnown M.behind M.from M.total (left_of members) (taken members.source) }
    ensures known { IsKnown M.behind M.from M.total (left_of result.members)
        (taken result.members.source) }
    ensures rest { Reads (after_record head.now.parts.block_length) (cause_only result.result)
        (prepend_known reader.old.held (text_of (left_of members)))
        (prepend_known reader.new.held (text_of (left_of result.members))) }
    ensures failures { CountsRead (causes_of result.result) (I.failures members.source.input)
        (I.failures result.members.source.input) }
{
    let mut text: MemberText<I, M> = MemberText::new(members);
    let result = reader.finish(&mut text);
    Reading {
        members: text.into_members(),
        result,
    }
}

/// Reads the rest of the record in a member's text.
pub fn finish<I: Input>(members: Members<I>, reader: &mut Reader, head: &Head) -> Reading<I, u64>
    requires { IsUnread reader.old head.now }
    ensures reads { ReadsOn (left_of members) (taken members.source) (left_of result.members)
        (taken result.members.source) }
    ensures rest { Reads (after_record head.now.parts.block_length) (cause_only result.result)
        (prepend_known reader.old.held (text_of (left_of members)))
        (prepend_known reader.new.held (text_of (left_of result.members))) }
    ensures failures { CountsRead (causes_of result.result) (I.failures members.source.input)
        (I.failures result.members.source.input) }
{
    finish_known::<I, Brand>(members, reader, head)
}

/// Reads the rest of the record in a member's text, and returns the verdict on its block.
fn judge_known<I: Input, M: Outcome>(
    members: Members<I>,
    reader: &mut Reader,
    head: &Head,
) -> Reading<I, Verdict>
    requires unread { IsUnread reader.old head.now }
    requires known { IsKnown M.behind M.from M.total (left_of members) (taken members.source) }
    ensures known { IsKnown M.behind M.from M.total (left_of result.members)
        (taken result.members.source) }
    ensures rest { Reads (judge_record (verdict_on head.now) head.now.parts.block_length)
        (causes_of result.result) (prepend_known reader.old.held (text_of (left_of members)))
        (prepend_known reader.new.held (text_of (left_of result.members))) }
    ensures failures { CountsRead (causes_of result.result) (I.failures members.source.input)
        (I.failures result.members.source.input) }
{
    let mut text: MemberText<I, M> = MemberText::new(members);
    let result = block_digest(reader, &mut text, head);
    Reading {
        members: text.into_members(),
        result,
    }
}

/// Reads the rest of the record in a member's text, and returns the verdict on its block.
pub fn judge<I: Input>(members: Members<I>, reader: &mut Reader, head: &Head) -> Reading<I, Verdict>
    requires { IsUnread reader.old head.now }
    ensures reads { ReadsOn (left_of members) (taken members.source) (left_of result.members)
        (taken result.members.source) }
    ensures rest { Reads (judge_record (verdict_on head.now) head.now.parts.block_length)
        (causes_of result.result) (prepend_known reader.old.held (text_of (left_of members)))
        (prepend_known reader.new.held (text_of (left_of result.members))) }
    ensures failures { CountsRead (causes_of result.result) (I.failures members.source.input)
        (I.failures result.members.source.input) }
{
    judge_known::<I, Brand>(members, reader, head)
}

/// Reads the rest of the record in a member's text, and returns what it gives to its capture.
fn capture_known<'a, I: Input, M: Outcome>(
    members: Members<I>,
    reader: &mut Reader,
    front: &'a mut BlockStart,
    head: &'a Head,
    types: Types,
) -> Reading<I, Option<CaptureParts<'a>>>
    requires unread { IsUnread reader.old head.now }
    requires known { IsKnown M.behind M.from M.total (left_of members) (taken members.source) }
    ensures known { IsKnown M.behind M.from M.total (left_of result.members)
        (taken result.members.source) }
    ensures rest { Reads (after_record head.now.parts.block_length) (reading_by result.result)
        (prepend_known reader.old.held (text_of (left_of members)))
        (prepend_known reader.new.held (text_of (left_of result.members))) }
    ensures parts { GivesParts (url_of (includes types) head.now) usual_limits head.now
        (prepend_known reader.old.held (text_of (left_of members))) result.result }
    ensures stamp { IfOk result.result (λ parts. IfSome parts (λ p.
        p.stamp ≡ head.now.parts.stamp)) }
    ensures under { IfOk result.result (λ parts.
        option_map (λ p. p.url) parts ≡ url_of (includes types) head.now) }
    ensures failures { CountsRead (causes_of result.result) (I.failures members.source.input)
        (I.failures result.members.source.input) }
{
    let mut text: MemberText<I, M> = MemberText::new(members);
    let result = read_capture(front, reader, &mut text, head, types);
    Reading {
        members: text.into_members(),
        result,
    }
}

/// Reads the rest of the record in a member's text, and returns what it gives to its capture.
pub fn capture<'a, I: Input>(
    members: Members<I>,
    reader: &mut Reader,
    front: &'a mut BlockStart,
    head: &'a Head,
    types: Types,
) -> Reading<I, Option<CaptureParts<'a>>>
    requires { IsUnread reader.old head.now }
    ensures reads { ReadsOn (left_of members) (taken members.source) (left_of result.members)
        (taken result.members.source) }
    ensures rest { Reads (after_record head.now.parts.block_length) (reading_by result.result)
        (prepend_known reader.old.held (text_of (left_of members)))
        (prepend_known reader.new.held (text_of (left_of result.members))) }
    ensures parts { GivesParts (url_of (includes types) head.now) usual_limits head.now
        (prepend_known reader.old.held (text_of (left_of members))) result.result }
    ensures stamp { IfOk result.result (λ parts. IfSome parts (λ p.
        p.stamp ≡ head.now.parts.stamp)) }
    ensures under { IfOk result.result (λ parts.
        option_map (λ p. p.url) parts ≡ url_of (includes types) head.now) }
    ensures failures { CountsRead (causes_of result.result) (I.failures members.source.input)
        (I.failures result.members.source.input) }
{
    capture_known::<I, Brand>(members, reader, front, head, types)
}
