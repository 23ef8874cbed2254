//! Where members begin and end.
ghost use Rattle.std.specs.Prelude.{◌≡◌, ◌<◌, ◌≤◌, true, Ok, Err, IfSome, IfErr};
ghost use Rattle.warc_core.specs.Answers.{causes_of, CountsRead};
ghost use Rattle.gzip_members.specs.Left.{left_of};
ghost use Rattle.gzip_members.specs.Reading.{Moves, taken};
ghost use Rattle.archives.specs.Packed.{member_cause};
ghost use Rattle.archives.specs.MemberReading.{closed_by, file_ahead, ClosesTo, CountsClosing};
ghost use Rattle.archives.specs.MemberReading.{EndsTo, StartsMember};

use capture_core::{Cause, Fault, Input};
use gzip_members::{MemberFault, Members};

/// Returns why a member can't be read, as a cause.
pub fn cause_of(fault: MemberFault) -> Cause
    ensures { result ≡ member_cause fault }
{
    match fault {
        MemberFault::Read => Cause::Read,
        MemberFault::NoMember => Cause::NoMember,
        MemberFault::Bad => Cause::BadMember,
        MemberFault::Cut => Cause::CutMember,
        MemberFault::TooFar => Cause::TooFar,
        MemberFault::TooLong => Cause::Memory,
    }
}

/// Begins the next member, and returns whether one begins; or else the file has ended.
pub fn begin<I: Input>(members: &mut Members<I>) -> Result<bool, Fault>
    ensures starts { IfSome (file_ahead (taken members.old.source)) (λ bytes.
        StartsMember members.old.source.passed bytes result (left_of members.new)
        (taken members.new.source)) }
    ensures at { IfErr result (λ f. f.offset ≡ members.old.source.passed) }
    ensures further { result ≡ Ok true → members.old.source.passed < members.new.source.passed }
    ensures onward { members.old.source.passed ≤ members.new.source.passed }
    ensures failures { CountsRead (causes_of result) (I.failures members.old.source.input)
        (I.failures members.new.source.input) }
{
    let offset = members.source.passed;
    match members.begin() {
        Ok(begins) => Ok(begins),
        Err(fault) => Err(Fault {
            offset,
            cause: cause_of(fault),
        }),
    }
}

/// Reads the member to its end, and returns whether it had text that wasn't given out.
fn end<I: Input>(members: &mut Members<I>) -> Result<bool, Cause>
    ensures ends { IfSome (left_of members.old) (λ left. EndsTo left result
        (taken members.new.source).ahead) }
    ensures moves { Moves (taken members.old.source) (taken members.new.source) }
    ensures failures { CountsRead result (I.failures members.old.source.input)
        (I.failures members.new.source.input) }
{
    match members.end() {
        Ok(had) => Ok(had),
        Err(fault) => Err(cause_of(fault)),
    }
}

/// Reads the member to its end, in whose text a record was found, or none, or this cause. Some of
/// the text may be held that wasn't given out.
///
/// The member's own fault comes first, then this cause, and then `SeveralRecords` for text behind a
/// record. After `Memory` or `Read`, nothing is read.
pub fn close<I: Input>(
    members: &mut Members<I>,
    found: Result<bool, Cause>,
    holds: bool,
) -> Result<(), Cause>
    ensures closes { IfSome (left_of members.old) (λ left. ClosesTo (closed_by found holds left)
        result (taken members.new.source).ahead) }
    ensures moves { Moves (taken members.old.source) (taken members.new.source) }
    ensures failures { CountsClosing found result (I.failures members.old.source.input)
        (I.failures members.new.source.input) }
{
    match found {
        Err(Cause::Memory) => Err(Cause::Memory),
        Err(Cause::Read) => Err(Cause::Read),
        Err(cause) => {
            end(members)?;
            Err(cause)
        }
        Ok(is_record) => {
            let had = end(members)?;
            if is_record && (holds || had) {
                Err(Cause::SeveralRecords)
            } else {
                Ok(())
            }
        }
    }
}
