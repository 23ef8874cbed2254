//! Whether a member begins.
ghost use Rattle.std.specs.Prelude.{◌≡◌, ℕ, ◌+◌, ◌≤◌, ◌⊎◌, length, IfErr, OnOk, Ok, true};
ghost use Rattle.std.specs.Io.KnownBytes.{Keeps, IsAtEnd, prepend_known};

use crate::checked_input::CheckedInput;
use crate::fault::MemberFault;
use devices::Input;

impl<I: Input> CheckedInput<I> {
    ghost use Rattle.gzip_members.specs.Reading.{CountsMember, Moves, taken};
    ghost use Rattle.gzip_members.specs.Starts.{begins_member, AnswersStart, StartsFrom};

    /// Reads until two bytes are held, or the input is at its end.
    fn fill_two(&mut self) -> Result<(), MemberFault>
        ensures bytes { Keeps (prepend_known self.old.ahead (I.remaining self.old.input))
            (prepend_known self.new.ahead (I.remaining self.new.input)) }
        ensures two { OnOk result ((2 ≤ length self.new.ahead) ⊎ IsAtEnd
            (I.remaining self.new.input)) }
        ensures checksum { self.new.checksum ≡ self.old.checksum }
        ensures passed { self.new.passed ≡ self.old.passed }
        ensures fault { IfErr result (λ fault. fault ≡ MemberFault.Read) }
        ensures moves { Moves (taken self.old) (taken self.new) }
        ensures failures { CountsMember result (I.failures self.old.input)
            (I.failures self.new.input) }
    {
        'bytes: while self.ahead.as_slice().len() < 2 {
            let count = self.ahead.read_on(&mut self.input)?;
            if count == 0 {
                break;
            }
        }
        Ok(())
    }

    /// Returns whether a member begins with the next bytes, or else the file has ended. Takes none
    /// of them.
    ///
    /// Errors are `Read`; `NoMember` for other bytes, and `Cut` for the first byte of a member as
    /// the file's last one.
    pub fn begins_member(&mut self) -> Result<bool, MemberFault>
        ensures bytes { Keeps (prepend_known self.old.ahead (I.remaining self.old.input))
            (prepend_known self.new.ahead (I.remaining self.new.input)) }
        ensures starts { AnswersStart result (prepend_known self.old.ahead
            (I.remaining self.old.input)) }
        ensures checksum { self.new.checksum ≡ self.old.checksum }
        ensures passed { self.new.passed ≡ self.old.passed }
        ensures moves { Moves (taken self.old) (taken self.new) }
        ensures failures { CountsMember result (I.failures self.old.input)
            (I.failures self.new.input) }
    {
        self.fill_two()?;
        start_of(self.ahead.as_slice())
    }

    /// Takes the header of the member that begins with the next bytes, and returns whether one
    /// does; or else the file has ended.
    pub fn start(&mut self) -> Result<bool, MemberFault>
        ensures starts { StartsFrom result self.old.passed self.new.passed
            (prepend_known self.old.ahead (I.remaining self.old.input))
            (prepend_known self.new.ahead (I.remaining self.new.input)) }
        ensures further { result ≡ Ok true → self.old.passed + 10 ≤ self.new.passed }
        ensures moves { Moves (taken self.old) (taken self.new) }
        ensures failures { CountsMember result (I.failures self.old.input)
            (I.failures self.new.input) }
    {
        if !self.begins_member()? {
            return Ok(false);
        }
        self.checksum = 0;
        self.header()?;
        Ok(true)
    }
}

/// The first two bytes of a member.
const FIRST: u8 = 31;

const SECOND: u8 = 139;

ghost use Rattle.std.specs.Prelude.{take};
ghost use Rattle.gzip_members.specs.Starts.{begins_member};

/// Returns whether a member begins these bytes.
fn start_of(bytes: &[u8]) -> Result<bool, MemberFault>
    ensures { result ≡ begins_member bytes.now }
{
    match bytes {
        [] => Ok(false),
        [first] => Err(if *first == FIRST {
            MemberFault::Cut
        } else {
            MemberFault::NoMember
        }),
        [first, second, ..] => {
            if *first == FIRST && *second == SECOND {
                Ok(true)
            } else {
                Err(MemberFault::NoMember)
            }
        }
    }
}
