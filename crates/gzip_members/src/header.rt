//! The header of a member (RFC 1952, 2.3).
ghost use Rattle.std.specs.Prelude.{◌≡◌, ℕ, ◌+◌, ◌-◌, ◌^◌, ◌<◌, ◌≤◌, List, [], length, IfOk, OnOk};
ghost use Rattle.std.specs.Io.KnownBytes.{prepend_known};

use crate::checked_input::CheckedInput;
use crate::fault::MemberFault;
use devices::Input;

/// The only method of compression: deflate.
const DEFLATE: u8 = 8;

impl<I: Input> CheckedInput<I> {
    ghost use Rattle.gzip_members.specs.Header.{pair_in, past_in, name_in, extra_in, sum_in};
    ghost use Rattle.gzip_members.specs.Header.{flags_in, fields_in, header_in, where_set, is_set};
    ghost use Rattle.gzip_members.specs.Reading.{Reads, CountsMember, Moves, taken};

    /// Takes two bytes as a number, the first the least significant.
    #[tactic(auto, unfolding(crate::specs::Header::pair_in))]
    pub(crate) fn pair(&mut self) -> Result<u16, MemberFault>
        ensures pair { Reads pair_in result (taken self.old) (taken self.new) }
        ensures moves { Moves (taken self.old) (taken self.new) }
        ensures failures { CountsMember result (I.failures self.old.input)
            (I.failures self.new.input) }
    {
        let low = self.byte()?;
        let high = self.byte()?;
        Ok(u16::from(low) + 256 * u16::from(high))
    }

    /// Takes `count` bytes of any kind.
    #[tactic(auto, using(crate::proofs::HeaderLemmas::past_rules))]
    fn past(&mut self, count: u16) -> Result<(), MemberFault>
        ensures past { Reads (past_in count) result (taken self.old) (taken self.new) }
        ensures passed { OnOk result (self.new.passed ≡ self.old.passed + count) }
        ensures moves { Moves (taken self.old) (taken self.new) }
        ensures failures { CountsMember result (I.failures self.old.input)
            (I.failures self.new.input) }
    {
        let mut left = count;
        'bytes: while left > 0 {
            match self.byte() {
                Ok(_byte) => left -= 1,
                Err(fault) => return Err(fault),
            }
        }
        Ok(())
    }

    /// Takes a text, up to and with the zero that ends it.
    fn text(&mut self) -> Result<(), MemberFault>
        ensures text { Reads name_in result (taken self.old) (taken self.new) }
        ensures moves { Moves (taken self.old) (taken self.new) }
        ensures failures { CountsMember result (I.failures self.old.input)
            (I.failures self.new.input) }
    {
        'bytes: loop {
            match self.byte() {
                Ok(byte) => {
                    if byte == 0 {
                        return Ok(());
                    }
                }
                Err(fault) => return Err(fault),
            }
        }
    }

    /// Takes the extra field.
    #[tactic(auto, unfolding(crate::specs::Header::extra_in))]
    fn extra(&mut self) -> Result<(), MemberFault>
        ensures extra { Reads extra_in result (taken self.old) (taken self.new) }
        ensures moves { Moves (taken self.old) (taken self.new) }
        ensures failures { CountsMember result (I.failures self.old.input)
            (I.failures self.new.input) }
    {
        let size = self.pair()?;
        self.past(size)
    }

    /// Takes the checksum of the header in front of it, and compares it.
    #[tactic(auto, unfolding(crate::specs::Header::sum_in))]
    fn sum(&mut self) -> Result<(), MemberFault>
        ensures sum { Reads sum_in result (taken self.old) (taken self.new) }
        ensures moves { Moves (taken self.old) (taken self.new) }
        ensures failures { CountsMember result (I.failures self.old.input)
            (I.failures self.new.input) }
    {
        let sum = self.checksum % 65_536;
        let pair = self.pair()?;
        if u32::from(pair) == sum {
            Ok(())
        } else {
            Err(MemberFault::Bad)
        }
    }

    /// Takes the four bytes that every header begins with, and returns its flags.
    #[tactic(auto, unfolding(crate::specs::Header::flags_in))]
    fn flags(&mut self) -> Result<u8, MemberFault>
        ensures flags { Reads flags_in result (taken self.old) (taken self.new) }
        ensures passed { OnOk result (self.new.passed ≡ self.old.passed + 4) }
        ensures moves { Moves (taken self.old) (taken self.new) }
        ensures failures { CountsMember result (I.failures self.old.input)
            (I.failures self.new.input) }
    {
        self.past(2)?;
        let method = self.byte()?;
        let flags = self.byte()?;
        if method == DEFLATE && flags < 32 {
            Ok(flags)
        } else {
            Err(MemberFault::Bad)
        }
    }

    /// Takes the extra field, if its flag is set.
    fn extra_where_set(&mut self, flags: u8) -> Result<(), MemberFault>
        ensures extra { Reads (where_set 4 flags extra_in) result (taken self.old)
            (taken self.new) }
        ensures moves { Moves (taken self.old) (taken self.new) }
        ensures failures { CountsMember result (I.failures self.old.input)
            (I.failures self.new.input) }
    {
        if flags / 4 % 2 == 1 {
            self.extra()
        } else {
            Ok(())
        }
    }

    /// Takes a name or a comment, if its flag is set.
    fn text_where_set(&mut self, flag: u8, flags: u8) -> Result<(), MemberFault>
        requires { 0 < flag }
        ensures text { Reads (where_set flag flags name_in) result (taken self.old)
            (taken self.new) }
        ensures moves { Moves (taken self.old) (taken self.new) }
        ensures failures { CountsMember result (I.failures self.old.input)
            (I.failures self.new.input) }
    {
        if flags / flag % 2 == 1 {
            self.text()
        } else {
            Ok(())
        }
    }

    /// Takes the checksum of the header, if its flag is set.
    fn sum_where_set(&mut self, flags: u8) -> Result<(), MemberFault>
        ensures sum { Reads (where_set 2 flags sum_in) result (taken self.old) (taken self.new) }
        ensures moves { Moves (taken self.old) (taken self.new) }
        ensures failures { CountsMember result (I.failures self.old.input)
            (I.failures self.new.input) }
    {
        if flags / 2 % 2 == 1 {
            self.sum()
        } else {
            Ok(())
        }
    }

    /// Takes the optional fields.
    #[tactic(auto, unfolding(crate::specs::Header::fields_in))]
    fn fields(&mut self, flags: u8) -> Result<(), MemberFault>
        ensures fields { Reads (fields_in flags) result (taken self.old) (taken self.new) }
        ensures moves { Moves (taken self.old) (taken self.new) }
        ensures failures { CountsMember result (I.failures self.old.input)
            (I.failures self.new.input) }
    {
        self.extra_where_set(flags)?;
        self.text_where_set(8, flags)?;
        self.text_where_set(16, flags)?;
        self.sum_where_set(flags)
    }

    /// Takes a header, of which the first two bytes say that it is one.
    #[tactic(auto, unfolding(crate::specs::Header::header_in))]
    pub fn header(&mut self) -> Result<(), MemberFault>
        ensures header { Reads header_in result (taken self.old) (taken self.new) }
        ensures passed { OnOk result (self.old.passed + 10 ≤ self.new.passed) }
        ensures moves { Moves (taken self.old) (taken self.new) }
        ensures failures { CountsMember result (I.failures self.old.input)
            (I.failures self.new.input) }
    {
        let flags = self.flags()?;
        self.past(6)?;
        self.fields(flags)
    }
}
