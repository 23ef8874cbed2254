//! Why a member can't be read.

use deflate_bits::DeflateFault;
use devices::DeviceFault;

/// Why a member can't be read.
#[derive(Clone, Copy, Debug, PartialEq, Eq)]
pub enum MemberFault {
    /// The input failed.
    Read,
    /// No member begins there.
    NoMember,
    /// It isn't one of RFC 1952, or its data isn't that of RFC 1951.
    Bad,
    /// The file ends in it.
    Cut,
    /// It would end at 2^63 or above, in bytes from the file's start.
    TooFar,
    /// Its text has more pieces than can be counted.
    TooLong,
}

impl From<DeviceFault> for MemberFault {
    ghost use Rattle.std.specs.Prelude.{◌≡◌};
    ghost use Rattle.gzip_members.specs.declared.fault.MemberFault.TheVariants.{Read};

    ghost from_gives = { λ _ fault. fault ≡ Read };

    fn from(_fault: DeviceFault) -> MemberFault {
        MemberFault::Read
    }
}

impl From<DeflateFault> for MemberFault {
    ghost use Rattle.std.specs.Prelude.{◌≡◌};
    ghost use Rattle.gzip_members.specs.Faults.{member_fault};

    ghost from_gives = { λ fault found. found ≡ member_fault fault };

    fn from(fault: DeflateFault) -> MemberFault {
        match fault {
            DeflateFault::Bad => MemberFault::Bad,
            DeflateFault::Cut => MemberFault::Cut,
        }
    }
}
