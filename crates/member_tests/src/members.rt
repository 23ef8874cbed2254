//! Members of a few bytes.
use devices::{Fuse, Input, Slice};
use fixtures::{Refused, cut, joined};
use gzip_members::{MemberFault, MemberText, Members};
use std::alloc::Global;
use std::marker::Brand;

/// A member of the text `hello hello hello`, with fixed codes and a copy.
const HELLO: &[u8] = &[
    0x1f, 0x8b, 8, 0, 0, 0, 0, 0, 2, 3, 0xcb, 0x48, 0xcd, 0xc9, 0xc9, 0x57, 0xc8, 0x40, 0x90, 0,
    0x80, 0x88, 0xf9, 0xe5, 17, 0, 0, 0,
];

/// A member without text.
const EMPTY: &[u8] = &[
    0x1f, 0x8b, 8, 0, 0, 0, 0, 0, 2, 3, 3, 0, 0, 0, 0, 0, 0, 0, 0, 0,
];

/// A member of the text `abc` as it is, with a name, `n`.
const NAMED: &[u8] = &[
    0x1f, 0x8b, 8, 8, 0, 0, 0, 0, 2, 3, b'n', 0, 1, 3, 0, 0xfc, 0xff, b'a', b'b', b'c', 0xc2, 0x41,
    0x24, 0x35, 3, 0, 0, 0,
];

/// `HELLO` with another checksum.
const DAMAGED: &[u8] = &[
    0x1f, 0x8b, 8, 0, 0, 0, 0, 0, 2, 3, 0xcb, 0x48, 0xcd, 0xc9, 0xc9, 0x57, 0xc8, 0x40, 0x90, 0,
    0x81, 0x88, 0xf9, 0xe5, 17, 0, 0, 0,
];

/// Returns `true` if the next text of the member is this one.
fn gives<I: Input>(members: &mut Members<I>, text: &[u8]) -> bool {
    let mut piece = [0; 32];
    match members.read(&mut piece) {
        Ok(count) => cut(&piece, count) == text,
        Err(_) => false,
    }
}

/// Returns `true` if a member begins there, or none does.
fn begins<I: Input>(members: &mut Members<I>, is_member: bool) -> bool {
    members.begin() == Ok(is_member)
}

/// Returns `true` if the member ends there, with text that was not given out or without it.
fn ends<I: Input>(members: &mut Members<I>, has_text: bool) -> bool {
    members.end() == Ok(has_text)
}

/// Returns `true` if the next member has this text.
fn is_next<I: Input>(members: &mut Members<I>, text: &[u8]) -> bool {
    begins(members, true) && gives(members, text) && ends(members, false)
}

#[test]
fn members_are_read_one_after_another(rt: HostRuntime) -> Result<(), Refused> {
    let file = joined(rt.alloc(), &[HELLO, EMPTY, NAMED, HELLO])?;
    let mut members = Members::new(rt.alloc(), Slice::new(file.as_slice()))?;
    assert!(rt; is_next(&mut members, b"hello hello hello"));
    assert!(rt; is_next(&mut members, b""));
    assert!(rt; is_next(&mut members, b"abc"));
    assert!(rt; begins(&mut members, true) && ends(&mut members, true));
    assert!(rt; begins(&mut members, false));
    Ok(())
}

/// Returns why the file begins with no member.
fn fault_of(alloc: Global, file: &[u8]) -> Result<Option<MemberFault>, Refused> {
    let mut members = Members::new(alloc, Slice::new(file))?;
    Ok(match members.begin() {
        Ok(_) => members.end().err(),
        Err(fault) => Some(fault),
    })
}

/// Files, and why they begin with no member.
const FAULTS: &[(&[u8], MemberFault)] = &[
    (b"x", MemberFault::NoMember),
    (b"WARC/1.0\r\n", MemberFault::NoMember),
    (b"\x1f", MemberFault::Cut),
    (b"\x1f\x8b\x08", MemberFault::Cut),
    (b"\x1f\x8b\x07\0\0\0\0\0\0\0", MemberFault::Bad),
    (DAMAGED, MemberFault::Bad),
];

#[test]
fn what_is_no_member_is_told(rt: HostRuntime) -> Result<(), Refused> {
    for (file, fault) in FAULTS {
        assert!(rt; fault_of(rt.alloc(), file)? == Some(*fault));
    }
    Ok(())
}

#[test]
fn a_member_is_cut_before_its_last_byte(rt: HostRuntime) -> Result<(), Refused> {
    for length in 1..HELLO.len() {
        assert!(rt;
            fault_of(rt.alloc(), cut(HELLO, length))? == Some(MemberFault::Cut),
            "{length}"
        );
    }
    assert!(rt; fault_of(rt.alloc(), HELLO)?.is_none());
    Ok(())
}

/// Returns `true` if a failure at this call, of four bytes each, is told, and the member can then be read on if it had
/// begun.
fn tells_failure(alloc: Global, at: u64) -> Result<bool, Refused> {
    let mut members = Members::new(alloc, Fuse::new(Slice::new(HELLO), 4, at))?;
    Ok(match members.begin() {
        Ok(_) => members.end() == Err(MemberFault::Read) && members.end().is_ok(),
        Err(fault) => fault == MemberFault::Read && members.end() == Err(MemberFault::Cut),
    })
}

#[test]
fn a_failed_read_is_told_once(rt: HostRuntime) -> Result<(), Refused> {
    for at in 1..8 {
        assert!(rt; tells_failure(rt.alloc(), at)?, "{at}");
    }
    Ok(())
}

/// Returns `true` if these bytes are next, once this many were skipped.
fn has_behind<I: Input>(input: &mut I, count: u64, text: &[u8; 5]) -> bool {
    let mut piece = [0; 5];
    input.skip(count) == Ok(count) && input.read(&mut piece) == Ok(5) && piece == *text
}

#[test]
fn the_text_of_a_member_is_an_input(rt: HostRuntime) -> Result<(), Refused> {
    let mut members = Members::new(rt.alloc(), Slice::new(HELLO))?;
    assert!(rt; begins(&mut members, true));
    let mut text: MemberText<Slice<'_>, Brand> = MemberText::new(members);
    assert!(rt; has_behind(&mut text, 2, b"llo h"));
    let mut rest = text.into_members();
    assert!(rt; gives(&mut rest, b"ello hello"));
    assert!(rt; ends(&mut rest, false) && begins(&mut rest, false));
    Ok(())
}
