use deflate_bits::{BitBuffer, DeflateFault};
use deflate_symbols::{Moved, Stop};
use inflate::Inflater;
use std::test::Fail;

/// The last block, of three bytes as they are.
const STORED: [u8; 8] = [0x01, 0x03, 0x00, 0xfc, 0xff, b'a', b'b', b'c'];

/// The last block, with fixed codes: `a`, a copy of three bytes from one back, and the end.
const FIXED: [u8; 4] = [0x4b, 0x04, 0x02, 0x00];

#[test]
fn bytes_as_they_are_are_the_text(rt: HostRuntime) -> Result<(), Fail> {
    let mut inflater = Inflater::new(rt.alloc())?;
    let mut out = [0u8; 16];
    let start = Moved {
        held: BitBuffer::at(&STORED, 0),
        at: 0,
    };
    let stopped = inflater.inflate(&STORED, true, &mut out, start)?;
    assert_eq!(rt; stopped.stop, Stop::Ended);
    assert_eq!(rt; stopped.moved.at, 3);
    assert_eq!(rt; stopped.moved.held.byte_offset(&STORED), 8);
    assert_eq!(rt; [out[0], out[1], out[2]].as_slice(), b"abc".as_slice());
    Ok(())
}

#[test]
fn fixed_codes_have_a_literal_and_a_copy(rt: HostRuntime) -> Result<(), Fail> {
    let mut inflater = Inflater::new(rt.alloc())?;
    let mut out = [0u8; 400];
    let start = Moved {
        held: BitBuffer::at(&FIXED, 0),
        at: 0,
    };
    let stopped = inflater.inflate(&FIXED, true, &mut out, start)?;
    assert_eq!(rt; stopped.stop, Stop::Ended);
    assert_eq!(rt; stopped.moved.at, 4);
    assert_eq!(rt;
        [out[0], out[1], out[2], out[3]].as_slice(),
        b"aaaa".as_slice()
    );
    Ok(())
}

#[test]
fn a_block_of_another_type_is_refused(rt: HostRuntime) -> Result<(), Fail> {
    let mut inflater = Inflater::new(rt.alloc())?;
    let mut out = [0u8; 16];
    let start = Moved {
        held: BitBuffer::at(&[0x07], 0),
        at: 0,
    };
    match inflater.inflate(&[0x07], true, &mut out, start) {
        Ok(_stopped) => assert!(rt; false),
        Err(fault) => assert_eq!(rt; fault, DeflateFault::Bad),
    }
    Ok(())
}

#[test]
fn a_head_that_is_cut_waits_for_more(rt: HostRuntime) -> Result<(), Fail> {
    let mut inflater = Inflater::new(rt.alloc())?;
    let mut out = [0u8; 400];
    let part = &STORED[..4];
    let start = Moved {
        held: BitBuffer::at(part, 0),
        at: 0,
    };
    let stopped = inflater.inflate(part, false, &mut out, start)?;
    assert_eq!(rt; stopped.stop, Stop::Paused);
    let again = Moved {
        held: BitBuffer::at(&STORED, 0),
        at: 0,
    };
    let ended = inflater.inflate(&STORED, true, &mut out, again)?;
    assert_eq!(rt; ended.stop, Stop::Ended);
    assert_eq!(rt; ended.moved.at, 3);
    Ok(())
}
