//! Inputs and outputs: what no clause states, and values worked out by hand.
use devices::{
    FromFile, FromRead, FromWrite, Fuse, Gather, Input, InputLineFault, InputLines, Output, Slice,
    SystemFile, put,
};
use either::Either;
use fixtures::{Refused, cut, repeated};
use std::alloc::Global;
use std::fs::{self, File, Files};
use std::io;
use std::rt::Runtime;
use std::test::Fail;

const TEXT: &[u8] = b"WARC/1.1\r\nWARC-Type: resource\r\n\r\n";

/// Returns `true` if a read into a piece of three bytes returns this count, after which the piece has this text.
fn reads<I: Input>(input: &mut I, piece: &mut [u8; 3], count: usize, text: &[u8; 3]) -> bool {
    input.read(piece) == Ok(count) && *piece == *text
}

#[test]
fn memory_is_read_to_its_end(rt: HostRuntime) {
    let mut input = Slice::new(b"abcde");
    let mut piece = [0; 3];
    assert!(rt; reads(&mut input, &mut piece, 3, b"abc"));
    assert!(rt; reads(&mut input, &mut piece, 2, b"dec"));
    assert!(rt; reads(&mut input, &mut piece, 0, b"dec"));
}

/// The lines of an input, of which five bytes are held.
const LINES: &[&[u8]] = &[b"one", b"two", b"", b"longe", b"end"];

/// Returns `true` if the next lines are these, and whether the input then ends.
fn are_next<I: Input>(
    reader: &mut InputLines,
    input: &mut I,
    lines: &[&[u8]],
) -> Result<bool, InputLineFault> {
    for line in lines {
        if !reader.next(input)? || reader.line() != *line {
            return Ok(false);
        }
    }
    Ok(!reader.next(input)?)
}

/// Returns `true` if the lines are read from an input that gives at most this many bytes a call.
fn are_read_in_pieces(alloc: Global, most: usize) -> Result<bool, Fail> {
    let text = Slice::new(b"one\r\ntwo\n\nlonger\r\nend");
    let mut input = Fuse::new(text, most, u64::MAX);
    let mut reader = InputLines::new(alloc, 5)?;
    Ok(are_next(&mut reader, &mut input, LINES)?)
}

#[test]
fn lines_are_held_up_to_a_limit(rt: HostRuntime) -> Result<(), Fail> {
    for most in &[1, 2, 8192] {
        assert!(rt; are_read_in_pieces(rt.alloc(), *most)?, "{most}");
    }
    Ok(())
}

/// How many bytes of the text a call of the output takes, the call that fails, and how many bytes are written.
const WRITES: &[(usize, u64, usize)] = &[
    (0, 0, 33),
    (1, 34, 33),
    (1, 1, 0),
    (1, 33, 32),
    (20, 2, 20),
    (8192, u64::MAX, 33),
];

/// Returns `true` if `count` bytes of the text are written, and the failure is counted if these aren't all.
fn writes(alloc: Global, most: usize, at: u64, count: usize) -> Result<bool, Refused> {
    let mut out = Fuse::new(Gather::new(alloc), most, at);
    let is_written = put(&mut out, TEXT).is_ok();
    if out.device.bytes().len() < count {
        return Err(Refused::Memory);
    }
    let is_whole = count == TEXT.len();
    Ok(
        is_written == is_whole
            && out.failures == u64::from(!is_whole)
            && out.device.bytes() == cut(TEXT, count),
    )
}

#[test]
fn a_text_is_written_whole_or_in_part(rt: HostRuntime) -> Result<(), Refused> {
    for (most, at, count) in WRITES {
        assert!(rt; writes(rt.alloc(), *most, *at, *count)?, "{most} {at}");
    }
    Ok(())
}

/// A fuse fails once, without calling its device. Later calls reach the device.
#[test]
fn a_fuse_fails_at_one_call(rt: HostRuntime) {
    let mut input = Fuse::new(Slice::new(b"abcde"), 2, 2);
    let mut piece = [0; 3];
    assert!(rt; reads(&mut input, &mut piece, 2, b"ab\0"));
    assert!(rt; input.read(&mut piece).is_err());
    assert!(rt; reads(&mut input, &mut piece, 2, b"cd\0"));
    assert!(rt; input.calls == 3 && input.failures == 1);
}

/// A writer that accepts nothing, or reports a failure.
#[derive(Drop)]
struct Full {
    says_so: bool,
}

impl io::Write for Full {
    fn write(&mut self, _piece: &[u8]) -> io::Result<usize> {
        if self.says_so {
            Err(io::Error::from(io::ErrorKind::StorageFull))
        } else {
            Ok(0)
        }
    }

    fn flush(&mut self) -> io::Result<()> {
        Ok(())
    }
}

/// Returns `true` if a write of this text returns this count, or fails.
fn takes<O: Output>(out: &mut O, text: &[u8], count: Option<usize>) -> bool {
    out.write(text).ok() == count
}

fn fails_to_put<O: Output>(out: &mut O) -> bool {
    put(out, b"x").is_err()
}

#[test]
fn readers_and_writers_of_std_are_devices(rt: HostRuntime) {
    let mut input = FromRead::new(b"abcde".as_slice());
    assert!(rt; reads(&mut input, &mut [0; 3], 3, b"abc"));
    let mut written = [0; 2];
    let mut out = FromWrite::new(written.as_mut_slice());
    assert!(rt; takes(&mut out, b"xy", Some(2)));
    assert!(rt; takes(&mut out, b"z", None));
    assert!(rt; takes(&mut out, b"", Some(0)));
    for says_so in &[false, true] {
        let full = Full { says_so: *says_so };
        assert!(rt; fails_to_put(&mut FromWrite::new(full)), "{says_so}");
    }
}

/// Returns `true` if `count` of the bytes to skip are skipped.
fn skips<I: Input>(input: &mut I, asked: u64, count: u64) -> bool {
    input.skip(asked) == Ok(count)
}

#[test]
fn an_input_skips_what_it_can(rt: HostRuntime) {
    let mut memory = Slice::new(b"abcde");
    assert!(rt; skips(&mut memory, 3, 3));
    assert!(rt; reads(&mut memory, &mut [0; 3], 2, b"de\0"));
    assert!(rt; skips(&mut memory, 1, 0));
    assert!(rt; skips(&mut FromRead::new(b"abcde".as_slice()), 5, 0));
    let mut either: Either<Slice<'_>, FromRead<&[u8]>> = Either::Left(Slice::new(b"abcde"));
    assert!(rt; skips(&mut either, 3, 3));
    assert!(rt; reads(&mut either, &mut [0; 3], 2, b"de\0"));
}

#[test]
fn a_fuse_fails_at_a_skip(rt: HostRuntime) {
    let mut fuse = Fuse::new(Slice::new(b"abcde"), 2, 2);
    assert!(rt; skips(&mut fuse, 5, 2));
    assert!(rt; fuse.skip(5).is_err());
    assert!(rt; skips(&mut fuse, 5, 2));
    assert!(rt; reads(&mut fuse, &mut [0; 3], 1, b"e\0\0"));
    assert!(rt; fuse.calls == 4 && fuse.failures == 1);
}

/// Writes the digits 0 to 9, 2,064 times, and returns the file.
fn digits<R: Runtime + AllocGlobal>(
    rt: &R,
) -> Result<FromFile<SystemFile<<R as Files>::File>>, Fail> {
    let text = repeated(rt.alloc(), b"0123456789", 2_064)?;
    fs::write(rt, "digits.warc", text.as_slice())?;
    Ok(FromFile::new(SystemFile(File::open(rt, "digits.warc")?))?)
}

/// Fewer than 8,192 bytes aren't skipped, and none past the size that the file had when it was opened.
#[test]
fn files_skip_within_their_sizes(rt: HostRuntime) -> Result<(), Fail> {
    let mut file = digits(&rt)?;
    assert!(rt; skips(&mut file, 8_191, 0));
    assert!(rt; skips(&mut file, 20_427, 20_427));
    assert!(rt; reads(&mut file, &mut [0; 3], 3, b"789"));
    assert!(rt; skips(&mut file, 8_192, 0));
    let mut whole = digits(&rt)?;
    assert!(rt; skips(&mut whole, u64::MAX, 20_640));
    assert!(rt; skips(&mut whole, u64::MAX, 0));
    assert!(rt; reads(&mut whole, &mut [0; 3], 0, b"\0\0\0"));
    Ok(())
}
