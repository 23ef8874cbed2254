//! Digests in base 32.
use capture_core::base32;

/// Twenty bytes and their letters. RFC 4648, section 10 has `fooba` and its letters; the third row counts from 0 to 31.
const BYTES: &[(&[u8; 20], &[u8; 32])] = &[
    (&[0; 20], b"AAAAAAAAAAAAAAAAAAAAAAAAAAAAAAAA"),
    (&[255; 20], b"77777777777777777777777777777777"),
    (
        b"\x00\x44\x32\x14\xC7\x42\x54\xB6\x35\xCF\x84\x65\x3A\x56\xD7\xC6\x75\xBE\x77\xDF",
        b"ABCDEFGHIJKLMNOPQRSTUVWXYZ234567",
    ),
    (b"foobafoobafoobafooba", b"MZXW6YTBMZXW6YTBMZXW6YTBMZXW6YTB"),
    (
        b"\x80\0\0\0\0\0\0\0\0\0\0\0\0\0\0\0\0\0\0\x01",
        b"QAAAAAAAAAAAAAAAAAAAAAAAAAAAAAAB",
    ),
];

#[test]
fn digests_are_written_in_base_32(rt: HostRuntime) {
    for (bytes, letters) in BYTES {
        assert!(rt; base32(bytes) == **letters);
    }
}
