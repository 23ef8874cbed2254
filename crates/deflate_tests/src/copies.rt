use deflate_copies::{SLACK, copy_back};
use std::test::Fail;

#[test]
fn a_copy_may_overlap_itself_as_in_the_standard(rt: HostRuntime) -> Result<(), Fail> {
    let mut out = [0u8; 7 + SLACK];
    out[0] = b'X';
    out[1] = b'Y';
    copy_back(&mut out, 2, 2, 5);
    assert_eq!(rt; &out[..7], b"XYXYXYX".as_slice());
    Ok(())
}

#[test]
fn each_distance_repeats_the_text_before_it(rt: HostRuntime) -> Result<(), Fail> {
    let text = b"abcdefghijklmnopqrst";
    for distance in 1..=20usize {
        let mut out = [0u8; 20 + 258 + SLACK];
        out[..20].copy_from_slice(text);
        copy_back(&mut out, 20, distance, 258);
        for at in 20..278usize {
            assert_eq!(rt; out[at], out[at - distance], "at {at} and {distance}");
        }
        assert_eq!(rt; &out[..20], text.as_slice());
    }
    Ok(())
}
