use crc_32::Crc32;
use std::test::Fail;

#[test]
fn nine_digits_have_the_check_value_of_the_catalogue(rt: HostRuntime) -> Result<(), Fail> {
    let crc = Crc32::new(rt.alloc())?;
    assert_eq!(rt; crc.update(0, b"123456789"), 0xcbf4_3926);
    assert_eq!(rt; crc.update(0, b""), 0);
    Ok(())
}

#[test]
fn pieces_have_the_checksum_of_the_whole(rt: HostRuntime) -> Result<(), Fail> {
    let crc = Crc32::new(rt.alloc())?;
    let text = b"The quick brown fox jumps over the lazy dog";
    assert_eq!(rt; crc.update(0, text), 0x414f_a339);
    for cut in 0..=text.len() {
        assert_eq!(rt;
            crc.update(crc.update(0, &text[..cut]), &text[cut..]),
            0x414f_a339,
            "at {cut}"
        );
    }
    Ok(())
}
