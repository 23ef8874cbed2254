use deflate_bits::{BitBuffer, word_at};

const INPUT: [u8; 10] = [
    0b1011_0010,
    0b0000_0001,
    0xff,
    0,
    0x12,
    0x34,
    0x56,
    0x78,
    0x9a,
    0xbc,
];

#[test]
fn bits_come_from_the_least_significant_one_on(rt: HostRuntime) {
    let held = BitBuffer::at(&INPUT, 0).refill(&INPUT);
    assert!(rt; held.count >= 12);
    assert_eq!(rt; held.peek(&INPUT, 1), 0);
    assert_eq!(rt; held.peek(&INPUT, 3), 0b010);
    let behind = held.skip(&INPUT, 5);
    assert_eq!(rt; behind.peek(&INPUT, 7), 0b000_1101);
    assert_eq!(rt; behind.byte_offset(&INPUT), 1);
}

#[test]
fn the_last_bytes_are_taken(rt: HostRuntime) {
    let held = BitBuffer::at(&INPUT, 8).refill_to_end(&INPUT);
    assert_eq!(rt; held.next, 10);
    assert_eq!(rt; held.count, 16);
    assert_eq!(rt; held.peek(&INPUT, 16), 0xbc9a);
}

#[test]
fn eight_bytes_are_a_number(rt: HostRuntime) {
    assert_eq!(rt; word_at(&INPUT, 2), 0xbc9a_7856_3412_00ff);
}
