use deflate_codes::{Codes, code_ranges, fill_table, symbol_at};

/// The lengths of the example of RFC 1951, 3.2.2: the symbols A to H.
const LENGTHS: [u8; 8] = [3, 3, 3, 3, 3, 2, 4, 4];

/// Their codes, 15 bits of the data with zeros behind them: 010, 011, 100, 101, 110, 00, 1110 and 1111.
const BITS: [u32; 8] = [0b010, 0b110, 0b001, 0b101, 0b011, 0b00, 0b0111, 0b1111];

#[test]
fn the_example_of_the_standard_has_its_codes(rt: HostRuntime) {
    let ranges = code_ranges(&LENGTHS).expect(&rt, "the lengths give codes");
    let codes = Codes {
        lengths: &LENGTHS,
        ranges: &ranges,
    };
    assert!(rt; ranges.first[2] == 0);
    assert!(rt; ranges.first[3] == 2);
    assert!(rt; ranges.first[4] == 14);
    for (symbol, bits) in BITS.iter().enumerate() {
        assert_eq!(rt; symbol_at(codes, *bits), Some(symbol));
    }
}

#[test]
fn a_table_has_each_code_with_any_bits_behind_it(rt: HostRuntime) {
    let ranges = code_ranges(&LENGTHS).expect(&rt, "the lengths give codes");
    let symbols = [
        0,
        1 << 16,
        2 << 16,
        3 << 16,
        4 << 16,
        5 << 16,
        6 << 16,
        7 << 16,
    ];
    let mut table = [9u32; 8];
    let codes = Codes {
        lengths: &LENGTHS,
        ranges: &ranges,
    };
    fill_table(codes, &symbols, 3, &mut table);
    assert_eq!(rt;
        table,
        [
            5 << 16 | 0x202,
            2 << 16 | 0x303,
            0x303,
            4 << 16 | 0x303,
            5 << 16 | 0x202,
            3 << 16 | 0x303,
            1 << 16 | 0x303,
            0,
        ]
    );
}

#[test]
fn a_code_is_used_up_or_alone_or_none(rt: HostRuntime) {
    assert!(rt; code_ranges(&[1, 1]).is_ok());
    assert!(rt; code_ranges(&[0, 1, 0]).is_ok());
    assert!(rt; code_ranges(&[0, 0]).is_ok());
    assert!(rt; code_ranges(&[]).is_ok());
    assert!(rt; code_ranges(&[15, 1]).is_err());
    assert!(rt; code_ranges(&[2]).is_err());
    assert!(rt; code_ranges(&[1, 1, 1]).is_err());
    assert!(rt; code_ranges(&[1, 2, 3]).is_err());
}

#[test]
fn no_symbol_is_behind_a_single_code(rt: HostRuntime) {
    let lengths = [0, 1];
    let ranges = code_ranges(&lengths).expect(&rt, "one code");
    let codes = Codes {
        lengths: &lengths,
        ranges: &ranges,
    };
    assert_eq!(rt; symbol_at(codes, 0b10), Some(1));
    assert_eq!(rt; symbol_at(codes, 0b01), None);
}
