//! Numbers in LEB128: the examples of figures 7.7 and 7.8 of DWARF 5, section 7.6, and spellings by Python's integers.

use dl_num::{
    LebRange, Sleb, Uleb, short_sleb_at_front, short_uleb_at_front, sleb_bytes, sleb_read_back,
    uleb_bytes, uleb_read_back,
};
use std::process::Abort;

/// Each number with its shortest spelling.
const UNSIGNED: &[(u64, &[u8])] = &[
    (2, &[0x02]),
    (127, &[0x7f]),
    (128, &[0x80, 0x01]),
    (129, &[0x81, 0x01]),
    (130, &[0x82, 0x01]),
    (12857, &[0xb9, 0x64]),
    (0, &[0x00]),
    (1 << 60, b"\x80\x80\x80\x80\x80\x80\x80\x80\x10"),
    (u64::MAX, b"\xff\xff\xff\xff\xff\xff\xff\xff\xff\x01"),
];

const SIGNED: &[(i64, &[u8])] = &[
    (2, &[0x02]),
    (-2, &[0x7e]),
    (127, &[0xff, 0x00]),
    (-127, &[0x81, 0x7f]),
    (128, &[0x80, 0x01]),
    (-128, &[0x80, 0x7f]),
    (129, &[0x81, 0x01]),
    (-129, &[0xff, 0x7e]),
    (-1, &[0x7f]),
    (63, &[0x3f]),
    (64, &[0xc0, 0x00]),
    (-64, &[0x40]),
    (-65, &[0xbf, 0x7f]),
    (8192, &[0x80, 0xc0, 0x00]),
    (-8193, &[0xff, 0xbf, 0x7f]),
    (1_048_575, &[0xff, 0xff, 0x3f]),
    (-1_048_576, &[0x80, 0x80, 0x40]),
    (i64::MAX, b"\xff\xff\xff\xff\xff\xff\xff\xff\xff\x00"),
    (i64::MIN, b"\x80\x80\x80\x80\x80\x80\x80\x80\x80\x7f"),
];

/// Asserts that the bytes are one spelling, which ends with its last byte and has this value.
fn reads_unsigned(rt: &impl Abort, number: &mut Uleb, bytes: &[u8], value: Result<u64, LebRange>) {
    for (i, byte) in bytes.iter().enumerate() {
        let answer = number.push(*byte);
        let last = bytes.len() - i == 1;
        assert_eq!(rt; answer, if last { Some(value) } else { None });
    }
}

fn reads_signed(rt: &impl Abort, number: &mut Sleb, bytes: &[u8], value: Result<i64, LebRange>) {
    for (i, byte) in bytes.iter().enumerate() {
        let answer = number.push(*byte);
        let last = bytes.len() - i == 1;
        assert_eq!(rt; answer, if last { Some(value) } else { None });
    }
}

#[test]
fn unsigned_spellings(rt: HostRuntime) {
    for (number, bytes) in UNSIGNED {
        assert!(rt; uleb_bytes(*number).as_slice() == *bytes);
        reads_unsigned(&rt, &mut Uleb::new(), bytes, Ok(*number));
        assert_eq!(rt; uleb_read_back(*number), Some(Ok(*number)));
        let is_short = matches!(short_uleb_at_front(bytes), Some((value, [])) if value == *number);
        assert_eq!(rt; is_short, bytes.len() < 3);
    }
}

#[test]
fn signed_spellings(rt: HostRuntime) {
    for (number, bytes) in SIGNED {
        assert!(rt; sleb_bytes(*number).as_slice() == *bytes);
        reads_signed(&rt, &mut Sleb::new(), bytes, Ok(*number));
        assert_eq!(rt; sleb_read_back(*number), Some(Ok(*number)));
        let is_short = matches!(short_sleb_at_front(bytes), Some((value, [])) if value == *number);
        assert_eq!(rt; is_short, bytes.len() < 4);
    }
}
