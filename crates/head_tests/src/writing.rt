//! How long headers are that are written.

use crate::vectors::{DWARF64_WITH_MD5, EMPTY_PROGRAM};
use dl_head::{TooLong, header_len};
use dl_num::Order;
use test_support::header_of;

/// A header, how long its program is, and how long the header before that.
const LENS: &[(&[u8], u64, Result<u64, TooLong>)] = &[
    (EMPTY_PROGRAM, 0, Ok(34)),
    (EMPTY_PROGRAM, 4_294_967_249, Ok(34)),
    (EMPTY_PROGRAM, 4_294_967_250, Err(TooLong)),
    (DWARF64_WITH_MD5, 1_099_511_627_710, Ok(78)),
    (DWARF64_WITH_MD5, 1_099_511_627_711, Err(TooLong)),
    (DWARF64_WITH_MD5, u64::MAX, Err(TooLong)),
];

#[test]
fn unit_lengths_that_are_written_have_limits(rt: HostRuntime) {
    for (bytes, program, len) in LENS {
        let header = header_of(rt.alloc(), Order::Little, bytes).expect(&rt, "a header");
        assert!(rt; header_len(&header, *program) == *len);
    }
}
