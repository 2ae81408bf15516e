//! Headers.
use arrayvec::ArrayVec;
use dl_head::{Dialect, Format, HeadReader, Header, Params};
use dl_num::Order;
use std::alloc::Global;

/// The params of most compilers: addresses of 8 bytes, and the standard opcodes.
pub fn params(format: Format) -> Params {
    Params {
        format,
        version: 5,
        address_size: 8,
        segment_selector_size: 0,
        minimum_instruction_length: 1,
        maximum_operations_per_instruction: 1,
        default_is_stmt: 1,
        line_base: -5,
        line_range: 14,
        opcode_base: 13,
        lengths: opcode_lengths(&[0, 1, 1, 1, 1, 0, 0, 0, 1, 0, 0, 1]),
    }
}

/// Lengths of standard opcodes, from opcode 1 on; none where these are more than 254.
pub fn opcode_lengths(of: &[u8]) -> ArrayVec<u8, 254> {
    let mut lengths = ArrayVec::new();
    let _room = lengths.try_extend_from_slice(of);
    lengths
}

/// The header that the bytes begin with, if it is whole, sound and of version 5.
pub fn header_of(alloc: Global, order: Order, bytes: &[u8]) -> Option<Header> {
    let mut reader = HeadReader::new(alloc, Dialect::version_5(order));
    reader.offer(bytes);
    reader.into_header()
}
