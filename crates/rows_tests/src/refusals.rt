//! Units that aren't written.

use dl_emit::{EmitFault, Program, measure, write_unit};
use dl_head::Header;
use dl_memory::System;
use dl_num::Order;
use dl_rows::Row;
use std::alloc::Global;
use std::process::Abort;
use test_support::{Sink, header_of, row};

/// The header of an empty program: the 32-bit format, addresses of 8 bytes, opcode_base 13, empty tables. Little.
pub const EMPTY_PROGRAM: [u8; 34] = *b"\x1e\0\0\0\x05\0\x08\0\x16\0\0\0\x01\x01\x01\xfb\x0e\x0d\
    \0\x01\x01\x01\x01\0\0\0\x01\0\0\x01\0\0\0\0";

/// A header of opcode_base 10.
const OPCODE_BASE_10: &[u8] = b"\x1b\0\0\0\x05\0\x08\0\x13\0\0\0\x01\x01\x01\xfb\x0e\x0a\0\x01\
    \x01\x01\x01\0\0\0\x01\0\0\0\0";

/// The header that the bytes are.
pub fn header(rt: &impl Abort, alloc: Global, bytes: &[u8]) -> Header {
    header_of(alloc, Order::Little, bytes).expect(rt, "a header")
}

/// The header of an empty program with this address_size, minimum_instruction_length and
/// maximum_operations_per_instruction.
fn header_with(rt: &impl Abort, alloc: Global, numbers: [u8; 3]) -> Header {
    let mut bytes = EMPTY_PROGRAM;
    let [address_size, minimum, maximum] = numbers;
    bytes[6] = address_size;
    bytes[12] = minimum;
    bytes[13] = maximum;
    header(rt, alloc, &bytes)
}

/// Begins a unit with this header, and adds these rows one by one.
fn begin(rt: &impl Abort, memory: &System, program: &mut Program, head: &Header, rows: &[Row]) {
    program.begin(head);
    for row in rows {
        program.push(memory, row).expect(rt, "memory");
    }
}

/// Asserts that nothing is written, for this reason, neither of the rows at once nor of a program of them.
fn assert_refused(
    rt: &impl Abort,
    memory: &System,
    output: &mut Sink,
    program: &mut Program,
    head: &Header,
    rows: &[Row],
    fault: EmitFault,
) {
    begin(rt, memory, program, head, rows);
    assert!(rt; measure(head, rows) == Err(fault), "{fault:?}");
    assert!(rt; write_unit(output, Order::Little, head, rows) == Err(fault));
    assert!(rt; program.write_header(output, head) == Err(fault));
    assert!(rt; output.held.is_empty());
}

/// The same of a new writer and a new program.
fn assert_refused_anew(
    rt: &impl Abort,
    alloc: Global,
    head: &Header,
    rows: &[Row],
    fault: EmitFault,
) {
    let output = &mut Sink::new(alloc, 1000, 7);
    let program = &mut Program::new(alloc, Order::Little);
    assert_refused(rt, &System::new(alloc), output, program, head, rows, fault);
}

/// A row is refused for opcode_base 10, whatever its op_index.
#[test]
fn opcode_base_10(rt: HostRuntime) {
    let head = header(&rt, rt.alloc(), OPCODE_BASE_10);
    for op_index in [0, 1] {
        let rows = [row(0, op_index, 6)];
        assert_refused_anew(&rt, rt.alloc(), &head, &rows, EmitFault::OpcodeBase);
    }
}

/// address_size, minimum_instruction_length and maximum_operations_per_instruction; the address and the op_index of each
/// of two rows; and which of these is out of range first.
type Case = ([u8; 3], [(u64, u8); 2], usize);

const CASES: [Case; 6] = [
    ([8, 0x10, 3], [(0x1000, 3), (0x1000, 0)], 0),
    ([8, 0x10, 3], [(0, 2), (0, 3)], 1),
    ([8, 0x10, 3], [(0, 3), (0, 4)], 0),
    ([1, 1, 1], [(0xff, 0), (0x100, 0)], 1),
    ([2, 1, 1], [(0xffff, 0), (0x1_0000, 0)], 1),
    ([4, 1, 1], [(0xffff_ffff, 0), (0x1_0000_0000, 0)], 1),
];

fn assert_case(rt: &impl Abort, alloc: Global, case: &Case) {
    let (numbers, [(first, first_op), (second, second_op)], place) = *case;
    let head = header_with(rt, alloc, numbers);
    let rows = [row(first, first_op, 1), row(second, second_op, 1)];
    assert_refused_anew(rt, alloc, &head, &rows, EmitFault::RowRange(place));
}

#[test]
fn rows_out_of_range(rt: HostRuntime) {
    for case in &CASES {
        assert_case(&rt, rt.alloc(), case);
    }
}

/// The unit of a row at address 4 and line 2, with addresses of 4 bytes.
const BEGUN_ANEW: &[u8] = b"\x26\0\0\0\x05\0\x04\0\x16\0\0\0\x01\x01\x01\xfb\x0e\x0d\0\x01\
    \x01\x01\x01\0\0\0\x01\0\0\x01\0\0\0\0\0\x05\x02\x04\0\0\
    \0\x13";

/// Appends the unit of this header and the rows of this program, part after part.
fn append_unit(rt: &impl Abort, program: &Program, head: &Header, output: &mut Sink) {
    assert!(rt; program.write_header(output, head) == Ok(34));
    for part in [program.first_bytes(), program.last_bytes()] {
        output.held.extend_from_slice(part).expect(rt, "memory");
    }
}

/// Asserts that a program that begins anew has the rows from then on alone.
fn assert_begins_anew(
    rt: &impl Abort,
    memory: &System,
    output: &mut Sink,
    program: &mut Program,
    head: &Header,
) {
    begin(
        rt,
        memory,
        program,
        head,
        &[row(1 << 32, 0, 1), row(0, 0, 1)],
    );
    assert!(rt; program.write_header(output, head) == Err(EmitFault::RowRange(0)));
    begin(rt, memory, program, head, &[row(4, 0, 2)]);
    append_unit(rt, program, head, output);
    assert!(rt; output.held.as_slice() == BEGUN_ANEW);
}

/// A program begins anew with a header: no row of before is one of it, and none is refused any more.
#[test]
fn a_program_begins_anew(rt: HostRuntime) {
    let head = header_with(&rt, rt.alloc(), [4, 1, 1]);
    let output = &mut Sink::new(rt.alloc(), 1000, 1000);
    let program = &mut Program::new(rt.alloc(), Order::Little);
    assert_begins_anew(&rt, &System::new(rt.alloc()), output, program, &head);
}
