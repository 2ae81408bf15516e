//! The program of a row, from the row before it. Section 6.2.5.

ghost use Rattle.std.specs.Prelude.{◌≡◌, ◌+◌, ◌≤◌, ◌<◌, ◌^◌, ◌++◌, false, length, take};
ghost use Rattle.std.specs.Prelude.{None, Some, Option, IfSome, unwrap_or, if◌then◌else◌};
ghost use Rattle.dl_field.specs.Usable.{IsUsable};
ghost use Rattle.dl_emit.specs.Program.{when, settings, marks, instructions as instructions_of};
ghost use Rattle.dl_emit.specs.Program.{advance_by as advance_by_of, advance as advance_of};
ghost use Rattle.dl_emit.specs.Program.{line_advance as line_advance_of, special as special_of, advances, appended};
ghost use Rattle.dl_emit.specs.Program.{placed, row_operations, start as start_of, kept as kept_of};
ghost use Rattle.dl_emit.specs.Room.{room};
ghost use Rattle.dl_emit.specs.WrittenUnit.{operations_bytes};

use crate::bytes::put_operation;
use dl_head::Params;
use dl_num::Order;
use dl_rows::{Operation, Row};

/// How many bytes the program of one row has at most.
pub const ROW: usize = 86;

/// Puts the program of a row, the row before it in its sequence being given, and answers where it ends.
#[inline(always)]
pub fn put_row(
    buffer: &mut [u8],
    at: usize,
    order: Order,
    params: &Params,
    before: &Option<Row>,
    row: &Row,
) -> usize
    requires usable { IsUsable params.now }
    requires room { at + ROW ≤ length buffer.old }
    ensures put { take result buffer.new ≡ take at buffer.old
        ++ operations_bytes order params.now (row_operations params.now before.now row.now) }
    ensures end { result ≤ at + ROW }
    ensures fits { result ≤ length buffer.new }
{
    let Some(before) = before else {
        return put_first(buffer, at, order, params, row);
    };
    let Some(advance) = common_advance(params, before, row) else {
        return put_other(buffer, at, order, params, before, row);
    };
    let at = put_settings(buffer, at, order, params, before, row);
    let at = put_marks(buffer, at, order, params, row);
    let line = line_advance(before.line, row.line);
    put_stepped(buffer, at, order, params, line, advance)
}

/// Puts the program of a row that isn't a common one, and answers where it ends.
#[inline(never)]
fn put_other(
    buffer: &mut [u8],
    at: usize,
    order: Order,
    params: &Params,
    before: &Row,
    row: &Row,
) -> usize
    requires usable { IsUsable params.now }
    requires room { at + ROW ≤ length buffer.old }
    ensures put { take result buffer.new ≡ take at buffer.old
        ++ operations_bytes order params.now (row_operations params.now (Some before.now) row.now) }
    ensures end { result ≤ at + ROW }
{
    let at = put_settings(buffer, at, order, params, before, row);
    let at = put_marks(buffer, at, order, params, row);
    let line = line_advance(before.line, row.line);
    let advance = advance(params, before, row);
    put_placed(buffer, at, order, params, row, line, advance)
}

/// Puts the program of the first row of a sequence, and answers where it ends.
#[inline(never)]
fn put_first(buffer: &mut [u8], at: usize, order: Order, params: &Params, row: &Row) -> usize
    requires usable { IsUsable params.now }
    requires room { at + ROW ≤ length buffer.old }
    ensures put { take result buffer.new ≡ take at buffer.old
        ++ operations_bytes order params.now (row_operations params.now None row.now) }
    ensures end { result ≤ at + ROW }
{
    let at = put_settings(buffer, at, order, params, &start(params), row);
    let at = put_marks(buffer, at, order, params, row);
    put_placed(
        buffer,
        at,
        order,
        params,
        row,
        line_advance(1, row.line),
        None,
    )
}

/// Makes this row the row before, for the row after it.
#[inline(always)]
pub fn keep(before: &mut Option<Row>, row: &Row)
    ensures { before.new ≡ kept_of row.now }
{
    if row.end_sequence {
        *before = None;
    } else {
        *before = Some(*row);
    }
}

/// What the first row of a sequence starts from. Section 6.2.2.
fn start(params: &Params) -> Row
    ensures { result ≡ start_of params.now }
{
    Row {
        address: 0,
        file: 1,
        line: 1,
        column: 0,
        isa: 0,
        discriminator: 0,
        op_index: 0,
        is_stmt: params.default_is_stmt != 0,
        basic_block: false,
        end_sequence: false,
        prologue_end: false,
        epilogue_begin: false,
    }
}

/// Puts an operation where it is wanted, and answers where it ends.
#[inline(always)]
fn put_if(
    buffer: &mut [u8],
    at: usize,
    order: Order,
    params: &Params,
    is_wanted: bool,
    operation: Operation,
) -> usize
    requires usable { IsUsable params.now }
    requires room { at + room operation ≤ length buffer.old }
    ensures put { take result buffer.new
        ≡ take at buffer.old ++ operations_bytes order params.now (when is_wanted operation) }
    ensures end { result ≤ at + room operation }
{
    if is_wanted {
        put_operation(buffer, at, order, params.address_size, operation)
    } else {
        at
    }
}

/// Puts what holds to the end of the sequence, where it isn't as before, and answers where it ends.
#[inline(always)]
fn put_settings(
    buffer: &mut [u8],
    at: usize,
    order: Order,
    params: &Params,
    before: &Row,
    row: &Row,
) -> usize
    requires usable { IsUsable params.now }
    requires room { at + 34 ≤ length buffer.old }
    ensures put { take result buffer.new
        ≡ take at buffer.old ++ operations_bytes order params.now (settings before.now row.now) }
    ensures end { result ≤ at + 34 }
{
    let file = Operation::SetFile(row.file);
    let at = put_if(buffer, at, order, params, row.file != before.file, file);
    let column = Operation::SetColumn(row.column);
    let at = put_if(
        buffer,
        at,
        order,
        params,
        row.column != before.column,
        column,
    );
    let turned = row.is_stmt != before.is_stmt;
    let at = put_if(
        buffer,
        at,
        order,
        params,
        turned,
        Operation::NegateStatement,
    );
    let isa = Operation::SetIsa(row.isa);
    put_if(buffer, at, order, params, row.isa != before.isa, isa)
}

/// Puts what holds for the row alone, and answers where it ends.
#[inline(always)]
fn put_marks(buffer: &mut [u8], at: usize, order: Order, params: &Params, row: &Row) -> usize
    requires usable { IsUsable params.now }
    requires room { at + 16 ≤ length buffer.old }
    ensures put { take result buffer.new
        ≡ take at buffer.old ++ operations_bytes order params.now (marks row.now) }
    ensures end { result ≤ at + 16 }
{
    let has_flag = row.basic_block | row.prologue_end | row.epilogue_begin;
    if row.discriminator == 0 && !has_flag {
        return at;
    }
    put_some_marks(buffer, at, order, params, row)
}

/// `put_marks` of a row that has one.
#[inline(never)]
fn put_some_marks(buffer: &mut [u8], at: usize, order: Order, params: &Params, row: &Row) -> usize
    requires usable { IsUsable params.now }
    requires room { at + 16 ≤ length buffer.old }
    ensures put { take result buffer.new
        ≡ take at buffer.old ++ operations_bytes order params.now (marks row.now) }
    ensures end { result ≤ at + 16 }
{
    let discriminator = Operation::SetDiscriminator(row.discriminator);
    let at = put_if(
        buffer,
        at,
        order,
        params,
        row.discriminator != 0,
        discriminator,
    );
    let block = Operation::SetBasicBlock;
    let at = put_if(buffer, at, order, params, row.basic_block, block);
    let prologue = Operation::SetPrologueEnd;
    let at = put_if(buffer, at, order, params, row.prologue_end, prologue);
    let epilogue = Operation::SetEpilogueBegin;
    put_if(buffer, at, order, params, row.epilogue_begin, epilogue)
}

/// Puts the step to a row by an operation advance, where there is one, and else by its address, and answers where it
/// ends.
#[inline(always)]
fn put_placed(
    buffer: &mut [u8],
    at: usize,
    order: Order,
    params: &Params,
    row: &Row,
    line: i64,
    advance: Option<u64>,
) -> usize
    requires usable { IsUsable params.now }
    requires room { at + 36 ≤ length buffer.old }
    ensures put { take result buffer.new ≡ take at buffer.old
        ++ operations_bytes order params.now (placed params.now row.now line advance) }
    ensures end { result ≤ at + 36 }
{
    match advance {
        Some(advance) => put_appended(buffer, at, order, params, row.end_sequence, line, advance),
        None => {
            let address = Operation::SetAddress(row.address);
            let at = put_operation(buffer, at, order, params.address_size, address);
            let op_index = u64::from(row.op_index);
            put_appended(buffer, at, order, params, row.end_sequence, line, op_index)
        }
    }
}

/// Puts a line advance, an operation advance, and what appends the row, and answers where they end.
#[inline(always)]
fn put_appended(
    buffer: &mut [u8],
    at: usize,
    order: Order,
    params: &Params,
    end_sequence: bool,
    line: i64,
    advance: u64,
) -> usize
    requires usable { IsUsable params.now }
    requires room { at + 25 ≤ length buffer.old }
    ensures put { take result buffer.new ≡ take at buffer.old
        ++ operations_bytes order params.now (appended params.now end_sequence line advance) }
    ensures end { result ≤ at + 25 }
{
    if end_sequence {
        let at = put_advances(buffer, at, order, params, line, advance);
        let operation = Operation::EndSequence;
        return put_operation(buffer, at, order, params.address_size, operation);
    }
    put_stepped(buffer, at, order, params, line, advance)
}

/// Puts a line advance, an operation advance, and what appends a row that isn't an end row, and answers where they end.
#[inline(always)]
fn put_stepped(
    buffer: &mut [u8],
    at: usize,
    order: Order,
    params: &Params,
    line: i64,
    advance: u64,
) -> usize
    requires usable { IsUsable params.now }
    requires room { at + 23 ≤ length buffer.old }
    ensures put { take result buffer.new ≡ take at buffer.old
        ++ operations_bytes order params.now (appended params.now false line advance) }
    ensures end { result ≤ at + 23 }
{
    let size = params.address_size;
    match special(params, line, advance) {
        Some(opcode) => put_operation(buffer, at, order, size, Operation::Special(opcode)),
        None => {
            let at = put_advances(buffer, at, order, params, line, advance);
            put_operation(buffer, at, order, size, Operation::Copy)
        }
    }
}

/// Puts a line advance and an operation advance that aren't 0, and answers where they end.
#[inline(always)]
fn put_advances(
    buffer: &mut [u8],
    at: usize,
    order: Order,
    params: &Params,
    line: i64,
    advance: u64,
) -> usize
    requires usable { IsUsable params.now }
    requires room { at + 22 ≤ length buffer.old }
    ensures put { take result buffer.new
        ≡ take at buffer.old ++ operations_bytes order params.now (advances line advance) }
    ensures end { result ≤ at + 22 }
{
    let lines = Operation::AdvanceLine(line);
    let at = put_if(buffer, at, order, params, line != 0, lines);
    let operations = Operation::AdvancePc(advance);
    put_if(buffer, at, order, params, advance != 0, operations)
}

/// The least number of instructions that are `size` bytes long together, each of `minimum` bytes.
#[inline(always)]
fn instructions(minimum: u8, size: u64) -> Option<u64>
    ensures { result ≡ instructions_of minimum size }
{
    if minimum == 0 {
        return if size == 0 { Some(0) } else { None };
    }
    if minimum == 1 {
        return Some(size);
    }
    let minimum = u64::from(minimum);
    if size % minimum == 0 {
        Some(size / minimum)
    } else {
        None
    }
}

/// The operation advance by this many instructions, and from one op_index to another. Section
/// 6.2.5.1.
#[inline(always)]
fn advance_by(params: &Params, from: u8, to: u8, instructions: u64) -> Option<u64>
    ensures { result ≡ advance_by_of params.now from to instructions }
{
    if params.maximum_operations_per_instruction == 1 && from == to {
        return Some(instructions);
    }
    let maximum = u128::from(params.maximum_operations_per_instruction);
    let end = u128::from(instructions) * maximum + u128::from(to);
    let by = end.checked_sub(u128::from(from))?;
    u64::try_from(by).ok()
}

/// The operation advance from a row to the next one of its sequence.
#[inline(always)]
fn advance(params: &Params, before: &Row, row: &Row) -> Option<u64>
    ensures { result ≡ advance_of params.now before.now row.now }
{
    let size = row.address.checked_sub(before.address)?;
    let instructions = instructions(params.minimum_instruction_length, size)?;
    advance_by(params, before.op_index, row.op_index, instructions)
}

/// The operation advance to a row that isn't an end row, where each instruction has one byte and one operation. Most
/// rows have it; the others are left to calls that aren't inlined.
#[inline(always)]
fn common_advance(params: &Params, before: &Row, row: &Row) -> Option<u64>
    ensures advance { IfSome result (λ by. advance_of params.now before.now row.now ≡ Some by) }
    ensures goes_on { IfSome result (λ _. row.now.end_sequence ≡ false) }
{
    let is_bytewise = params.minimum_instruction_length == 1
        && params.maximum_operations_per_instruction == 1;
    if row.end_sequence || !is_bytewise || before.op_index != row.op_index {
        return None;
    }
    advance(params, before, row)
}

/// From one line to another, modulo 2^64.
#[inline(always)]
fn line_advance(from: u64, to: u64) -> i64
    ensures { result ≡ line_advance_of from to }
{
    to.wrapping_sub(from).cast_signed()
}

/// The special opcode for a line advance and an operation advance, if there is one. Section
/// 6.2.5.1.
#[inline(always)]
fn special(params: &Params, line: i64, advance: u64) -> Option<u8>
    ensures { result ≡ special_of params.now line advance }
{
    let above = line.checked_sub(i64::from(params.line_base))?;
    let range = i64::from(params.line_range);
    if above < 0 || range <= above || 255 < advance {
        return None;
    }
    u8::try_from(above as u64 + range as u64 * advance + 13).ok()
}
