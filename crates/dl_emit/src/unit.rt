//! Units, measured and written. Section 6.2.4.

ghost use Rattle.std.specs.Prelude.{◌≡◌, ◌<◌, ◌≤◌, ◌+◌, ◌^◌, ◌-◌, length, take, min, None, Some};
ghost use Rattle.std.specs.Prelude.{ℕ, Err, IsTrue, IfOk, IfErr, OnErr, OnOk};
ghost use Rattle.dl_field.specs.Usable.{IsUsable};
ghost use Rattle.dl_table.specs.Writing.{Writes};
ghost use Rattle.dl_emit.specs.WrittenUnit.{is_in_range as is_in_range_of, rows_refusal, program_bytes};
ghost use Rattle.dl_emit.specs.WrittenUnit.{program_len as program_len_of};
ghost use Rattle.dl_emit.specs.Gathered.{Gathers};
ghost use Rattle.dl_emit.specs.Writing.{Measures, WritesUnit};
ghost use Rattle.dl_head.specs.Dialect.{version_5};
ghost use Rattle.dl_emit.specs.Laws.{IsRow, IsUnitAgain};
ghost use Rattle.std.specs.List.{AllByRecursion};

use crate::bytes::BUFFER_LEN;
use crate::fault::EmitFault;
use crate::program::{ROW, keep, put_row};
use dl_head::counted::put;
use dl_head::{HeadWrite, Header, Params, header_len, write_header};
use dl_num::Order;
use dl_output::Destination;
use dl_rows::Row;

/// How many bytes `write_unit` writes for this header and these rows, or why it writes none.
pub fn measure(header: &Header, rows: &[Row]) -> Result<u64, EmitFault>
    ensures { Measures header.now rows.now result }
{
    let program_len = program_len(header.params(), rows)?;
    match header_len(header, program_len) {
        Ok(len) => Ok(len + program_len),
        Err(_) => Err(EmitFault::TooLong),
    }
}

/// Writes a unit of this header and these rows, and answers how many bytes they are.
///
/// Before it writes anything it answers, in this order: `Version` where the header's version isn't 5,
/// `OpcodeBase` where opcode_base isn't 13, `RowRange` with the least place of a row whose op_index
/// isn't below the maximum operations or whose address isn't below 2^(8 * address_size), and
/// `TooLong` where unit_length would be above 0xffffffef in the 32-bit format or above 2^40 in the
/// 64-bit format. After a write that failed exactly the first `out` bytes are out. What was written
/// is read again as a unit of this header, which comes to exactly these rows.
pub fn write_unit<W: Destination>(
    output: &mut W,
    order: Order,
    header: &Header,
    rows: &[Row],
) -> Result<u64, EmitFault>
    ensures written { WritesUnit order header.now rows.now
        (W.contents output.old) (W.contents output.new) result }
    ensures readable { OnOk result (IsUnitAgain (version_5 order) header.now rows.now) }
    ensures blames { (out : ℕ) → result ≡ Err (EmitFault.Write out) → W.fails }
{
    let program_len = program_len(header.params(), rows)?;
    let out = write_header(output, order, header, program_len)?;
    Ok(write_program(output, out, order, header.params(), rows)?)
}

/// Whether the row can be one of a unit with these params.
#[inline(always)]
pub fn is_in_range(params: &Params, row: &Row) -> bool
    requires { IsUsable params.now }
    ensures value { result ≡ is_in_range_of params.now row.now }
    ensures row { IsRow row.now }
{
    let fits = params.address_size >= 8 || row.address < 1 << (8 * params.address_size);
    row.op_index < params.maximum_operations_per_instruction && fits
}

/// How many bytes the program of these rows has; 2^64 - 1 where there are more.
fn program_len(params: &Params, rows: &[Row]) -> Result<u64, EmitFault>
    requires { IsUsable params.now }
    ensures ok { OnOk result (rows_refusal params.now rows.now ≡ None) }
    ensures rows { OnOk result (AllByRecursion IsRow rows.now) }
    ensures len { IfOk result (λ n. n ≡ min (program_len_of params.now rows.now) (2 ^ 64 - 1)) }
    ensures err { IfErr result (λ fault. rows_refusal params.now rows.now ≡ Some fault) }
{
    if params.version != 5 {
        return Err(EmitFault::Version);
    }
    if params.opcode_base != 13 {
        return Err(EmitFault::OpcodeBase);
    }
    let mut program = [0; ROW];
    let mut before = None;
    let mut len = 0u64;
    for (i, row) in rows.iter().enumerate() {
        if !is_in_range(params, row) {
            return Err(EmitFault::RowRange(i));
        }
        let end = put_row(&mut program, 0, Order::Little, params, &before, row);
        len = len.saturating_add(end as u64);
        keep(&mut before, row);
    }
    Ok(len)
}

/// Writes the program of these rows on top of the `out` bytes that are out.
fn write_program<W: Destination>(
    output: &mut W,
    mut out: u64,
    order: Order,
    params: &Params,
    rows: &[Row],
) -> Result<u64, HeadWrite>
    requires usable { IsUsable params.now }
    ensures written { Writes (W.contents output.old) (W.contents output.new) out
        (program_bytes order params.now rows.now) result }
    ensures blames { OnErr result W.fails }
{
    let mut buffer = [0; BUFFER_LEN];
    let mut held = 0;
    let mut before = None;
    for row in rows {
        out = make_room(output, out, &buffer, &mut held)?;
        held = put_row(&mut buffer, held, order, params, &before, row);
        keep(&mut before, row);
    }
    put(output, out, &buffer[..held])
}

/// Writes the bytes that are held at the front of the buffer, where there is no room beside them for a row.
fn make_room<W: Destination>(
    output: &mut W,
    out: u64,
    buffer: &[u8; BUFFER_LEN],
    held: &mut usize,
) -> Result<u64, HeadWrite>
    requires { held.old ≤ BUFFER_LEN }
    ensures written { Gathers (W.contents output.old) (W.contents output.new) out
        (take held.old buffer.now) (take held.new buffer.now) result }
    ensures room { OnOk result (held.new + ROW ≤ BUFFER_LEN) }
    ensures blames { OnErr result W.fails }
{
    if BUFFER_LEN - *held >= ROW {
        return Ok(out);
    }
    let out = put(output, out, &buffer[..*held])?;
    *held = 0;
    Ok(out)
}
