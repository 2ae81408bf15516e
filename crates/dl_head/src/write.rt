//! Headers, written with shortest numbers. Section 6.2.4.

ghost use Rattle.std.specs.Prelude.{◌≡◌, ◌↔◌, ◌++◌, ◌+◌, ◌-◌, ◌^◌, ℕ, Err, IsOk, IfOk, IsTrue, OnErr, length, min};
ghost use Rattle.dl_num.specs.declared.fixed.Order.{Order};
ghost use Rattle.dl_num.specs.declared.fixed.Order.TheVariants.{Little};
ghost use Rattle.dl_head.specs.HeaderLayout.{fixed_part as fixed_part_of};
ghost use Rattle.dl_num.specs.Fixed.{fixed_bytes};
ghost use Rattle.dl_head.specs.Spelled.{byte_parts, front_parts, number_parts, version_parts};
ghost use Rattle.dl_table.specs.Value.{offset_size as offset_size_of};
ghost use Rattle.dl_table.specs.Writing.{Writes};
ghost use Rattle.dl_head.specs.Writing.{WritesHeader};
ghost use Rattle.dl_table.specs.Written.{table_bytes};
ghost use Rattle.dl_head.specs.Written.{byte_of, header_bytes, header_length_of, initial_length_bytes, is_within_limit};
ghost use Rattle.dl_head.specs.Written.{written_limit};

use crate::header::Header;
use crate::sizes::{UNIT_LENGTH_LIMIT, fixed_part, initial_size};
use dl_field::Params;
use dl_num::Order;
use dl_output::Destination;
use dl_table::counted::{put, put_number};
use dl_table::{Format, HeadWrite};
use thiserror::Error;

/// The unit would be longer than its format allows.
#[derive(Clone, Copy, Debug, PartialEq, Eq, Error)]
#[error("unit too long")]
pub struct TooLong;

/// How many bytes a unit has before its program of `program_len` bytes. It is refused where unit_length
/// would be above 0xffffffef in the 32-bit format, or above 2^40 in the 64-bit format.
pub fn header_len(header: &Header, program_len: u64) -> Result<u64, TooLong>
    ensures refused { IsOk result ↔ IsTrue (is_within_limit header.now program_len) }
    ensures len { IfOk result
        (λ n. (order : Order) → n ≡ length (header_bytes order header.now program_len)) }
{
    let format = header.params().format;
    let unit = fields_len(header).saturating_add(program_len);
    if unit > longest_unit(format) {
        return Err(TooLong);
    }
    Ok(initial_size(format) + fields_len(header))
}

/// Writes the bytes of a unit before its program, which has `program_len` bytes, and answers how many
/// they are. After a write that failed exactly the first `out` bytes are out.
pub fn write_header<W: Destination>(
    output: &mut W,
    order: Order,
    header: &Header,
    program_len: u64,
) -> Result<u64, HeadWrite>
    ensures written { WritesHeader order header.now program_len
        (W.contents output.old) (W.contents output.new) result }
    ensures blames { (out : ℕ) → result ≡ Err (HeadWrite.Write out) → W.fails }
{
    let unit = fields_len(header).saturating_add(program_len);
    if unit > longest_unit(header.params().format) {
        return Err(HeadWrite::TooLong);
    }
    put_header(output, order, header, unit, header_length(header))
}

fn put_header<W: Destination>(
    output: &mut W,
    order: Order,
    header: &Header,
    unit: u64,
    rest: u64,
) -> Result<u64, HeadWrite>
    ensures written { Writes (W.contents output.old) (W.contents output.new) 0
        (front_parts order header.now.params unit rest ++ (table_bytes order header.now.directories
        ++ table_bytes order header.now.files)) result }
    ensures blames { OnErr result W.fails }
{
    let out = put_front(output, 0, order, header.params(), unit, rest)?;
    put_tables(output, out, order, header)
}

fn put_tables<W: Destination>(
    output: &mut W,
    out: u64,
    order: Order,
    header: &Header,
) -> Result<u64, HeadWrite>
    ensures written { Writes (W.contents output.old) (W.contents output.new) out
        (table_bytes order header.now.directories ++ table_bytes order header.now.files) result }
    ensures blames { OnErr result W.fails }
{
    let out = header.directories().write(output, out, order)?;
    header.files().write(output, out, order)
}

/// Writes the fields before the tables.
fn put_front<W: Destination>(
    output: &mut W,
    out: u64,
    order: Order,
    params: &Params,
    unit: u64,
    rest: u64,
) -> Result<u64, HeadWrite>
    ensures written { Writes (W.contents output.old) (W.contents output.new) out
        (front_parts order params.now unit rest) result }
    ensures blames { OnErr result W.fails }
{
    let out = put_start(output, out, order, params, unit)?;
    put_numbers(output, out, order, params, rest)
}

/// Writes the fields before header_length.
fn put_start<W: Destination>(
    output: &mut W,
    out: u64,
    order: Order,
    params: &Params,
    unit: u64,
) -> Result<u64, HeadWrite>
    ensures written { Writes (W.contents output.old) (W.contents output.new) out
        (initial_length_bytes order params.now.format unit
        ++ version_parts order params.now) result }
    ensures blames { OnErr result W.fails }
{
    let out = put_initial_length(output, out, order, params.format, unit)?;
    put_version(output, out, order, params)
}

/// Writes unit_length. Section 7.4.
fn put_initial_length<W: Destination>(
    output: &mut W,
    out: u64,
    order: Order,
    format: Format,
    unit: u64,
) -> Result<u64, HeadWrite>
    ensures written { Writes (W.contents output.old) (W.contents output.new) out
        (initial_length_bytes order format unit) result }
    ensures blames { OnErr result W.fails }
{
    match format {
        Format::Dwarf32 => put_number(output, out, order, 4, unit),
        Format::Dwarf64 => {
            let out = put_number(output, out, order, 4, 0xffff_ffff)?;
            put_number(output, out, order, 8, unit)
        }
    }
}

/// Writes version, address_size and segment_selector_size.
fn put_version<W: Destination>(
    output: &mut W,
    out: u64,
    order: Order,
    params: &Params,
) -> Result<u64, HeadWrite>
    ensures written { Writes (W.contents output.old) (W.contents output.new) out
        (version_parts order params.now) result }
    ensures blames { OnErr result W.fails }
{
    let out = put_number(output, out, order, 2, 5)?;
    put(
        output,
        out,
        &[params.address_size, params.segment_selector_size],
    )
}

/// Writes header_length, and the fields from it to the opcode lengths.
fn put_numbers<W: Destination>(
    output: &mut W,
    out: u64,
    order: Order,
    params: &Params,
    rest: u64,
) -> Result<u64, HeadWrite>
    ensures written { Writes (W.contents output.old) (W.contents output.new) out
        (fixed_bytes order (offset_size_of params.now.format) rest
        ++ number_parts params.now) result }
    ensures blames { OnErr result W.fails }
{
    let out = put_number(output, out, order, params.format.offset_size(), rest)?;
    put_byte_fields(output, out, params)
}

/// Writes the fields of one byte after header_length, and the opcode lengths.
fn put_byte_fields<W: Destination>(
    output: &mut W,
    out: u64,
    params: &Params,
) -> Result<u64, HeadWrite>
    ensures written { Writes (W.contents output.old) (W.contents output.new) out
        (number_parts params.now) result }
    ensures blames { OnErr result W.fails }
{
    let out = put(output, out, &byte_fields(params))?;
    put(output, out, params.lengths.as_slice())
}

/// The fields of one byte after header_length.
fn byte_fields(params: &Params) -> [u8; 6]
    ensures { result ≡ byte_parts params.now }
{
    [
        params.minimum_instruction_length,
        params.maximum_operations_per_instruction,
        params.default_is_stmt,
        signed_byte(params.line_base),
        params.line_range,
        params.opcode_base,
    ]
}

/// The byte of a signed number.
fn signed_byte(number: i8) -> u8
    ensures { result ≡ byte_of number }
{
    if number < 0 {
        255 - (-1 - number) as u8
    } else {
        number as u8
    }
}

/// How many bytes there are from the version on; 2^64 - 1 where there are more.
fn fields_len(header: &Header) -> u64
    ensures { result ≡ min (fixed_part_of header.now.params.format 5 + header_length_of header.now)
        (2 ^ 64 - 1) }
{
    fixed_part(header.params().format, 5).saturating_add(header_length(header))
}

/// header_length; 2^64 - 1 where it is more.
fn header_length(header: &Header) -> u64
    ensures { result ≡ min (header_length_of header.now) (2 ^ 64 - 1) }
{
    let numbers = header.params().lengths.len() as u64 + 6;
    numbers
        .saturating_add(header.directories().spelled_len())
        .saturating_add(header.files().spelled_len())
}

/// The greatest unit_length that is written.
fn longest_unit(format: Format) -> u64
    ensures { result ≡ written_limit format }
{
    match format {
        Format::Dwarf32 => 0xffff_ffef,
        Format::Dwarf64 => UNIT_LENGTH_LIMIT,
    }
}
