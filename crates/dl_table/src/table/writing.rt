//! Tables, written with shortest numbers. Section 6.2.4.

ghost use Rattle.std.specs.Prelude.{◌≡◌, ◌/◌, ◌≤◌, ◌++◌, ◌∷◌, [], length, map, OnErr};
ghost use Rattle.std.specs.List.{flat_map};
ghost use Rattle.dl_num.specs.Fixed.{fixed_bytes};
ghost use Rattle.dl_num.specs.Shortest.{shortest_uleb};
ghost use Rattle.dl_table.specs.Held.{held_end, table_of, value_held, value_lent, values_end};
ghost use Rattle.dl_table.specs.Value.{block, number as number_value, offset_size};
ghost use Rattle.dl_table.specs.Spelled.{entry_parts, format_parts, table_parts};
ghost use Rattle.dl_table.specs.Writing.{Writes};
ghost use Rattle.dl_table.specs.Written.{entry_bytes, pair_bytes, table_bytes, value_bytes};

use crate::counted::{HeadWrite, put, put_number};
use crate::form::{Form, Format};
use crate::table::held::{StoredValue, ValueRef};
use crate::table::{Pair, Table, row, whole_rows};
use dl_num::{Order, uleb_bytes};
use dl_output::Destination;

/// How the numbers of a table are written.
#[derive(Clone, Copy)]
struct Encoding {
    /// The order in which their bytes stand.
    order: Order,
    /// How many bytes an offset has.
    format: Format,
}

impl Table {
    /// Writes the table on top of the `out` bytes that are out, with shortest numbers, and answers how
    /// many are out then; 2^64 - 1 where they are more. Section 6.2.4.1.
    pub fn write<W: Destination>(
        &self,
        output: &mut W,
        out: u64,
        order: Order,
    ) -> Result<u64, HeadWrite>
        ensures written { Writes (W.contents output.old) (W.contents output.new) out
            (table_bytes order self.now) result }
        ensures blames { OnErr result W.fails }
    {
        let encoding = Encoding {
            order,
            format: self.format,
        };
        put_table(
            output,
            out,
            encoding,
            self.pairs.as_slice(),
            self.values.as_slice(),
            self.pool.as_slice(),
        )
    }
}

fn put_table<W: Destination>(
    output: &mut W,
    out: u64,
    encoding: Encoding,
    pairs: &[Pair],
    values: &[StoredValue],
    pool: &[u8],
) -> Result<u64, HeadWrite>
    requires few { length pairs.now ≤ 255 }
    requires within { values_end values.now ≤ length pool.now }
    ensures written { Writes (W.contents output.old) (W.contents output.new) out
        (table_parts encoding.order encoding.format pairs.now values.now pool.now) result }
    ensures blames { OnErr result W.fails }
{
    let out = put_format(output, out, pairs)?;
    put_entries(output, out, encoding, pairs, values, pool)
}

/// Writes the count of the pairs, and the pairs.
fn put_format<W: Destination>(output: &mut W, out: u64, pairs: &[Pair]) -> Result<u64, HeadWrite>
    requires { length pairs.now ≤ 255 }
    ensures written { Writes (W.contents output.old) (W.contents output.new) out
        (format_parts pairs.now) result }
    ensures blames { OnErr result W.fails }
{
    let out = put(output, out, &[pairs.len() as u8])?;
    put_pairs(output, out, pairs)
}

/// Writes the count of the entries, and the entries.
fn put_entries<W: Destination>(
    output: &mut W,
    out: u64,
    encoding: Encoding,
    pairs: &[Pair],
    values: &[StoredValue],
    pool: &[u8],
) -> Result<u64, HeadWrite>
    requires { values_end values.now ≤ length pool.now }
    ensures written { Writes (W.contents output.old) (W.contents output.new) out
        (entry_parts encoding.order encoding.format pairs.now values.now pool.now) result }
    ensures blames { OnErr result W.fails }
{
    let count = whole_rows(values.len(), pairs.len());
    let out = put_uleb(output, out, count as u64)?;
    put_rows(output, out, encoding, pairs, values, pool)
}

fn put_uleb<W: Destination>(output: &mut W, out: u64, number: u64) -> Result<u64, HeadWrite>
    ensures written { Writes (W.contents output.old) (W.contents output.new) out
        (shortest_uleb number) result }
    ensures blames { OnErr result W.fails }
{
    let bytes = uleb_bytes(number);
    put(output, out, bytes.as_slice())
}

fn put_pairs<W: Destination>(output: &mut W, mut out: u64, pairs: &[Pair]) -> Result<u64, HeadWrite>
    ensures written { Writes (W.contents output.old) (W.contents output.new) out
        (flat_map pair_bytes pairs.now) result }
    ensures blames { OnErr result W.fails }
{
    for pair in pairs {
        out = put_pair(output, out, *pair)?;
    }
    Ok(out)
}

fn put_pair<W: Destination>(output: &mut W, out: u64, pair: Pair) -> Result<u64, HeadWrite>
    ensures written { Writes (W.contents output.old) (W.contents output.new) out
        (pair_bytes pair) result }
    ensures blames { OnErr result W.fails }
{
    let out = put_uleb(output, out, pair.content)?;
    put_uleb(output, out, u64::from(pair.form.code()))
}

/// Writes the rows of values, one value for each pair.
fn put_rows<W: Destination>(
    output: &mut W,
    mut out: u64,
    encoding: Encoding,
    pairs: &[Pair],
    values: &[StoredValue],
    pool: &[u8],
) -> Result<u64, HeadWrite>
    requires { values_end values.now ≤ length pool.now }
    ensures written { Writes (W.contents output.old) (W.contents output.new) out
        (flat_map (entry_bytes encoding.order encoding.format pairs.now)
        (table_of encoding.format pairs.now values.now pool.now).entries) result }
    ensures blames { OnErr result W.fails }
{
    for i in 0..whole_rows(values.len(), pairs.len()) {
        let held = row(values, pairs.len(), i);
        out = put_row(output, out, encoding, pairs, held, pool)?;
    }
    Ok(out)
}

fn put_row<W: Destination>(
    output: &mut W,
    mut out: u64,
    encoding: Encoding,
    pairs: &[Pair],
    held: &[StoredValue],
    pool: &[u8],
) -> Result<u64, HeadWrite>
    requires within { values_end held.now ≤ length pool.now }
    requires whole { length held.now ≡ length pairs.now }
    ensures written { Writes (W.contents output.old) (W.contents output.new) out
        (entry_bytes encoding.order encoding.format pairs.now (map (value_held pool.now) held.now)) result }
    ensures blames { OnErr result W.fails }
{
    for (i, pair) in pairs.iter().enumerate() {
        out = put_held(output, out, encoding, pair.form, &held[i], pool)?;
    }
    Ok(out)
}

fn put_held<W: Destination>(
    output: &mut W,
    out: u64,
    encoding: Encoding,
    form: Form,
    held: &StoredValue,
    pool: &[u8],
) -> Result<u64, HeadWrite>
    requires { held_end held.now ≤ length pool.now }
    ensures written { Writes (W.contents output.old) (W.contents output.new) out
        (value_bytes encoding.order encoding.format form (value_held pool.now held.now)) result }
    ensures blames { OnErr result W.fails }
{
    let value = held.lend(pool);
    put_value(output, out, encoding, form, &value)
}

/// Writes a value in its form; nothing where it isn't one of the form. Section 7.5.5.
fn put_value<W: Destination>(
    output: &mut W,
    out: u64,
    encoding: Encoding,
    form: Form,
    value: &ValueRef<'_>,
) -> Result<u64, HeadWrite>
    ensures written { Writes (W.contents output.old) (W.contents output.new) out
        (value_bytes encoding.order encoding.format form (value_lent value.now)) result }
    ensures blames { OnErr result W.fails }
{
    match *value {
        ValueRef::Text(bytes) if form == Form::String => put_text(output, out, bytes),
        ValueRef::LineStr(offset) if form == Form::LineStrp => put_offset(
            output, out, encoding, offset,
        ),
        ValueRef::Str(offset) if form == Form::Strp => put_offset(output, out, encoding, offset),
        ValueRef::StrSup(offset) if form == Form::StrpSup => put_offset(
            output, out, encoding, offset,
        ),
        ValueRef::Number(number) => put_number_of(output, out, encoding.order, form, number),
        ValueRef::Block(bytes) => put_block(output, out, encoding.order, form, bytes),
        ValueRef::Data16(bytes) if form == Form::Data16 => put_sixteen(output, out, bytes),
        _ => Ok(out),
    }
}

/// Writes an offset into a section, of the size that its format has. Section 7.4.
fn put_offset<W: Destination>(
    output: &mut W,
    out: u64,
    encoding: Encoding,
    offset: u64,
) -> Result<u64, HeadWrite>
    ensures written { Writes (W.contents output.old) (W.contents output.new) out
        (fixed_bytes encoding.order (offset_size encoding.format) offset) result }
    ensures blames { OnErr result W.fails }
{
    let size = encoding.format.offset_size();
    put_number(output, out, encoding.order, size, offset)
}

/// Writes a text and its zero byte.
fn put_text<W: Destination>(output: &mut W, out: u64, bytes: &[u8]) -> Result<u64, HeadWrite>
    ensures written { Writes (W.contents output.old) (W.contents output.new) out
        (bytes.now ++ 0 ∷ []) result }
    ensures blames { OnErr result W.fails }
{
    let out = put(output, out, bytes)?;
    put(output, out, &[0])
}

fn put_sixteen<W: Destination>(output: &mut W, out: u64, bytes: [u8; 16]) -> Result<u64, HeadWrite>
    ensures written { Writes (W.contents output.old) (W.contents output.new) out bytes result }
    ensures blames { OnErr result W.fails }
{
    put(output, out, &bytes)
}

fn put_number_of<W: Destination>(
    output: &mut W,
    out: u64,
    order: Order,
    form: Form,
    number: u64,
) -> Result<u64, HeadWrite>
    ensures written { (format : Format) → Writes (W.contents output.old) (W.contents output.new) out
        (value_bytes order format form (number_value number)) result }
    ensures blames { OnErr result W.fails }
{
    match form {
        Form::Data1 => put_number(output, out, order, 1, number),
        Form::Data2 => put_number(output, out, order, 2, number),
        Form::Data4 => put_number(output, out, order, 4, number),
        Form::Data8 => put_number(output, out, order, 8, number),
        Form::Udata => put_uleb(output, out, number),
        _ => Ok(out),
    }
}

fn put_block<W: Destination>(
    output: &mut W,
    out: u64,
    order: Order,
    form: Form,
    bytes: &[u8],
) -> Result<u64, HeadWrite>
    ensures written { (format : Format) → Writes (W.contents output.old) (W.contents output.new) out
        (value_bytes order format form (block bytes.now)) result }
    ensures blames { OnErr result W.fails }
{
    match form {
        Form::Block1 => put_sized(output, out, order, 1, bytes),
        Form::Block2 => put_sized(output, out, order, 2, bytes),
        Form::Block4 => put_sized(output, out, order, 4, bytes),
        Form::Block => put_counted(output, out, bytes),
        _ => Ok(out),
    }
}

/// Writes the length of the bytes, as a number of `size` bytes, and the bytes.
fn put_sized<W: Destination>(
    output: &mut W,
    out: u64,
    order: Order,
    size: usize,
    bytes: &[u8],
) -> Result<u64, HeadWrite>
    requires { size ≤ 8 }
    ensures written { Writes (W.contents output.old) (W.contents output.new) out
        (fixed_bytes order size (length bytes.now) ++ bytes.now) result }
    ensures blames { OnErr result W.fails }
{
    let out = put_number(output, out, order, size, bytes.len() as u64)?;
    put(output, out, bytes)
}

/// Writes the length of the bytes in LEB128, and the bytes.
fn put_counted<W: Destination>(output: &mut W, out: u64, bytes: &[u8]) -> Result<u64, HeadWrite>
    ensures written { Writes (W.contents output.old) (W.contents output.new) out
        (shortest_uleb (length bytes.now) ++ bytes.now) result }
    ensures blames { OnErr result W.fails }
{
    let out = put_uleb(output, out, bytes.len() as u64)?;
    put(output, out, bytes)
}
