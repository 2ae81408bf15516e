//! The program of a unit, which grows by rows. Section 6.2.5.

ghost use Rattle.std.specs.Prelude.{◌≡◌, ◌≤◌, ◌+◌, ◌*◌, ◌++◌, ◌∷◌, [], ℕ, List, Err, length, take, IfOk, IfErr, OnOk, OnErr};
ghost use Rattle.dl_field.specs.declared.params.Params.{Params};
ghost use Rattle.dl_field.specs.Layout.{standard_params};
ghost use Rattle.dl_field.specs.Usable.{IsUsable};
ghost use Rattle.dl_rows.specs.declared.row.Row.{Row};
ghost use Rattle.dl_emit.specs.Conversion.{version_5_params};
ghost use Rattle.dl_emit.specs.Grown.{IsGrown};
ghost use Rattle.dl_head.specs.Dialect.{version_5};
ghost use Rattle.dl_emit.specs.Laws.{IsUnitAgain};
ghost use Rattle.dl_emit.specs.Writing.{WritesUnitHeader};
ghost use Rattle.dl_memory.specs.Refusals.{IsRefused};

use crate::bytes::BUFFER_LEN;
use crate::conversion::params_of_version_5;
use crate::fault::EmitFault;
use crate::program::{ROW, keep, put_row};
use crate::unit::is_in_range;
use dl_head::{Format, Header, Params, write_header};
use dl_memory::{Memory, NoMemory};
use dl_num::Order;
use dl_output::Destination;
use dl_rows::Row;
use std::alloc::Global;
use std::marker::Model;

/// The program of a unit, which grows by rows. What is held of them is the bytes that are written for them.
/// Section 6.2.5.
#[derive(Drop)]
pub struct Program {
    order: Order,
    /// Those of the unit's header, with standard opcodes.
    params: Params,
    /// The last row, where its sequence goes on.
    before: Option<Row>,
    /// How many rows there are.
    rows: usize,
    /// The place of the first row that can't be one of the unit. From it on nothing grows.
    refused: Option<usize>,
    /// The bytes of the rows but for the last of them.
    first: Vec<u8>,
    /// A buffer with the last bytes, to which each row is added.
    last: [u8; BUFFER_LEN],
    /// How many bytes of the buffer are held.
    held: usize,
}

impl Model for Program {
    ghost use Rattle.std.specs.Prelude.{◌+◌, ◌*◌, ◌≤◌, length, take};
    ghost use Rattle.dl_field.specs.Usable.{IsUsable};
    ghost use Rattle.dl_emit.specs.Grown.{ProgramData};
    ghost use Rattle.dl_emit.specs.declared.bytes.TheConstants.{BUFFER_LEN};
    ghost use Rattle.dl_emit.specs.declared.program.TheConstants.{ROW};

    ghost Value = { ProgramData };

    ghost view = { λ p. record {
      order = p.order;
      params = p.params;
      before = p.before;
      rows = p.rows;
      refused = p.refused;
      first = p.first.items;
      last = take p.held p.last;
    } };

    // Each row has a byte at least, and at most ROW.
    ghost invariant = { λ p. IsUsable p.params × (p.rows ≤ length p.first.items + length (take p.held p.last))
        × (p.held ≤ BUFFER_LEN) × (length p.first.items + length (take p.held p.last) ≤ ROW * p.rows) };
}

impl Program {
    /// Of no row yet, and of no header: `begin` is told the header.
    pub fn new(alloc: Global, order: Order) -> Program
        ensures order { result.order ≡ order }
        ensures rows { result.rows ≡ 0 }
    {
        Program {
            order,
            params: Params::least(Format::Dwarf32).with_standard_opcodes(),
            before: None,
            rows: 0,
            refused: None,
            first: Vec::new(alloc),
            last: [0; BUFFER_LEN],
            held: 0,
        }
    }

    /// From here on it is the program of a unit with this header, made one of standard opcodes, and has no row yet. Its
    /// room is kept.
    pub fn begin(&mut self, header: &Header)
        ensures grown { IsGrown self.new self.old.order (standard_params header.now.params) [] }
    {
        self.begin_under(header.params().with_standard_opcodes());
    }

    /// The same where the header becomes one of version 5, as `into_version_5` makes it.
    pub fn begin_in_version_5(&mut self, header: &Header)
        ensures grown { IsGrown self.new self.old.order (standard_params (version_5_params header.now.params)) [] }
    {
        self.begin_under(params_of_version_5(header.params()).with_standard_opcodes());
    }

    fn begin_under(&mut self, params: Params)
        requires usable { IsUsable params }
        requires standard { params.opcode_base ≡ 13 }
        ensures grown { IsGrown self.new self.old.order params [] }
    {
        self.params = params;
        self.before = None;
        self.rows = 0;
        self.refused = None;
        self.first.clear();
        self.held = 0;
    }

    /// A row more, or want of memory for a list of no more bytes than are held, which are at most `ROW` for each row, and
    /// then it is as before.
    #[inline(never)]
    pub fn push<M: Memory>(&mut self, memory: &M, row: &Row) -> Result<(), NoMemory>
        ensures grown { (h : Params) (rows : List Row) → IsGrown self.old self.old.order h rows
            → OnOk result (IsGrown self.new self.old.order h (rows ++ row.now ∷ [])) }
        ensures kept { IfErr result (λ _. self.new ≡ self.old) }
        ensures refused { OnErr result
            (IsRefused (M.refuses memory.now) (length self.old.first + length self.old.last)) }
        ensures most { OnErr result (IsRefused (M.refuses memory.now) (ROW * self.old.rows)) }
        ensures rows { self.new.rows ≤ self.old.rows + 1 }
        ensures order { self.new.order ≡ self.old.order }
    {
        if self.refused.is_some() {
            return Ok(());
        }
        if !is_in_range(&self.params, row) {
            self.refused = Some(self.rows);
            return Ok(());
        }
        let at = gather(memory, &mut self.first, &self.last, self.held)?;
        self.held = put_row(
            &mut self.last,
            at,
            self.order,
            &self.params,
            &self.before,
            row,
        );
        keep(&mut self.before, row);
        self.rows += 1;
        Ok(())
    }

    /// Writes what a unit of this header and the rows has before its program, and answers how many bytes that is. The
    /// header is that of `begin`, with standard opcodes.
    ///
    /// The faults are those of `write_unit`, in their order. With the program after it, it is read again as a unit of
    /// this header and exactly these rows.
    pub fn write_header<W: Destination>(
        &self,
        output: &mut W,
        header: &Header,
    ) -> Result<u64, EmitFault>
        ensures written { (rows : List Row) → IsGrown self.now self.now.order header.now.params rows
            → WritesUnitHeader self.now.order header.now rows (W.contents output.old) (W.contents output.new) result }
        ensures readable { (rows : List Row) → IsGrown self.now self.now.order header.now.params rows
            → OnOk result (IsUnitAgain (version_5 self.now.order) header.now rows) }
        ensures blames { (out : ℕ) → result ≡ Err (EmitFault.Write out) → W.fails }
    {
        let params = header.params();
        if params.version != 5 {
            return Err(EmitFault::Version);
        }
        if params.opcode_base != 13 {
            return Err(EmitFault::OpcodeBase);
        }
        if let Some(row) = self.refused {
            return Err(EmitFault::RowRange(row));
        }
        let first = self.first.as_slice();
        let last = self.last_bytes();
        let len = first.len() as u64 + last.len() as u64;
        Ok(write_header(output, self.order, header, len)?)
    }

    /// The first part of what is written for the rows.
    pub fn first_bytes(&self) -> &[u8]
        ensures { result.now ≡ self.now.first }
    {
        self.first.as_slice()
    }

    /// What is written for the rows after `first_bytes`.
    pub fn last_bytes(&self) -> &[u8]
        ensures { result.now ≡ self.now.last }
    {
        &self.last[..self.held]
    }
}

/// Adds the last bytes to those before them where there is no room beside them for a row, and answers how many last
/// bytes there are then.
#[inline(always)]
fn gather<M: Memory>(
    memory: &M,
    first: &mut Vec<u8>,
    last: &[u8; BUFFER_LEN],
    held: usize,
) -> Result<usize, NoMemory>
    requires { held ≤ BUFFER_LEN }
    ensures items { IfOk result (λ n. first.new.items ++ take n last.now ≡ first.old.items ++ take held last.now) }
    ensures room { IfOk result (λ n. n + ROW ≤ BUFFER_LEN) }
    ensures first { IfErr result (λ _. first.new.items ≡ first.old.items) }
    ensures refused { OnErr result
        (M.refuses memory.now (length first.old.items + length (take held last.now))) }
{
    if BUFFER_LEN - held >= ROW {
        return Ok(held);
    }
    memory.extend_from_slice(first, &last[..held])?;
    Ok(0)
}
