//! The commands that write all units anew.

ghost use Rattle.dl_input.specs.Failing.{Blames};
ghost use Rattle.std.specs.Prelude.{◌≡◌, ◌≤◌, ◌++◌, ℕ, List, [], None, IfOk, OnErr, OnOk};
ghost use Rattle.dl_sections.specs.Blaming.{BlamesWriter};
ghost use Rattle.std.specs.Io.KnownBytes.{Consumes};
ghost use Rattle.dl_rows.specs.declared.row.Row.{Row};
ghost use Rattle.dl_emit.specs.Grown.{IsGrown};
ghost use Rattle.dl_emit.specs.WrittenUnit.{program_len, refusal, unit_of};
ghost use Rattle.dl_head.specs.Dialect.{version_5};
ghost use Rattle.dl_head.specs.Written.{header_bytes};
ghost use Rattle.dl_print.specs.Output.{BlamesWriter as PrintBlames, Prints};
ghost use Rattle.dl_dirs.specs.Compilation.{directory_by};
ghost use Rattle.dl_sections.specs.Commands.{Copies, CopiesTo5};
ghost use Rattle.dl_sections.specs.Copying.{made_by, RenewsTables};
ghost use Rattle.dl_sections.specs.UnitPrinted.{PrintsPart};

use crate::fault::RunFault;
use crate::options::{Options, SECTION_LIMIT};
use crate::section::{Visitor, read_units};
use dl_dirs::CompilationDirectories;
use dl_emit::{EmitFault, Program, into_version_5_in};
use dl_head::{Dialect, Header, HeaderLengths};
use dl_input::Source;
use dl_memory::{Memory, NoMemory};
use dl_num::Order;
use dl_output::Destination;
use dl_print::{Printer, Summary, WriteFault};
use dl_rows::{Flow, Operation, Row};
use std::io;
use std::io::Write;

/// How many bytes of what a unit has before its program are held at most: 1 MiB.
const MOST_HELD: usize = 1 << 20;

/// What a unit has before its program, held up to `MOST_HELD` bytes. Where there are more, or memory is refused for them, a
/// write takes nothing.
#[derive(Drop)]
struct HeldHeader<'m, M> {
    memory: &'m M,
    bytes: Vec<u8>,
}

impl<M: Memory> Write for HeldHeader<'_, M> {
    ghost use Rattle.std.specs.Prelude.{Some};

    ghost contents = { λ h. Some h.bytes.items };

    fn write(&mut self, bytes: &[u8]) -> io::Result<usize> {
        if MOST_HELD.saturating_sub(self.bytes.len()) < bytes.len() {
            return Ok(0);
        }
        match self.memory.extend_from_slice(&mut self.bytes, bytes) {
            Ok(()) => Ok(bytes.len()),
            Err(NoMemory) => Ok(0),
        }
    }

    fn flush(&mut self) -> io::Result<()> {
        Ok(())
    }
}

impl<M: Memory> Destination for HeldHeader<'_, M> {
    fn write_next(&mut self, bytes: &[u8]) -> io::Result<usize> {
        self.write(bytes)
    }
}

/// What becomes of the header of a unit.
#[derive(Clone, Copy)]
enum Becomes<'a> {
    /// It is the same but for its opcodes, which are the standard ones.
    Itself,
    /// So it is once it is one of version 5, with the compilation directory of its unit.
    Version5(CompilationDirectories<'a>),
}

impl Becomes<'_> {
    /// Begins the program of a unit, whose header becomes another.
    fn begin(&self, program: &mut Program, header: &Header)
        ensures { (offset : ℕ)
            → IsGrown program.new program.old.order (made_by self.now offset header.now).params [] }
    {
        match self {
            Becomes::Itself => program.begin(header),
            Becomes::Version5(_) => program.begin_in_version_5(header),
        }
    }

    /// What becomes of the header of the unit at this offset.
    fn make<M: Memory>(&self, memory: &M, offset: u64, header: Header) -> Result<Header, NoMemory>
        ensures value { IfOk result (λ made. made ≡ made_by self.now offset header) }
        ensures tables { OnErr result (RenewsTables (M.refuses memory.now) self.now offset header) }
    {
        match self {
            Becomes::Itself => Ok(header.with_standard_opcodes()),
            Becomes::Version5(directories) => {
                let header = into_version_5_in(memory, header, directories.of(offset))?;
                Ok(header.with_standard_opcodes())
            }
        }
    }
}

/// Writes each unit where it ends.
#[derive(Drop)]
struct Copier<'a, 'm, M> {
    memory: &'m M,
    becomes: Becomes<'a>,
    printer: Printer,
    /// The offset of the current unit.
    unit: u64,
    /// What is written for the rows of the current unit.
    program: Program,
    /// What the current unit has before its program; its room is kept.
    header: HeldHeader<'m, M>,
}

impl<W: Destination, M: Memory> Visitor<W> for Copier<'_, '_, M> {
    ghost use Rattle.dl_sections.specs.Copying.{copy_story};

    ghost story = { copy_story M.refuses };

    fn header(
        &mut self,
        _output: &mut W,
        offset: u64,
        _lengths: HeaderLengths,
        header: &Header,
    ) -> Result<(), RunFault> {
        self.unit = offset;
        self.becomes.begin(&mut self.program, header);
        Ok(())
    }

    fn foreign(&mut self, _output: &mut W, offset: u64, _version: u16) -> Result<(), RunFault> {
        Err(RunFault::ForeignUnit { unit: offset })
    }

    #[inline(always)]
    fn bytes(&mut self, _output: &mut W, _bytes: &[u8]) -> Result<(), WriteFault> {
        Ok(())
    }

    #[inline(always)]
    fn operation(
        &mut self,
        _output: &mut W,
        _header: &Header,
        _operation: Operation,
    ) -> Result<(), WriteFault> {
        Ok(())
    }

    #[inline(always)]
    fn row(&mut self, _output: &mut W, _header: &Header, row: &Row) -> Result<(), RunFault> {
        match self.program.push(self.memory, row) {
            Ok(()) => Ok(()),
            Err(NoMemory) => Err(RunFault::NoMemory),
        }
    }

    fn unterminated(&mut self, _output: &mut W) -> Result<(), RunFault> {
        Ok(())
    }

    fn end(&mut self, output: &mut W, header: Option<Header>) -> Result<Flow, RunFault> {
        let Some(header) = header else {
            return Ok(Flow::On);
        };
        let Ok(made) = self.becomes.make(self.memory, self.unit, header) else {
            return Err(RunFault::NoMemory);
        };
        self.write(output, &made)?;
        Ok(Flow::On)
    }

    fn flush(&mut self, output: &mut W) -> Result<(), RunFault> {
        Ok(self.printer.flush(output)?)
    }
}

impl<'a, 'm, M: Memory> Copier<'a, 'm, M> {
    /// No unit yet, in a section whose numbers stand in this order.
    fn new(memory: &'m M, order: Order, becomes: Becomes<'a>) -> Copier<'a, 'm, M>
        ensures memory { result.memory.now ≡ memory.now }
        ensures becomes { result.becomes ≡ becomes.entry }
        ensures order { result.program.order ≡ order }
        ensures no_row { result.program.rows ≡ 0 }
        ensures nothing_pending { result.printer.pending ≡ [] }
        ensures nothing_out { result.printer.out ≡ 0 }
    {
        Copier {
            memory,
            becomes,
            printer: Printer::new(),
            unit: 0,
            program: Program::new(memory.alloc(), order),
            header: HeldHeader {
                memory,
                bytes: Vec::new(memory.alloc()),
            },
        }
    }

    /// Writes the current unit under this header.
    fn write<W: Destination>(&mut self, output: &mut W, header: &Header) -> Result<(), RunFault>
        ensures printed { (rows : List Row)
            → IsGrown self.old.program self.old.program.order header.now.params rows
            → PrintsPart (W.contents output.old) (W.contents output.new) self.old.printer self.new.printer
            (unit_of self.old.program.order header.now rows) (refusal header.now rows) self.old.unit result }
        ensures program { self.new.program ≡ self.old.program }
        ensures unit { self.new.unit ≡ self.old.unit }
        ensures becomes { self.new.becomes ≡ self.old.becomes }
        ensures memory { self.new.memory ≡ self.old.memory }
        ensures blames_writer { BlamesWriter W.fails result }
    {
        self.write_header(output, header)?;
        let first = self.program.first_bytes();
        let last = self.program.last_bytes();
        Ok(print_parts(&mut self.printer, output, first, last)?)
    }

    /// Prints what the current unit has before its program, once all of it is in memory; where it is long, or memory is
    /// refused for it, it is written on the output itself.
    fn write_header<W: Destination>(
        &mut self,
        output: &mut W,
        header: &Header,
    ) -> Result<(), RunFault>
        ensures printed { (rows : List Row)
            → IsGrown self.old.program self.old.program.order header.now.params rows
            → PrintsPart (W.contents output.old) (W.contents output.new) self.old.printer self.new.printer
            (header_bytes self.old.program.order header.now (program_len header.now.params rows))
            (refusal header.now rows) self.old.unit result }
        ensures program { self.new.program ≡ self.old.program }
        ensures unit { self.new.unit ≡ self.old.unit }
        ensures becomes { self.new.becomes ≡ self.old.becomes }
        ensures memory { self.new.memory ≡ self.old.memory }
        ensures blames_writer { BlamesWriter W.fails result }
    {
        self.header.bytes.clear();
        match self.program.write_header(&mut self.header, header) {
            Ok(_) => Ok(self.printer.put(output, self.header.bytes.as_slice())?),
            Err(EmitFault::Write { .. }) => self.pass_header(output, header),
            Err(fault) => Err(RunFault::Emit {
                unit: self.unit,
                fault,
            }),
        }
    }

    /// Writes what the current unit has before its program on the output itself, after all that is held. Where the
    /// bytes that are out could not be counted, none of it is written.
    fn pass_header<W: Destination>(
        &mut self,
        output: &mut W,
        header: &Header,
    ) -> Result<(), RunFault>
        ensures printed { (rows : List Row)
            → IsGrown self.old.program self.old.program.order header.now.params rows → refusal header.now rows ≡ None
            → PrintsPart (W.contents output.old) (W.contents output.new) self.old.printer self.new.printer
            (header_bytes self.old.program.order header.now (program_len header.now.params rows))
            (refusal header.now rows) self.old.unit result }
        ensures program { self.new.program ≡ self.old.program }
        ensures unit { self.new.unit ≡ self.old.unit }
        ensures becomes { self.new.becomes ≡ self.old.becomes }
        ensures memory { self.new.memory ≡ self.old.memory }
        ensures blames_writer { BlamesWriter W.fails result }
    {
        self.printer.flush(output)?;
        let out = self.printer.out();
        if out > u128::MAX - u64::MAX as u128 {
            return Err(RunFault::Write { out });
        }
        match self.program.write_header(output, header) {
            Ok(len) => {
                self.printer.count(len);
                Ok(())
            }
            Err(EmitFault::Write { out: part }) => Err(RunFault::Write {
                out: out + part as u128,
            }),
            Err(fault) => Err(RunFault::Emit {
                unit: self.unit,
                fault,
            }),
        }
    }
}

/// Prints the two parts of a program.
fn print_parts<W: Destination>(
    printer: &mut Printer,
    output: &mut W,
    first: &[u8],
    last: &[u8],
) -> Result<(), WriteFault>
    ensures printed { Prints (W.contents output.old) (W.contents output.new) printer.old printer.new
        (first.now ++ last.now) result }
    ensures blames_writer { PrintBlames W.fails result }
{
    printer.put(output, first)?;
    printer.put(output, last)
}

/// Writes all units of the input anew: each under its header with opcode_base 13, with the same
/// rows, its numbers shortest. Units of version 5 alone are read, whatever the dialect is.
///
/// What comes before a fault is written. The faults are those of `RunFault`. What is written for the rows of a unit is
/// held in memory until the unit ends: where that is refused, or `Reader::feed` wants memory, nothing of the unit is
/// written. Up to 1 MiB of what stands before it is held too, where there is memory for that.
pub fn copy<M: Memory, R: Source, W: Destination>(
    memory: &M,
    input: &mut R,
    output: &mut W,
    options: &Options<'_>,
) -> Result<Summary, RunFault>
    requires { options.now.limit ≤ SECTION_LIMIT }
    ensures ran { (bs : List ℕ) × Consumes (R.remaining input.old) (R.remaining input.new) bs
        × Copies (M.refuses memory.now) (version_5 options.now.dialect.order) options.now.limit bs (R.remaining input.new)
        (W.contents output.old) (W.contents output.new) result }
    ensures blames { Blames R.follows R.fails input.old input.new
        (result ≡ Err RunFault.Read) }
    ensures blames_writer { BlamesWriter W.fails result }
    ensures over { OnOk result (R.over input.new) }
{
    let mut copier = Copier::new(memory, options.dialect.order, Becomes::Itself);
    let own = Options {
        dialect: Dialect::version_5(options.dialect.order),
        ..*options
    };
    read_units(memory.alloc(), input, output, &own, &mut copier)
}

/// Writes all units of the input anew as units of version 5, with the same rows. Each file number of a row means the same
/// file (`numbers_mean_the_same` of dl_emit). Units of the versions that the dialect reads are read.
///
/// The header of a unit is made one of version 5 by `into_version_5`, with the compilation directory of the unit, by its
/// offset, and then has opcode_base 13; all else is as in `copy`. Memory grows for the tables of that header too, before
/// the unit is written.
pub fn copy_to_5<M: Memory, R: Source, W: Destination>(
    memory: &M,
    input: &mut R,
    output: &mut W,
    directories: CompilationDirectories<'_>,
    options: &Options<'_>,
) -> Result<Summary, RunFault>
    requires { options.now.limit ≤ SECTION_LIMIT }
    ensures ran { (bs : List ℕ) × Consumes (R.remaining input.old) (R.remaining input.new) bs
        × CopiesTo5 (M.refuses memory.now) (directory_by directories.entry) options.now.dialect options.now.limit bs (R.remaining input.new)
        (W.contents output.old) (W.contents output.new) result }
    ensures blames { Blames R.follows R.fails input.old input.new
        (result ≡ Err RunFault.Read) }
    ensures blames_writer { BlamesWriter W.fails result }
    ensures over { OnOk result (R.over input.new) }
{
    let becomes = Becomes::Version5(directories);
    let mut copier = Copier::new(memory, options.dialect.order, becomes);
    read_units(memory.alloc(), input, output, options, &mut copier)
}
