//! What an index is made of, unit by unit. Section 6.2.2.

ghost use Rattle.std.specs.Prelude.{◌≡◌};
ghost use Rattle.std.specs.Option.{option_copied};
ghost use Rattle.dl_addr.specs.Code.{is_code};

use crate::files::UnitFiles;
use crate::numbers::numbers_of;
use dl_dirs::CompilationDirectories;
use dl_head::{Header, HeaderLengths};
use dl_look::CodeRanges;
use dl_memory::NoMemory;
use dl_output::Destination;
use dl_pack::{Names, SetMemory};
use dl_path::{beside_table, has_directory_0};
use dl_print::{StringSections, WriteFault};
use dl_rows::{Flow, Operation, Row};
use dl_sections::{AroundDamage, Damage, RunFault, Visitor};
use dl_stretch::Runs;

/// Keeps what the rows of live sequences tell of addresses, unit by unit, and the files that they name.
#[derive(Drop)]
pub(crate) struct Maker<'s, 'o, 'q, M> {
    pub(crate) memory: &'q M,
    strings: &'s StringSections<'o>,
    /// Where there is code; None where each sequence is live.
    code: Option<&'q CodeRanges>,
    directories: CompilationDirectories<'q>,
    pub(crate) runs: Runs,
    pub(crate) names: Names,
    /// The offset of the current unit.
    unit: u64,
    /// Whether memory was refused, so that nothing is known of the runs.
    pub(crate) is_refused: bool,
}

impl<W: Destination, M: SetMemory> Visitor<W> for Maker<'_, '_, '_, M> {
    ghost use Rattle.dl_making.specs.Making.{making_story};

    ghost story = { making_story M.refuses };

    fn header(
        &mut self,
        _output: &mut W,
        offset: u64,
        _lengths: HeaderLengths,
        _header: &Header,
    ) -> Result<(), RunFault> {
        self.unit = offset;
        Ok(())
    }

    fn foreign(&mut self, _output: &mut W, _offset: u64, _version: u16) -> Result<(), RunFault> {
        Ok(())
    }

    #[inline(always)]
    fn bytes(&mut self, _output: &mut W, _bytes: &[u8]) -> Result<(), WriteFault> {
        Ok(())
    }

    #[inline(always)]
    fn operation(
        &mut self,
        _output: &mut W,
        _header: &Header,
        _operation: Operation,
    ) -> Result<(), WriteFault> {
        Ok(())
    }

    #[inline(always)]
    fn row(&mut self, _output: &mut W, _header: &Header, row: &Row) -> Result<(), RunFault> {
        let is_live = self.begins_live(row.address);
        match self.runs.row(self.memory, row, is_live) {
            Ok(()) => Ok(()),
            Err(NoMemory) => {
                self.is_refused = true;
                Err(RunFault::NoMemory)
            }
        }
    }

    fn unterminated(&mut self, _output: &mut W) -> Result<(), RunFault> {
        Ok(())
    }

    fn end(&mut self, _output: &mut W, header: Option<Header>) -> Result<Flow, RunFault> {
        match self.end_unit(header.as_ref()) {
            Ok(()) => Ok(Flow::On),
            Err(NoMemory) => {
                self.is_refused = true;
                Err(RunFault::NoMemory)
            }
        }
    }

    fn flush(&mut self, _output: &mut W) -> Result<(), RunFault> {
        Ok(())
    }
}

impl<W: Destination, M: SetMemory> AroundDamage<W> for Maker<'_, '_, '_, M> {
    fn damaged(&mut self, _unit: u64, _damage: Damage) {
        self.runs.forget_unit();
    }
}

/// Whether there is code at an address, as far as it is known.
#[inline(always)]
fn is_code(code: Option<&CodeRanges>, address: u64) -> bool
    ensures { result ≡ is_code (option_copied code.entry) address }
{
    match code {
        Some(ranges) => ranges.has(address),
        None => true,
    }
}

impl<'s, 'o, 'q, M: SetMemory> Maker<'s, 'o, 'q, M> {
    ghost use Rattle.dl_memory.specs.Refusals.{IsRefused};
    ghost use Rattle.std.specs.Prelude.{◌≡◌, ℕ, Bool, false, List, [], OnOk, OnErr};
    ghost use Rattle.std.specs.Option.{option_copied};
    ghost use Rattle.dl_rows.specs.declared.row.Row.{Row};
    ghost use Rattle.dl_look.specs.FinderRows.{unended};
    ghost use Rattle.dl_addr.specs.Code.{is_code};
    ghost use Rattle.dl_stretch.specs.Kept.{kept_count};
    ghost use Rattle.dl_stretch.specs.Stands.{Stands};
    ghost use Rattle.dl_stretch.specs.ToldUnits.{UnitRows};
    ghost use Rattle.dl_pack.specs.Shown.{named_files, texts_of};
    ghost use Rattle.dl_making.specs.Making.{EndsUnit, IsSame, end_room};

    /// A maker that was told of no unit.
    pub(crate) fn new(
        memory: &'q M,
        strings: &'s StringSections<'o>,
        code: Option<&'q CodeRanges>,
        directories: CompilationDirectories<'q>,
    ) -> Maker<'s, 'o, 'q, M>
        ensures memory { result.memory.now ≡ memory.now }
        ensures sufficed { result.is_refused ≡ false }
        ensures strings { result.strings.now ≡ strings.now }
        ensures code { result.code ≡ code.entry }
        ensures directories { result.directories ≡ directories.entry }
        ensures runs { (live : ℕ → Bool) → Stands live result.runs [] [] }
        ensures count { kept_count result.runs ≡ 0 }
        ensures names { named_files result.names ≡ [] }
        ensures texts { texts_of result.names ≡ [] }
    {
        Maker {
            memory,
            strings,
            code,
            directories,
            runs: Runs::new(memory.alloc()),
            names: Names::new(memory.alloc()),
            unit: 0,
            is_refused: false,
        }
    }

    /// Whether a sequence that begins at this address is live. Only where one begins it is looked up.
    #[inline(always)]
    fn begins_live(&self, address: u64) -> bool
        ensures { (live : ℕ → Bool) (units : List UnitRows) (rows : List Row) → Stands live self.now.runs units rows
            → unended rows ≡ [] → result ≡ is_code (option_copied self.now.code) address }
    {
        if self.runs.begins() {
            is_code(self.code, address)
        } else {
            false
        }
    }

    /// Gives the files that the rows of the current unit name their numbers, and makes its rows count.
    fn end_unit(&mut self, header: Option<&Header>) -> Result<(), NoMemory>
        ensures same { IsSame self.old self.new }
        ensures unit { self.new.unit ≡ self.old.unit }
        ensures refused { self.new.is_refused ≡ self.old.is_refused }
        ensures wants { OnErr result (IsRefused (M.refuses self.old.memory.now) (end_room self.old (option_copied header.entry))) }
        ensures ended { OnOk result (EndsUnit self.old self.new (option_copied header.entry)) }
    {
        let unit = UnitFiles {
            strings: self.strings,
            header,
            directory: beside_table(has_directory_0(header), self.directories.of(self.unit)),
            offset: self.unit,
        };
        let runs = self.runs.unit_runs();
        let (numbers, other) = numbers_of(self.memory, &mut self.names, &unit, runs)?;
        self.runs.end_unit(numbers.as_slice(), other);
        Ok(())
    }
}
