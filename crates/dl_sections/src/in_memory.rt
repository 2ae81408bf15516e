//! The units of a section that lies in memory. Section 6.2.4.

ghost use Rattle.std.specs.Prelude.{◌≡◌, [], ℕ};
ghost use Rattle.dl_table.specs.declared.fault.FaultKind.{FaultKind};
ghost use Rattle.dl_head.specs.declared.dialect.Dialect.{Dialect};
ghost use Rattle.dl_sections.specs.InMemory.{ReadsSection, as_fault};
ghost use Rattle.dl_sections.specs.Telling.{PassesOn};
ghost use Rattle.dl_sections.specs.UnitsRead.{Before, UnitsAre};

use crate::fault::RunFault;
use crate::section::{SectionUnits, Visitor, work_through};
use dl_head::{Dialect, FaultKind, Header, HeaderLengths};
use dl_output::Destination;
use dl_print::{Summary, WriteFault};
use dl_rows::{Flow, Operation, Row};
use std::alloc::Global;
use std::io;

/// A unit that was read whole. Section 6.2.4.
#[derive(Drop)]
pub struct WholeUnit {
    /// The offset in its section.
    pub offset: u64,
    /// Its version, where units of this version aren't read.
    pub version: Option<u16>,
    /// Its header, where they are.
    pub header: Option<Header>,
}

/// What hears the rows of the units of a section, and each unit once it is whole.
pub trait UnitSink {
    ghost use Rattle.std.specs.Prelude.{◌∷◌, ◌++◌, [], List};
    ghost use Rattle.dl_rows.specs.declared.row.Row.{Row};
    ghost use Rattle.dl_sections.specs.InMemory.{UnitStory, UnitTold, Hears};

    /// What is said of the sink where it was told units and rows.
    ghost story: { UnitStory Self };

    /// The current unit has this row.
    fn row(&mut self, row: &Row)
        ensures { (first : Self) (units : List UnitTold) (rows : List Row) → story.hears first self.old units rows
            → story.hears first self.new units (rows ++ row.now ∷ []) };

    /// The current unit is whole. It answers whether the next one is read.
    fn end(&mut self, unit: WholeUnit) -> Flow
        ensures { (first : Self) (units : List UnitTold) (rows : List Row) → story.hears first self.old units rows
            → Hears story first self.new (units ++ record { unit = unit; rows = rows } ∷ []) result };
}

/// What was read of a section.
#[derive(Clone, Copy)]
pub struct SectionRead {
    /// What its units come to.
    pub summary: Summary,
    /// Where they end: how many bytes they have.
    pub end: u64,
}

/// Why a section isn't read to its end.
#[derive(Clone, Copy)]
pub enum SectionStop {
    /// A unit is damaged. The offset counts from the section's first byte.
    Damaged { offset: u64, kind: FaultKind },
    /// A growth was refused.
    NoMemory,
}

impl SectionStop {
    /// That of a fault that isn't of a reader or of a writer.
    fn of(fault: RunFault) -> SectionStop
        ensures damaged { (offset : ℕ) (kind : FaultKind) → fault ≡ RunFault.Damage offset kind → as_fault result ≡ fault }
        ensures refused { fault ≡ RunFault.NoMemory → as_fault result ≡ fault }
    {
        match fault {
            RunFault::Damage { offset, kind } => SectionStop::Damaged { offset, kind },
            _ => SectionStop::NoMemory,
        }
    }
}

/// Tells a sink the units of which a visitor is told. Prints nothing.
#[derive(Drop)]
pub(crate) struct Telling<'a, U> {
    pub sink: &'a mut U,
    /// The offset of the current unit, and its version, where units of this version aren't read.
    pub offset: u64,
    pub version: Option<u16>,
}

impl<W: Destination, U: UnitSink> Visitor<W> for Telling<'_, U> {
    ghost use Rattle.dl_sections.specs.Telling.{telling_story};

    ghost story = { telling_story U.story };

    fn header(
        &mut self,
        _output: &mut W,
        offset: u64,
        _lengths: HeaderLengths,
        _header: &Header,
    ) -> Result<(), RunFault> {
        self.offset = offset;
        self.version = None;
        Ok(())
    }

    fn foreign(&mut self, _output: &mut W, offset: u64, version: u16) -> Result<(), RunFault> {
        self.offset = offset;
        self.version = Some(version);
        Ok(())
    }

    #[inline(always)]
    fn bytes(&mut self, _output: &mut W, _bytes: &[u8]) -> Result<(), WriteFault> {
        Ok(())
    }

    #[inline(always)]
    fn operation(
        &mut self,
        _output: &mut W,
        _header: &Header,
        _operation: Operation,
    ) -> Result<(), WriteFault> {
        Ok(())
    }

    #[inline(always)]
    fn row(&mut self, _output: &mut W, _header: &Header, row: &Row) -> Result<(), RunFault> {
        self.sink.row(row);
        Ok(())
    }

    fn unterminated(&mut self, _output: &mut W) -> Result<(), RunFault> {
        Ok(())
    }

    fn end(&mut self, _output: &mut W, header: Option<Header>) -> Result<Flow, RunFault> {
        Ok(
            self.sink.end(WholeUnit {
                offset: self.offset,
                version: self.version,
                header,
            }),
        )
    }

    fn flush(&mut self, _output: &mut W) -> Result<(), RunFault> {
        Ok(())
    }
}

/// Reads the units of a section to its end, or to where the sink wants nothing more, and tells the sink their rows, and
/// each unit once it is whole.
///
/// Before the first fault in the order of the bytes the sink was told of all units before the damaged one, and of those
/// rows of it that the bytes before the fault give. `NoMemory` where a growth of `Reader::feed` is refused.
pub fn read_section<U: UnitSink>(
    alloc: Global,
    dialect: Dialect,
    section: &[u8],
    sink: &mut U,
) -> Result<SectionRead, SectionStop>
    ensures { U.story.hears sink.old sink.old [] []
        → ReadsSection U.story dialect section.now sink.old sink.new result }
{
    let mut units = SectionUnits::new(alloc, dialect);
    let mut telling = Telling {
        sink,
        offset: 0,
        version: None,
    };
    read_known(&mut units, section, &mut telling)
}

/// Reads the units of a section, of which nothing was read yet.
fn read_known<U: UnitSink>(
    units: &mut SectionUnits,
    section: &[u8],
    telling: &mut Telling<'_, U>,
) -> Result<SectionRead, SectionStop>
    ensures { (dialect : Dialect)
        → ((past : Before dialect) → past.bytes ≡ [] → past.units ≡ [] → UnitsAre past units.old [] [] [])
        → U.story.hears telling.old.sink.now telling.old.sink.now [] []
        → PassesOn U.story dialect section.now telling.old telling.new result }
{
    let len = section.len() as u64;
    match work_through(units, &mut io::sink(), telling, section) {
        Ok(Flow::On) => match units.finish() {
            Ok(summary) => Ok(SectionRead { summary, end: len }),
            Err(fault) => Err(SectionStop::of(fault)),
        },
        Ok(Flow::Stop) => Ok(SectionRead {
            summary: units.summary,
            end: units.offset,
        }),
        Err(fault) => Err(SectionStop::of(fault)),
    }
}
