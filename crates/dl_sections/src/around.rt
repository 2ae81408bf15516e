//! The units of a section around those that are damaged. Section 6.2.4.

ghost use Rattle.dl_input.specs.Failing.{Blames};
ghost use Rattle.dl_sections.specs.Blaming.{BlamesWriter, NeverBlames};
ghost use Rattle.dl_sections.specs.Ending.{WantsNoMore, WhereWhole};
ghost use Rattle.std.specs.Prelude.{◌≡◌, ◌≤◌, ◌<◌, ◌+◌, ◌^◌, ◌++◌, ◌⊎◌, [], ◌∷◌, ℕ, List, Option, Some, Ok, drop, length};
ghost use Rattle.std.specs.Io.KnownBytes.{Appends, Consumes};
ghost use Rattle.dl_head.specs.declared.dialect.Dialect.{Dialect};
ghost use Rattle.dl_head.specs.Header.{unit_len};
ghost use Rattle.dl_rows.specs.ReaderStands.{StandsFor};
ghost use Rattle.dl_print.specs.Counts.{add};
ghost use Rattle.dl_sections.specs.declared.around.Damage as damages;
ghost use Rattle.dl_sections.specs.Around.{AllIsRead, RanAround, damaged_units};
ghost use Rattle.dl_sections.specs.GoingOn.{AroundFed, AroundIs, BeginsAround, NextBegins, passed, surveyed};

use crate::fault::RunFault;
use crate::options::{Options, SECTION_LIMIT};
use crate::section::{SectionUnits, Visitor, front, work_through};
use dl_head::{Dialect, FaultKind};
use dl_input::{Input, Source};
use dl_output::Destination;
use dl_print::Summary;
use dl_rows::Flow;
use std::alloc::Global;

/// What is wrong with a unit, and where: the offset counts from the section's first byte.
#[derive(Clone, Copy, Debug, PartialEq, Eq)]
pub struct Damage {
    pub offset: u64,
    pub kind: FaultKind,
}

/// The damaged units of a section, of which there is one or more.
#[derive(Clone, Copy, Debug, PartialEq, Eq)]
pub struct DamagedUnits {
    /// What is wrong with the first.
    pub first: Damage,
    /// How many there are beside it.
    pub others: u64,
}

/// What the units of a section come to of which some may be damaged.
#[derive(Clone, Copy, Debug, PartialEq, Eq)]
pub struct Survey {
    /// The units that are whole.
    pub summary: Summary,
    pub damaged: Option<DamagedUnits>,
}

impl Survey {
    ghost use Rattle.std.specs.Prelude.{◌≡◌};
    ghost use Rattle.dl_sections.specs.AroundCommands.{how_many};

    /// How many units are damaged.
    pub fn damaged_units(&self) -> u64
        ensures { result ≡ how_many self.now.damaged }
    {
        match self.damaged {
            Some(damaged) => damaged.others.saturating_add(1),
            None => 0,
        }
    }
}

/// What a command does at a unit that is damaged, where it goes on after it.
pub trait AroundDamage<W: Destination>: Visitor<W> {
    ghost use Rattle.dl_sections.specs.GoingOn.{IsTold};

    /// The current unit, which begins at the offset `unit` of the section, is damaged, and what was told of it isn't of a
    /// whole unit. Nothing is printed. No call of a visitor fails by damage.
    fn damaged(&mut self, unit: u64, damage: Damage)
        ensures { IsTold Self.story self.old self.new unit damage };
}

/// Where a reader is in a section whose damaged units it passes over.
#[derive(Drop)]
pub(crate) struct UnitsAround {
    units: SectionUnits,
    /// How many bytes of the section were read. The current unit may begin after them, where one before it is damaged.
    read: u64,
    damaged: Option<DamagedUnits>,
}

impl UnitsAround {
    /// Before the first unit of a section.
    pub fn new(alloc: Global, dialect: Dialect) -> UnitsAround
        ensures { BeginsAround dialect result }
    {
        UnitsAround {
            units: SectionUnits::new(alloc, dialect),
            read: 0,
            damaged: None,
        }
    }

    /// Works through a piece of the section, up to where no unit is known to follow, or the visitor wants nothing more.
    pub fn feed<W: Destination, V: AroundDamage<W>>(
        &mut self,
        output: &mut W,
        visitor: &mut V,
        piece: &[u8],
    ) -> Result<Flow, RunFault>
        requires short { self.old.read + length piece.now ≤ 2 ^ 63 }
        ensures read { self.new.read ≤ self.old.read + length piece.now }
        ensures fed { (dialect : Dialect) (t : List ℕ) (first : V) (start : Option (List ℕ))
            → AroundIs V.story dialect t first visitor.old start (W.contents output.old) self.old
            → AroundFed V.story dialect (t ++ piece.now) first visitor.new start (W.contents output.new)
            self.new result }
        ensures blames_writer { (dialect : Dialect) (t : List ℕ) (first : V) (start : Option (List ℕ))
            → AroundIs V.story dialect t first visitor.old start (W.contents output.old) self.old
            → BlamesWriter W.fails result }
    {
        let mut rest = self.pass_over(piece);
        'units: while !rest.is_empty() {
            match work_through(&mut self.units, output, visitor, rest) {
                Ok(Flow::On) => {
                    self.read = self.read.saturating_add(rest.len() as u64);
                    return Ok(Flow::On);
                }
                Ok(Flow::Stop) => return Ok(Flow::Stop),
                Err(fault) => {
                    let Some(damage) = fault.damage() else {
                        return Err(fault);
                    };
                    visitor.damaged(self.units.offset, damage);
                    match self.go_on(damage) {
                        Flow::On => rest = self.pass_over(rest),
                        Flow::Stop => return Ok(Flow::Stop),
                    }
                }
            }
        }
        Ok(Flow::On)
    }

    /// The bytes from the current unit on, or all where it began before them.
    fn pass_over<'a>(&mut self, bytes: &'a [u8]) -> &'a [u8]
        ensures rest { result.now ≡ drop (passed self.old bytes.entry.now) bytes.entry.now }
        ensures read { self.new ≡ record self.old { read = add self.old.read (passed self.old bytes.entry.now) } }
    {
        let passed = front(bytes, self.units.offset.saturating_sub(self.read)).len();
        self.read = self.read.saturating_add(passed as u64);
        &bytes[passed..]
    }

    /// Counts the current unit as damaged, which a byte after those that were read decides, and goes on to the next one.
    /// `Stop` where its initial length isn't good, so that none is known to follow.
    fn go_on(&mut self, damage: Damage) -> Flow
        requires short { self.old.read < 2 ^ 63 }
        ensures later { result ≡ Flow.On → self.old.read < self.new.units.offset }
        ensures read { self.new.read ≡ self.old.read }
        ensures counted { (faults : List damages.Damage) → length faults + 1 < 2 ^ 64
            → self.old.damaged ≡ damaged_units faults → self.new.damaged ≡ damaged_units (faults ++ damage ∷ []) }
        ensures next { (b : List ℕ) → StandsFor self.old.units.reader b
            → NextBegins (unit_len self.old.units.reader.dialect b) self.old self.new result }
    {
        self.damaged = Some(also(self.damaged, damage));
        match self.units.unit_end() {
            Some(end) => {
                self.units.begin_at(end.max(self.read.saturating_add(1)));
                Flow::On
            }
            None => Flow::Stop,
        }
    }

    /// What is counted.
    pub fn survey(&self) -> Survey
        ensures { result ≡ surveyed self.now }
    {
        Survey {
            summary: self.units.summary,
            damaged: self.damaged,
        }
    }
}

/// The damaged units with one more.
fn also(damaged: Option<DamagedUnits>, damage: Damage) -> DamagedUnits
    ensures { (faults : List damages.Damage) → length faults + 1 < 2 ^ 64 → damaged ≡ damaged_units faults
        → Some result ≡ damaged_units (faults ++ damage ∷ []) }
{
    match damaged {
        Some(units) => DamagedUnits {
            others: units.others.saturating_add(1),
            ..units
        },
        None => DamagedUnits {
            first: damage,
            others: 0,
        },
    }
}

/// Reads the units of the input to its end, or to where the visitor wants nothing more, and tells the visitor of each
/// event. After a unit that is damaged it goes on with the next one, which begins where the initial length of the damaged
/// one says.
///
/// After a unit whose initial length isn't good, none is known to follow: it is the last. Of a unit that the section's
/// end cuts off it is told that it is `Truncated`, unless it is damaged before. `SectionTooLong` where the section goes
/// past the limit, `Read` where the reader fails, `NoMemory` where a growth of `Reader::feed` is refused; else the first
/// fault of the visitor.
pub fn read_units_around<R: Source, W: Destination, V: AroundDamage<W>>(
    alloc: Global,
    input: &mut R,
    output: &mut W,
    options: &Options<'_>,
    visitor: &mut V,
) -> Result<Survey, RunFault>
    requires { options.now.limit ≤ SECTION_LIMIT }
    ensures ran { (bs : List ℕ) × Consumes (R.remaining input.old) (R.remaining input.new) bs
        × (V.story.tells visitor.old visitor.old (W.contents output.old) (W.contents output.old) []
        → Appends (W.contents output.old) (W.contents output.old) (V.story.text visitor.old [])
        → RanAround V.story options.now.dialect options.now.limit bs (R.remaining input.new) visitor.old visitor.new
        (W.contents output.old) (W.contents output.new) result) }
    ensures blames { Blames R.follows R.fails input.old input.new
        (NeverBlames V.story visitor.old (W.contents output.old) × (result ≡ Err RunFault.Read)) }
    ensures blames_writer { V.story.tells visitor.old visitor.old (W.contents output.old) (W.contents output.old) []
        → Appends (W.contents output.old) (W.contents output.old) (V.story.text visitor.old [])
        → BlamesWriter W.fails result }
    ensures over { V.story.tells visitor.old visitor.old (W.contents output.old) (W.contents output.old) []
        → Appends (W.contents output.old) (W.contents output.old) (V.story.text visitor.old [])
        → WhereWhole (R.over input.new
        ⊎ WantsNoMore V.story visitor.old visitor.new (W.contents output.old) (W.contents output.new)) result }
{
    let mut units = UnitsAround::new(alloc, options.dialect);
    read_pieces_around(&mut units, input, output, options, visitor)
}

/// Reads the units piece by piece, of which nothing was read yet.
fn read_pieces_around<R: Source, W: Destination, V: AroundDamage<W>>(
    units: &mut UnitsAround,
    input: &mut R,
    output: &mut W,
    options: &Options<'_>,
    visitor: &mut V,
) -> Result<Survey, RunFault>
    requires limit { options.now.limit ≤ SECTION_LIMIT }
    requires begun { BeginsAround options.now.dialect units.old }
    ensures ran { (bs : List ℕ) × Consumes (R.remaining input.old) (R.remaining input.new) bs
        × (V.story.tells visitor.old visitor.old (W.contents output.old) (W.contents output.old) []
        → Appends (W.contents output.old) (W.contents output.old) (V.story.text visitor.old [])
        → RanAround V.story options.now.dialect options.now.limit bs (R.remaining input.new) visitor.old visitor.new
        (W.contents output.old) (W.contents output.new) result) }
    ensures blames { Blames R.follows R.fails input.old input.new
        (NeverBlames V.story visitor.old (W.contents output.old) × (result ≡ Err RunFault.Read)) }
    ensures blames_writer { V.story.tells visitor.old visitor.old (W.contents output.old) (W.contents output.old) []
        → Appends (W.contents output.old) (W.contents output.old) (V.story.text visitor.old [])
        → BlamesWriter W.fails result }
    ensures over { V.story.tells visitor.old visitor.old (W.contents output.old) (W.contents output.old) []
        → Appends (W.contents output.old) (W.contents output.old) (V.story.text visitor.old [])
        → WhereWhole (R.over input.new
        ⊎ WantsNoMore V.story visitor.old visitor.new (W.contents output.old) (W.contents output.new)) result }
{
    let mut buffer = Input::new();
    let mut left = options.limit;
    'pieces: loop {
        let Ok(piece) = buffer.next_piece(input) else {
            return Err(RunFault::Read);
        };
        if piece.is_empty() {
            return Ok(finish(units, visitor));
        }
        let within = front(piece, left);
        match units.feed(output, visitor, within)? {
            Flow::On => {}
            Flow::Stop => return Ok(units.survey()),
        }
        if within.len() < piece.len() {
            return Err(RunFault::SectionTooLong);
        }
        left -= piece.len() as u64;
    }
}

/// What a section comes to whose bytes are over. The visitor is told of a unit that they cut off.
pub(crate) fn finish<W: Destination, V: AroundDamage<W>>(
    units: &mut UnitsAround,
    visitor: &mut V,
) -> Survey
    ensures { (limit : ℕ) (dialect : Dialect) (t : List ℕ) (first : V) (start now : Option (List ℕ)) (left : Option (List ℕ))
        → AllIsRead limit t left → length t < 2 ^ 63
        → AroundIs V.story dialect t first visitor.old start now units.old
        → RanAround V.story dialect limit t left first visitor.new start now (Ok result) }
{
    match units.units.cut_off() {
        Some(damage) => {
            visitor.damaged(units.units.offset, damage);
            units.damaged = Some(also(units.damaged, damage));
            units.survey()
        }
        None => units.survey(),
    }
}
