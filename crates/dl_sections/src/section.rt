//! The units of a section, read one after the other. Section 6.2.4.

ghost use Rattle.dl_input.specs.Failing.{Blames};
ghost use Rattle.dl_sections.specs.Blaming.{BlamesWriter, NeverBlames};
ghost use Rattle.dl_sections.specs.Ending.{WantsNoMore};
ghost use Rattle.std.specs.Prelude.{◌≡◌, ◌≤◌, ◌<◌, ◌+◌, ◌^◌, ◌++◌, ◌∷◌, ◌⊎◌, [], ℕ, List, Option, length, map, take, IfOk};
ghost use Rattle.std.specs.Prelude.{OnOk};
ghost use Rattle.dl_num.specs.declared.fixed.Order.{Order};
ghost use Rattle.std.specs.Io.KnownBytes.{Appends, Consumes};
ghost use Rattle.dl_head.specs.Header.{unit_len};
ghost use Rattle.std.specs.Prelude.{option_map};
ghost use Rattle.dl_rows.specs.LineUnit.{IsUnit, ends_open, unit_rows};
ghost use Rattle.dl_rows.specs.Progress.{taken_of};
ghost use Rattle.dl_rows.specs.Reading.{IsPause};
ghost use Rattle.dl_rows.specs.ReaderStands.{StandsFor};
ghost use Rattle.dl_rows.specs.Runs.{Sound};
ghost use Rattle.dl_print.specs.Counts.{add};
ghost use Rattle.dl_sections.specs.Section.{Visit, NoUnitBegins, event_visits, header_of, header_read, open_visit, end_visits};
ghost use Rattle.dl_sections.specs.Told.{FeedsTold};
ghost use Rattle.dl_sections.specs.Visiting.{Hears, HearsEnd, Ran};
ghost use Rattle.dl_sections.specs.UnitsRead.{Before, UnitsAre, UnitsFed, Worked, Finishes, counted, is_failed_write};
ghost use Rattle.dl_sections.specs.UnitsRead.{CutsOff, visits_since};
ghost use Rattle.dl_sections.specs.GoingOn.{BeginsAt};

use crate::around::Damage;
use crate::fault::RunFault;
use crate::options::{Options, SECTION_LIMIT};
use crate::told::Told;
use dl_head::{Dialect, Fault, Header, HeaderLengths};
use dl_input::{Input, Source};
use dl_output::Destination;
use dl_print::{Summary, WriteFault};
use dl_rows::{Event, Fed, Flow, Operation, PlainRun, Reader, Row};
use std::alloc::Global;
use std::mem;

/// What a command does at the events of the units of a section, which `read_units` tells it in the
/// order of their bytes. Sections 6.2.2 to 6.2.5.
///
/// An `Err` stops the reading, and is what `read_units` answers.
pub trait Visitor<W: Destination> {
    ghost use Rattle.std.specs.Prelude.{◌++◌, ◌∷◌, [], map};
    ghost use Rattle.dl_rows.specs.Items.{a_byte, a_row, an_operation};
    ghost use Rattle.dl_rows.specs.Plain.{IsPlainRun, PlainOne, items_of_plain};
    ghost use Rattle.dl_rows.specs.declared.sink.Flow.{Flow};
    ghost use Rattle.dl_sections.specs.Section.{of_header, of_version, of_item, of_open, of_end};
    ghost use Rattle.dl_sections.specs.Blaming.{BlamesWriter};
    ghost use Rattle.dl_sections.specs.Visiting.{Story, Hears, HearsEnd, HearsRun, Settles, as_run};

    /// What is said of the visitor and of what it prints.
    ghost story: { Story Self };

    /// A unit at this offset of the section has this header; so long are the unit and the header.
    fn header(
        &mut self,
        output: &mut W,
        offset: u64,
        lengths: HeaderLengths,
        header: &Header,
    ) -> Result<(), RunFault>
        ensures heard { Hears story self.old self.new (W.contents output.old) (W.contents output.new)
            (of_header offset lengths header.now ∷ []) result }
        ensures blames_writer { BlamesWriter W.fails result };

    /// A unit at this offset of the section is of this version, which isn't 5.
    fn foreign(&mut self, output: &mut W, offset: u64, version: u16) -> Result<(), RunFault>
        ensures heard { Hears story self.old self.new (W.contents output.old) (W.contents output.new)
            (of_version offset version ∷ []) result }
        ensures blames_writer { BlamesWriter W.fails result };

    /// These are the next bytes of the program of the current unit, none of them after the end of the current operation.
    fn bytes(&mut self, output: &mut W, bytes: &[u8]) -> Result<(), WriteFault>
        ensures heard { Hears story self.old self.new (W.contents output.old) (W.contents output.new)
            (map of_item (map a_byte bytes.now)) (as_run result) }
        ensures blames_writer { BlamesWriter W.fails (as_run result) };

    /// The bytes that were told since the last operation are this one, under the header of the current unit.
    fn operation(
        &mut self,
        output: &mut W,
        header: &Header,
        operation: Operation,
    ) -> Result<(), WriteFault>
        ensures heard { Hears story self.old self.new (W.contents output.old) (W.contents output.new)
            (of_item (an_operation header.now operation) ∷ []) (as_run result) }
        ensures blames_writer { BlamesWriter W.fails (as_run result) };

    /// This operation appends this row, under the header of the current unit.
    fn row(&mut self, output: &mut W, header: &Header, row: &Row) -> Result<(), RunFault>
        ensures heard { Hears story self.old self.new (W.contents output.old) (W.contents output.new)
            (of_item (a_row header.now row.now) ∷ []) result }
        ensures blames_writer { BlamesWriter W.fails result };

    /// Whether it may hear plain runs as one, by `plain_run`.
    #[inline(always)]
    fn hears_runs(&self) -> bool {
        false
    }

    /// Plain operations one after the other under the header of the current unit, each with its bytes and its row. A visitor may
    /// answer false and have heard nothing; then `bytes`, `operation` and `row` tell it.
    #[inline(always)]
    fn plain_run(&mut self, _header: &Header, _run: &PlainRun<'_, '_>) -> bool
        ensures heard { (ones : List PlainOne) → IsPlainRun _header.now.params _run.now ones
            → HearsRun story self.old self.new (map of_item (items_of_plain _header.now ones)) result }
    {
        false
    }

    /// The current unit is whole, and its last row isn't an end row.
    fn unterminated(&mut self, output: &mut W) -> Result<(), RunFault>
        ensures heard { Hears story self.old self.new (W.contents output.old) (W.contents output.new)
            (of_open ∷ []) result }
        ensures blames_writer { BlamesWriter W.fails result };

    /// The current unit is whole; its header is that of `header`. Of another version than 5 it has no header. It
    /// answers whether the next unit is read.
    fn end(&mut self, output: &mut W, header: Option<Header>) -> Result<Flow, RunFault>
        ensures heard { HearsEnd story self.old self.new (W.contents output.old) (W.contents output.new)
            header (of_end header ∷ []) result }
        ensures blames_writer { BlamesWriter W.fails result };

    /// All that was read is worked through: what was printed of it goes out.
    fn flush(&mut self, output: &mut W) -> Result<(), RunFault>
        ensures settled { (flow : Flow) → Settles story self.old self.new
            (W.contents output.old) (W.contents output.new) flow result }
        ensures blames_writer { BlamesWriter W.fails result };
}

/// Where a reader is in a section.
#[derive(Drop)]
pub(crate) struct SectionUnits {
    alloc: Global,
    dialect: Dialect,
    reader: Reader,
    /// The offset of the current unit.
    pub offset: u64,
    is_foreign: bool,
    /// End rows and rows of the current unit.
    sequences: u64,
    rows: u64,
    /// What the units before it come to.
    pub summary: Summary,
}

impl SectionUnits {
    pub fn new(alloc: Global, dialect: Dialect) -> SectionUnits
        ensures units { (past : Before dialect) → past.bytes ≡ [] → past.units ≡ [] → UnitsAre past result [] [] [] }
    {
        SectionUnits {
            alloc,
            dialect,
            reader: Reader::of(alloc, dialect),
            offset: 0,
            is_foreign: false,
            sequences: 0,
            rows: 0,
            summary: Summary {
                units: 0,
                skipped: 0,
                sequences: 0,
                rows: 0,
            },
        }
    }

    /// Works through a piece of the section, and through the end of a unit that is whole with it, up
    /// to where the visitor wants nothing more.
    fn feed<W: Destination, V: Visitor<W>>(
        &mut self,
        output: &mut W,
        visitor: &mut V,
        piece: &[u8],
    ) -> Result<Flow, RunFault>
        ensures fed { (dialect : Dialect) (past : Before dialect) (t : List ℕ) (units : List (List ℕ)) (b : List ℕ)
            (first : V) (start : Option (List ℕ)) → UnitsAre past self.old t units b
            → length past.bytes + (length t + length piece.now) < 2 ^ 64
            → V.story.tells first visitor.old start (W.contents output.old) (visits_since past units b)
            → UnitsFed V.story past (t ++ piece.now) first visitor.new start (W.contents output.new)
            self.new result }
        ensures blames_writer { (dialect : Dialect) (past : Before dialect) (t : List ℕ) (units : List (List ℕ)) (b : List ℕ)
            (first : V) (start : Option (List ℕ)) → UnitsAre past self.old t units b
            → length past.bytes + (length t + length piece.now) < 2 ^ 64
            → V.story.tells first visitor.old start (W.contents output.old) (visits_since past units b)
            → BlamesWriter W.fails result }
    {
        let mut rest = piece;
        'events: loop {
            let fed = match self.feed_program(output, visitor, rest)? {
                Ok(fed) => fed,
                Err(fault) => return Err(self.damage(fault)),
            };
            rest = &rest[fed.used..];
            match fed.event {
                Event::More if fed.used == 0 => return Ok(Flow::On),
                Event::More => {}
                Event::NoMemory => return Err(RunFault::NoMemory),
                Event::End => match self.end(output, visitor)? {
                    Flow::On => {}
                    Flow::Stop => return Ok(Flow::Stop),
                },
                event => self.tell(output, visitor, event)?,
            }
        }
    }

    /// Feeds the reader, and tells the visitor what the bytes of a program come to that it takes, the row of its answer too.
    /// `Err` where the visitor stopped.
    fn feed_program<W: Destination, V: Visitor<W>>(
        &mut self,
        output: &mut W,
        visitor: &mut V,
        piece: &[u8],
    ) -> Result<Result<Fed, Fault>, RunFault>
        ensures used { IfOk result (λ fed. IfOk fed (λ f. f.used ≤ length piece.now)) }
        ensures progress { IfOk result (λ fed. IfOk fed (λ f. IsPause f.event ⊎ (1 ≤ f.used))) }
        ensures end { IfOk result (λ fed. IfOk fed (λ f. f.event ≡ Event.End → 1 ≤ taken_of self.old.reader + f.used)) }
        ensures told { (b : List ℕ) → StandsFor self.old.reader b
            → FeedsTold V.story b piece.now self.old self.new visitor.old visitor.new (W.contents output.old)
            (W.contents output.new) result }
        ensures blames_writer { (b : List ℕ) → StandsFor self.old.reader b → BlamesWriter W.fails result }
    {
        let mut told = Told {
            output,
            visitor,
            sequences: self.sequences,
            rows: self.rows,
            failed: None,
        };
        let fed = self.reader.feed_program(piece, &mut told);
        let Told {
            output: _,
            visitor: _,
            sequences,
            rows,
            failed,
        } = told;
        self.sequences = sequences;
        self.rows = rows;
        match failed {
            Some(fault) => Err(fault),
            None => Ok(fed),
        }
    }

    /// Tells the visitor what came of the current unit, but for a row.
    #[inline]
    fn tell<W: Destination, V: Visitor<W>>(
        &mut self,
        output: &mut W,
        visitor: &mut V,
        event: Event,
    ) -> Result<(), RunFault>
        ensures counted { self.new ≡ counted event self.old }
        ensures heard { (b : List ℕ) → StandsFor self.old.reader b
            → Hears V.story visitor.old visitor.new (W.contents output.old) (W.contents output.new)
            (event_visits self.old.offset (header_read self.old.reader.dialect b) event) result }
        ensures blames_writer { BlamesWriter W.fails result }
    {
        match event {
            Event::Header => match (self.reader.lengths(), self.reader.header()) {
                (Some(lengths), Some(header)) => {
                    visitor.header(output, self.offset, lengths, header)
                }
                _ => Ok(()),
            },
            Event::Foreign(version) => {
                self.is_foreign = true;
                visitor.foreign(output, self.offset, version)
            }
            Event::More | Event::NoMemory | Event::End | Event::Row(_) => Ok(()),
        }
    }

    /// Tells the visitor that the current unit is whole, and goes on after it.
    fn end<W: Destination, V: Visitor<W>>(
        &mut self,
        output: &mut W,
        visitor: &mut V,
    ) -> Result<Flow, RunFault>
        ensures taken { OnOk result (taken_of self.new.reader ≡ 0) }
        ensures units { (dialect : Dialect) (past : Before dialect) (t : List ℕ) (units : List (List ℕ)) (b : List ℕ)
            → UnitsAre past self.old t units b → IsUnit dialect b → length past.bytes + length t < 2 ^ 64
            → OnOk result (UnitsAre past self.new t (units ++ b ∷ []) []) }
        ensures heard { (b : List ℕ) → StandsFor self.old.reader b
            → HearsEnd V.story visitor.old visitor.new (W.contents output.old) (W.contents output.new)
            (header_of self.old.reader.dialect b) (end_visits self.old.reader.dialect b) result }
        ensures blames_writer { BlamesWriter W.fails result }
    {
        self.close(output, visitor)?;
        visitor.end(output, self.next_unit())
    }

    /// Tells the visitor where the last row of the current unit isn't an end row.
    fn close<W: Destination, V: Visitor<W>>(
        &self,
        output: &mut W,
        visitor: &mut V,
    ) -> Result<(), RunFault>
        ensures heard { (b : List ℕ) → StandsFor self.now.reader b
            → Hears V.story visitor.old visitor.new (W.contents output.old) (W.contents output.new)
            (open_visit (ends_open (unit_rows self.now.reader.dialect b))) result }
        ensures blames_writer { BlamesWriter W.fails result }
    {
        if self.reader.in_sequence() {
            visitor.unterminated(output)
        } else {
            Ok(())
        }
    }

    /// Goes on after the current unit, which is whole, and answers its header.
    fn next_unit(&mut self) -> Option<Header>
        ensures taken { taken_of self.new.reader ≡ 0 }
        ensures header { (b : List ℕ) → StandsFor self.old.reader b → result ≡ header_of self.old.reader.dialect b }
        ensures units { (dialect : Dialect) (past : Before dialect) (t : List ℕ) (units : List (List ℕ)) (b : List ℕ)
            → UnitsAre past self.old t units b → IsUnit dialect b → length past.bytes + length t < 2 ^ 64
            → UnitsAre past self.new t (units ++ b ∷ []) [] }
    {
        let reader = mem::replace(&mut self.reader, Reader::of(self.alloc, self.dialect));
        self.offset = self.offset.saturating_add(reader.taken());
        self.summary
            .add_unit(self.is_foreign, self.sequences, self.rows);
        self.is_foreign = false;
        self.sequences = 0;
        self.rows = 0;
        reader.into_header()
    }

    /// What the section comes to where its bytes are over.
    pub fn finish(&self) -> Result<Summary, RunFault>
        ensures { (dialect : Dialect) (past : Before dialect) (t : List ℕ) (units : List (List ℕ)) (b : List ℕ)
            → UnitsAre past self.now t units b → NoUnitBegins dialect b → Sound dialect b
            → length past.bytes + length t < 2 ^ 64 → Finishes past t units b result }
    {
        match self.reader.finish() {
            Ok(_) => Ok(self.summary),
            Err(fault) => Err(self.damage(fault)),
        }
    }

    /// What is wrong with the current unit where the section's bytes are over within it.
    pub fn cut_off(&self) -> Option<Damage>
        ensures { (dialect : Dialect) (past : Before dialect) (t : List ℕ) (units : List (List ℕ)) (b : List ℕ)
            → UnitsAre past self.now t units b → NoUnitBegins dialect b → Sound dialect b
            → length past.bytes + length t < 2 ^ 64 → CutsOff past t b result }
    {
        match self.reader.finish() {
            Ok(_) => None,
            Err(fault) => Some(Damage {
                offset: self.offset.saturating_add(fault.offset),
                kind: fault.kind,
            }),
        }
    }

    /// Where the current unit ends; None where its initial length isn't good.
    pub fn unit_end(&self) -> Option<u64>
        ensures { (b : List ℕ) → StandsFor self.now.reader b
            → result ≡ option_map (λ n. add self.now.offset n) (unit_len self.now.reader.dialect b) }
    {
        let len = self.reader.unit_len()?;
        Some(self.offset.saturating_add(len))
    }

    /// Goes on with a unit that begins at this offset. What was read of the current one isn't counted.
    pub fn begin_at(&mut self, offset: u64)
        ensures { BeginsAt offset self.old self.new }
    {
        self.reader = Reader::of(self.alloc, self.dialect);
        self.offset = offset;
        self.is_foreign = false;
        self.sequences = 0;
        self.rows = 0;
    }

    /// The fault of the current unit, by its offset in the section.
    fn damage(&self, fault: Fault) -> RunFault
        ensures { result ≡ RunFault.Damage (add self.now.offset fault.offset) fault.kind }
    {
        RunFault::Damage {
            offset: self.offset.saturating_add(fault.offset),
            kind: fault.kind,
        }
    }
}

/// Reads the units of the input to its end, or to where the visitor wants nothing more, and tells the
/// visitor of each event.
///
/// The first fault in the order of the bytes is answered, be it the section's or the visitor's; before
/// it the visitor was told of all that the bytes before the fault give. `SectionTooLong` where the
/// section goes past the limit, `Read` where the reader fails, `NoMemory` where a growth of
/// `Reader::feed` is refused. The counts are those of the units that were read whole.
pub fn read_units<R: Source, W: Destination, V: Visitor<W>>(
    alloc: Global,
    input: &mut R,
    output: &mut W,
    options: &Options<'_>,
    visitor: &mut V,
) -> Result<Summary, RunFault>
    requires { options.now.limit ≤ SECTION_LIMIT }
    ensures ran { (bs : List ℕ) × Consumes (R.remaining input.old) (R.remaining input.new) bs
        × (V.story.tells visitor.old visitor.old (W.contents output.old) (W.contents output.old) []
        → Appends (W.contents output.old) (W.contents output.old) (V.story.text visitor.old [])
        → Ran V.story options.now.dialect options.now.limit bs (R.remaining input.new) visitor.old visitor.new
        (W.contents output.old) (W.contents output.new) result) }
    ensures blames { Blames R.follows R.fails input.old input.new
        (NeverBlames V.story visitor.old (W.contents output.old) × (result ≡ Err RunFault.Read)) }
    ensures blames_writer { V.story.tells visitor.old visitor.old (W.contents output.old) (W.contents output.old) []
        → Appends (W.contents output.old) (W.contents output.old) (V.story.text visitor.old [])
        → BlamesWriter W.fails result }
    ensures over { V.story.tells visitor.old visitor.old (W.contents output.old) (W.contents output.old) []
        → Appends (W.contents output.old) (W.contents output.old) (V.story.text visitor.old [])
        → OnOk result (R.over input.new
        ⊎ WantsNoMore V.story visitor.old visitor.new (W.contents output.old) (W.contents output.new)) }
{
    let mut units = SectionUnits::new(alloc, options.dialect);
    read_pieces(&mut units, input, output, options, visitor)
}

/// Reads the units piece by piece, of which nothing was read yet.
fn read_pieces<R: Source, W: Destination, V: Visitor<W>>(
    units: &mut SectionUnits,
    input: &mut R,
    output: &mut W,
    options: &Options<'_>,
    visitor: &mut V,
) -> Result<Summary, RunFault>
    requires limit { options.now.limit ≤ SECTION_LIMIT }
    requires begun { (past : Before options.now.dialect) → past.bytes ≡ [] → past.units ≡ []
        → UnitsAre past units.old [] [] [] }
    ensures ran { (bs : List ℕ) × Consumes (R.remaining input.old) (R.remaining input.new) bs
        × (V.story.tells visitor.old visitor.old (W.contents output.old) (W.contents output.old) []
        → Appends (W.contents output.old) (W.contents output.old) (V.story.text visitor.old [])
        → Ran V.story options.now.dialect options.now.limit bs (R.remaining input.new) visitor.old visitor.new
        (W.contents output.old) (W.contents output.new) result) }
    ensures blames { Blames R.follows R.fails input.old input.new
        (NeverBlames V.story visitor.old (W.contents output.old) × (result ≡ Err RunFault.Read)) }
    ensures blames_writer { V.story.tells visitor.old visitor.old (W.contents output.old) (W.contents output.old) []
        → Appends (W.contents output.old) (W.contents output.old) (V.story.text visitor.old [])
        → BlamesWriter W.fails result }
    ensures over { V.story.tells visitor.old visitor.old (W.contents output.old) (W.contents output.old) []
        → Appends (W.contents output.old) (W.contents output.old) (V.story.text visitor.old [])
        → OnOk result (R.over input.new
        ⊎ WantsNoMore V.story visitor.old visitor.new (W.contents output.old) (W.contents output.new)) }
{
    let mut buffer = Input::new();
    let mut left = options.limit;
    'pieces: loop {
        let Ok(piece) = buffer.next_piece(input) else {
            return Err(RunFault::Read);
        };
        if piece.is_empty() {
            return units.finish();
        }
        let within = front(piece, left);
        match work_through(units, output, visitor, within)? {
            Flow::On => {}
            Flow::Stop => return Ok(units.summary),
        }
        if within.len() < piece.len() {
            return Err(RunFault::SectionTooLong);
        }
        left -= piece.len() as u64;
    }
}

/// Works through a piece and settles what came of it, also where the piece is refused.
pub(crate) fn work_through<W: Destination, V: Visitor<W>>(
    units: &mut SectionUnits,
    output: &mut W,
    visitor: &mut V,
    piece: &[u8],
) -> Result<Flow, RunFault>
    ensures worked { (dialect : Dialect) (past : Before dialect) (t : List ℕ) (done : List (List ℕ)) (b : List ℕ) (first : V)
        (start : Option (List ℕ)) → UnitsAre past units.old t done b
        → length past.bytes + (length t + length piece.now) < 2 ^ 64
        → V.story.tells first visitor.old start (W.contents output.old) (visits_since past done b)
        → Worked V.story past (t ++ piece.now) first visitor.new start (W.contents output.new) units.new result }
    ensures blames_writer { (dialect : Dialect) (past : Before dialect) (t : List ℕ) (done : List (List ℕ)) (b : List ℕ)
        (first : V) (start : Option (List ℕ)) → UnitsAre past units.old t done b
        → length past.bytes + (length t + length piece.now) < 2 ^ 64
        → V.story.tells first visitor.old start (W.contents output.old) (visits_since past done b)
        → BlamesWriter W.fails result }
{
    let answer = units.feed(output, visitor, piece);
    if !is_failed_write(&answer) {
        visitor.flush(output)?;
    }
    answer
}

/// Whether a write failed, after which nothing more is written.
fn is_failed_write(answer: &Result<Flow, RunFault>) -> bool
    ensures { result ≡ is_failed_write answer.now }
{
    matches!(answer, Err(RunFault::Write { .. }))
}

/// The first bytes of the piece, `most` of them or all.
pub(crate) fn front<'a>(piece: &'a [u8], most: u64) -> &'a [u8]
    ensures short { length result.now ≤ most }
    ensures whole { length piece.entry.now ≤ length result.now → length piece.entry.now ≤ most }
    ensures front { result.now ≡ take most piece.entry.now }
{
    if most < piece.len() as u64 {
        &piece[..most as usize]
    } else {
        piece
    }
}
