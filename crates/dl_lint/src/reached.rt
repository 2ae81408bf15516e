//! What is kept of the visits of the current unit. Sections 6.2.2 to 6.2.5.

ghost use Rattle.std.specs.Prelude.{◌≡◌, ◌-◌, ◌^◌, min};
ghost use Rattle.dl_look.specs.Answer.{is_below, place_of};
ghost use Rattle.dl_lint.specs.Before.{program_offset};

use dl_head::{Format, Header, HeaderLengths, Params};
use dl_look::Place;
use dl_rows::{PlainRows, PlainRun, Row};

/// Where there is no row.
const NOWHERE: Place = Place {
    address: 0,
    op_index: 0,
};

/// What is kept of the rows since the last end row.
#[derive(Clone, Copy)]
pub struct Sequence {
    /// Whether there are any.
    pub has_begun: bool,
    /// The place of the first.
    pub first: Place,
    /// Whether one is a statement.
    pub has_statement: bool,
    /// Whether no row's place is below that of the row before it.
    pub rising: bool,
}

/// Whether the place of a row is below another one.
#[inline(always)]
fn is_below(row: &Row, place: Place) -> bool
    ensures { result ≡ is_below (place_of row.now) place }
{
    row.address < place.address || (row.address == place.address && row.op_index < place.op_index)
}

/// Before the first row of a sequence.
pub const NOT_BEGUN: Sequence = Sequence {
    has_begun: false,
    first: NOWHERE,
    has_statement: false,
    rising: true,
};

/// What is kept of the visits of the current unit. Offsets are those of the section.
#[derive(Clone, Copy)]
pub struct Reached {
    /// Where the last operation begins.
    pub operation: u64,
    /// Where the operation begins after it.
    pub begun: u64,
    /// The offset of the next byte of the program.
    pub next: u64,
    /// How many rows there are.
    pub rows: u64,
    /// The place of the last row.
    pub last: Place,
    /// The current sequence.
    pub sequence: Sequence,
}

/// Before the first unit.
pub const BEFORE_UNITS: Reached = Reached {
    operation: 0,
    begun: 0,
    next: 0,
    rows: 0,
    last: NOWHERE,
    sequence: NOT_BEGUN,
};

/// Where an operation begins, and where it ends.
#[derive(Clone, Copy)]
pub struct Offsets {
    begin: u64,
    end: u64,
}

impl Sequence {
    ghost use Rattle.std.specs.Prelude.{◌≡◌, ◌++◌, ◌∷◌, [], List, true};
    ghost use Rattle.dl_rows.specs.declared.row.Row.{Row};
    ghost use Rattle.dl_look.specs.Answer.{first_place};
    ghost use Rattle.dl_lint.specs.Keeping.{sequence_of, with_rows};
    ghost use Rattle.dl_lint.specs.RowRules.{falls_below};

    /// The place of the first row, where this one is the next.
    #[inline(always)]
    pub fn first_with(&self, row: &Row) -> Place
        ensures { (rows : List Row) → self.now ≡ sequence_of rows → result ≡ first_place (rows ++ row.now ∷ []) }
    {
        if self.has_begun {
            self.first
        } else {
            Place::of(row)
        }
    }

    /// With this row it has begun.
    #[inline(always)]
    fn begin(&mut self, row: &Row)
        ensures { (rows : List Row) → self.old ≡ sequence_of rows
            → self.new ≡ record self.old { has_begun = true; first = first_place (rows ++ row.now ∷ []) } }
    {
        if !self.has_begun {
            self.has_begun = true;
            self.first.address = row.address;
            self.first.op_index = row.op_index;
        }
    }

    /// One row more, which doesn't end it. `falls`: its place is below that of the row before it.
    #[inline(always)]
    fn row(&mut self, row: &Row, falls: bool)
        ensures { (rows : List Row) → self.old ≡ sequence_of rows → falls ≡ falls_below rows row.now
            → self.new ≡ sequence_of (rows ++ row.now ∷ []) }
    {
        self.begin(row);
        self.has_statement |= row.is_stmt;
        if falls {
            self.rising = false;
        }
    }

    /// Rows more of a plain run, of which there are some and none falls.
    #[inline(always)]
    fn rows(&mut self, rows: &PlainRows)
        ensures { self.new ≡ with_rows self.old rows.now }
    {
        if !self.has_begun {
            self.has_begun = true;
            self.first.address = rows.first;
            self.first.op_index = 0;
        }
        self.has_statement |= rows.has_statement;
    }
}

impl Reached {
    ghost use Rattle.std.specs.Prelude.{◌≡◌, ◌+◌, ◌++◌, ◌∷◌, [], IfSome, List, false, length, map};
    ghost use Rattle.dl_field.specs.HeaderData.{HeaderData};
    ghost use Rattle.dl_look.specs.Answer.{is_rising, place_of};
    ghost use Rattle.dl_findings.specs.Counting.{at_most_64_bits};
    ghost use Rattle.dl_rows.specs.Items.{a_byte, a_row, an_operation};
    ghost use Rattle.dl_rows.specs.declared.operation.Operation.{Operation};
    ghost use Rattle.dl_sections.specs.Section.{Visit, of_header, of_item};
    ghost use Rattle.dl_lint.specs.Before.{sequence_told};
    ghost use Rattle.dl_lint.specs.Keeping.{AreOf, after_run, reached_by};
    ghost use Rattle.dl_lint.specs.RowRules.{falls_below};

    /// At the program of the unit at this offset that has this header.
    pub fn at_program(unit: u64, lengths: &HeaderLengths, header: &Header) -> Reached
        ensures { (visits : List Visit) → result ≡ reached_by (visits ++ of_header unit lengths.now header.now ∷ []) }
    {
        let program = program_offset(unit, lengths.header_length, header.params());
        Reached {
            operation: program,
            begun: program,
            next: program,
            ..BEFORE_UNITS
        }
    }

    /// Bytes of the program further on.
    #[inline(always)]
    pub fn bytes(&mut self, bytes: &[u8])
        ensures { (visits : List Visit) → self.old ≡ reached_by visits
            → self.new ≡ reached_by (visits ++ map of_item (map a_byte bytes.now)) }
    {
        self.next = self.next.saturating_add(bytes.len() as u64);
    }

    /// An operation further on.
    #[inline(always)]
    pub fn operation(&mut self)
        ensures { (visits : List Visit) (h : HeaderData) (o : Operation) → self.old ≡ reached_by visits
            → self.new ≡ reached_by (visits ++ of_item (an_operation h o) ∷ []) }
    {
        self.operation = self.begun;
        self.begun = self.next;
    }

    /// Where the last operation of a plain run begins and ends; None where bytes of one that isn't over came before, it has no
    /// bytes, or 64 bits don't hold that.
    #[inline(always)]
    pub fn offsets_of(&self, run: &PlainRun<'_, '_>) -> Option<Offsets>
        ensures { IfSome result (AreOf self.now (length run.now.bytes.now) run.now.last_bytes) }
    {
        if self.begun != self.next || run.bytes.is_empty() {
            return None;
        }
        let end = self.next.checked_add(run.bytes.len() as u64)?;
        let begin = end.checked_sub(run.last_bytes as u64)?;
        Some(Offsets { begin, end })
    }

    /// Operations further on, the last of which has these offsets, and the rows that they append.
    #[inline(always)]
    pub fn go_through(&mut self, offsets: Offsets, rows: &PlainRows)
        ensures { self.new ≡ after_run self.old offsets rows.now }
    {
        self.operation = offsets.begin;
        self.begun = offsets.end;
        self.next = offsets.end;
        if rows.count == 0 {
            return;
        }
        self.rows = self.rows.saturating_add(rows.count);
        self.last.address = rows.last;
        self.last.op_index = 0;
        self.sequence.rows(rows);
    }

    /// Whether the place of a row is below that of the last row of its sequence.
    #[inline(always)]
    pub fn falls_below(&self, row: &Row) -> bool
        ensures { (visits : List Visit) → self.now ≡ reached_by visits → result ≡ falls_below (sequence_told visits) row.now }
    {
        self.sequence.has_begun && is_below(row, self.last)
    }

    /// Whether no row's place is below that of the row before it in its sequence, where this one is the next.
    pub fn rises_with(&self, row: &Row) -> bool
        ensures { (visits : List Visit) → self.now ≡ reached_by visits
            → result ≡ is_rising (sequence_told visits ++ row.now ∷ []) }
    {
        self.sequence.rising && !self.falls_below(row)
    }

    /// A row further on.
    #[inline(never)]
    pub fn row(&mut self, row: &Row)
        ensures { (visits : List Visit) (h : HeaderData) → self.old ≡ reached_by visits
            → self.new ≡ reached_by (visits ++ of_item (a_row h row.now) ∷ []) }
    {
        if row.end_sequence {
            self.sequence = NOT_BEGUN;
        } else {
            let falls = self.falls_below(row);
            self.sequence.row(row, falls);
        }
        self.count(row);
    }

    /// Another last row.
    #[inline(always)]
    fn count(&mut self, row: &Row)
        ensures { self.new ≡ record self.old { rows = at_most_64_bits (self.old.rows + 1); last = place_of row.now } }
    {
        self.rows = self.rows.saturating_add(1);
        self.last.address = row.address;
        self.last.op_index = row.op_index;
    }
}

/// The offset of the program of a unit at this offset, as far as 64 bits hold it. Section 6.2.4.
fn program_offset(unit: u64, header_length: u64, params: &Params) -> u64
    ensures { result ≡ min (program_offset unit header_length params.now) (2 ^ 64 - 1) }
{
    let sizes = match params.format {
        Format::Dwarf32 => 10,
        Format::Dwarf64 => 22,
    };
    let before = if params.version == 5 {
        sizes + 2
    } else {
        sizes
    };
    unit.saturating_add(before).saturating_add(header_length)
}
