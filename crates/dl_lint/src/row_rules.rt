//! What the rules find at a row, and at the end of a unit. Sections 6.2.2 to 6.2.5.

ghost use Rattle.std.specs.Prelude.{◌≡◌, ◌≤◌, ◌∷◌, ◌⊎◌, ℕ, [], false, IsTrue, List, is_none, length, option_to_list, true};
ghost use Rattle.dl_look.specs.Answer.{is_below};
ghost use Rattle.dl_table_rules.specs.Unused.{is_among};
ghost use Rattle.dl_head.specs.Numbers.{file_numbered, first_number};
ghost use Rattle.dl_print.specs.ValueText.{Strings};
ghost use Rattle.dl_field.specs.HeaderData.{HeaderData};
ghost use Rattle.dl_rows.specs.Items.{a_row};
ghost use Rattle.dl_sections.specs.Section.{Visit, of_item, of_open};
ghost use Rattle.dl_lint.specs.Before.{sequence_told};
ghost use Rattle.dl_lint.specs.Keeping.{AreGoodRows, FitsLength, first_of, reached_by};
ghost use Rattle.dl_lint.specs.RowRules.{distance, empty_sequence_at, ends_nothing, falling_place_at, falls_below, file_index_at, found_if};
ghost use Rattle.dl_lint.specs.Findings.{findings_at};
ghost use Rattle.dl_lint.specs.RowRules.{ends_without_statement, first_address, is_split, is_wrapped};
ghost use Rattle.dl_lint.specs.declared.question.LintQuestion.{LintQuestion};
ghost use Rattle.dl_lint.specs.RowRules.{line_wrapped_at, names_no_file, no_end_at, no_statement_at, row_seen, split_instruction_at};
ghost use Rattle.dl_findings.specs.declared.finding.Found.{Found};

use crate::reached::Reached;
use dl_findings::{Finding, Found, RowSeen};
use dl_head::Header;
use dl_look::Place;
use dl_rows::{PlainRun, Row};

/// The greatest line that 32 bits hold.
const GREATEST_LINE: u64 = 0xffff_ffff;

/// Whether that shows at once that no rule finds anything at the row that comes next.
#[inline(always)]
pub fn is_good_row(at: &Reached, header: &Header, row: &Row) -> bool
    ensures nothing { (s : Strings) (q : LintQuestion) (visits : List Visit) → at.now ≡ reached_by visits
        → IsTrue result → findings_at s q visits (of_item (a_row header.now row.now)) ≡ [] }
    ensures rises { (visits : List Visit) → at.now ≡ reached_by visits → IsTrue result
        → falls_below (sequence_told visits) row.now ≡ false }
{
    if !names_a_file(header, row) {
        return false;
    }
    if at.falls_below(row) {
        return false;
    }
    if is_wrapped(row.line) {
        return false;
    }
    if ends_nothing(at, row) || ends_without_statement(at, row) {
        return false;
    }
    !splits(at, header, row)
}

/// Whether there is a file of a row's number, or the row is an end row.
#[inline(always)]
fn names_a_file(header: &Header, row: &Row) -> bool
    ensures { IsTrue result → names_no_file header.now row.now ≡ false }
{
    row.end_sequence || has_file(header, row.file)
}

/// Whether that shows at once that no rule finds anything at the rows of a plain run that comes next.
#[inline(always)]
pub fn are_good_rows(at: &Reached, header: &Header, run: &PlainRun<'_, '_>) -> bool
    ensures { IsTrue result → 1 ≤ run.now.rows.count → AreGoodRows at.now header.now run.now }
{
    if run.rows.count == 0 {
        return true;
    }
    let first = Place {
        address: run.rows.first,
        op_index: 0,
    };
    if at.sequence.has_begun && is_before(first, at.last) {
        return false;
    }
    have_files(header, run.files) && fits_length(at, header, run.rows.first)
}

/// Whether a place is below another one.
#[inline(always)]
fn is_before(place: Place, other: Place) -> bool
    ensures { result ≡ is_below place other }
{
    place.address < other.address
        || (place.address == other.address && place.op_index < other.op_index)
}

/// Whether there are files of these numbers.
fn have_files(header: &Header, numbers: &[u64]) -> bool
    ensures { IsTrue result → (number : ℕ) → is_among numbers.now number ≡ true → is_none (file_numbered header.now number) ≡ false }
{
    let first = header.first_number();
    let count = header.files().len() as u64;
    for number in numbers {
        if !is_numbered(first, count, *number) {
            return false;
        }
    }
    true
}

/// Whether an address is a multiple of the least length of an instruction after the first one of its sequence, as far as that
/// shows at once.
#[inline(always)]
fn fits_length(at: &Reached, header: &Header, address: u64) -> bool
    ensures { IsTrue result → (header.now.params.minimum_instruction_length ≤ 1)
        ⊎ FitsLength header.now.params.minimum_instruction_length (first_of at.now.sequence address) address }
{
    let least = header.params().minimum_instruction_length;
    if least < 2 {
        return true;
    }
    let first = if at.sequence.has_begun {
        at.sequence.first.address
    } else {
        address
    };
    first <= address && (address - first) % u64::from(least) == 0
}

/// Whether there is a file of this number.
#[inline(always)]
fn has_file(header: &Header, number: u64) -> bool
    ensures { IsTrue result → is_none (file_numbered header.now number) ≡ false }
{
    is_numbered(header.first_number(), header.files().len() as u64, number)
}

/// Whether a number is that of one of so many files, the first of which has this one.
#[inline(always)]
fn is_numbered(first: u64, count: u64, number: u64) -> bool
    ensures { (h : HeaderData) → first ≡ first_number h.params → count ≡ length h.files.entries → IsTrue result
        → is_none (file_numbered h number) ≡ false }
{
    first <= number && number - first < count
}

/// Whether the address of a row is no multiple of the least length of an instruction from the first one of its sequence.
#[inline(always)]
fn splits(at: &Reached, header: &Header, row: &Row) -> bool
    ensures { (visits : List Visit) → at.now ≡ reached_by visits
        → result ≡ is_split header.now.params.minimum_instruction_length (first_address visits row.now) row.now.address }
{
    let least = header.params().minimum_instruction_length;
    // Each number is a multiple of 1, and no division is needed for that.
    if least <= 1 {
        return false;
    }
    let first = at.sequence.first_with(row).address;
    apart(first, row.address) % u64::from(least) != 0
}

/// The row that comes next.
pub fn row_seen(at: &Reached, row: &Row) -> RowSeen
    ensures { (visits : List Visit) → at.now ≡ reached_by visits → result ≡ row_seen visits row.now }
{
    RowSeen {
        number: at.rows.saturating_add(1),
        place: Place::of(row),
    }
}

/// What is found at the row that comes next.
fn found(at: &Reached, row: &Row, found: Found) -> Option<Finding>
    ensures { (visits : List Visit) → at.now ≡ reached_by visits → option_to_list result ≡ found_if true visits row.now found }
{
    Some(Finding {
        offset: at.operation,
        row: Some(row_seen(at, row)),
        found,
    })
}

/// Whether a row that isn't an end row names no file of the table.
#[inline]
fn names_no_file(header: &Header, row: &Row) -> bool
    ensures { result ≡ names_no_file header.now row.now }
{
    !row.end_sequence && header.file(row.file).is_none()
}

/// `file-index`
#[inline]
pub fn file_index(at: &Reached, header: &Header, row: &Row) -> Option<Finding>
    ensures { (visits : List Visit) → at.now ≡ reached_by visits
        → option_to_list result ≡ file_index_at visits (of_item (a_row header.now row.now)) }
{
    if !names_no_file(header, row) {
        return None;
    }
    found(
        at,
        row,
        Found::FileIndex {
            file: row.file,
            files: header.files().len() as u64,
            first: header.first_number(),
        },
    )
}

/// `falling-place`
#[inline]
pub fn falling_place(at: &Reached, row: &Row) -> Option<Finding>
    ensures { (visits : List Visit) (h : HeaderData) → at.now ≡ reached_by visits
        → option_to_list result ≡ falling_place_at visits (of_item (a_row h row.now)) }
{
    if !at.falls_below(row) {
        return None;
    }
    found(at, row, Found::FallingPlace { before: at.last })
}

/// `no-end`
pub fn no_end(at: &Reached) -> Finding
    ensures { (visits : List Visit) → at.now ≡ reached_by visits → result ∷ [] ≡ no_end_at visits of_open }
{
    Finding {
        offset: at.next,
        row: Some(RowSeen {
            number: at.rows,
            place: at.last,
        }),
        found: Found::NoEnd,
    }
}

/// Whether a row ends a sequence whose first row has its address.
#[inline(always)]
fn ends_nothing(at: &Reached, row: &Row) -> bool
    ensures { (visits : List Visit) → at.now ≡ reached_by visits → result ≡ ends_nothing visits row.now }
{
    row.end_sequence && at.sequence.first_with(row).address == row.address
}

/// `empty-sequence`
#[inline]
pub fn empty_sequence(at: &Reached, row: &Row) -> Option<Finding>
    ensures { (visits : List Visit) (h : HeaderData) → at.now ≡ reached_by visits
        → option_to_list result ≡ empty_sequence_at visits (of_item (a_row h row.now)) }
{
    if !ends_nothing(at, row) {
        return None;
    }
    found(at, row, Found::EmptySequence)
}

/// Whether a line needs more than 32 bits.
#[inline(always)]
fn is_wrapped(line: u64) -> bool
    ensures { result ≡ is_wrapped line }
{
    line > GREATEST_LINE
}

/// `line-wrapped`
#[inline]
pub fn line_wrapped(at: &Reached, row: &Row) -> Option<Finding>
    ensures { (visits : List Visit) (h : HeaderData) → at.now ≡ reached_by visits
        → option_to_list result ≡ line_wrapped_at visits (of_item (a_row h row.now)) }
{
    if !is_wrapped(row.line) {
        return None;
    }
    found(at, row, Found::LineWrapped { line: row.line })
}

/// Whether a row ends a sequence in which no row is a statement.
#[inline(always)]
fn ends_without_statement(at: &Reached, row: &Row) -> bool
    ensures { (visits : List Visit) → at.now ≡ reached_by visits → result ≡ ends_without_statement visits row.now }
{
    row.end_sequence && !at.sequence.has_statement
}

/// `no-statement`
#[inline]
pub fn no_statement(at: &Reached, row: &Row) -> Option<Finding>
    ensures { (visits : List Visit) (h : HeaderData) → at.now ≡ reached_by visits
        → option_to_list result ≡ no_statement_at visits (of_item (a_row h row.now)) }
{
    if !ends_without_statement(at, row) {
        return None;
    }
    found(at, row, Found::NoStatement)
}

/// How far two addresses are apart.
#[inline(always)]
fn apart(a: u64, b: u64) -> u64
    ensures { result ≡ distance a b }
{
    if a < b { b - a } else { a - b }
}

/// `split-instruction`
#[inline]
pub fn split_instruction(at: &Reached, header: &Header, row: &Row) -> Option<Finding>
    ensures { (visits : List Visit) → at.now ≡ reached_by visits
        → option_to_list result ≡ split_instruction_at visits (of_item (a_row header.now row.now)) }
{
    if !splits(at, header, row) {
        return None;
    }
    found(
        at,
        row,
        Found::SplitInstruction {
            first: at.sequence.first_with(row).address,
            least: u64::from(header.params().minimum_instruction_length),
        },
    )
}
