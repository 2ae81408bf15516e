//! What the rules find in the tables of a header. Sections 6.2.4.1 and 7.5.5.

ghost use Rattle.std.specs.Prelude.{◌≡◌, ◌<◌, ◌≤◌, ◌+◌, ◌^◌, ℕ, List, length, option_to_list};
ghost use Rattle.dl_table.specs.Held.{value_lent};
ghost use Rattle.dl_field.specs.HeaderData.{HeaderData};
ghost use Rattle.dl_print.specs.ValueText.{Strings};
ghost use Rattle.dl_table_rules.specs.Duplicates.{entries_of};
ghost use Rattle.dl_table_rules.specs.Keeping.{AreEnds, AreNamed, IsOrderOf};
ghost use Rattle.dl_table_rules.specs.TableFindings.{duplicate_at, in_header, missing_if, missing_value, unused_found};
ghost use Rattle.dl_findings.specs.declared.finding.Found.TheVariants as what;

use crate::entry_order::EntryOrder;
use crate::files_named::FilesNamed;
use crate::text_ends::TextEnds;
use dl_findings::{Finding, Found, TableEntry, TextSection};
use dl_head::{Header, ValueRef};

/// A finding of the header of the unit at this offset.
pub(crate) fn in_header(unit: u64, found: Found) -> Finding
    ensures { result ≡ in_header unit found }
{
    Finding {
        offset: unit,
        row: None,
        found,
    }
}

/// `missing-text`, of a value of this entry, in the header of the unit at this offset
pub fn missing_text(
    unit: u64,
    ends: &TextEnds,
    entry: TableEntry,
    value: ValueRef<'_>,
) -> Option<Finding>
    ensures { (s : Strings) → AreEnds ends.now s.line_strings s.strings
        → option_to_list result ≡ missing_value s unit entry (value_lent value.entry) }
{
    match value {
        ValueRef::LineStr(offset) => missing_if(
            ends.lacks_line_string(offset),
            unit,
            entry,
            TextSection::DebugLineStr,
            offset,
        ),
        ValueRef::Str(offset) => missing_if(
            ends.lacks_string(offset),
            unit,
            entry,
            TextSection::DebugStr,
            offset,
        ),
        _ => None,
    }
}

/// What is found where a section has no text.
fn missing_if(
    is_missing: bool,
    unit: u64,
    entry: TableEntry,
    section: TextSection,
    offset: u64,
) -> Option<Finding>
    ensures { option_to_list result ≡ missing_if is_missing unit entry section offset }
{
    if !is_missing {
        return None;
    }
    Some(in_header(
        unit,
        Found::MissingText {
            entry,
            section,
            offset,
        },
    ))
}

/// `duplicate-file`, of the entry at this place of the table of files, in the header of the unit at this offset. The order is
/// that of the table.
pub fn duplicate_file(
    unit: u64,
    header: &Header,
    order: &EntryOrder<'_>,
    place: usize,
) -> Option<Finding>
    requires { place < length header.now.files.entries }
    ensures { IsOrderOf order.now (entries_of header.now.files)
        → option_to_list result ≡ duplicate_at unit header.now place }
{
    // There are as many entries as 64 bits hold.
    let _count = header.files().len();
    match order.first_same(header.files(), place) {
        Some(other) => Some(in_header(unit, same_as(header.first_number(), place, other))),
        None => None,
    }
}

/// The entry at this place has the values of another one before it, where the numbers begin with `first`.
fn same_as(first: u64, place: usize, other: usize) -> Found
    requires first { first ≤ 1 }
    requires before { other < place }
    requires within { place + 1 < 2 ^ 64 }
    ensures { result ≡ what.DuplicateFile (first + place) (first + other) }
{
    Found::DuplicateFile {
        file: first + place as u64,
        same_as: first + other as u64,
    }
}

/// `unused-file`, in the unit at this offset
pub fn unused_file(unit: u64, named: &FilesNamed) -> Option<Finding>
    ensures { (h : HeaderData) (files : List ℕ) → AreNamed named.now h files
        → option_to_list result ≡ unused_found unit h files }
{
    let unused = named.unused();
    if unused.files == 0 {
        return None;
    }
    Some(in_header(
        unit,
        Found::UnusedFile {
            files: unused.files,
            first: unused.first,
        },
    ))
}
