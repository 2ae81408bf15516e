//! Findings of chosen rules, told one after the other.

ghost use Rattle.std.specs.Prelude.{◌≡◌, ◌≤◌, ◌∷◌, [], List, Option, Some, None, is_some, option_map, option_to_list, true};
ghost use Rattle.dl_table.specs.EntryHeld.{entry_items};
ghost use Rattle.dl_field.specs.HeaderData.{HeaderData};
ghost use Rattle.dl_print.specs.ValueText.{Strings};
ghost use Rattle.dl_print.specs.Output.{BlamesWriter};
ghost use Rattle.dl_rows.specs.Items.{a_row, an_operation};
ghost use Rattle.dl_sections.specs.Section.{Visit, of_end, of_header, of_item};
ghost use Rattle.dl_sections.specs.Visiting.{header_told};
ghost use Rattle.dl_findings.specs.Chosen.{is_chosen};
ghost use Rattle.dl_findings.specs.declared.rule.Rule.TheVariants as rule;
ghost use Rattle.dl_table_rules.specs.Duplicates.{entries_of};
ghost use Rattle.dl_table_rules.specs.Keeping.{AreEnds, IsOrderOf};
ghost use Rattle.dl_table_rules.specs.Sums.{sums_found};
ghost use Rattle.dl_table_rules.specs.TableFindings.{duplicates_found, missing_entry, missing_found, missing_in, unused_found};
ghost use Rattle.dl_lint.specs.Findings.{findings_at};
ghost use Rattle.dl_table_rules.specs.HeaderFindings.{contents_found, directories_found};
ghost use Rattle.dl_operation_rules.specs.Keeping.{Knows};
ghost use Rattle.dl_lint.specs.Keeping.{KnowsFiles, KnowsSequences, reached_by};
ghost use Rattle.dl_lint.specs.Sequences.{dead_told, live_in};
ghost use Rattle.dl_lint.specs.TableRules.{files_named};
ghost use Rattle.dl_sections.specs.Copying.{offset_after as unit_offset};
ghost use Rattle.dl_sequence_rules.specs.Dead.{dead_found};
ghost use Rattle.dl_operation_rules.specs.Operations.{moved_by, seen};
ghost use Rattle.dl_lint.specs.Telling.{Tells, entry_numbered};

use crate::header_rules::padding;
use crate::operation_rules::{long_number, unknown_opcode, wrapped_address};
use crate::question::LintQuestion;
use crate::reached::Reached;
use crate::row_rules::{
    empty_sequence, falling_place, file_index, is_good_row, line_wrapped, no_statement,
    split_instruction,
};
use crate::sequences_seen::SequencesSeen;
use crate::unit_files::UnitFiles;
use dl_findings::{Finding, FindingCounts, Rule, TableEntry, print_finding};
use dl_head::{Entry, Header, HeaderLengths, Table};
use dl_operation_rules::{Moved, Operations};
use dl_output::Destination;
use dl_print::{Printer, WriteFault};
use dl_rows::{Operation, Row};
use dl_table_rules::{
    EntryOrder, TextEnds, content_count, directory_index, duplicate_file, md5_missing,
    missing_text, unknown_content,
};

/// Prints the findings of chosen rules, and counts them.
#[derive(Drop)]
pub struct Report<'p> {
    pub printer: &'p mut Printer,
    pub question: &'p LintQuestion<'p>,
    pub counts: FindingCounts,
}

impl Report<'_> {
    /// Tells a finding, where its rule is chosen.
    #[inline(never)]
    pub fn tell<W: Destination>(
        &mut self,
        output: &mut W,
        finding: &Finding,
    ) -> Result<(), WriteFault>
        ensures told { Tells (W.contents output.old) (W.contents output.new) self.old self.new (finding.now ∷ []) result }
        ensures blames { BlamesWriter W.fails result }
    {
        if !self.question.rules.contains(finding.found.rule()) {
            return Ok(());
        }
        self.counts.add(finding);
        print_finding(self.printer, output, self.question.form, finding)
    }

    /// Tells what is found, if anything.
    #[inline]
    pub fn tell_any<W: Destination>(
        &mut self,
        output: &mut W,
        finding: Option<Finding>,
    ) -> Result<(), WriteFault>
        ensures told { Tells (W.contents output.old) (W.contents output.new) self.old self.new (option_to_list finding) result }
        ensures blames { BlamesWriter W.fails result }
    {
        match finding {
            Some(finding) => self.tell(output, &finding),
            None => Ok(()),
        }
    }

    /// Tells what is found at the next row.
    #[inline(never)]
    pub fn tell_row<W: Destination>(
        &mut self,
        output: &mut W,
        at: &Reached,
        header: &Header,
        row: &Row,
    ) -> Result<(), WriteFault>
        ensures told { (s : Strings) (visits : List Visit) → at.now ≡ reached_by visits
            → Tells (W.contents output.old) (W.contents output.new) self.old self.new
            (findings_at s self.old.question.now visits (of_item (a_row header.now row.now))) result }
        ensures blames { BlamesWriter W.fails result }
    {
        if is_good_row(at, header, row) {
            return Ok(());
        }
        self.tell_any(output, file_index(at, header, row))?;
        self.tell_any(output, falling_place(at, row))?;
        self.tell_any(output, empty_sequence(at, row))?;
        self.tell_any(output, line_wrapped(at, row))?;
        self.tell_any(output, no_statement(at, row))?;
        self.tell_any(output, split_instruction(at, header, row))
    }

    /// Tells what is found at the next operation, which leads the registers there.
    pub fn tell_operation<W: Destination>(
        &mut self,
        output: &mut W,
        at: &Reached,
        operations: &Operations,
        header: &Header,
        operation: Operation,
        moved: Moved,
    ) -> Result<(), WriteFault>
        ensures told { (s : Strings) (visits : List Visit) → at.now ≡ reached_by visits → Knows operations.now (seen visits)
            → moved ≡ moved_by header.now.params operations.now.place operation
            → Tells (W.contents output.old) (W.contents output.new) self.old self.new
            (findings_at s self.old.question.now visits (of_item (an_operation header.now operation))) result }
        ensures blames { BlamesWriter W.fails result }
    {
        self.tell_any(output, long_number(at, operations))?;
        self.tell_any(
            output,
            wrapped_address(at, operations, header, operation, moved),
        )?;
        self.tell_any(output, unknown_opcode(at, operations, header, operation))
    }

    /// Tells what is found in the header of the unit at this offset. The order is that of its table of files, where
    /// `duplicate-file` is chosen.
    pub fn tell_header<W: Destination>(
        &mut self,
        output: &mut W,
        unit: u64,
        lengths: &HeaderLengths,
        header: &Header,
        ends: &TextEnds,
        order: &EntryOrder<'_>,
    ) -> Result<(), WriteFault>
        ensures told { (s : Strings) (visits : List Visit)
            → (is_chosen self.old.question.now.rules rule.MissingText ≡ true → AreEnds ends.now s.line_strings s.strings)
            → (is_chosen self.old.question.now.rules rule.DuplicateFile ≡ true → IsOrderOf order.now (entries_of header.now.files))
            → Tells (W.contents output.old) (W.contents output.new) self.old self.new
            (findings_at s self.old.question.now visits (of_header unit lengths.now header.now)) result }
        ensures blames { BlamesWriter W.fails result }
    {
        self.tell_directories(output, unit, header)?;
        self.tell_missing(output, unit, header, ends)?;
        self.tell_duplicates(output, unit, header, order)?;
        self.tell_sums(output, unit, header)?;
        self.tell_any(output, padding(unit, lengths))?;
        self.tell_contents(output, unit, header)
    }

    /// Tells what is found of the directories that files name.
    fn tell_directories<W: Destination>(
        &mut self,
        output: &mut W,
        unit: u64,
        header: &Header,
    ) -> Result<(), WriteFault>
        ensures told { Tells (W.contents output.old) (W.contents output.new) self.old self.new
            (directories_found unit header.now) result }
        ensures blames { BlamesWriter W.fails result }
    {
        let first = header.first_number();
        let count = header.files().len();
        let mut entry = 0;
        while entry < count {
            self.tell_any(output, directory_index(unit, header, first + entry as u64))?;
            entry += 1;
        }
        Ok(())
    }

    /// Tells what is found of the content codes of both tables.
    fn tell_contents<W: Destination>(
        &mut self,
        output: &mut W,
        unit: u64,
        header: &Header,
    ) -> Result<(), WriteFault>
        ensures told { Tells (W.contents output.old) (W.contents output.new) self.old self.new
            (contents_found unit header.now) result }
        ensures blames { BlamesWriter W.fails result }
    {
        let count = content_count(header);
        let mut place = 0;
        while place < count {
            self.tell_any(output, unknown_content(unit, header, place))?;
            place += 1;
        }
        Ok(())
    }

    /// Tells which texts of the tables string sections don't have.
    fn tell_missing<W: Destination>(
        &mut self,
        output: &mut W,
        unit: u64,
        header: &Header,
        ends: &TextEnds,
    ) -> Result<(), WriteFault>
        ensures told { (s : Strings)
            → (is_chosen self.old.question.now.rules rule.MissingText ≡ true → AreEnds ends.now s.line_strings s.strings)
            → Tells (W.contents output.old) (W.contents output.new) self.old self.new
            (missing_found s unit header.now) result }
        ensures blames { BlamesWriter W.fails result }
    {
        if !self.question.rules.contains(Rule::MissingText) {
            return Ok(());
        }
        let first = header.first_number();
        self.tell_missing_of(output, unit, header.directories(), first, false, ends)?;
        self.tell_missing_of(output, unit, header.files(), first, true, ends)
    }

    /// Tells which texts of a table string sections don't have. Its entries have the numbers from `first` on.
    fn tell_missing_of<W: Destination>(
        &mut self,
        output: &mut W,
        unit: u64,
        table: &Table,
        first: u64,
        are_files: bool,
        ends: &TextEnds,
    ) -> Result<(), WriteFault>
        requires { first ≤ 1 }
        ensures told { (s : Strings) → AreEnds ends.now s.line_strings s.strings
            → Tells (W.contents output.old) (W.contents output.new) self.old self.new
            (missing_in s unit (entry_numbered are_files) first table.now) result }
        ensures blames { BlamesWriter W.fails result }
    {
        let count = table.len();
        let mut place = 0;
        while place < count {
            let number = entry_numbered(are_files, first + place as u64);
            self.tell_missing_at(output, unit, number, table.entry(place), ends)?;
            place += 1;
        }
        Ok(())
    }

    /// Tells which texts of an entry string sections don't have.
    fn tell_missing_at<W: Destination>(
        &mut self,
        output: &mut W,
        unit: u64,
        number: TableEntry,
        entry: Option<Entry<'_>>,
        ends: &TextEnds,
    ) -> Result<(), WriteFault>
        ensures told { (s : Strings) → AreEnds ends.now s.line_strings s.strings
            → Tells (W.contents output.old) (W.contents output.new) self.old self.new
            (missing_entry s unit number (option_map entry_items entry.entry)) result }
        ensures blames { BlamesWriter W.fails result }
    {
        let Some(lent) = entry else {
            return Ok(());
        };
        for (_, value) in lent.values() {
            self.tell_any(output, missing_text(unit, ends, number, value))?;
        }
        Ok(())
    }

    /// Tells which files have the values of others.
    fn tell_duplicates<W: Destination>(
        &mut self,
        output: &mut W,
        unit: u64,
        header: &Header,
        order: &EntryOrder<'_>,
    ) -> Result<(), WriteFault>
        ensures told { (is_chosen self.old.question.now.rules rule.DuplicateFile ≡ true → IsOrderOf order.now (entries_of header.now.files))
            → Tells (W.contents output.old) (W.contents output.new) self.old self.new
            (duplicates_found unit header.now) result }
        ensures blames { BlamesWriter W.fails result }
    {
        if !self.question.rules.contains(Rule::DuplicateFile) {
            return Ok(());
        }
        let count = header.files().len();
        let mut place = 0;
        while place < count {
            self.tell_any(output, duplicate_file(unit, header, order, place))?;
            place += 1;
        }
        Ok(())
    }

    /// Tells whether some files have an MD5 sum and others none.
    fn tell_sums<W: Destination>(
        &mut self,
        output: &mut W,
        unit: u64,
        header: &Header,
    ) -> Result<(), WriteFault>
        ensures told { Tells (W.contents output.old) (W.contents output.new) self.old self.new
            (sums_found unit header.now) result }
        ensures blames { BlamesWriter W.fails result }
    {
        self.tell_any(output, md5_missing(unit, header))
    }

    /// Tells what is found where a unit is whole.
    pub fn tell_end<W: Destination>(
        &mut self,
        output: &mut W,
        files: &UnitFiles,
        sequences: &SequencesSeen,
        has_header: bool,
    ) -> Result<(), WriteFault>
        ensures told { (s : Strings) (visits : List Visit) (h : Option HeaderData) → KnowsFiles self.old.question.now.rules files.now visits
            → KnowsSequences self.old.question.now sequences.now visits
            → header_told None visits ≡ h → has_header ≡ is_some h
            → Tells (W.contents output.old) (W.contents output.new) self.old self.new
            (findings_at s self.old.question.now visits (of_end h)) result }
        ensures blames { BlamesWriter W.fails result }
    {
        if !has_header {
            return Ok(());
        }
        self.tell_dead(output, sequences, files.unit())?;
        self.tell_unused(output, files)
    }

    /// Tells the sequences that aren't live of the unit with a header at this offset.
    fn tell_dead<W: Destination>(
        &mut self,
        output: &mut W,
        sequences: &SequencesSeen,
        unit: u64,
    ) -> Result<(), WriteFault>
        ensures told { (visits : List Visit) → KnowsSequences self.old.question.now sequences.now visits → unit ≡ unit_offset 0 visits
            → Tells (W.contents output.old) (W.contents output.new) self.old self.new
            (dead_found (unit_offset 0 visits) (dead_told (live_in self.old.question.now) visits)) result }
        ensures blames { BlamesWriter W.fails result }
    {
        if !self.question.rules.contains(Rule::DeadSequence) {
            return Ok(());
        }
        self.tell_any(output, sequences.dead(unit))
    }

    /// Tells the files that no row names of a unit with a header.
    fn tell_unused<W: Destination>(
        &mut self,
        output: &mut W,
        files: &UnitFiles,
    ) -> Result<(), WriteFault>
        ensures told { (visits : List Visit) (h : HeaderData) → KnowsFiles self.old.question.now.rules files.now visits
            → header_told None visits ≡ Some h
            → Tells (W.contents output.old) (W.contents output.new) self.old self.new
            (unused_found (unit_offset 0 visits) h (files_named visits)) result }
        ensures blames { BlamesWriter W.fails result }
    {
        if !self.question.rules.contains(Rule::UnusedFile) {
            return Ok(());
        }
        self.tell_any(output, files.unused())
    }
}

/// The entry of this number, of the table of files or of that of directories.
fn entry_numbered(are_files: bool, number: u64) -> TableEntry
    ensures { result ≡ entry_numbered are_files number }
{
    if are_files {
        TableEntry::File(number)
    } else {
        TableEntry::Directory(number)
    }
}
