//! What is kept of the files of the current unit. Section 6.2.4.

use dl_findings::{Finding, Rule, Rules};
use dl_head::Header;
use dl_memory::{Memory, NoMemory};
use dl_rows::Row;
use dl_table_rules::{FilesNamed, unused_file};
use std::alloc::Global;

/// What is kept of the files of the current unit.
#[derive(Drop)]
pub struct UnitFiles {
    /// The offset of the unit in the section.
    unit: u64,
    /// Those that rows have named, where `unused-file` is chosen.
    named: FilesNamed,
}

impl UnitFiles {
    ghost use Rattle.std.specs.Prelude.{◌≡◌, ◌++◌, ◌∷◌, [], ℕ, List, Some, None, IfOk, OnErr, length, option_to_list, true};
    ghost use Rattle.dl_field.specs.HeaderData.{HeaderData};
    ghost use Rattle.dl_head.specs.declared.header.HeaderLengths.{HeaderLengths};
    ghost use Rattle.dl_memory.specs.Refusals.{IsRefused};
    ghost use Rattle.dl_rows.specs.Items.{a_row};
    ghost use Rattle.dl_sections.specs.Copying.{offset_after as unit_offset};
    ghost use Rattle.dl_sections.specs.Section.{Visit, of_header, of_item};
    ghost use Rattle.dl_sections.specs.Visiting.{header_told};
    ghost use Rattle.dl_findings.specs.Chosen.{is_chosen};
    ghost use Rattle.dl_findings.specs.declared.rule.Rule.TheVariants as rule;
    ghost use Rattle.dl_findings.specs.declared.rules.Rules.{Rules};
    ghost use Rattle.dl_table_rules.specs.TableFindings.{unused_found};
    ghost use Rattle.dl_table_rules.specs.Keeping.{AreNamed};
    ghost use Rattle.dl_lint.specs.Keeping.{KnowsFiles};
    ghost use Rattle.dl_lint.specs.TableRules.{files_named};

    /// Before the first unit.
    pub fn before_units(alloc: Global) -> UnitFiles
        ensures { (rules : Rules) → KnowsFiles rules result [] }
    {
        UnitFiles {
            unit: 0,
            named: FilesNamed::none(alloc),
        }
    }

    /// At the program of the unit at this offset that has this header. It takes memory where a rule is chosen that needs it.
    pub fn of<M: Memory>(
        memory: &M,
        rules: &Rules,
        unit: u64,
        header: &Header,
    ) -> Result<UnitFiles, NoMemory>
        ensures knows { IfOk result (λ files. (visits : List Visit) (lengths : HeaderLengths)
            → KnowsFiles rules.now files (visits ++ of_header unit lengths header.now ∷ [])) }
        ensures kept { OnErr result (is_chosen rules.now rule.UnusedFile ≡ true) }
        ensures refused { OnErr result (IsRefused (M.refuses memory.now) (length header.now.files.entries)) }
    {
        if !rules.contains(Rule::UnusedFile) {
            return Ok(UnitFiles {
                unit,
                named: FilesNamed::none(memory.alloc()),
            });
        }
        let named = FilesNamed::of(memory, header)?;
        Ok(UnitFiles { unit, named })
    }

    /// The offset of the unit.
    #[inline(always)]
    pub fn unit(&self) -> u64
        ensures { result ≡ self.now.unit }
    {
        self.unit
    }

    /// A row further on.
    #[inline(always)]
    pub fn row(&mut self, row: &Row)
        ensures { (rules : Rules) (visits : List Visit) (h : HeaderData) → KnowsFiles rules self.old visits
            → KnowsFiles rules self.new (visits ++ of_item (a_row h row.now) ∷ []) }
    {
        if !row.end_sequence {
            self.named.name(row.file);
        }
    }

    /// Rows further on that name these files and no others.
    pub fn rows(&mut self, files: &[u64])
        ensures unit { self.new.unit ≡ self.old.unit }
        ensures named { (h : HeaderData) (before : List ℕ) → AreNamed self.old.named h before
            → AreNamed self.new.named h (before ++ files.now) }
    {
        self.named.name_each(files);
    }

    /// `unused-file`, of a unit with a header
    pub fn unused(&self) -> Option<Finding>
        ensures { (rules : Rules) (visits : List Visit) (h : HeaderData) → KnowsFiles rules self.now visits
            → is_chosen rules rule.UnusedFile ≡ true → header_told None visits ≡ Some h
            → option_to_list result ≡ unused_found (unit_offset 0 visits) h (files_named visits) }
    {
        unused_file(self.unit, &self.named)
    }
}
