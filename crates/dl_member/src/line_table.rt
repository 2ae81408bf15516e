//! Which files have a line table.
ghost use Rattle.std.specs.Prelude.{◌≡◌, ◌≢◌, ◌⊎◌, MatchBool, is_some};
ghost use Rattle.dl_elf.specs.declared.fault.ElfFault.TheVariants.{NotElf};
ghost use Rattle.dl_elf.specs.Slots.{slot_of};
ghost use Rattle.dl_elf.specs.SectionsHeld.{slots};
ghost use Rattle.dl_elf.specs.Source.{ForBytes};
ghost use Rattle.dl_file.specs.LineTable.{line_section};
ghost use Rattle.dl_member.specs.NoTable.{HasNoTable};
ghost use Rattle.dl_open.specs.Files.{MayFail};

use dl_elf::{ElfFault, ReadAt, SectionName, Sections, find_sections, open_elf};

/// Whether one of the sections is that of a line table.
fn has_line_section(sections: &Sections) -> bool
    ensures { result ≡ is_some (line_section (slot_of (slots sections.now))) }
{
    sections
        .get(SectionName::DebugLine)
        .or(sections.get(SectionName::ZdebugLine))
        .or(sections.get(SectionName::DebugLineDwo))
        .is_some()
}

/// Whether the fault is that a file isn't an ELF file.
fn is_not_elf(fault: &ElfFault) -> bool
    ensures { MatchBool result (fault.now ≡ NotElf) (fault.now ≢ NotElf) }
{
    matches!(fault, ElfFault::NotElf)
}

/// Whether a file has no line table: it isn't an ELF file, or has no line section. It isn't said of one that can't be read.
pub fn has_no_table<S: ReadAt>(file: &S) -> bool
    ensures { ForBytes (S.all_bytes file.now) (λ f. MatchBool result (HasNoTable f)
        (MayFail (S.fails_with file.now) ⊎ ¬ HasNoTable f)) }
{
    match open_elf(file) {
        Ok(elf) => match find_sections(file, &elf) {
            Ok(sections) => !has_line_section(&sections),
            Err(_) => false,
        },
        Err(fault) => is_not_elf(&fault),
    }
}
