//! The build ID of a file. System V ABI, chapter 5, "Note Section".
ghost use Rattle.std.specs.Prelude.{MatchResult, option_map};
ghost use Rattle.dl_elf.specs.Notes.{build_id_bytes};
ghost use Rattle.dl_elf.specs.Source.{ForBytes};
ghost use Rattle.dl_open.specs.BuildIds.{IsBuildId, RefusesBuildId};

use dl_elf::{BuildId, ElfFault, ReadAt, SectionName, find_sections, open_elf, read_build_id};

/// The build ID of an open file, which is in its section `.note.gnu.build-id`; None where it has none that is usable.
///
/// The fault is that of the file's headers, or `Read` where a read failed.
pub fn build_id_of<S: ReadAt>(file: &S) -> Result<Option<BuildId>, ElfFault>
    ensures { ForBytes (S.all_bytes file.now) (λ f. MatchResult result
        (λ told. IsBuildId f (option_map build_id_bytes told)) (RefusesBuildId (S.fails_with file.now) f)) }
{
    let elf = open_elf(file)?;
    let sections = find_sections(file, &elf)?;
    let note = sections.get(SectionName::BuildIdNote);
    Ok(read_build_id(file, &elf, note)?)
}
