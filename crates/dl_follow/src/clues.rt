//! What a file without a line table says of the file with its debug information.
ghost use Rattle.std.specs.Prelude.{◌≡◌, IsTrue, ◌↔◌, MatchResult, MatchOption, is_some};
ghost use Rattle.dl_elf.specs.Slots.{slot_of};
ghost use Rattle.dl_elf.specs.SectionsHeld.{slots};
ghost use Rattle.dl_elf.specs.Source.{ForBytes};
ghost use Rattle.dl_open.specs.BuildIds.{RefusesBuildId};
ghost use Rattle.dl_follow.specs.Clues.{GivesClues, HasLines, clues_seen, has_lines};

use crate::candidates::Sought;
use dl_elf::{
    BuildId, ElfFault, ReadAt, SectionName, Sections, find_sections, open_elf, read_build_id,
};
use dl_link::{DebugLink, read_debug_link};

/// What a file without a line section says of the file with its debug information.
#[derive(Debug, Drop)]
pub struct Clues {
    pub id: Option<BuildId>,
    pub link: Option<DebugLink>,
}

impl Clues {
    ghost use Rattle.std.specs.Prelude.{◌≡◌};
    ghost use Rattle.dl_follow.specs.Seen.{sought_seen};
    ghost use Rattle.dl_follow.specs.Clues.{clues_seen, sought_by};

    /// What is looked for, of the file at this path.
    pub fn sought<'a>(&'a self, path: &'a str) -> Sought<'a>
        ensures seen { sought_seen result ≡ sought_by path.entry.now (clues_seen self.entry.now) }
        ensures path { result.path ≡ path.entry }
    {
        Sought {
            path,
            id: self.id.as_ref(),
            link: self.link.as_ref(),
        }
    }
}

/// Whether one of the sections is a line section.
fn has_lines(sections: &Sections) -> bool
    ensures { result ≡ has_lines (slot_of (slots sections.now)) }
{
    sections.get(SectionName::DebugLine).is_some()
        || sections.get(SectionName::ZdebugLine).is_some()
        || sections.get(SectionName::DebugLineDwo).is_some()
}

/// What an open file without a line section says of the file with its debug information; None where it has a line section.
///
/// The fault is that of the file's headers, or `Read` where a read failed.
pub fn read_clues<S: ReadAt>(file: &S) -> Result<Option<Clues>, ElfFault>
    ensures { ForBytes (S.all_bytes file.now) (λ f. MatchResult result
        (λ clues. MatchOption clues (HasLines f) (λ clues. GivesClues f (clues_seen clues)))
        (RefusesBuildId (S.fails_with file.now) f)) }
{
    let elf = open_elf(file)?;
    let sections = find_sections(file, &elf)?;
    if has_lines(&sections) {
        return Ok(None);
    }
    let note = sections.get(SectionName::BuildIdNote);
    Ok(Some(Clues {
        id: read_build_id(file, &elf, note)?,
        link: read_debug_link(file, &elf)?,
    }))
}
