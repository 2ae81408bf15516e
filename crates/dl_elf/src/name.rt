//! The names of the sections that are looked for.
ghost use Rattle.std.specs.Prelude.{◌≡◌, ◌↔◌, IsTrue};

use std::fmt;

/// The name of a section that is looked for.
#[derive(Clone, Copy, Debug, PartialEq, Eq)]
pub enum SectionName {
    /// `.debug_line`: the line table. DWARF 5, section 6.2.
    DebugLine,
    /// `.zdebug_line`: the line table, compressed the way it was before the ABI had a flag for it.
    ZdebugLine,
    /// `.debug_line.dwo`: the line table of a split object file. DWARF 5, section 7.3.2.
    DebugLineDwo,
    /// `.debug_line_str`
    DebugLineStr,
    /// `.zdebug_line_str`
    ZdebugLineStr,
    /// `.debug_line_str.dwo`
    DebugLineStrDwo,
    /// `.debug_str`
    DebugStr,
    /// `.zdebug_str`
    ZdebugStr,
    /// `.debug_str.dwo`
    DebugStrDwo,
    /// `.note.gnu.build-id`: what the linker says the file is.
    BuildIdNote,
    /// `.debug_info`: the entries of units, by which the directory of a compilation is found. DWARF 5, section 7.5.
    DebugInfo,
    /// `.zdebug_info`
    ZdebugInfo,
    /// `.debug_abbrev`: which attributes entries have. DWARF 5, section 7.5.3.
    DebugAbbrev,
    /// `.zdebug_abbrev`
    ZdebugAbbrev,
    /// `.debug_str_offsets`: where the text of an index stands. DWARF 5, section 7.26.
    DebugStrOffsets,
    /// `.zdebug_str_offsets`
    ZdebugStrOffsets,
}

impl SectionName {
    ghost use Rattle.dl_elf.specs.Names.{name_bytes, is_zdebug};
    ghost use Rattle.dl_elf.specs.Found.{index_of};

    /// All names, in the order of the variants.
    pub(crate) const ALL: [SectionName; 16] = [
        SectionName::DebugLine,
        SectionName::ZdebugLine,
        SectionName::DebugLineDwo,
        SectionName::DebugLineStr,
        SectionName::ZdebugLineStr,
        SectionName::DebugLineStrDwo,
        SectionName::DebugStr,
        SectionName::ZdebugStr,
        SectionName::DebugStrDwo,
        SectionName::BuildIdNote,
        SectionName::DebugInfo,
        SectionName::ZdebugInfo,
        SectionName::DebugAbbrev,
        SectionName::ZdebugAbbrev,
        SectionName::DebugStrOffsets,
        SectionName::ZdebugStrOffsets,
    ];

    /// Its place among them.
    pub(crate) fn index(self) -> usize
        ensures { result ≡ index_of self }
    {
        self as usize
    }

    /// Whether the name begins `.zdebug_`: such a section is compressed.
    pub(crate) fn is_zdebug(self) -> bool
        ensures { result ≡ is_zdebug self }
    {
        matches!(
            self,
            SectionName::ZdebugLine
                | SectionName::ZdebugLineStr
                | SectionName::ZdebugStr
                | SectionName::ZdebugInfo
                | SectionName::ZdebugAbbrev
                | SectionName::ZdebugStrOffsets
        )
    }

    /// The name as it stands in a file, without its zero byte.
    pub(crate) fn text(self) -> &'static str
        ensures { result.now ≡ name_bytes self }
    {
        match self {
            SectionName::DebugLine => ".debug_line",
            SectionName::ZdebugLine => ".zdebug_line",
            SectionName::DebugLineDwo => ".debug_line.dwo",
            SectionName::DebugLineStr => ".debug_line_str",
            SectionName::ZdebugLineStr => ".zdebug_line_str",
            SectionName::DebugLineStrDwo => ".debug_line_str.dwo",
            SectionName::DebugStr => ".debug_str",
            SectionName::ZdebugStr => ".zdebug_str",
            SectionName::DebugStrDwo => ".debug_str.dwo",
            SectionName::BuildIdNote => ".note.gnu.build-id",
            SectionName::DebugInfo => ".debug_info",
            SectionName::ZdebugInfo => ".zdebug_info",
            SectionName::DebugAbbrev => ".debug_abbrev",
            SectionName::ZdebugAbbrev => ".zdebug_abbrev",
            SectionName::DebugStrOffsets => ".debug_str_offsets",
            SectionName::ZdebugStrOffsets => ".zdebug_str_offsets",
        }
    }
}

impl fmt::Display for SectionName {
    ghost use Rattle.std.specs.Prelude.{Some};
    ghost use Rattle.dl_elf.specs.Names.{name_bytes};

    ghost output = { λ name. Some (name_bytes name) };

    fn fmt<W: fmt::Write>(&self, f: &mut fmt::Formatter<W>) -> fmt::Result {
        f.write_str(self.text())
    }
}
