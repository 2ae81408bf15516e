//! The index of the units of a section. Section 6.2.4.

ghost use Rattle.std.specs.Prelude.{◌≡◌, ◌≤◌, ℕ, List, None, Option, IfOk, OnErr, OnOk, take};
ghost use Rattle.std.specs.Io.KnownBytes.{Consumes};
ghost use Rattle.dl_input.specs.Failing.{Blames};
ghost use Rattle.dl_sections.specs.Commands.{strings_in};
ghost use Rattle.dl_sections.specs.Section.{Visit};
ghost use Rattle.dl_making.specs.declared.maker.Maker as makers;
ghost use Rattle.dl_making.specs.IsIndexOf.{IsIndexOf};
ghost use Rattle.dl_making.specs.Makes.{Makes, MakesAround, id_kept};
ghost use Rattle.dl_making.specs.Making.{Making, WantsAfter, WasTold, told_after};

use crate::maker::Maker;
use dl_dirs::CompilationDirectories;
use dl_input::Source;
use dl_look::CodeRanges;
use dl_memory::NoMemory;
use dl_pack::{PackFault, SetMemory, index_bytes};
use dl_print::{StringSections, Summary};
use dl_sections::{Options, RunFault, SECTION_LIMIT, Survey, read_units, read_units_around};
use std::io;

/// What an index is made with, beside the section.
#[derive(Clone, Copy)]
pub struct Table<'a> {
    /// Where there is code: a sequence is told where its first address is one of these. None: each sequence is told.
    pub code: Option<&'a CodeRanges>,
    /// Where paths stand that aren't whole.
    pub directories: CompilationDirectories<'a>,
    /// Whether each sequence was asked for, which the index says.
    pub all: bool,
    /// The build ID of the file; of a longer one its first 32 bytes are kept.
    pub build_id: &'a [u8],
}

/// The index of a section.
#[derive(Drop)]
pub struct Made {
    pub index: Vec<u8>,
    /// What its units come to.
    pub summary: Summary,
}

/// The index of a section of which units may be damaged.
#[derive(Drop)]
pub struct MadeAround {
    pub index: Vec<u8>,
    /// What its whole units come to, and which units are damaged.
    pub survey: Survey,
}

/// Makes the index of a section: the bytes that answer each address as the units of the section do, in their order.
///
/// The faults are those of `check`, but for failed writes; `NoMemory` also where a growth is refused for the runs of
/// rows, for files and texts, or for the index, and where the index would have 2^32 files or texts.
pub fn make_index<M: SetMemory, R: Source>(
    memory: &M,
    input: &mut R,
    table: &Table<'_>,
    options: &Options<'_>,
) -> Result<Made, RunFault>
    requires { options.now.limit ≤ SECTION_LIMIT }
    ensures ran { (bs : List ℕ) × Consumes (R.remaining input.old) (R.remaining input.new) bs
        × Makes (M.refuses memory.now) options.now.dialect (strings_in options.now) table.now options.now.limit bs
        (R.remaining input.new) result }
    ensures blames { Blames R.follows R.fails input.old input.new (result ≡ Err RunFault.Read) }
    ensures over { OnOk result (R.over input.new) }
{
    let strings = StringSections::new(options.debug_line_str, options.debug_str);
    let mut maker = Maker::new(memory, &strings, table.code, table.directories);
    let summary = read_units(memory.alloc(), input, &mut io::sink(), options, &mut maker)?;
    match told_index(&maker, table) {
        Ok(index) => Ok(Made { index, summary }),
        Err(NoMemory) => Err(RunFault::NoMemory),
    }
}

/// Makes the index of a section as `make_index` does, and goes on after units that are damaged, of which nothing is
/// told.
///
/// The section is read as `read_units_around` reads it. The faults are those of `make_index` but for `Damage`: of damaged
/// units the answer says what is wrong with the first, and how many others there are.
pub fn make_index_around<M: SetMemory, R: Source>(
    memory: &M,
    input: &mut R,
    table: &Table<'_>,
    options: &Options<'_>,
) -> Result<MadeAround, RunFault>
    requires { options.now.limit ≤ SECTION_LIMIT }
    ensures ran { (bs : List ℕ) × Consumes (R.remaining input.old) (R.remaining input.new) bs
        × MakesAround (M.refuses memory.now) options.now.dialect (strings_in options.now) table.now options.now.limit bs
        (R.remaining input.new) result }
    ensures blames { Blames R.follows R.fails input.old input.new (result ≡ Err RunFault.Read) }
    ensures over { IfOk result (λ made. made.survey.damaged ≡ None → R.over input.new) }
{
    let strings = StringSections::new(options.debug_line_str, options.debug_str);
    let mut maker = Maker::new(memory, &strings, table.code, table.directories);
    let survey = read_units_around(memory.alloc(), input, &mut io::sink(), options, &mut maker)?;
    match told_index(&maker, table) {
        Ok(index) => Ok(MadeAround { index, survey }),
        Err(NoMemory) => Err(RunFault::NoMemory),
    }
}

/// The index of what a maker was told. Each file that it told has a name, so memory alone can be wanted, or there are
/// 2^32 files or texts.
pub(crate) fn told_index<M: SetMemory>(
    maker: &Maker<'_, '_, '_, M>,
    table: &Table<'_>,
) -> Result<Vec<u8>, NoMemory>
    requires { WasTold M.refuses maker.now }
    ensures index { IfOk result (λ index. (first : makers.Maker M) (start held : Option (List ℕ)) (visits : List Visit)
        → Making M.refuses first maker.now start held visits
        → IsIndexOf table.now.all (id_kept table.now) (told_after first visits) index.items) }
    ensures wants { OnErr result ((first : makers.Maker M) (start held : Option (List ℕ)) (visits : List Visit)
        → Making M.refuses first maker.now start held visits
        → WantsAfter M.refuses first visits) }
{
    if maker.is_refused {
        return Err(NoMemory);
    }
    let stretches = maker.runs.stretches(maker.memory)?;
    match index_bytes(
        maker.memory,
        &stretches,
        &maker.names,
        table.all,
        id_front(table.build_id),
    ) {
        Ok(index) => Ok(index),
        Err(PackFault::NoMemory) => Err(NoMemory),
        Err(PackFault::TooMany) => Err(NoMemory),
        Err(PackFault::File) => unreachable!(),
        Err(PackFault::BuildId) => unreachable!(),
    }
}

/// As much of a build ID as an index keeps: its first 32 bytes.
pub fn id_front(build_id: &[u8]) -> &[u8]
    ensures { result.now ≡ take 32 build_id.now }
{
    if build_id.len() <= 32 {
        build_id
    } else {
        &build_id[..32]
    }
}
