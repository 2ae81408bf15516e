//! The index of the units of a section before its end or a fault. Section 6.2.4.

ghost use Rattle.std.specs.Prelude.{◌≡◌, ◌≤◌, ℕ, List, Option, Some, IfOk, OnErr, OnOk, is_err, true, false};
ghost use Rattle.std.specs.Io.KnownBytes.{Consumes};
ghost use Rattle.dl_input.specs.Failing.{Blames};
ghost use Rattle.dl_sections.specs.declared.fault.RunFault.TheVariants as faults;
ghost use Rattle.dl_sections.specs.Commands.{strings_in};
ghost use Rattle.dl_sections.specs.Ending.{WhereWhole};
ghost use Rattle.dl_sections.specs.Section.{Visit};
ghost use Rattle.dl_making.specs.declared.maker.Maker as makers;
ghost use Rattle.dl_making.specs.IsIndexOf.{IsIndexOf};
ghost use Rattle.dl_making.specs.Makes.{id_kept};
ghost use Rattle.dl_making.specs.Making.{Making, WantsAfter, WasTold, told_after};
ghost use Rattle.dl_making.specs.Until.{MakesUntil, MakesUntilAround, is_refused};

use crate::maker::Maker;
use crate::making::{Table, told_index};
use dl_input::Source;
use dl_memory::NoMemory;
use dl_pack::SetMemory;
use dl_print::{StringSections, Summary};
use dl_sections::{Options, RunFault, SECTION_LIMIT, Survey, read_units, read_units_around};
use std::io;

/// The index of the units before the end of a section, or before the fault at which its reading ended.
#[derive(Drop)]
pub struct MadeUntil {
    /// None where memory was refused, for the reading or for the index, or this would have 2^32 files or texts.
    pub index: Result<Vec<u8>, NoMemory>,
    /// What the units of the section come to, or the fault.
    pub ended: Result<Summary, RunFault>,
}

/// The index of the whole units before the end of a section of which units may be damaged, or before the fault at which
/// its reading ended.
#[derive(Drop)]
pub struct MadeUntilAround {
    /// None where memory was refused, for the reading or for the index, or this would have 2^32 files or texts.
    pub index: Result<Vec<u8>, NoMemory>,
    /// What the whole units of the section come to, and which units are damaged; or the fault.
    pub ended: Result<Survey, RunFault>,
}

/// Makes the index of a section as `make_index` does, up to the end or the first fault: then it is that of the units before,
/// those whose answers `addr` prints.
///
/// The faults are those of `check`, but for failed writes; `NoMemory` also where a growth is refused for the runs of
/// rows, for files and texts.
pub fn make_index_until<M: SetMemory, R: Source>(
    memory: &M,
    input: &mut R,
    table: &Table<'_>,
    options: &Options<'_>,
) -> MadeUntil
    requires { options.now.limit ≤ SECTION_LIMIT }
    ensures ran { (bs : List ℕ) × Consumes (R.remaining input.old) (R.remaining input.new) bs
        × MakesUntil (M.refuses memory.now) options.now.dialect (strings_in options.now) table.now options.now.limit bs (R.remaining input.new)
        result.ended result.index }
    ensures blames { Blames R.follows R.fails input.old input.new (result.ended ≡ Err RunFault.Read) }
    ensures over { OnOk result.ended (R.over input.new) }
{
    let strings = StringSections::new(options.debug_line_str, options.debug_str);
    let mut maker = Maker::new(memory, &strings, table.code, table.directories);
    let ended = read_units(memory.alloc(), input, &mut io::sink(), options, &mut maker);
    MadeUntil {
        index: index_until(&maker, table, ended.err()),
        ended,
    }
}

/// Makes the index of a section as `make_index_until` does, and goes on after units that are damaged, of which nothing is
/// told.
///
/// The section is read as `read_units_around` reads it, and the faults are those of `make_index_until` but for `Damage`.
pub fn make_index_until_around<M: SetMemory, R: Source>(
    memory: &M,
    input: &mut R,
    table: &Table<'_>,
    options: &Options<'_>,
) -> MadeUntilAround
    requires { options.now.limit ≤ SECTION_LIMIT }
    ensures ran { (bs : List ℕ) × Consumes (R.remaining input.old) (R.remaining input.new) bs
        × MakesUntilAround (M.refuses memory.now) options.now.dialect (strings_in options.now) table.now options.now.limit bs
        (R.remaining input.new) result.ended result.index }
    ensures blames { Blames R.follows R.fails input.old input.new (result.ended ≡ Err RunFault.Read) }
    ensures over { WhereWhole (R.over input.new) result.ended }
{
    let strings = StringSections::new(options.debug_line_str, options.debug_str);
    let mut maker = Maker::new(memory, &strings, table.code, table.directories);
    let ended = read_units_around(memory.alloc(), input, &mut io::sink(), options, &mut maker);
    MadeUntilAround {
        index: index_until(&maker, table, ended.err()),
        ended,
    }
}

/// The index of what a maker was told before the reading ended, with this fault or none.
fn index_until<M: SetMemory>(
    maker: &Maker<'_, '_, '_, M>,
    table: &Table<'_>,
    fault: Option<RunFault>,
) -> Result<Vec<u8>, NoMemory>
    requires { is_refused fault ≡ false → WasTold M.refuses maker.now }
    ensures told { IfOk result (λ index. (first : makers.Maker M) (start held : Option (List ℕ)) (visits : List Visit)
        → Making M.refuses first maker.now start held visits
        → IsIndexOf table.now.all (id_kept table.now) (told_after first visits) index.items) }
    ensures wants { is_refused fault ≡ false → OnErr result ((first : makers.Maker M) (start held : Option (List ℕ))
        (visits : List Visit) → Making M.refuses first maker.now start held visits
        → WantsAfter M.refuses first visits) }
    ensures refused { fault ≡ Some faults.NoMemory → is_err result ≡ true }
{
    if is_refused(fault) {
        return Err(NoMemory);
    }
    told_index(maker, table)
}

/// Whether memory was refused for the reading.
fn is_refused(fault: Option<RunFault>) -> bool
    ensures { result ≡ is_refused fault }
{
    matches!(fault, Some(RunFault::NoMemory))
}
