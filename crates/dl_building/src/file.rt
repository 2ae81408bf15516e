//! The call that makes the index of an ELF file.

ghost use Rattle.std.specs.Prelude.{◌≡◌, ℕ, [], List, Some};
ghost use Rattle.dl_cmd.specs.Job.{index_words_made};
ghost use Rattle.dl_building.specs.FileBuilding.{BuildsFile, IsFileBuilt, IsIndexed, built_of, file_words};
ghost use Rattle.dl_locating.specs.Indexing.{IndexesFor};

use crate::faults::tell_stop;
use crate::one_file::OneFile;
use crate::room::put;
use dl_buffers::{FaultRecord, Status};
use dl_cmd::{IndexWords, UnitWords};
use dl_held::{Held, Refusing};
use dl_locating::index;
use dl_memory::NoMemory;
use dl_program::{MapMemory, Stop};
use dl_sections::{RunFault, Survey};
use std::marker::Brand;

/// The index of a file.
#[derive(Drop)]
pub struct Built {
    pub index: Vec<u8>,
    /// What the units of its line table come to, and which are damaged.
    pub survey: Survey,
}

/// What the program is told for an index of all units of a file that are read.
fn words(all: bool, keep_going: bool) -> IndexWords<'static>
    ensures { index_words_made result ≡ file_words all keep_going }
{
    IndexWords {
        file: Some(""),
        output: None,
        list: false,
        all,
        keep_going,
        section: None,
        units: UnitWords {
            older: None,
            address_size: None,
            version_5: false,
        },
        comp_dir: None,
    }
}

/// Makes the index of the ELF file that bytes are, as the program does.
fn index_of_file<M: MapMemory>(
    memory: &M,
    file: &[u8],
    all: bool,
    keep_going: bool,
) -> Result<Built, Stop<'static>>
    ensures { IsFileBuilt (M.refuses memory.now) file.now all keep_going result }
{
    let words = words(all, keep_going);
    let indexed = index_in_memory::<M, Brand>(memory, &words, file);
    built_of(indexed.end, indexed.index)
}

/// What the program does, and what it writes.
#[derive(Drop)]
struct Indexed<'a> {
    end: Result<Survey, Stop<'a>>,
    index: Result<Vec<u8>, NoMemory>,
}

/// The program over a file, with its output held in memory.
fn index_in_memory<'a, M: MapMemory, K: Refusing>(
    memory: &M,
    words: &IndexWords<'a>,
    file: &[u8],
) -> Indexed<'a>
    requires { (n : ℕ) → M.refuses memory.now n → K.refuses n }
    ensures { (v : List ℕ) × IndexesFor (M.refuses memory.now) (λ path. Some file.now) (λ path error. ⊥) (index_words_made words.now)
        (Some []) (Some v) result.end × IsIndexed K.refuses v result.end result.index }
{
    let files = OneFile { bytes: file };
    let mut held = Held::<'_, M, K>::new(memory);
    let end = index(memory, words, &files, &mut held);
    Indexed {
        end,
        index: held.whole(),
    }
}

/// What came of it: the index, where the program ended well and its output is held.
fn built_of<'a>(
    end: Result<Survey, Stop<'a>>,
    index: Result<Vec<u8>, NoMemory>,
) -> Result<Built, Stop<'a>>
    ensures { result ≡ built_of end.entry index }
{
    let survey = match end {
        Ok(survey) => survey,
        Err(stop) => return Err(stop),
    };
    match index {
        Ok(index) => Ok(Built { index, survey }),
        Err(NoMemory) => Err(Stop::Run(RunFault::NoMemory)),
    }
}

/// Makes the index of an ELF file, as `dwline index` does: of the sequences that begin where the file has code, or of all;
/// up to a damaged unit, or around such units.
///
/// Done: the index stands in the room's first bytes, and how many these are is told. NoRoom: this alone is told. Fault: the
/// fault is told; and where units are damaged that are gone around, the index too. NoMemory: also where the index would
/// have 2^32 texts. What isn't told stays as it was.
pub fn build_file<M: MapMemory>(
    memory: &M,
    file: &[u8],
    all: bool,
    keep_going: bool,
    room: &mut [u8],
    len: &mut usize,
    fault: &mut FaultRecord,
) -> Status
    ensures { BuildsFile (M.refuses memory.now) file.now all keep_going room.old room.new len.old len.new fault.old fault.new result }
{
    match index_of_file(memory, file, all, keep_going) {
        Ok(built) => put(
            built.index.as_slice(),
            built.survey.damaged,
            room,
            len,
            fault,
        ),
        Err(stop) => tell_stop(&stop, fault),
    }
}
