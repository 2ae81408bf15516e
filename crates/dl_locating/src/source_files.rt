//! What the program does for `sources`: the source files of a line table.
ghost use Rattle.std.specs.Prelude.{◌≡◌, ℕ, List, option_map};
ghost use Rattle.std.specs.Io.KnownBytes.{Consumes};
ghost use Rattle.dl_input.specs.Failing.{Blames};
ghost use Rattle.dl_cmd.specs.Job.{sources_words_made};
ghost use Rattle.dl_program.specs.Blaming.{BlamesWriter};
ghost use Rattle.dl_locating.specs.SourceWords.{SourcesRead, sources_table, sources_wish, unit_asked};
ghost use Rattle.dl_locating.specs.WithTable.{BlamesTable, table_seen};

use crate::with_table::{TableWords, Wish, ask_table};
use dl_cmd::{SourcesWords, read_address};
use dl_input::Source;
use dl_open::FileSource;
use dl_output::Destination;
use dl_program::{MapMemory, Stop};
use dl_sections::Survey;

/// What the words say of the line table.
fn table<'a>(words: &SourcesWords<'a>) -> TableWords<'a>
    ensures { table_seen result ≡ sources_table (sources_words_made words.now) }
{
    TableWords {
        file: words.file,
        all: words.all,
        section: None,
        big: words.big,
        units: words.units,
        comp_dir: words.comp_dir,
        line_str: words.line_str,
        strings: words.strings,
    }
}

/// The offset of the unit that is asked for, or that none is; None where the word says no offset.
fn unit_asked(word: Option<&str>) -> Option<Option<u64>>
    ensures { result ≡ unit_asked (option_map (λ s. s.now) word.entry) }
{
    match word {
        Some(word) => Some(Some(read_address(false, word)?)),
        None => Some(None),
    }
}

/// What they ask of it; None where what they say to be the offset of a unit is none.
fn wish(words: &SourcesWords<'_>) -> Option<Wish<'static>>
    ensures { result ≡ sources_wish (sources_words_made words.now) }
{
    Some(Wish::Sources {
        rows: words.rows,
        md5: words.md5,
        json: words.json,
        unit: unit_asked(words.unit)?,
        keep_going: words.keep_going,
    })
}

/// Prints the source files of the ELF file that the words name, or where they name none of the section on the input: each path
/// that a table of files names, once, in the order of bytes, with what is asked of it. Where they say the offset of a unit, these
/// are the paths that the table of this unit names; `RunFault::NoUnit` where none begins there.
///
/// In a linked file that has code the sequences are counted that begin in it, unless all are asked for. Paths stand under the
/// compilation directory that the words say, or else under those that the file says. After a damaged unit the next one is
/// read where the words say so: then the units are told that are whole, and the answer says how many others there are.
///
/// `NotUnderstood` where an offset is none, a size is no size, or something is said that isn't so of what is read; then, and at
/// each fault before the reading, nothing is written. `RunFault::TwoSums` where some path has two MD5 sums that are asked for.
pub fn list_sources<'a, M: MapMemory, F: FileSource, R: Source, W: Destination>(
    memory: &M,
    words: &SourcesWords<'a>,
    files: &F,
    input: &mut R,
    output: &mut W,
) -> Result<Survey, Stop<'a>>
    ensures listed { (bytes : List ℕ) × Consumes (R.remaining input.old) (R.remaining input.new) bytes
        × SourcesRead (M.refuses memory.now) (F.held files.now) (F.fails_with files.now) (sources_words_made words.now) bytes
        (R.remaining input.new) (W.contents output.old) (W.contents output.new) result }
    ensures blames { Blames R.follows R.fails input.old input.new (BlamesTable (M.refuses memory.now) (F.held files.now)
        (F.fails_with files.now) (sources_table (sources_words_made words.now)) result) }
    ensures blames_writer { BlamesWriter W.fails result }
{
    let Some(wish) = wish(words) else {
        return Err(Stop::NotUnderstood);
    };
    ask_table(memory, &table(words), wish, files, input, output)
}
