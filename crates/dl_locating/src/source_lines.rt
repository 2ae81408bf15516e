//! What the program does for `lines`: the addresses of source lines.
ghost use Rattle.std.specs.Prelude.{◌≡◌, ℕ, IfErr, IfOk, List, map, option_map};
ghost use Rattle.std.specs.Io.KnownBytes.{Consumes};
ghost use Rattle.dl_input.specs.Failing.{Blames};
ghost use Rattle.dl_cmd.specs.Job.{lines_words_made};
ghost use Rattle.dl_program.specs.Blaming.{BlamesWriter};
ghost use Rattle.dl_locating.specs.SourceWords.{AreAsked, LinesRead, LinesStop, lines_table};
ghost use Rattle.dl_locating.specs.WithTable.{BlamesTable, table_seen};

use crate::located::Located;
use crate::with_table::{TableWords, Wish, ask_table};
use dl_cmd::LinesWords;
use dl_input::Source;
use dl_lines::{Wanted, wanted_in};
use dl_memory::Memory;
use dl_open::FileSource;
use dl_output::Destination;
use dl_program::{MapMemory, Stop, unless_input};
use dl_sections::RunFault;

/// The lines that these words ask for.
fn wanted_lines<'a, M: Memory>(memory: &M, words: &[&'a str]) -> Result<Vec<Wanted<'a>>, Stop<'a>>
    ensures wanted { IfOk result (λ wanted. AreAsked (map (λ s. s.now) words.now) wanted.items) }
    ensures stops { IfErr result (LinesStop (M.refuses memory.now) (map (λ s. s.now) words.now)) }
{
    let mut wanted = Vec::new(memory.alloc());
    for word in words {
        let Some(line) = wanted_in(word.as_bytes()) else {
            return Err(Stop::NotLine { word: *word });
        };
        if memory.push(&mut wanted, line).is_err() {
            return Err(Stop::Run(RunFault::NoMemory));
        }
    }
    Ok(wanted)
}

/// What the words say of the line table.
fn table<'a>(words: &LinesWords<'a>) -> TableWords<'a>
    ensures { table_seen result ≡ lines_table (lines_words_made words.now) }
{
    TableWords {
        file: unless_input(words.file),
        all: words.all,
        section: words.section,
        big: words.big,
        units: words.units,
        comp_dir: words.comp_dir,
        line_str: words.line_str,
        strings: words.strings,
    }
}

/// Prints the addresses of source lines, of the ELF file that the words name, or where that is `-` of the section on the
/// input.
///
/// In a linked file that has code the sequences count that begin in it, unless all are asked for; in an object file those of
/// the section that is named, or where none is named of its code. Paths stand under the compilation directory that the words
/// say, or else under those that the file says. After a damaged unit the next one is read, unless the words say that it
/// stops there: then the units answer that are whole, and `Damaged` tells of the others.
///
/// `NotUnderstood` where no file is named, a size is no size, or something is said that isn't so of what is read; `NotLine` tells
/// the first word that asks for no line. Then, and at each fault before the reading, nothing is written. The answer says
/// whether each line has a place; it names no line of the input.
pub fn find_lines<'a, M: MapMemory, F: FileSource, R: Source, W: Destination>(
    memory: &M,
    words: &LinesWords<'a>,
    files: &F,
    input: &mut R,
    output: &mut W,
) -> Result<Located, Stop<'a>>
    ensures found { (bytes : List ℕ) × Consumes (R.remaining input.old) (R.remaining input.new) bytes
        × LinesRead (M.refuses memory.now) (F.held files.now) (F.fails_with files.now) (lines_words_made words.now) bytes
        (R.remaining input.new) (W.contents output.old) (W.contents output.new) result }
    ensures blames { Blames R.follows R.fails input.old input.new (BlamesTable (M.refuses memory.now) (F.held files.now)
        (F.fails_with files.now) (lines_table (lines_words_made words.now)) result) }
    ensures blames_writer { BlamesWriter W.fails result }
{
    if words.file.is_none() {
        return Err(Stop::NotUnderstood);
    }
    let wanted = wanted_lines(memory, words.wanted.as_slice())?;
    let wish = Wish::Lines {
        wanted: wanted.as_slice(),
        exact: words.exact,
        stop: words.stop,
    };
    let answer = ask_table(memory, &table(words), wish, files, input, output);
    Located::by_answer(answer, None)
}
