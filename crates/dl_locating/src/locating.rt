//! What the program does for `addr`: addresses, and where they are in the source.
ghost use Rattle.std.specs.Prelude.{ℕ, List};
ghost use Rattle.std.specs.Io.KnownBytes.{Consumes};
ghost use Rattle.dl_cmd.specs.Job.{addr_words_made};
ghost use Rattle.dl_input.specs.Failing.{Became, Blames};
ghost use Rattle.dl_program.specs.Blaming.{BlamesWriter};
ghost use Rattle.dl_locating.specs.Blaming.{BlamesReader};
ghost use Rattle.dl_locating.specs.Locate.{LocatesInSection};
ghost use Rattle.dl_locating.specs.LocateFile.{LocatesFor, LocatesInFile};
ghost use Rattle.dl_locating.specs.OverElfFile.{Unanswered};
ghost use Rattle.dl_locating.specs.Understood.{IsUnderstood};

use crate::addr_words::{
    AskedWords, asked_words, asking, part_name, question, said_directory, suits_file, suits_input,
};
use crate::answering::answer_asked;
use crate::code::everywhere;
use crate::located::Located;
use crate::opening::open_either;
use crate::over_elf_file::in_elf_file;
use crate::over_index::in_index;
use dl_cmd::AddrWords;
use dl_dialogue::Nothing;
use dl_input::Source;
use dl_memory::Memory;
use dl_open::FileSource;
use dl_output::Destination;
use dl_program::{INPUT, MapMemory, Section, Stop, Unheard, on_input};

/// Looks into the section on the input.
fn in_section<'a, M: MapMemory, F: FileSource, R: Source, W: Destination>(
    memory: &M,
    words: &AddrWords<'a>,
    files: &F,
    input: &mut R,
    output: &mut W,
) -> Result<Located, Stop<'a>>
    ensures located { (bytes : List ℕ) × Consumes (R.remaining input.old) (R.remaining input.new) bytes
        × LocatesInSection (M.refuses memory.now) (F.held files.now) (F.fails_with files.now) (addr_words_made words.now) bytes (R.remaining input.new)
        (W.contents output.old) (W.contents output.new) result }
    ensures blames { Blames R.follows R.fails input.old input.new (BlamesReader (M.refuses memory.now)
        (F.held files.now) (F.fails_with files.now) (addr_words_made words.now) (R.remaining input.old) (R.remaining input.new) result) }
    ensures blames_writer { BlamesWriter W.fails result }
{
    if !suits_input(words) {
        return Err(Stop::NotUnderstood);
    }
    let AskedWords { base, asked } = asked_words(memory, words)?;
    if asked.is_empty() {
        return Err(Stop::NotUnderstood);
    }
    let section = Section {
        big: words.big,
        older: words.units.older,
        line_str: words.line_str,
        strings: words.strings,
    };
    let question = question(
        words,
        part_name(words),
        base,
        asked.as_slice(),
        everywhere(),
        said_directory(words),
    );
    let command = asking(words, question);
    let answer = on_input(memory, files, section, command, input, output, &mut Unheard);
    Located::by_answer(answer, None)
}

/// Says of each address that it has no answer, where the addresses can be had.
fn unanswered<M: Memory, R: Source, W: Destination>(
    memory: &M,
    words: &AddrWords<'_>,
    understood: &AskedWords,
    input: &mut R,
    output: &mut W,
)
    ensures answers { (bytes : List ℕ) × Consumes (R.remaining input.old) (R.remaining input.new) bytes
        × (IsUnderstood (addr_words_made words.now) understood.now → Unanswered (M.refuses memory.now) (addr_words_made words.now) bytes
        (R.remaining input.new) (W.contents output.old) (W.contents output.new)) }
    ensures reads { (first : R) → Became R.follows first input.old → Became R.follows first input.new }
{
    let _ = answer_asked(memory, words, understood, &mut Nothing, input, output);
}

/// Looks into the file at this path, an index or an ELF file.
fn in_file<'a, M: MapMemory, F: FileSource, R: Source, W: Destination>(
    memory: &M,
    words: &AddrWords<'a>,
    path: &'a str,
    files: &F,
    input: &mut R,
    output: &mut W,
) -> Result<Located, Stop<'a>>
    ensures located { (bytes : List ℕ) × Consumes (R.remaining input.old) (R.remaining input.new) bytes
        × LocatesInFile (M.refuses memory.now) (F.held files.now) (F.fails_with files.now) path.entry (addr_words_made words.now) bytes
        (R.remaining input.new) (W.contents output.old) (W.contents output.new) result }
    ensures blames { Blames R.follows R.fails input.old input.new (BlamesReader (M.refuses memory.now)
        (F.held files.now) (F.fails_with files.now) (addr_words_made words.now) (R.remaining input.old) (R.remaining input.new) result) }
    ensures blames_writer { BlamesWriter W.fails result }
{
    if !suits_file(words) {
        return Err(Stop::NotUnderstood);
    }
    let understood = asked_words(memory, words)?;
    match open_either(files, path) {
        Ok((file, true)) => in_index(
            memory,
            words,
            path,
            &file,
            &understood,
            files,
            input,
            output,
        ),
        Ok((file, false)) => in_elf_file(memory, words, path, &file, &understood, input, output),
        Err(fault) => {
            unanswered(memory, words, &understood, input, output);
            Err(Stop::File { path, fault })
        }
    }
}

/// Prints where addresses are in the source, of the ELF file or the index that the words name, or where that is `-`
/// of the section on the input.
///
/// The addresses are among the words. Where there are none, they are read from the input, and each line of it that has
/// ended is answered before more is read; a section on the input wants an address among the words, and no section of an
/// object file. Beside a file the words say neither an order nor string sections, nor the size of an address on the input.
/// In a linked file that has code the sequences count that begin in it, unless all are asked for. Where the file can't be
/// read for its line table, each address has no answer, and its fault is told.
///
/// Of an index the words say neither which sequences count nor how units are read; it is refused where it isn't of the
/// file that they name.
///
/// After a damaged unit the next one is read, unless the words say that it stops there: each address is answered by the
/// units that are whole, and `Damaged` tells of the others.
///
/// The answer says whether each address has one, and names the first line of the input that is no address.
pub fn locate<'a, M: MapMemory, F: FileSource, R: Source, W: Destination>(
    memory: &M,
    words: &AddrWords<'a>,
    files: &F,
    input: &mut R,
    output: &mut W,
) -> Result<Located, Stop<'a>>
    ensures located { (bytes : List ℕ) × Consumes (R.remaining input.old) (R.remaining input.new) bytes
        × LocatesFor (M.refuses memory.now) (F.held files.now) (F.fails_with files.now) (addr_words_made words.now) bytes
        (R.remaining input.new) (W.contents output.old) (W.contents output.new) result }
    ensures blames { Blames R.follows R.fails input.old input.new (BlamesReader (M.refuses memory.now)
        (F.held files.now) (F.fails_with files.now) (addr_words_made words.now) (R.remaining input.old) (R.remaining input.new) result) }
    ensures blames_writer { BlamesWriter W.fails result }
{
    match words.file {
        Some(path) if path == INPUT => in_section(memory, words, files, input, output),
        Some(path) => in_file(memory, words, path, files, input, output),
        None => Err(Stop::NotUnderstood),
    }
}
