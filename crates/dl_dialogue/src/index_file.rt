//! What an index tells that lies in a file.

ghost use Rattle.std.specs.Prelude.{◌≡◌, ◌+◌, ◌≤◌, ◌++◌, ℕ, List, length, IfOk, IfErr, IfSome, is_some, option_map};
ghost use Rattle.dl_elf.specs.Source.{ForBytes};
ghost use Rattle.dl_addr.specs.Locations.{location_seen};
ghost use Rattle.dl_index.specs.IsIndex.{IsIndex};
ghost use Rattle.dl_index.specs.Telling.{find_in};
ghost use Rattle.dl_index_file.specs.FindsIn.{FindsIn};
ghost use Rattle.dl_index_file.specs.Opening.{source_of};
ghost use Rattle.dl_index_file.specs.Shown.{TextsLie, Lies, text_shown, texts_shown};
ghost use Rattle.dl_dialogue.specs.Asking.{AsksForPath};
ghost use Rattle.dl_dialogue.specs.Faults.{FileFails, as_told};
ghost use Rattle.std.specs.List.{concat};
ghost use Rattle.dl_making.specs.Telling.{location_told, path_told};

use crate::fault::TellFault;
use crate::telling::{Tell, path_if};
use dl_addr::Location;
use dl_elf::{Range, ReadAt};
use dl_index_file::{FileFinder, FileFound, IndexFile, TextFault, TextPlaces};
use dl_memory::Memory;

impl<S: ReadAt> Tell for FileFinder<'_, '_, S> {
    ghost use Rattle.std.specs.Prelude.{◌≡◌, option_map};
    ghost use Rattle.dl_elf.specs.Source.{ForBytes};
    ghost use Rattle.dl_index.specs.IsIndex.{IsIndex};
    ghost use Rattle.dl_index.specs.Telling.{find_in};
    ghost use Rattle.dl_index_file.specs.Finder.{index_of};
    ghost use Rattle.dl_index_file.specs.Opening.{source_of};
    ghost use Rattle.dl_index_file.specs.Reading.{ReadFails};
    ghost use Rattle.dl_dialogue.specs.Asking.{AsksForPath};
    ghost use Rattle.dl_making.specs.Telling.{location_told};

    ghost tells = { λ finder address told. ForBytes (S.all_bytes (source_of (index_of finder))) (λ b.
        IsIndex b → told ≡ option_map location_told (find_in b address)) };

    ghost fails_with = { λ finder error. ReadFails (S.all_bytes (source_of (index_of finder)))
        (S.fails_with (source_of (index_of finder))) error };

    ghost asks = { λ finder n. AsksForPath (S.all_bytes (source_of (index_of finder))) n };

    fn tell<'a, M: Memory>(
        &mut self,
        memory: &M,
        address: u64,
        path: &'a mut Vec<u8>,
    ) -> Result<Option<Location<'a>>, TellFault> {
        let found = self.find(address)?;
        located(memory, self.index(), found, path)
    }
}

/// The location of what was found in an index. The path is read into `path`, in place of what stood there.
fn located<'a, S: ReadAt, M: Memory>(
    memory: &M,
    index: &IndexFile<'_, S>,
    found: Option<FileFound>,
    path: &'a mut Vec<u8>,
) -> Result<Option<Location<'a>>, TellFault>
    ensures tells { ForBytes (S.all_bytes (source_of index.now)) (λ b. IfOk result (λ told. (address : ℕ) → FindsIn b address found
        → IsIndex b → option_map location_seen told ≡ option_map location_told (find_in b address))) }
    ensures fails { ForBytes (S.all_bytes (source_of index.now)) (λ b. IfSome found (λ f. TextsLie b f.texts))
        → IfErr result (FileFails (S.all_bytes (source_of index.now)) (S.fails_with (source_of index.now))
        (AsksForPath (S.all_bytes (source_of index.now))) (M.refuses memory.now)) }
{
    let Some(found) = found else {
        return Ok(None);
    };
    read_texts(memory, index, found.texts, path)?;
    Ok(Some(Location {
        unit: found.unit,
        path: path_if(is_known(found.texts), path.as_slice()),
        line: found.line,
        column: found.column,
        discriminator: found.discriminator,
        is_stmt: found.is_stmt,
    }))
}

/// Whether there is a text.
fn is_known(texts: TextPlaces) -> bool
    ensures { (b : List ℕ) → result ≡ is_some (path_told (texts_shown b texts)) }
{
    texts.first.is_some() || texts.second.is_some() || texts.third.is_some()
}

/// Reads the texts that there are, one after the other, into `path`, in place of what stood there.
fn read_texts<S: ReadAt, M: Memory>(
    memory: &M,
    index: &IndexFile<'_, S>,
    texts: TextPlaces,
    path: &mut Vec<u8>,
) -> Result<(), TellFault>
    ensures texts { ForBytes (S.all_bytes (source_of index.now)) (λ b. IfOk result
        (λ _. path.new.items ≡ concat (texts_shown b texts))) }
    ensures fails { ForBytes (S.all_bytes (source_of index.now)) (λ b. TextsLie b texts)
        → IfErr result (FileFails (S.all_bytes (source_of index.now)) (S.fails_with (source_of index.now))
        (AsksForPath (S.all_bytes (source_of index.now))) (M.refuses memory.now)) }
{
    path.clear();
    read_text(memory, index, texts.first, path)?;
    read_text(memory, index, texts.second, path)?;
    read_text(memory, index, texts.third, path)
}

/// Reads a text behind the others, where there is one.
fn read_text<S: ReadAt, M: Memory>(
    memory: &M,
    index: &IndexFile<'_, S>,
    text: Option<Range>,
    path: &mut Vec<u8>,
) -> Result<(), TellFault>
    ensures text { ForBytes (S.all_bytes (source_of index.now)) (λ b. IfOk result
        (λ _. path.new.items ≡ path.old.items ++ concat (text_shown b text))) }
    ensures fails { ForBytes (S.all_bytes (source_of index.now)) (λ b. Lies b text)
        → IfErr result (FileFails (S.all_bytes (source_of index.now)) (S.fails_with (source_of index.now))
        (λ n. ForBytes (S.all_bytes (source_of index.now)) (λ b. n ≤ length path.old.items + length b)) (M.refuses memory.now)) }
{
    match text {
        Some(place) => as_told(index.read_text(memory, place, path)),
        None => Ok(()),
    }
}

/// What the reading of a text came to.
fn as_told(read: Result<(), TextFault>) -> Result<(), TellFault>
    ensures { result ≡ as_told read }
{
    match read {
        Ok(()) => Ok(()),
        Err(fault) => Err(TellFault::from(fault)),
    }
}
