//! The texts of the paths of files that answer.

ghost use Rattle.std.specs.Prelude.{◌≡◌, ◌≢◌, ◌<◌, ◌≤◌, ◌+◌, ◌*◌, ℕ, List, Option, length, slice_get, slice_index_or};
ghost use Rattle.std.specs.Prelude.{IfOk, IfSome, OnErr, OnOk, None, Some};
ghost use Rattle.dl_memory.specs.Refusals.{IsRefused};
ghost use Rattle.std.specs.BTreeMap.{Updates};
ghost use Rattle.std.specs.Ordering.{nat_cmp};
ghost use Rattle.std.specs.Option.{option_copied, option_map, option_map_or};
ghost use Rattle.dl_look.specs.Ledgers.{no_answer};
ghost use Rattle.dl_path.specs.PathParts.{FromDirectories, HeaderBytesWithin, IsDirectory, directory_seen, header_bytes};
ghost use Rattle.dl_path.specs.PathParts.{parts_seen, text_seen};
ghost use Rattle.dl_addr.specs.Room.{HasFew, KeepsFew, WasPut, paths_room, unit_cells};
ghost use Rattle.dl_addr.specs.Texts.{AreNumbers, AreSeen, AreTexts, Grows, HasPath, IsKept, IsOther, IsPath};
ghost use Rattle.dl_addr.specs.Texts.{TextsGrow, directory_text, files_end, named, part_at, path_of_file, text_at};
ghost use Rattle.dl_print.specs.ValueText.{strings_of};
ghost use Rattle.dl_path.specs.Paths.{path_of};

use crate::kept::{FilePath, KeptBytes, KeptText, PathUnit, Paths};
use crate::style::Style;
use dl_head::Header;
use dl_look::Answered;
use dl_memory::{Memory, NoMemory};
use dl_path::{Directory, Parts, Text, basename_under, has_directory_0, parts_of};
use dl_print::StringSections;
use std::collections::BTreeMap;

/// The files of a unit, and how their paths are printed.
#[derive(Clone, Copy)]
pub struct UnitFiles<'s, 'o, 'h> {
    pub strings: &'s StringSections<'o>,
    pub header: Option<&'h Header>,
    pub style: Style<'h>,
    /// The compilation directory that counts for the unit, as far as it is known.
    pub directory: Option<&'h [u8]>,
    /// The offset of the unit in its section.
    pub offset: u64,
}

impl UnitFiles<'_, '_, '_> {
    ghost use Rattle.std.specs.Prelude.{◌≡◌};
    ghost use Rattle.dl_addr.specs.Texts.{place_of};

    /// What is kept of the unit itself.
    fn place(&self) -> PathUnit
        ensures { result ≡ place_of self.now }
    {
        PathUnit {
            offset: self.offset,
            has_directory_0: has_directory_0(self.header),
        }
    }
}

/// What is kept of the current unit, by its numbers.
#[derive(Drop)]
pub struct UnitNumbers {
    /// The number of each file's path.
    pub files: BTreeMap<u64, usize>,
    /// The number of each directory's text.
    pub directories: BTreeMap<u64, usize>,
    /// The file that was looked up last, with the number of its path: rows that follow one another often name one file.
    pub last: Option<(u64, usize)>,
}

/// Keeps the path of the file of each place that a unit answers: a file's path once, and for each place
/// the number of its path. Where memory is refused, no path is added.
pub fn keep_all<'s, M: Memory>(
    memory: &M,
    paths: &mut Paths<'s>,
    kept: &mut Vec<usize>,
    unit: &UnitFiles<'s, '_, '_>,
    answered: &[Answered],
) -> Result<(), NoMemory>
    ensures grows { Grows paths.old paths.new }
    ensures len { length kept.new.items ≡ length kept.old.items }
    ensures others { (i : ℕ) → IsOther answered.now (length answered.now) i
        → slice_get kept.new.items i ≡ slice_get kept.old.items i }
    ensures right { OnOk result (AreNumbers answered.now kept.old.items → (j : ℕ) → j < length answered.now
        → IsKept paths.new kept.new.items (slice_index_or answered.now j no_answer).number
        (path_of_file unit.now (slice_index_or answered.now j no_answer).row.file)) }
    ensures few { OnOk result ((count : ℕ) → HasFew paths.old count
        → HasFew paths.new (count + length answered.now)) }
    ensures no_more { OnErr result ((count : ℕ) → HasFew paths.old count → HasFew paths.new count) }
    ensures refused { OnErr result ((count : ℕ) → HasFew paths.old count
        → IsRefused (M.refuses memory.now) (paths_room (count + length answered.now) (option_copied unit.now.header))) }
{
    let files = paths.files.len();
    let texts = paths.texts.len();
    match keep_each(memory, paths, kept, unit, answered) {
        Ok(()) => Ok(()),
        Err(NoMemory) => {
            paths.files.truncate(files);
            paths.texts.truncate(texts);
            Err(NoMemory)
        }
    }
}

/// Keeps the path of the file of each place that a unit answers.
fn keep_each<'s, M: Memory>(
    memory: &M,
    paths: &mut Paths<'s>,
    kept: &mut Vec<usize>,
    unit: &UnitFiles<'s, '_, '_>,
    answered: &[Answered],
) -> Result<(), NoMemory>
    ensures grows { Grows paths.old paths.new }
    ensures len { length kept.new.items ≡ length kept.old.items }
    ensures others { (i : ℕ) → IsOther answered.now (length answered.now) i
        → slice_get kept.new.items i ≡ slice_get kept.old.items i }
    ensures right { OnOk result (AreNumbers answered.now kept.old.items → (j : ℕ) → j < length answered.now
        → IsKept paths.new kept.new.items (slice_index_or answered.now j no_answer).number
        (path_of_file unit.now (slice_index_or answered.now j no_answer).row.file)) }
    ensures few { OnOk result ((count : ℕ) → HasFew paths.old count
        → HasFew paths.new (count + length answered.now)) }
    ensures refused { OnErr result ((count : ℕ) → HasFew paths.old count
        → IsRefused (M.refuses memory.now) (paths_room (count + length answered.now) (option_copied unit.now.header))) }
{
    let mut numbers = UnitNumbers {
        files: BTreeMap::new(memory.alloc()),
        directories: BTreeMap::new(memory.alloc()),
        last: None,
    };
    for answer in answered {
        keep(memory, paths, &mut numbers, kept, unit, answer)?;
    }
    Ok(())
}

/// Keeps the path of the file of a place.
fn keep<'s, M: Memory>(
    memory: &M,
    paths: &mut Paths<'s>,
    numbers: &mut UnitNumbers,
    kept: &mut Vec<usize>,
    unit: &UnitFiles<'s, '_, '_>,
    answer: &Answered,
) -> Result<(), NoMemory>
    ensures grows { Grows paths.old paths.new }
    ensures seen { OnOk result (AreSeen unit.now numbers.old paths.old → AreSeen unit.now numbers.new paths.new) }
    ensures len { length kept.new.items ≡ length kept.old.items }
    ensures others { (i : ℕ) → answer.now.number ≢ i → slice_get kept.new.items i ≡ slice_get kept.old.items i }
    ensures right { OnOk result (AreSeen unit.now numbers.old paths.old
        → answer.now.number < length kept.old.items
        → IsKept paths.new kept.new.items answer.now.number (path_of_file unit.now answer.now.row.file)) }
    ensures few { OnOk result ((count : ℕ) → KeepsFew numbers.old paths.old count
        → KeepsFew numbers.new paths.new (count + 1)) }
    ensures refused { OnErr result ((count : ℕ) → KeepsFew numbers.old paths.old count
        → IsRefused (M.refuses memory.now) (paths_room (count + 1) (option_copied unit.now.header))) }
{
    let number = number_of(memory, paths, numbers, unit, answer.row.file)?;
    numbers.last = Some((answer.row.file, number));
    if answer.number < kept.len() {
        kept[answer.number] = number;
    }
    Ok(())
}

/// A number from which on the unit's table has no files.
fn files_end(unit: &UnitFiles<'_, '_, '_>) -> u64
    ensures { result ≡ option_map_or files_end (option_copied unit.now.header) 0 }
{
    match unit.header {
        Some(header) => header
            .first_number()
            .saturating_add(header.files().len() as u64),
        None => 0,
    }
}

/// The number of the path of a file, which is added where the file wasn't seen.
fn number_of<'s, M: Memory>(
    memory: &M,
    paths: &mut Paths<'s>,
    numbers: &mut UnitNumbers,
    unit: &UnitFiles<'s, '_, '_>,
    file: u64,
) -> Result<usize, NoMemory>
    ensures grows { Grows paths.old paths.new }
    ensures seen { OnOk result (AreSeen unit.now numbers.old paths.old → AreSeen unit.now numbers.new paths.new) }
    ensures right { IfOk result (λ k. AreSeen unit.now numbers.old paths.old
        → HasPath paths.new k (path_of_file unit.now file)) }
    ensures few { OnOk result ((count : ℕ) → KeepsFew numbers.old paths.old count
        → KeepsFew numbers.new paths.new (count + 1)) }
    ensures refused { OnErr result ((count : ℕ) → KeepsFew numbers.old paths.old count
        → IsRefused (M.refuses memory.now) (paths_room (count + 1) (option_copied unit.now.header))) }
{
    if let Some(number) = last_number(numbers, file) {
        return Ok(number);
    }
    // Files that the table lacks have one path.
    let entry = file.min(files_end(unit));
    if let Some(number) = numbers.files.get(&entry) {
        return Ok(*number);
    }
    let number = add_file(memory, paths, &mut numbers.directories, unit, entry)?;
    put(memory, &mut numbers.files, entry, number)?;
    Ok(number)
}

/// The number of the path of a file that was looked up last.
fn last_number(numbers: &UnitNumbers, file: u64) -> Option<usize>
    ensures { IfSome result (λ k. numbers.now.last ≡ Some (file, k)) }
{
    let (last, number) = numbers.last?;
    if last == file { Some(number) } else { None }
}

/// Adds the path of a file, and answers its number.
fn add_file<'s, M: Memory>(
    memory: &M,
    paths: &mut Paths<'s>,
    directories: &mut BTreeMap<u64, usize>,
    unit: &UnitFiles<'s, '_, '_>,
    file: u64,
) -> Result<usize, NoMemory>
    ensures grows { Grows paths.old paths.new }
    ensures directories { OnOk result (AreTexts (directory_text unit.now) directories.old paths.old.texts.items
        → AreTexts (directory_text unit.now) directories.new paths.new.texts.items) }
    ensures right { IfOk result (λ k. AreTexts (directory_text unit.now) directories.old paths.old.texts.items
        → HasPath paths.new k (path_of_file unit.now file)) }
    ensures few { OnOk result ((count : ℕ) → HasFew paths.old count → HasFew paths.new (count + 1)) }
    ensures put { OnOk result ((count : ℕ) → WasPut directories.old count → WasPut directories.new (count + 2)) }
    ensures refused { OnErr result ((count : ℕ) → HasFew paths.old count → WasPut directories.old (2 * count)
        → IsRefused (M.refuses memory.now) (paths_room (count + 1) (option_copied unit.now.header))) }
{
    let parts = file_parts(unit, file);
    let path = keep_parts(memory, &mut paths.texts, directories, unit.place(), parts)?;
    let number = paths.files.len();
    memory.push(&mut paths.files, path)?;
    Ok(number)
}

/// The parts of the path of a file, as far as they are printed.
fn file_parts<'s, 'h>(unit: &UnitFiles<'s, '_, 'h>, file: u64) -> Option<Parts<'s, 'h>>
    ensures seen { option_map parts_seen result ≡ named unit.now.style (option_copied unit.now.directory)
        (path_of (strings_of unit.now.strings.now) (option_copied unit.now.header) file) }
    ensures numbered { IfSome result (FromDirectories (directory_text unit.now)) }
    ensures within { IfSome result (HeaderBytesWithin (unit_cells unit.now)) }
{
    let parts = parts_of(unit.strings, unit.header, file)?;
    if unit.style.basenames {
        return Some(basename_under(unit.directory, parts));
    }
    Some(parts)
}

/// Keeps the texts of a path of this unit.
fn keep_parts<'s, M: Memory>(
    memory: &M,
    texts: &mut Vec<KeptText<'s>>,
    directories: &mut BTreeMap<u64, usize>,
    unit: PathUnit,
    parts: Option<Parts<'s, '_>>,
) -> Result<FilePath, NoMemory>
    ensures grows { TextsGrow texts.old.items texts.new.items }
    ensures directories { OnOk result ((f : ℕ → Option (List ℕ)) → AreTexts f directories.old texts.old.items
        → IfSome parts.entry (FromDirectories f) → AreTexts f directories.new texts.new.items) }
    ensures right { IfOk result (λ p. (f : ℕ → Option (List ℕ)) → AreTexts f directories.old texts.old.items
        → IfSome parts.entry (FromDirectories f) → IsPath texts.new.items p (option_map parts_seen parts.entry)) }
    ensures unit { IfOk result (λ p. p.unit ≡ unit) }
    ensures few { OnOk result (length texts.new.items ≤ length texts.old.items + 3) }
    ensures put { OnOk result ((count : ℕ) → WasPut directories.old count → WasPut directories.new (count + 2)) }
    ensures refused { OnErr result ((count most : ℕ) → WasPut directories.old count → count + 2 ≤ most
        → length texts.old.items + 3 ≤ most → IfSome parts.entry (HeaderBytesWithin most)
        → IsRefused (M.refuses memory.now) most) }
{
    let Some(parts) = parts else {
        return Ok(FilePath {
            unit,
            base: None,
            directory: None,
            name: None,
        });
    };
    let base = keep_directory(memory, texts, directories, parts.base)?;
    let directory = keep_directory(memory, texts, directories, parts.directory)?;
    let name = add_text(memory, texts, parts.name)?;
    Ok(FilePath {
        unit,
        base,
        directory,
        name: Some(name),
    })
}

/// Keeps the text of a directory, where there is one, and answers its number.
fn keep_directory<'s, M: Memory>(
    memory: &M,
    texts: &mut Vec<KeptText<'s>>,
    directories: &mut BTreeMap<u64, usize>,
    directory: Option<Directory<'s, '_>>,
) -> Result<Option<usize>, NoMemory>
    ensures grows { TextsGrow texts.old.items texts.new.items }
    ensures directories { OnOk result ((f : ℕ → Option (List ℕ)) → AreTexts f directories.old texts.old.items
        → IsDirectory f directory.entry → AreTexts f directories.new texts.new.items) }
    ensures right { IfOk result (λ n. (f : ℕ → Option (List ℕ)) → AreTexts f directories.old texts.old.items
        → IsDirectory f directory.entry → part_at texts.new.items n ≡ Some (directory_seen directory.entry)) }
    ensures few { OnOk result (length texts.new.items ≤ length texts.old.items + 1) }
    ensures put { OnOk result ((count : ℕ) → WasPut directories.old count → WasPut directories.new (count + 1)) }
    ensures refused { OnErr result ((count most : ℕ) → WasPut directories.old count → count + 1 ≤ most
        → length texts.old.items + 1 ≤ most → IfSome directory.entry (λ d. header_bytes d.text ≤ most)
        → IsRefused (M.refuses memory.now) most) }
{
    let Some(directory) = directory else {
        return Ok(None);
    };
    Ok(Some(directory_number(memory, texts, directories, directory)?))
}

/// The number of the text of a directory, which is added where the directory wasn't seen.
fn directory_number<'s, M: Memory>(
    memory: &M,
    texts: &mut Vec<KeptText<'s>>,
    directories: &mut BTreeMap<u64, usize>,
    directory: Directory<'s, '_>,
) -> Result<usize, NoMemory>
    ensures grows { TextsGrow texts.old.items texts.new.items }
    ensures directories { OnOk result ((f : ℕ → Option (List ℕ)) → AreTexts f directories.old texts.old.items
        → f directory.entry.number ≡ Some (text_seen directory.entry.text)
        → AreTexts f directories.new texts.new.items) }
    ensures right { IfOk result (λ k. (f : ℕ → Option (List ℕ)) → AreTexts f directories.old texts.old.items
        → f directory.entry.number ≡ Some (text_seen directory.entry.text)
        → text_at texts.new.items k ≡ Some (text_seen directory.entry.text)) }
    ensures few { OnOk result (length texts.new.items ≤ length texts.old.items + 1) }
    ensures put { OnOk result ((count : ℕ) → WasPut directories.old count → WasPut directories.new (count + 1)) }
    ensures refused { OnErr result ((count most : ℕ) → WasPut directories.old count → count + 1 ≤ most
        → length texts.old.items + 1 ≤ most → header_bytes directory.entry.text ≤ most
        → IsRefused (M.refuses memory.now) most) }
{
    if let Some(number) = directories.get(&directory.number) {
        return Ok(*number);
    }
    let number = add_text(memory, texts, directory.text)?;
    put(memory, directories, directory.number, number)?;
    Ok(number)
}

/// Puts a number by another one into a map.
fn put<M: Memory>(
    memory: &M,
    numbers: &mut BTreeMap<u64, usize>,
    key: u64,
    number: usize,
) -> Result<(), NoMemory>
    ensures updates { OnOk result (Updates nat_cmp numbers.old numbers.new key (Some number)) }
    ensures put { OnOk result ((count : ℕ) → WasPut numbers.old count → WasPut numbers.new (count + 1)) }
    ensures refused { OnErr result ((count : ℕ) → WasPut numbers.old count
        → IsRefused (M.refuses memory.now) (count + 1)) }
{
    // With its length the map tells that its keys are in order, so that it has no more of them than were put into it.
    let _count = numbers.len();
    memory.insert(numbers, key, number)
}

/// Adds a text, and answers its number.
fn add_text<'s, M: Memory>(
    memory: &M,
    texts: &mut Vec<KeptText<'s>>,
    text: Text<'s, '_>,
) -> Result<usize, NoMemory>
    ensures grows { TextsGrow texts.old.items texts.new.items }
    ensures right { IfOk result (λ k. text_at texts.new.items k ≡ Some (text_seen text.entry)) }
    ensures few { OnOk result (length texts.new.items ≤ length texts.old.items + 1) }
    ensures refused { OnErr result ((most : ℕ) → length texts.old.items + 1 ≤ most → header_bytes text.entry ≤ most
        → IsRefused (M.refuses memory.now) most) }
{
    let kept = kept_text(memory, text)?;
    let number = texts.len();
    memory.push(texts, kept)?;
    Ok(number)
}

/// A text as it is kept.
fn kept_text<'s, M: Memory>(memory: &M, text: Text<'s, '_>) -> Result<KeptText<'s>, NoMemory>
    ensures kept { IfOk result (λ kept. kept ≡ text_seen text.entry) }
    ensures refused { OnErr result (IsRefused (M.refuses memory.now) (header_bytes text.entry)) }
{
    match text {
        Text::Section(bytes) => Ok(KeptText::new(KeptBytes::Lent(bytes))),
        Text::Header(bytes) => {
            let mut copy = memory.with_capacity(bytes.len())?;
            memory.extend_from_slice(&mut copy, bytes)?;
            Ok(KeptText::new(KeptBytes::Copied(copy)))
        }
    }
}
