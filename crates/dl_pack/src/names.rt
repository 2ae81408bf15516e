//! What the numbers of files stand for.

ghost use Rattle.std.specs.Prelude.{◌≡◌, ◌+◌, ◌≤◌, ◌<◌, ◌^◌, ℕ, List, length, map, Some, slice_get, is_ok, IfOk, OnErr, if◌then◌else◌};
ghost use Rattle.std.specs.List.{All};
ghost use Rattle.dl_memory.specs.Refusals.{IsRefused};
ghost use Rattle.dl_pack.specs.Named.{Once, named, parts_of, text_of, with_text};
ghost use Rattle.dl_pack.specs.Within.{HasTexts, Packed, texts_in};

use crate::set_memory::SetMemory;
use dl_memory::NoMemory;
use indexmap::IndexSet;
use std::alloc::Global;
use std::hash::Hash;

/// A file: the offset of its unit in the line section, and the numbers of the texts that its path is made of, from 1;
/// 0 stands for none.
#[derive(Debug, Clone, Copy, PartialEq, Eq, Hash)]
pub struct FileTexts {
    pub unit: u64,
    pub texts: [u64; 3],
}

/// Files by their numbers, from 0, and the texts of their paths by theirs, from 1, each of which is kept once.
#[derive(Drop)]
pub struct Names {
    texts: IndexSet<Vec<u8>>,
    files: IndexSet<FileTexts>,
    ghost within: { All (HasTexts (length texts.keys)) files.keys },
    ghost packed: { All (λ f. Packed f.texts) files.keys },
    ghost once: { Once (map (named (texts_in texts)) files.keys) },
}

impl Names {
    ghost use Rattle.dl_memory.specs.Refusals.{IsRefused};
    ghost use Rattle.std.specs.Prelude.{◌≡◌, ◌+◌, ◌-◌, ◌<◌, ◌≤◌, ◌^◌, ◌++◌, ◌∷◌, [], Some, length, slice_get, is_ok, IfOk, OnErr, if◌then◌else◌};
    ghost use Rattle.std.specs.Option.{option_copied, option_map, option_to_list};
    ghost use Rattle.dl_pack.specs.Named.{Grows, Once, named, text_of, file_of, with_text};
    ghost use Rattle.dl_pack.specs.Shown.{named_files, texts_of};

    /// No file, and no text.
    pub fn new(alloc: Global) -> Names
        ensures texts { texts_of result ≡ [] }
        ensures files { named_files result ≡ [] }
    {
        Names {
            texts: IndexSet::new(alloc),
            files: IndexSet::new(alloc),
        }
    }

    /// The number of a text. `NoMemory` only where memory is refused.
    pub fn add_text<M: SetMemory>(&mut self, memory: &M, text: &[u8]) -> Result<u64, NoMemory>
        ensures refused { OnErr result (IsRefused (M.refuses memory.now) (length text.now + length (texts_of self.old) + 1)) }
        ensures text { IfOk result (λ n. (1 ≤ n) × (slice_get (texts_of self.new) (n - 1) ≡ Some text.now)) }
        ensures texts { texts_of self.new ≡ (if is_ok result then with_text (texts_of self.old) text.now
            else texts_of self.old) }
        ensures files { named_files self.new ≡ named_files self.old }
    {
        let index = put(memory, &mut self.texts, text)?;
        Ok(number_at(&self.texts, index) + 1)
    }

    /// Adds a file, of the unit at this offset, whose path is made of the texts of these numbers; one that stands for no
    /// text, as 0, is left out. Answers the number of the file: that of the same one, where it was added before.
    pub fn add_file<M: SetMemory>(
        &mut self,
        memory: &M,
        unit: u64,
        texts: [u64; 3],
    ) -> Result<u64, NoMemory>
        ensures refused { OnErr result (IsRefused (M.refuses memory.now) (length (named_files self.old) + 1)) }
        ensures number { IfOk result (λ n. slice_get (named_files self.new) n ≡ Some (file_of (texts_of self.old) unit texts)) }
        ensures small { IfOk result (λ n. n < 2 ^ 63) }
        ensures grows { Grows (named_files self.old) (named_files self.new) }
        ensures few { length (named_files self.new) ≤ length (named_files self.old) + 1 }
        ensures once { Once (named_files self.new) }
        ensures texts { texts_of self.new ≡ texts_of self.old }
    {
        let count = self.texts.len();
        let [first, second, third] = texts;
        let texts = packed([
            known(first, count),
            known(second, count),
            known(third, count),
        ]);
        let file = FileTexts { unit, texts };
        match memory.insert_item(&mut self.files, file) {
            Ok(place) => Ok(number_at(&self.files, place)),
            Err(NoMemory) => Err(NoMemory),
        }
    }

    /// The file of a number; None where there is none of it.
    pub fn file(&self, number: u64) -> Option<FileTexts>
        ensures { option_map (named (texts_of self.now)) result ≡ slice_get (named_files self.now) number }
    {
        self.files.get_index(number as usize).copied()
    }

    /// The text of a number; None of 0, and where there is none of it.
    pub fn text(&self, number: u64) -> Option<&[u8]>
        ensures { option_to_list (option_copied result) ≡ text_of (texts_of self.now) number }
    {
        let index = number.checked_sub(1)?;
        Some(self.texts.get_index(index as usize)?.as_slice())
    }
}

impl Names {
    ghost use Rattle.std.specs.Prelude.{get_or, [], ◌≤◌};
    ghost use Rattle.std.specs.List.{All};
    ghost use Rattle.dl_pack.specs.Shown.{files_of, texts_of};
    ghost use Rattle.dl_pack.specs.Tables.{no_file};

    /// How many files there are.
    pub(crate) fn file_count(&self) -> usize
        ensures { result ≡ length (files_of self.now) }
    {
        self.files.len()
    }

    /// How many texts there are.
    pub(crate) fn text_count(&self) -> usize
        ensures { result ≡ length (texts_of self.now) }
    {
        self.texts.len()
    }

    /// The file at a place; none of a unit at 0 past the last one.
    pub(crate) fn file_at(&self, place: usize) -> FileTexts
        ensures file { result ≡ get_or (files_of self.now) place no_file }
        ensures within { All (λ text. text ≤ length (texts_of self.now)) result.texts }
    {
        match self.files.get_index(place) {
            Some(file) => *file,
            None => FileTexts {
                unit: 0,
                texts: [0; 3],
            },
        }
    }

    /// The text at a place; an empty one past the last one.
    pub(crate) fn text_at(&self, place: usize) -> &[u8]
        ensures { result.now ≡ get_or (texts_of self.now) place [] }
    {
        match self.texts.get_index(place) {
            Some(text) => text.as_slice(),
            None => &[],
        }
    }
}

/// The number of the item at a place, of which a set has fewer than 2^63.
fn number_at<T: Eq + Hash>(items: &IndexSet<T>, place: usize) -> u64
    requires { place < length items.now.keys }
    ensures same { result ≡ place }
    ensures small { result < 2 ^ 63 }
{
    prove!(place < items.len());
    place as u64
}

/// The place of a text, which goes last where it is new.
fn put<M: SetMemory>(
    memory: &M,
    texts: &mut IndexSet<Vec<u8>>,
    text: &[u8],
) -> Result<usize, NoMemory>
    ensures refused { OnErr result (IsRefused (M.refuses memory.now) (length text.now + length texts.old.keys + 1)) }
    ensures index { IfOk result (λ i. slice_get (texts_in texts.new) i ≡ Some text.now) }
    ensures texts { texts_in texts.new ≡ (if is_ok result then with_text (texts_in texts.old) text.now else texts_in texts.old) }
    ensures within { IfOk result (λ i. i < length texts.new.keys) }
    ensures more { length texts.old.keys ≤ length texts.new.keys }
{
    let mut copy = memory.with_capacity(text.len())?;
    memory.extend_from_slice(&mut copy, text)?;
    memory.insert_item(texts, copy)
}

/// The same number; 0 where there are fewer texts.
fn known(text: u64, count: usize) -> u64
    ensures same { (texts : List (List ℕ)) → count ≡ length texts → text_of texts result ≡ text_of texts text }
    ensures within { result ≤ count }
{
    if text <= count as u64 { text } else { 0 }
}

/// The same numbers, those that are 0 last.
fn packed(texts: [u64; 3]) -> [u64; 3]
    ensures packed { Packed result }
    ensures same { (all : List (List ℕ)) → parts_of all result ≡ parts_of all texts }
    ensures within { (count : ℕ) → All (λ n. n ≤ count) texts → All (λ n. n ≤ count) result }
{
    let [first, second, third] = texts;
    if first == 0 && second == 0 {
        [third, 0, 0]
    } else if first == 0 {
        [second, third, 0]
    } else if second == 0 {
        [first, third, 0]
    } else {
        texts
    }
}
