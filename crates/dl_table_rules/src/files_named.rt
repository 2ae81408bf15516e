//! Which files of a unit rows name, and which they don't. Sections 6.2.2 and 6.2.4.

ghost use Rattle.std.specs.Prelude.{◌≡◌, ◌+◌, ◌<◌, ℕ, true, false, length, if◌then◌else◌, ◌==◌, slice_index_or, IfOk, OnErr};
ghost use Rattle.dl_memory.specs.Refusals.{IsRefused};

use dl_head::Header;
use dl_memory::{Memory, NoMemory};
use std::alloc::Global;

/// Which files of a unit rows have named so far.
#[derive(Drop)]
pub struct FilesNamed {
    /// Whether each entry of the table of files is one of them.
    named: Vec<bool>,
    /// The number of the first entry.
    first: u8,
    /// The file that was named last.
    last: Option<u64>,
}

/// Numbers of files, by how many they are.
#[derive(Clone, Copy)]
pub struct FileNumbers {
    pub files: u64,
    /// The least; 0 where there are none.
    pub first: u64,
}

/// No numbers.
pub(crate) const NONE: FileNumbers = FileNumbers { files: 0, first: 0 };

impl FileNumbers {
    ghost use Rattle.std.specs.Prelude.{◌≡◌, ◌<◌, ◌≤◌, ◌+◌, ◌^◌, ◌++◌, ◌∷◌, [], ◌&&◌, ℕ, List, if◌then◌else◌, nat_le, not};
    ghost use Rattle.dl_table_rules.specs.Keeping.{counted};

    /// With a greater number, where that is neither 0 nor 1, and isn't named.
    fn with(self, number: u64, is_named: bool) -> FileNumbers
        requires { self.files + 1 < 2 ^ 64 }
        ensures numbers { (numbers : List ℕ) → self ≡ counted numbers
            → result ≡ counted (numbers ++ (if nat_le 2 number && not is_named then number ∷ [] else [])) }
        ensures files { result.files ≤ self.files + 1 }
    {
        if number < 2 || is_named {
            return self;
        }
        self.and(number)
    }

    /// With a greater number.
    pub(crate) fn and(self, number: u64) -> FileNumbers
        requires { self.files + 1 < 2 ^ 64 }
        ensures numbers { (numbers : List ℕ) → self ≡ counted numbers → result ≡ counted (numbers ++ number ∷ []) }
        ensures files { result.files ≡ self.files + 1 }
    {
        FileNumbers {
            files: self.files + 1,
            first: if self.files == 0 { number } else { self.first },
        }
    }
}

impl FilesNamed {
    ghost use Rattle.std.specs.Prelude.{◌≡◌, ◌++◌, ◌∷◌, [], ℕ, List, length, IfOk, OnErr};
    ghost use Rattle.dl_field.specs.HeaderData.{HeaderData};
    ghost use Rattle.dl_memory.specs.Refusals.{IsRefused};
    ghost use Rattle.dl_table_rules.specs.Unused.{unused_in};
    ghost use Rattle.dl_table_rules.specs.Keeping.{AreNamed, counted};

    /// Of no table. It takes no memory.
    pub fn none(alloc: Global) -> FilesNamed {
        FilesNamed {
            named: Vec::new(alloc),
            first: 0,
            last: None,
        }
    }

    /// Of the table of files of a header, before its first row.
    pub fn of<M: Memory>(memory: &M, header: &Header) -> Result<FilesNamed, NoMemory>
        ensures named { IfOk result (λ files. AreNamed files header.now []) }
        ensures refused { OnErr result (IsRefused (M.refuses memory.now) (length header.now.files.entries)) }
    {
        let named = all_false(memory, header.files().len())?;
        Ok(FilesNamed {
            named,
            first: header.first_number() as u8,
            last: None,
        })
    }

    /// A row names this file.
    #[inline]
    pub fn name(&mut self, file: u64)
        ensures { (h : HeaderData) (files : List ℕ) → AreNamed self.old h files → AreNamed self.new h (files ++ file ∷ []) }
    {
        if self.last == Some(file) {
            return;
        }
        mark(self.named.as_mut_slice(), u64::from(self.first), file);
        self.last = Some(file);
    }

    /// Rows name these files, one after the other.
    pub fn name_each(&mut self, files: &[u64])
        ensures { (h : HeaderData) (before : List ℕ) → AreNamed self.old h before → AreNamed self.new h (before ++ files.now) }
    {
        for file in files {
            self.mark(*file);
        }
    }

    /// Sets what stands for this file.
    #[inline(always)]
    fn mark(&mut self, file: u64)
        ensures { (h : HeaderData) (files : List ℕ) → AreNamed self.old h files → AreNamed self.new h (files ++ file ∷ []) }
    {
        mark(self.named.as_mut_slice(), u64::from(self.first), file);
    }

    /// Which files aren't named, but for the numbers 0 and 1.
    pub fn unused(&self) -> FileNumbers
        ensures { (h : HeaderData) (files : List ℕ) → AreNamed self.now h files → result ≡ counted (unused_in h files) }
    {
        let mut unused = NONE;
        for (place, named) in self.named.iter().enumerate() {
            let number = u64::from(self.first) + place as u64;
            unused = unused.with(number, *named);
        }
        unused
    }
}

/// A list of so many.
pub(crate) fn all_false<M: Memory>(memory: &M, count: usize) -> Result<Vec<bool>, NoMemory>
    ensures all { IfOk result (λ list. length list.items ≡ count) }
    ensures each { IfOk result (λ list. (place : ℕ) → slice_index_or list.items place false ≡ false) }
    ensures refused { OnErr result (IsRefused (M.refuses memory.now) count) }
{
    let mut list = memory.with_capacity(count)?;
    while list.len() < count {
        memory.push(&mut list, false)?;
    }
    Ok(list)
}

/// Sets what stands for the file of this number, where the numbers begin with `first`.
fn mark(named: &mut [bool], first: u64, file: u64)
    ensures all { length named.new ≡ length named.old }
    ensures each { (place : ℕ) → place < length named.old
        → slice_index_or named.new place false ≡ (if first + place == file then true else slice_index_or named.old place false) }
{
    if file < first {
        return;
    }
    let place = file - first;
    if place < named.len() as u64 {
        named[place as usize] = true;
    }
}
