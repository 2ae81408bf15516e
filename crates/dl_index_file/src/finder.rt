//! The look-up of addresses, one after the other, in an index that lies in a file.

ghost use Rattle.std.specs.Prelude.{◌≡◌, ◌+◌, ◌*◌, ◌<◌, ◌≤◌, ◌^◌, length, IfOk, IfErr, IfSome};
ghost use Rattle.std.proofs.Props.{props};
ghost use Rattle.dl_elf.specs.Source.{ForBytes};
ghost use Rattle.dl_index.specs.Columns.{size_of};
ghost use Rattle.dl_index_file.specs.Finding.{HoldsStarts, IsKeptAnswer};
ghost use Rattle.dl_index_file.specs.Opening.{source_of};
ghost use Rattle.dl_index_file.specs.Reading.{ReadFails};

use crate::filling::fill_all;
use crate::index::{FileFound, IndexFile};
use crate::search::{Few, PIECE, narrow};
use dl_elf::ReadAt;
use dl_index::Numbers;
use std::io;

/// What the last stretch told that was asked.
#[derive(Clone, Copy)]
struct KeptAnswer {
    /// The number of the stretch.
    stretch: u64,
    found: Option<FileFound>,
}

/// The bytes of few starts of an index, at the front of a piece.
fn read_few<S: ReadAt>(index: &IndexFile<'_, S>, few: Few) -> io::Result<[u8; PIECE]>
    requires some { 0 < few.count }
    requires fits { few.count * size_of index.now.header.widths.starts ≤ 4096 }
    requires within { few.first + few.count ≤ index.now.header.count }
    ensures holds { ForBytes (S.all_bytes (source_of index.now)) (λ b. IfOk result (λ starts.
        HoldsStarts b starts few.first few.count)) }
    ensures fails { IfErr result
        (ReadFails (S.all_bytes (source_of index.now)) (S.fails_with (source_of index.now))) }
{
    let size = index.header.widths.starts.size();
    let offset = index.places.starts.offset + few.first * size as u64;
    let len = few.count as usize * size;
    let mut starts = [0; PIECE];
    fill_all(index.source, offset, &mut starts[..len])?;
    Ok(starts)
}

/// Looks addresses up, one after the other. It keeps the starts among which the last address was found, at most 4,096
/// bytes, and what was told of it: an address near the one before it takes fewer reads, and one of the same stretch none.
#[derive(Drop)]
pub struct FileFinder<'i, 'a, S: ReadAt> {
    index: &'i IndexFile<'a, S>,
    /// The bytes of starts that stand next to one another.
    starts: [u8; PIECE],
    /// The number of the first of them.
    first: u64,
    /// How many there are; 0 where none are kept.
    count: usize,
    last: Option<KeptAnswer>,
    ghost fits: { count * size_of index.now.header.widths.starts ≤ 4096 },
    ghost within: { first + count ≤ index.now.header.count },
    ghost holds: { ForBytes (S.all_bytes (source_of index.now)) (λ b. HoldsStarts b starts first count) },
    ghost kept: { ForBytes (S.all_bytes (source_of index.now)) (λ b. IfSome last (IsKeptAnswer b)) } by { Prim.hlevel props },
}

impl<'i, 'a, S: ReadAt> FileFinder<'i, 'a, S> {
    ghost use Rattle.std.specs.Prelude.{◌≡◌, ◌+◌, ◌-◌, ◌<◌, ◌≤◌, Bool, true, IsTrue, IfOk, IfErr, IfSome, OnOk};
    ghost use Rattle.dl_index.specs.Layout.{count_in, start_in};
    ghost use Rattle.dl_index.specs.LookUp.{FindsLast};
    ghost use Rattle.dl_index_file.specs.Finder.{index_of};
    ghost use Rattle.dl_index_file.specs.FindsIn.{FindsIn};
    ghost use Rattle.dl_index_file.specs.Narrowed.{Narrowed};
    ghost use Rattle.dl_index_file.specs.Opening.{source_of};
    ghost use Rattle.dl_index_file.specs.Reading.{ReadFails};
    ghost use Rattle.dl_index_file.specs.Steps.{IsLastStart, StretchTells};

    /// Nothing is kept yet.
    pub fn of(index: &'i IndexFile<'a, S>) -> FileFinder<'i, 'a, S>
        ensures { index_of result ≡ index.entry.now }
    {
        FileFinder {
            index,
            starts: [0; PIECE],
            first: 0,
            count: 0,
            last: None,
        }
    }

    /// The index in which addresses are looked up.
    pub fn index(&self) -> &'i IndexFile<'a, S>
        ensures { result.now ≡ index_of self.now }
    {
        self.index
    }

    /// What is told of an address: nothing in a gap, and before the first stretch. What stands after the header wasn't
    /// checked: nothing is told either where the number of a file or text, or the place of a text, lies outside. No more
    /// than 64 pieces are read. The error is that of a read, or of the kind `UnexpectedEof` where the file has become
    /// shorter since it was opened.
    pub fn find(&mut self, address: u64) -> io::Result<Option<FileFound>>
        ensures index { index_of self.new ≡ index_of self.old }
        ensures finds { ForBytes (S.all_bytes (source_of (index_of self.old))) (λ b. IfOk result (FindsIn b address)) }
        ensures fails { IfErr result (ReadFails (S.all_bytes (source_of (index_of self.old)))
            (S.fails_with (source_of (index_of self.old)))) }
    {
        match self.last_upto(address)? {
            Some(k) => self.found(k),
            None => Ok(None),
        }
    }

    /// What stretch `k` tells.
    fn found(&mut self, k: u64) -> io::Result<Option<FileFound>>
        requires { k < (index_of self.old).header.count }
        ensures index { index_of self.new ≡ index_of self.old }
        ensures tells { ForBytes (S.all_bytes (source_of (index_of self.old))) (λ b. IfOk result (StretchTells b k)) }
        ensures fails { IfErr result (ReadFails (S.all_bytes (source_of (index_of self.old)))
            (S.fails_with (source_of (index_of self.old)))) }
    {
        if let Some(last) = self.last {
            if last.stretch == k {
                return Ok(last.found);
            }
        }
        let found = self.index.found(k)?;
        self.last = Some(KeptAnswer { stretch: k, found });
        Ok(found)
    }

    /// The number of the last stretch that doesn't begin above an address.
    fn last_upto(&mut self, address: u64) -> io::Result<Option<u64>>
        ensures index { index_of self.new ≡ index_of self.old }
        ensures within { IfOk result (λ last. IfSome last (λ k. k < (index_of self.old).header.count)) }
        ensures last { ForBytes (S.all_bytes (source_of (index_of self.old))) (λ b. IfOk result (IsLastStart b address)) }
        ensures fails { IfErr result (ReadFails (S.all_bytes (source_of (index_of self.old)))
            (S.fails_with (source_of (index_of self.old)))) }
    {
        let header = &self.index.header;
        let Some(offset) = address.checked_sub(header.base) else {
            return Ok(None);
        };
        if header.count == 0 {
            return Ok(None);
        }
        if !self.holds(offset) {
            self.read_starts(offset)?;
        }
        Ok(Some(self.last_held(offset)))
    }

    /// The starts that are kept.
    fn numbers(&self) -> Numbers<'_>
        ensures bytes { result.bytes.now ≡ self.entry.now.starts }
        ensures width { result.width ≡ (index_of self.entry.now).header.widths.starts }
        ensures len { result.len ≡ self.entry.now.count }
    {
        Numbers {
            bytes: &self.starts,
            width: self.index.header.widths.starts,
            len: self.count,
        }
    }

    /// Whether the last start that isn't above `x` is one of those that are kept.
    fn holds(&self, x: u64) -> bool
        ensures some { IsTrue result → 0 < self.now.count }
        ensures narrowed { IsTrue result → ForBytes (S.all_bytes (source_of (index_of self.now)))
            (λ b. Narrowed (start_in b) (count_in b) x self.now.first self.now.count) }
    {
        let count = self.count;
        if count == 0 {
            return false;
        }
        let starts = self.numbers();
        let is_last = self.first + count as u64 == self.index.header.count;
        starts.get(0) <= x && (is_last || x < starts.get(count - 1))
    }

    /// The last of the starts that are kept that isn't above `x`, as a number of all.
    fn last_held(&self, x: u64) -> u64
        requires some { 0 < self.now.count }
        ensures within { result < (index_of self.now).header.count }
        ensures last { ForBytes (S.all_bytes (source_of (index_of self.now)))
            (λ b. Narrowed (start_in b) (count_in b) x self.now.first self.now.count
            → FindsLast (start_in b) (count_in b) x result) }
    {
        self.first + self.numbers().last_upto(x) as u64
    }

    /// Reads few starts, among which the last one is that isn't above `x`, in place of those that are kept.
    fn read_starts(&mut self, x: u64) -> io::Result<()>
        requires { 0 < (index_of self.old).header.count }
        ensures index { index_of self.new ≡ index_of self.old }
        ensures some { OnOk result (0 < self.new.count) }
        ensures narrowed { ForBytes (S.all_bytes (source_of (index_of self.old))) (λ b. OnOk result
            (Narrowed (start_in b) (count_in b) x self.new.first self.new.count)) }
        ensures fails { IfErr result (ReadFails (S.all_bytes (source_of (index_of self.old)))
            (S.fails_with (source_of (index_of self.old)))) }
    {
        let index = self.index;
        let header = &index.header;
        let starts = &index.places.starts;
        let few = narrow(index.source, starts, header.widths.starts, header.count, x)?;
        self.starts = read_few(index, few)?;
        self.first = few.first;
        self.count = few.count as usize;
        Ok(())
    }
}
