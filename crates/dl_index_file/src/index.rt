//! An index in a file, that is open.

ghost use Rattle.std.specs.Prelude.{◌≡◌};
ghost use Rattle.dl_elf.specs.Source.{ForBytes};
ghost use Rattle.dl_index_file.specs.Kept.{IsKept, StandsIn};

use crate::fault::TextFault;
use crate::filling::{fill_in, number_at};
use crate::finder::FileFinder;
use crate::parts::Places;
use crate::text::read_range;
use dl_elf::{Range, ReadAt};
use dl_index::{HEADER_LEN, Header, Numbers, Width};
use dl_memory::Memory;
use std::io;

/// How many bytes an index may have that is read whole.
const WHOLE: u64 = 1 << 24;

/// Where the texts of a path stand in the file, in order, at most three; none where the path is unknown.
#[derive(Clone, Copy)]
pub struct TextPlaces {
    pub first: Option<Range>,
    pub second: Option<Range>,
    pub third: Option<Range>,
}

/// What is told of an address.
#[derive(Clone, Copy)]
pub struct FileFound {
    /// The offset of the unit in the line section.
    pub unit: u64,
    /// The texts of the path.
    pub texts: TextPlaces,
    /// The line, column and discriminator of the row, as in section 6.2.2 of DWARF 5.
    pub line: u64,
    pub column: u64,
    pub discriminator: u64,
    /// Whether the row is a recommended place for a breakpoint. Section 6.2.2.
    pub is_stmt: bool,
}

/// An index that lies in a file: its header, and where its parts stand.
#[derive(Drop)]
pub struct IndexFile<'a, S: ReadAt> {
    pub(crate) source: &'a S,
    /// The bytes of the header.
    pub(crate) front: [u8; HEADER_LEN],
    pub(crate) header: Header,
    pub(crate) places: Places,
    ghost kept: { IsKept header places front },
    ghost stands: { ForBytes (S.all_bytes source.now) (StandsIn header places front) },
}

/// The numbers that a stretch has.
#[derive(Clone, Copy)]
struct StretchNumbers {
    line: u64,
    column: u64,
    discriminator: u64,
    is_stmt: bool,
}

impl<'a, S: ReadAt> IndexFile<'a, S> {
    ghost use Rattle.std.specs.Prelude.{◌≡◌, ◌+◌, ◌-◌, ◌*◌, ◌%◌, ◌^◌, ◌<◌, ◌≤◌, ◌==◌, ◌⊎◌, ◌++◌, ℕ, true, length, take, drop, Option};
    ghost use Rattle.std.specs.Prelude.{IfOk, IfErr, IfSome, MatchOption};
    ghost use Rattle.dl_index.specs.Layout.{flags_in, build_id_in, count_in, file_in, is_stmt_in, part};
    ghost use Rattle.dl_index_file.specs.Opening.{source_of};
    ghost use Rattle.dl_index_file.specs.Reading.{ReadFails, ReadIsLost, TextFails};
    ghost use Rattle.dl_elf.specs.Elf.{bytes_at};
    ghost use Rattle.dl_elf.specs.Sections.{range_within};
    ghost use Rattle.dl_index_file.specs.FindsIn.{FindsIn};
    ghost use Rattle.dl_index_file.specs.Steps.{StretchTells, TextIs, TextsAre, HasNumbers};

    /// Whether each sequence counts, a dead one too.
    pub fn has_all_sequences(&self) -> bool
        ensures { ForBytes (S.all_bytes (source_of self.now)) (λ b. result ≡ (flags_in b % 2 == 1)) }
    {
        let numbers = Numbers {
            bytes: &self.front,
            width: Width::Four,
            len: 32,
        };
        numbers.get(3) % 2 == 1
    }

    /// The build ID of the file that it was made of, at most 32 bytes; none where the file has none.
    pub fn build_id(&self) -> &[u8]
        ensures id { ForBytes (S.all_bytes (source_of self.entry.now)) (λ b. result.now ≡ build_id_in b) }
        ensures short { length result.now ≤ 32 }
    {
        &self.front[84..84 + usize::from(self.front[80])]
    }

    /// How many stretches there are, gaps among them.
    pub fn count(&self) -> u64
        ensures { ForBytes (S.all_bytes (source_of self.now)) (λ b. result ≡ count_in b) }
    {
        self.header.count
    }

    /// What is told of an address, as by [`FileFinder::find`], which keeps what it read for the next address.
    pub fn find(&self, address: u64) -> io::Result<Option<FileFound>>
        ensures finds { ForBytes (S.all_bytes (source_of self.now)) (λ b. IfOk result (FindsIn b address)) }
        ensures fails { IfErr result
            (ReadFails (S.all_bytes (source_of self.now)) (S.fails_with (source_of self.now))) }
    {
        FileFinder::of(self).find(address)
    }

    /// Puts the bytes of a text that was told behind those of `out`. They are read piece by piece, and memory is taken
    /// for what was read. The fault is that of a read, of the kind `UnexpectedEof` where the range doesn't lie in the file, or
    /// that memory was refused; some of the bytes may stand in `out` then.
    pub fn read_text<M: Memory>(
        &self,
        memory: &M,
        text: Range,
        out: &mut Vec<u8>,
    ) -> Result<(), TextFault>
        ensures bytes { ForBytes (S.all_bytes (source_of self.now)) (λ b. IfOk result (λ _.
            out.new.items ≡ out.old.items ++ bytes_at text.offset text.size b)) }
        ensures within { ForBytes (S.all_bytes (source_of self.now)) (λ b. IfOk result (λ _. range_within text b ≡ true)) }
        ensures keeps { take (length out.old.items) out.new.items ≡ out.old.items }
        ensures fails { IfErr result (TextFails (S.all_bytes (source_of self.now)) (S.fails_with (source_of self.now))
            (M.refuses memory.now) (length out.old.items) text) }
    {
        read_range(memory, self.source, text, out)
    }

    /// All bytes of the index, where there are at most 2^24 of them. None where there are more, where memory for them is refused,
    /// or where they can't be read. They are read piece by piece, and memory is taken for what was read.
    pub fn whole<M: Memory>(&self, memory: &M) -> Option<Vec<u8>>
        ensures { ForBytes (S.all_bytes (source_of self.now)) (λ b. MatchOption result
            ((2 ^ 24 < length b) ⊎ ReadIsLost (S.fails_with (source_of self.now)) (M.refuses memory.now) (length b))
            (λ bytes. bytes.items ≡ b)) }
    {
        let size = self.len();
        if size > WHOLE {
            return None;
        }
        let mut bytes = Vec::new(memory.alloc());
        match read_range(memory, self.source, Range { offset: 0, size }, &mut bytes) {
            Ok(()) => Some(bytes),
            Err(_) => None,
        }
    }

    /// How many bytes the index has.
    fn len(&self) -> u64
        ensures { ForBytes (S.all_bytes (source_of self.now)) (λ b. result ≡ length b) }
    {
        let numbers = Numbers {
            bytes: &self.front,
            width: Width::Eight,
            len: 16,
        };
        numbers.get(2)
    }

    /// What stretch `k` tells.
    pub(crate) fn found(&self, k: u64) -> io::Result<Option<FileFound>>
        requires { k < self.now.header.count }
        ensures tells { ForBytes (S.all_bytes (source_of self.now)) (λ b. IfOk result (StretchTells b k)) }
        ensures fails { IfErr result
            (ReadFails (S.all_bytes (source_of self.now)) (S.fails_with (source_of self.now))) }
    {
        let file = self.file_of(k)?;
        if file == 0 || file > self.header.files {
            return Ok(None);
        }
        let row = self.file_row(file - 1)?;
        let Some(texts) = self.texts(&row)? else {
            return Ok(None);
        };
        let numbers = self.numbers_of(k)?;
        let longs = Numbers {
            bytes: &row,
            width: Width::Eight,
            len: 3,
        };
        Ok(Some(FileFound {
            unit: longs.get(0),
            texts,
            line: numbers.line,
            column: numbers.column,
            discriminator: numbers.discriminator,
            is_stmt: numbers.is_stmt,
        }))
    }

    /// The number of the file of stretch `k`, from 1; 0 in a gap.
    fn file_of(&self, k: u64) -> io::Result<u64>
        requires { k < self.now.header.count }
        ensures file { ForBytes (S.all_bytes (source_of self.now)) (λ b. IfOk result (λ n. n ≡ file_in b k)) }
        ensures fails { IfErr result
            (ReadFails (S.all_bytes (source_of self.now)) (S.fails_with (source_of self.now))) }
    {
        number_at(self.source, &self.places.files, self.header.widths.files, k)
    }

    /// The other numbers of stretch `k`.
    fn numbers_of(&self, k: u64) -> io::Result<StretchNumbers>
        requires { k < self.now.header.count }
        ensures numbers { ForBytes (S.all_bytes (source_of self.now)) (λ b. IfOk result (HasNumbers b k)) }
        ensures fails { IfErr result
            (ReadFails (S.all_bytes (source_of self.now)) (S.fails_with (source_of self.now))) }
    {
        let source = self.source;
        let places = &self.places;
        let widths = self.header.widths;
        Ok(StretchNumbers {
            line: number_at(source, &places.lines, widths.lines, k)?,
            column: number_at(source, &places.columns, widths.columns, k)?,
            discriminator: number_at(source, &places.discriminators, widths.discriminators, k)?,
            is_stmt: self.is_stmt(k)?,
        })
    }

    /// Whether bit `k` of is_stmt is set.
    fn is_stmt(&self, k: u64) -> io::Result<bool>
        requires { k < self.now.header.count }
        ensures is { ForBytes (S.all_bytes (source_of self.now)) (λ b. IfOk result (λ is. is ≡ is_stmt_in b k)) }
        ensures fails { IfErr result
            (ReadFails (S.all_bytes (source_of self.now)) (S.fails_with (source_of self.now))) }
    {
        let bits = number_at(self.source, &self.places.statements, Width::One, k / 8)?;
        Ok((bits >> (k % 8)) % 2 == 1)
    }

    /// The row of a file, counted from 0.
    fn file_row(&self, file: u64) -> io::Result<[u8; 24]>
        requires { file < self.now.header.files }
        ensures row { ForBytes (S.all_bytes (source_of self.now)) (λ b. IfOk result (λ row.
            row ≡ take 24 (drop (file * 24) (part b 6)))) }
        ensures fails { IfErr result
            (ReadFails (S.all_bytes (source_of self.now)) (S.fails_with (source_of self.now))) }
    {
        let mut row = [0; 24];
        fill_in(self.source, &self.places.file_table, file * 24, &mut row)?;
        Ok(row)
    }

    /// The row of a text, counted from 0: its place among the bytes of texts, and its length.
    fn text_row(&self, text: u64) -> io::Result<[u8; 16]>
        requires { text < self.now.header.texts }
        ensures row { ForBytes (S.all_bytes (source_of self.now)) (λ b. IfOk result (λ row.
            row ≡ take 16 (drop (text * 16) (part b 7)))) }
        ensures fails { IfErr result
            (ReadFails (S.all_bytes (source_of self.now)) (S.fails_with (source_of self.now))) }
    {
        let mut row = [0; 16];
        fill_in(self.source, &self.places.text_table, text * 16, &mut row)?;
        Ok(row)
    }

    /// The texts of a file by its row; None where one lies outside.
    fn texts(&self, row: &[u8; 24]) -> io::Result<Option<TextPlaces>>
        ensures texts { ForBytes (S.all_bytes (source_of self.now)) (λ b. (f : ℕ)
            → row.now ≡ take 24 (drop (f * 24) (part b 6)) → IfOk result (TextsAre b f)) }
        ensures fails { IfErr result
            (ReadFails (S.all_bytes (source_of self.now)) (S.fails_with (source_of self.now))) }
    {
        let numbers = Numbers {
            bytes: row,
            width: Width::Four,
            len: 6,
        };
        let Some(first) = self.text(numbers.get(2))? else {
            return Ok(None);
        };
        let Some(second) = self.text(numbers.get(3))? else {
            return Ok(None);
        };
        let Some(third) = self.text(numbers.get(4))? else {
            return Ok(None);
        };
        Ok(Some(TextPlaces {
            first,
            second,
            third,
        }))
    }

    /// Where the text of a number stands, counted from 1; no text for 0, and None where it lies outside.
    fn text(&self, number: u64) -> io::Result<Option<Option<Range>>>
        ensures text { ForBytes (S.all_bytes (source_of self.now)) (λ b. IfOk result (TextIs b number)) }
        ensures fails { IfErr result
            (ReadFails (S.all_bytes (source_of self.now)) (S.fails_with (source_of self.now))) }
    {
        if number == 0 {
            return Ok(Some(None));
        }
        if number > self.header.texts {
            return Ok(None);
        }
        let row = self.text_row(number - 1)?;
        let longs = Numbers {
            bytes: &row,
            width: Width::Eight,
            len: 2,
        };
        let place = longs.get(0);
        let len = longs.get(1);
        let texts = self.places.texts;
        if place > texts.size || len > texts.size - place {
            return Ok(None);
        }
        Ok(Some(Some(Range {
            offset: texts.offset + place,
            size: len,
        })))
    }
}
