//! An index, read in place.

ghost use Rattle.std.specs.Prelude.{◌≡◌};
ghost use Rattle.dl_index.specs.LayoutOf.{IsLayoutOf};
ghost use Rattle.dl_index.specs.PartsOf.{ArePartsOf};

use crate::column::number_in;
use crate::four::Four;
use crate::header::{long_at, number_at};
use crate::layout::Layout;
use crate::parts::Parts;

/// The texts that a path is made of, in order, at most three; none where the path is unknown.
#[derive(Clone, Copy)]
pub struct PathTexts<'a> {
    pub first: Option<&'a [u8]>,
    pub second: Option<&'a [u8]>,
    pub third: Option<&'a [u8]>,
}

/// Where the texts of a path stand in the bytes of the index, in their order; 0 where there is none.
#[derive(Clone, Copy)]
pub struct TextPlaces {
    pub first: usize,
    pub second: usize,
    pub third: usize,
}

/// A text, or none, and where it stands in the bytes of the index; 0 where there is none.
#[derive(Clone, Copy)]
struct PlacedText<'a> {
    text: Option<&'a [u8]>,
    place: usize,
}

/// The texts of a path, and where they stand.
#[derive(Clone, Copy)]
struct PlacedPath<'a> {
    texts: PathTexts<'a>,
    places: TextPlaces,
}

/// What is told of an address.
#[derive(Clone, Copy)]
pub struct FoundLine<'a> {
    /// The offset of the unit in the line section.
    pub unit: u64,
    /// The texts of the path.
    pub texts: PathTexts<'a>,
    /// Where these stand in the bytes of the index.
    pub places: TextPlaces,
    /// The line, column and discriminator of the row, as in section 6.2.2 of DWARF 5.
    pub line: u64,
    pub column: u64,
    pub discriminator: u64,
    /// Whether the row is a recommended place for a breakpoint. Section 6.2.2.
    pub is_stmt: bool,
}

/// A stretch: a run of addresses of which the same is told.
#[derive(Clone, Copy)]
pub struct Listed<'a> {
    /// Its first address.
    pub start: u64,
    /// The first address of the next one; None for the last one, up to the last address.
    pub end: Option<u64>,
    /// What is told; None in a gap.
    pub found: Option<FoundLine<'a>>,
}

/// An index, over its bytes.
#[derive(Clone, Copy)]
pub struct IndexRef<'a> {
    pub(crate) bytes: &'a [u8],
    pub(crate) layout: Layout,
    pub(crate) parts: Parts<'a>,
    ghost laid_out: { IsLayoutOf layout bytes.now },
    ghost cut: { ArePartsOf parts bytes.now },
}

impl<'a> IndexRef<'a> {
    ghost use Rattle.std.specs.Prelude.{◌≡◌, ℕ, ◌+◌, ◌-◌, ◌*◌, ◌%◌, ◌<◌, ◌≤◌, ◌^◌, ◌==◌, ◌⊎◌, length};
    ghost use Rattle.std.specs.Prelude.{Option, Some, None, IfSome, IfNone, IsSome, slice_index, slice_index_or};
    ghost use Rattle.dl_index.specs.declared.index.FoundLine.{FoundLine};
    ghost use Rattle.std.specs.Option.{option_map};
    ghost use Rattle.dl_index.specs.Layout.{flags_in, build_id_in, base_in, count_in, files_in, start_in};
    ghost use Rattle.dl_index.specs.Layout.{is_stmt_in};
    ghost use Rattle.dl_index.specs.LayoutOf.{IsLayoutOf};
    ghost use Rattle.dl_index.specs.LookUp.{Rise, IsLastUpto, FindsLast};
    ghost use Rattle.dl_index.specs.Finds.{FindStretches, Finds};
    ghost use Rattle.dl_index.specs.Telling.{text_in, texts_of, told_in, find_in, IsStart};
    ghost use Rattle.dl_index.specs.TextPlaces.{AreAt};
    ghost use Rattle.dl_index.specs.TextsOf.{AreTextsOf, IsPlaceOf, ArePlacesOf, path_told, placed_told};
    ghost use Rattle.dl_index.specs.IsIndex.{IsIndex};
    ghost use Rattle.dl_index.specs.Shown.{bytes_of, told};

    /// The bytes of the index.
    pub fn bytes(&self) -> &'a [u8]
        ensures { result.now ≡ bytes_of self.now }
    {
        self.bytes
    }

    /// Its layout, by which [`reopen`](crate::reopen) finds its parts.
    pub fn layout(&self) -> Layout
        ensures { IsLayoutOf result (bytes_of self.now) }
    {
        self.layout
    }

    /// Whether each sequence counts, a dead one too.
    pub fn has_all_sequences(&self) -> bool
        ensures { result ≡ (flags_in (bytes_of self.now) % 2 == 1) }
    {
        number_at(self.bytes, 12) % 2 == 1
    }

    /// The build ID of the file that it was made of, at most 32 bytes; none where the file has none.
    pub fn build_id(&self) -> &'a [u8]
        ensures { result.now ≡ build_id_in (bytes_of self.now) }
    {
        let rest = &self.bytes[84..];
        &rest[..usize::from(self.bytes[80])]
    }

    /// How many stretches there are, gaps among them.
    pub fn count(&self) -> usize
        ensures { result ≡ count_in (bytes_of self.now) }
    {
        self.parts.starts.len
    }

    /// What is told of an address: nothing in a gap, and before the first stretch. Where the bytes were not checked,
    /// nothing either where the number of a file or text, or the place of a text, lies outside.
    #[inline(always)]
    pub fn find(&self, address: u64) -> Option<FoundLine<'a>>
        ensures told { IsIndex (bytes_of self.now) → option_map told result ≡ find_in (bytes_of self.now) address }
        ensures stands { IfSome result (λ found. (k : ℕ) × (k < count_in (bytes_of self.now))
            × (told_in (bytes_of self.now) k ≡ Some (told found))) }
        ensures places { IfSome result (AreAt (bytes_of self.now)) }
    {
        let k = self.last_upto(address)?;
        self.found(k)
    }

    /// What is told of each address, as by [`IndexRef::find`], four of them side by side, each at its place in `found`,
    /// which is as long.
    pub fn find_many(&self, addresses: &[u64], found: &mut [Option<FoundLine<'a>>])
        requires { length addresses.now ≡ length found.old }
        ensures { (i : ℕ) → i < length addresses.now → (d : Option FoundLine)
            → Finds (bytes_of self.now) (slice_index addresses.now i) (slice_index_or found.new i d) }
    {
        let mut i = 0;
        while addresses.len() - i >= 4 {
            let four = self.find_four(Four {
                first: addresses[i],
                second: addresses[i + 1],
                third: addresses[i + 2],
                fourth: addresses[i + 3],
            });
            found[i] = four.first;
            found[i + 1] = four.second;
            found[i + 2] = four.third;
            found[i + 3] = four.fourth;
            i += 4;
        }
        for k in i..addresses.len() {
            found[k] = self.find(addresses[k]);
        }
    }

    /// What is told of four addresses, as by [`IndexRef::find`], side by side.
    #[inline(always)]
    pub fn find_four(&self, addresses: Four<u64>) -> Four<Option<FoundLine<'a>>>
        ensures first { Finds (bytes_of self.now) addresses.first result.first }
        ensures second { Finds (bytes_of self.now) addresses.second result.second }
        ensures third { Finds (bytes_of self.now) addresses.third result.third }
        ensures fourth { Finds (bytes_of self.now) addresses.fourth result.fourth }
    {
        let Some(k) = self.last_upto_four(addresses) else {
            return Four {
                first: None,
                second: None,
                third: None,
                fourth: None,
            };
        };
        Four {
            first: self.found_from(addresses.first, k.first),
            second: self.found_from(addresses.second, k.second),
            third: self.found_from(addresses.third, k.third),
            fourth: self.found_from(addresses.fourth, k.fourth),
        }
    }

    /// The last stretch that doesn't begin above each of four addresses, for [`IndexRef::found_from`], side by side; the first
    /// one of an address below the base. None where there is no stretch.
    #[inline(always)]
    pub fn last_upto_four(&self, addresses: Four<u64>) -> Option<Four<usize>>
        ensures none { IfNone result (count_in (bytes_of self.now) ≡ 0) }
        ensures last { IfSome result (FindStretches (bytes_of self.now) addresses) }
    {
        if self.parts.starts.len == 0 {
            return None;
        }
        let base = self.layout.base;
        Some(
            self.parts.starts.last_upto_four(Four {
                first: addresses.first.saturating_sub(base),
                second: addresses.second.saturating_sub(base),
                third: addresses.third.saturating_sub(base),
                fourth: addresses.fourth.saturating_sub(base),
            }),
        )
    }

    /// What is told of an address, where `k` is the last stretch that doesn't begin above it; nothing below the base.
    #[inline(always)]
    pub fn found_from(&self, address: u64, k: usize) -> Option<FoundLine<'a>>
        requires { let b = bytes_of self.now in FindsLast (start_in b) (count_in b) (address - base_in b) k }
        ensures { Finds (bytes_of self.now) address result }
    {
        if address < self.layout.base {
            return None;
        }
        self.found(k)
    }

    /// The number of the last stretch that doesn't begin above an address.
    #[inline(always)]
    fn last_upto(&self, address: u64) -> Option<usize>
        ensures none { IfNone result ((count_in (bytes_of self.now) ≡ 0) ⊎ (address < base_in (bytes_of self.now))) }
        ensures within { IfSome result (λ k. (k < count_in (bytes_of self.now)) × (base_in (bytes_of self.now) ≤ address)) }
        ensures last { let b = bytes_of self.now in IfSome result (λ k. Rise (start_in b) (count_in b)
            → start_in b 0 ≡ 0 → IsLastUpto (start_in b) (count_in b) (address - base_in b) k) }
    {
        let offset = address.checked_sub(self.layout.base)?;
        if self.parts.starts.len == 0 {
            return None;
        }
        Some(self.parts.starts.last_upto(offset))
    }

    /// Stretch `k`, counted from 0; None where there is none, or its first address isn't below 2^64, which is so of
    /// no index that was checked.
    pub fn stretch(&self, k: usize) -> Option<Listed<'a>>
        ensures start { IsStart (bytes_of self.now) k (option_map (λ s. s.start) result) }
        ensures end { IfSome result (λ s. IsStart (bytes_of self.now) (k + 1) s.end) }
        ensures told { IfSome result (λ s. option_map told s.found ≡ told_in (bytes_of self.now) k) }
        ensures places { IfSome result (λ s. IfSome s.found (AreAt (bytes_of self.now))) }
        ensures whole { IsIndex (bytes_of self.now) → k < count_in (bytes_of self.now) → IsSome result }
    {
        let start = self.start(k)?;
        Some(Listed {
            start,
            end: self.start(k + 1),
            found: self.found(k),
        })
    }

    /// The first address of stretch `k`; None where there is none, or it isn't below 2^64.
    fn start(&self, k: usize) -> Option<u64>
        ensures { IsStart (bytes_of self.now) k result }
    {
        if k >= self.parts.starts.len {
            return None;
        }
        self.layout.base.checked_add(self.parts.starts.get(k))
    }

    /// What stretch `k` tells.
    #[inline(always)]
    fn found(&self, k: usize) -> Option<FoundLine<'a>>
        requires { k < count_in (bytes_of self.now) }
        ensures told { option_map told result ≡ told_in (bytes_of self.now) k }
        ensures places { IfSome result (AreAt (bytes_of self.now)) }
    {
        let file = number_in(self.bytes, self.layout.files_at, self.layout.files_width, k);
        if file == 0 || file > self.layout.files as u64 {
            return None;
        }
        let file = (file - 1) as usize;
        let path = self.path(file)?;
        Some(FoundLine {
            unit: long_at(self.parts.file_table, file * 24),
            texts: path.texts,
            places: path.places,
            line: number_in(self.bytes, self.layout.lines_at, self.layout.lines_width, k),
            column: number_in(
                self.bytes,
                self.layout.columns_at,
                self.layout.columns_width,
                k,
            ),
            discriminator: number_in(
                self.bytes,
                self.layout.discriminators_at,
                self.layout.discriminators_width,
                k,
            ),
            is_stmt: self.is_stmt(k),
        })
    }

    /// Whether bit `k` of is_stmt is set.
    #[inline(always)]
    fn is_stmt(&self, k: usize) -> bool
        requires { k < count_in (bytes_of self.now) }
        ensures { result ≡ is_stmt_in (bytes_of self.now) k }
    {
        (self.parts.statements[k / 8] >> (k % 8)) % 2 == 1
    }

    /// The path of a file, counted from 0; None where a text of it lies outside.
    #[inline(always)]
    fn path(&self, file: usize) -> Option<PlacedPath<'a>>
        requires { file < files_in (bytes_of self.now) }
        ensures told { option_map path_told result ≡ texts_of (bytes_of self.now) file }
        ensures each { IfSome result (λ path. AreTextsOf (bytes_of self.now) file path.texts) }
        ensures places { IfSome result (λ path. ArePlacesOf (bytes_of self.now) file path.places) }
    {
        let first = self.text(number_at(self.parts.file_table, file * 24 + 8))?;
        let second = self.text(number_at(self.parts.file_table, file * 24 + 12))?;
        let third = self.text(number_at(self.parts.file_table, file * 24 + 16))?;
        Some(PlacedPath {
            texts: PathTexts {
                first: first.text,
                second: second.text,
                third: third.text,
            },
            places: TextPlaces {
                first: first.place,
                second: second.place,
                third: third.place,
            },
        })
    }

    /// The text of a number, counted from 1; no text for 0, and None where it lies outside.
    #[inline(always)]
    fn text(&self, number: u32) -> Option<PlacedText<'a>>
        ensures told { option_map placed_told result ≡ text_in (bytes_of self.now) number }
        ensures place { IfSome result (λ placed. IsPlaceOf (bytes_of self.now) number placed.place) }
    {
        if number == 0 {
            return Some(PlacedText {
                text: None,
                place: 0,
            });
        }
        self.text_at((number - 1) as usize)
    }

    /// Text `index`, counted from 0; None where there is none, or it lies outside.
    #[inline(always)]
    fn text_at(&self, index: usize) -> Option<PlacedText<'a>>
        ensures told { option_map placed_told result ≡ text_in (bytes_of self.now) (index + 1) }
        ensures place { IfSome result (λ placed. IsPlaceOf (bytes_of self.now) (index + 1) placed.place) }
    {
        if index >= self.layout.texts {
            return None;
        }
        let place = long_at(self.parts.text_table, index * 16);
        let len = long_at(self.parts.text_table, index * 16 + 8);
        let texts = self.parts.texts;
        let all = texts.len() as u64;
        if place > all || len > all - place {
            return None;
        }
        let rest = &texts[place as usize..];
        Some(PlacedText {
            text: Some(&rest[..len as usize]),
            place: self.parts.texts_at + place as usize,
        })
    }
}
