//! The checks of what stands after the header: the pass over the columns, the files and the texts.

ghost use Rattle.std.specs.Prelude.{◌+◌, ◌*◌, ◌<◌, ◌≤◌, length, MatchBool, OnOk, IfErr};
ghost use Rattle.dl_index.specs.Layout.{count_in, start_in};
ghost use Rattle.dl_index.specs.Checked.{NamesTexts};
ghost use Rattle.dl_index.specs.LookUp.{Rise};
ghost use Rattle.dl_index.specs.IsIndex.{BodyAgrees, IsHeaded, IsOrdered, HasTexts, IsIndex, HasFault};
ghost use Rattle.dl_index.specs.IsIndex.{FilesAreThere, TextsAreThere, TextsLieWithin};
ghost use Rattle.dl_index.specs.Shown.{bytes_of};

use crate::fault::{IndexFault, IndexPart};
use crate::header::{HEADER_LEN, long_at, number_at};
use crate::index::IndexRef;
use dl_crc::crc_32;

/// The checks that [`crate::open_unchecked`] leaves out.
pub fn check(index: &IndexRef<'_>) -> Result<(), IndexFault>
    requires { IsHeaded (bytes_of index.now) }
    ensures ok { OnOk result (IsIndex (bytes_of index.now)) }
    ensures fault { IfErr result (HasFault (bytes_of index.now)) }
{
    if !body_agrees(index) {
        return Err(IndexFault::Damaged(IndexPart::Sum));
    }
    if !is_ordered(index) {
        return Err(IndexFault::Damaged(IndexPart::Order));
    }
    if !files_are_there(index) {
        return Err(IndexFault::Damaged(IndexPart::File));
    }
    if !has_texts(index) {
        return Err(IndexFault::Damaged(IndexPart::Text));
    }
    Ok(())
}

/// Whether the check value of what follows the header is the one that it says.
fn body_agrees(index: &IndexRef<'_>) -> bool
    ensures { MatchBool result (BodyAgrees (bytes_of index.now)) (¬ (BodyAgrees (bytes_of index.now))) }
{
    number_at(index.bytes, 72) == crc_32(&index.bytes[HEADER_LEN..])
}

/// Whether starts rise from 0 on, and no address is 2^64 or above.
fn is_ordered(index: &IndexRef<'_>) -> bool
    ensures { MatchBool result (IsOrdered (bytes_of index.now)) (¬ (IsOrdered (bytes_of index.now))) }
{
    let starts = &index.parts.starts;
    if starts.len == 0 {
        return true;
    }
    if starts.get(0) != 0 || !starts_rise(index) {
        return false;
    }
    starts.get(starts.len - 1) <= u64::MAX - index.layout.base
}

/// Whether starts rise.
fn starts_rise(index: &IndexRef<'_>) -> bool
    requires { 0 < count_in (bytes_of index.now) }
    ensures { let b = bytes_of index.now in
        MatchBool result (Rise (start_in b) (count_in b)) (¬ (Rise (start_in b) (count_in b))) }
{
    let starts = index.parts.starts;
    let mut last = starts.get(0);
    for k in 1..starts.len {
        let start = starts.get(k);
        if start <= last {
            return false;
        }
        last = start;
    }
    true
}

/// Whether each stretch has a file that there is, or none.
fn files_are_there(index: &IndexRef<'_>) -> bool
    ensures { MatchBool result (FilesAreThere (bytes_of index.now)) (¬ (FilesAreThere (bytes_of index.now))) }
{
    let files = index.parts.files;
    let count = (index.parts.file_table.len() / 24) as u64;
    for k in 0..files.len {
        if files.get(k) > count {
            return false;
        }
    }
    true
}

/// Whether each file has texts that there are, and each text lies in the bytes of texts.
fn has_texts(index: &IndexRef<'_>) -> bool
    ensures { MatchBool result (HasTexts (bytes_of index.now)) (¬ (HasTexts (bytes_of index.now))) }
{
    texts_are_there(index) && texts_lie_within(index)
}

/// Whether each file has texts that there are.
fn texts_are_there(index: &IndexRef<'_>) -> bool
    ensures { MatchBool result (TextsAreThere (bytes_of index.now)) (¬ (TextsAreThere (bytes_of index.now))) }
{
    let table = index.parts.file_table;
    let count = index.parts.text_table.len() / 16;
    for file in 0..table.len() / 24 {
        if !names_texts(table, count, file) {
            return false;
        }
    }
    true
}

/// Whether a file of a table names texts that there are, of `count`.
fn names_texts(table: &[u8], count: usize, file: usize) -> bool
    requires { file * 24 + 24 ≤ length table.now }
    ensures { MatchBool result (NamesTexts table.now count file) (¬ (NamesTexts table.now count file)) }
{
    let first = number_at(table, file * 24 + 8) as usize;
    let second = number_at(table, file * 24 + 12) as usize;
    let third = number_at(table, file * 24 + 16) as usize;
    first.max(second).max(third) <= count
}

/// Whether each text lies in the bytes of texts.
fn texts_lie_within(index: &IndexRef<'_>) -> bool
    ensures { MatchBool result (TextsLieWithin (bytes_of index.now)) (¬ (TextsLieWithin (bytes_of index.now))) }
{
    let table = index.parts.text_table;
    let all = index.parts.texts.len() as u64;
    for text in 0..table.len() / 16 {
        let place = long_at(table, text * 16);
        let len = long_at(table, text * 16 + 8);
        if place > all || len > all - place {
            return false;
        }
    }
    true
}
