//! Opening an index that lies in a file.

ghost use Rattle.std.specs.Prelude.{◌≡◌, ◌==◌, length, MatchBool, IfOk, IfErr};
ghost use Rattle.dl_elf.specs.Source.{ForBytes};
ghost use Rattle.dl_index.specs.IsIndex.{HasMagic};
ghost use Rattle.dl_index_file.specs.Opening.{source_of, Opens, IfRead};

use crate::fault::OpenFault;
use crate::index::IndexFile;
use crate::parts::places_of;
use dl_elf::{ReadAt, fill, lies_within};
use dl_index::{HEADER_LEN, IndexFault, IndexPart, has_magic, header_of, length_told};
use std::io;

/// Whether a file begins as an index does, with `dlineidx`.
pub fn is_index<S: ReadAt>(source: &S) -> io::Result<bool>
    ensures is { ForBytes (S.all_bytes source.now) (λ b. IfOk result (λ is.
        MatchBool is (HasMagic b) (¬ (HasMagic b)))) }
    ensures fails { IfErr result (S.fails_with source.now) }
{
    let mut front = [0; 8];
    let n = fill(source, 0, &mut front)?;
    Ok(has_magic(&front[..n]))
}

/// The index that lies in a file: its header is read and checked, and that the file is as long as that says, by three
/// reads. The fault is that of the first check that fails.
pub fn open_index<S: ReadAt>(source: &S) -> Result<IndexFile<'_, S>, OpenFault>
    ensures source { IfOk result (λ index. source_of index ≡ source.entry.now) }
    ensures opens { ForBytes (S.all_bytes source.entry.now) (λ b. Opens b result) }
    ensures read { IfRead (S.fails_with source.entry.now) result }
{
    let mut front = [0; HEADER_LEN];
    let n = fill(source, 0, &mut front)?;
    let len = length_told(&front[..n])?;
    if !has_length(source, len)? {
        return Err(OpenFault::Index(IndexFault::Damaged(IndexPart::Length)));
    }
    let header = header_of(&front, len)?;
    Ok(IndexFile {
        source,
        front,
        header,
        places: places_of(&header),
    })
}

/// Whether a file has so many bytes.
fn has_length<S: ReadAt>(source: &S, len: u64) -> io::Result<bool>
    ensures is { ForBytes (S.all_bytes source.now) (λ b. IfOk result (λ is. is ≡ (len == length b))) }
    ensures fails { IfErr result (S.fails_with source.now) }
{
    Ok(lies_within(source, 0, len)? && !lies_within(source, len, 1)?)
}
