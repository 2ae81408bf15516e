//! Opening an index: the checks of its header, and of what stands after it.

ghost use Rattle.std.specs.Prelude.{◌≡◌, ℕ, ◌≤◌, List, length, take, MatchBool, IfOk, IfErr, OnOk, IsOk, IfSome, OnSome, IsSome};
ghost use Rattle.dl_index.specs.Layout.{length_in};
ghost use Rattle.dl_index.specs.IsIndex.{HasMagic, IsHeaded, HeaderAgrees, IsIndex, HasFault};
ghost use Rattle.dl_index.specs.LayoutOf.{IsLayoutOf};
ghost use Rattle.dl_index.specs.HeaderIs.{LengthIs, HeaderIs, LayoutIs};
ghost use Rattle.dl_index.specs.Parts.{Fits};
ghost use Rattle.dl_index.specs.Shown.{bytes_of};

use crate::checks::check;
use crate::fault::{IndexFault, IndexPart};
use crate::header::{HEADER_LEN, Header, long_at, number_at, read_header};
use crate::index::IndexRef;
use crate::layout::Layout;
use crate::parts::{parts_at, whole_len};
use dl_crc::Crc32;

/// The bytes that an index begins with.
const MAGIC: &[u8] = b"dlineidx";

/// The index that bytes are: they are checked whole, in one pass. The fault is that of the first check that fails.
pub fn open(bytes: &[u8]) -> Result<IndexRef<'_>, IndexFault>
    ensures bytes { IfOk result (λ index. bytes_of index ≡ bytes.entry.now) }
    ensures ok { OnOk result (IsIndex bytes.entry.now) }
    ensures fault { IfErr result (HasFault bytes.entry.now) }
    ensures opens { IsIndex bytes.entry.now → IsOk result }
{
    let index = open_unchecked(bytes)?;
    check(&index)?;
    Ok(index)
}

/// The same without the pass over what stands after the header: of bytes that are damaged there the answers are
/// wrong, or none, and nothing outside is looked at.
pub fn open_unchecked(bytes: &[u8]) -> Result<IndexRef<'_>, IndexFault>
    ensures bytes { IfOk result (λ index. bytes_of index ≡ bytes.entry.now) }
    ensures fault { IfErr result (HasFault bytes.entry.now) }
    ensures headed { OnOk result (IsHeaded bytes.entry.now) }
    ensures ok { IsHeaded bytes.entry.now → IsOk result }
{
    let front = &bytes[..bytes.len().min(HEADER_LEN)];
    let header = header_of(front, bytes.len() as u64)?;
    let layout = Layout::of(&header, bytes.len());
    Ok(IndexRef {
        bytes,
        layout,
        parts: parts_at(bytes, &layout),
    })
}

/// The index that was opened with this layout, over its bytes: no part is looked for again, and no sum is compared. None
/// where the bytes aren't laid out so.
#[inline(always)]
pub fn reopen<'a>(bytes: &'a [u8], layout: &Layout) -> Option<IndexRef<'a>>
    ensures bytes { IfSome result (λ index. bytes_of index ≡ bytes.entry.now) }
    ensures laid_out { OnSome result (IsLayoutOf layout.now bytes.entry.now) }
    ensures some { IsLayoutOf layout.now bytes.entry.now → IsSome result }
{
    if !layout.is_of(bytes) {
        return None;
    }
    Some(IndexRef {
        bytes,
        layout: *layout,
        parts: parts_at(bytes, layout),
    })
}

/// The header of an index of `len` bytes, of which `front` are the first 128, or all where there are fewer: all that
/// can be checked without the others. The fault is that of the first check that fails.
pub fn header_of(front: &[u8], len: u64) -> Result<Header, IndexFault>
    ensures header { (b : List ℕ) → front.now ≡ take 128 b → len ≡ length b → HeaderIs b result }
    ensures fits { IfOk result (λ header. Fits header front.now len) }
{
    match layout_of(front, len) {
        Ok(header) if header_agrees(front) => Ok(header),
        Ok(_) => Err(IndexFault::Damaged(IndexPart::Sum)),
        Err(fault) => Err(fault),
    }
}

/// The same without the sum of the header.
fn layout_of(front: &[u8], len: u64) -> Result<Header, IndexFault>
    ensures header { (b : List ℕ) → front.now ≡ take 128 b → len ≡ length b → LayoutIs b result }
    ensures fits { IfOk result (λ header. Fits header front.now len) }
{
    if length_told(front)? != len {
        return Err(IndexFault::Damaged(IndexPart::Length));
    }
    let Some(header) = read_header(front) else {
        return Err(IndexFault::Damaged(IndexPart::Place));
    };
    if front[80] > 32 || whole_len(&header) != u128::from(len) {
        return Err(IndexFault::Damaged(IndexPart::Place));
    }
    Ok(header)
}

/// How many bytes an index says that it has, of which `front` are the first 128, or all where there are fewer. The
/// fault is that of the magic, of the version, or that there are fewer than 128.
pub fn length_told(front: &[u8]) -> Result<u64, IndexFault>
    ensures length { (b : List ℕ) → front.now ≡ take 128 b → LengthIs b result }
    ensures enough { OnOk result (128 ≤ length front.now) }
    ensures said { IfOk result (λ len. len ≡ length_in front.now) }
{
    if !has_magic(front) {
        return Err(IndexFault::NotAnIndex);
    }
    if front.len() < HEADER_LEN {
        return Err(IndexFault::Damaged(IndexPart::Length));
    }
    let version = number_at(front, 8);
    if version != 1 {
        return Err(IndexFault::Version(version));
    }
    Ok(long_at(front, 16))
}

/// Whether bytes begin as those of an index do, with `dlineidx`.
#[inline(always)]
pub fn has_magic(bytes: &[u8]) -> bool
    ensures { MatchBool result (HasMagic bytes.now) (¬ (HasMagic bytes.now)) }
{
    bytes.starts_with(MAGIC)
}

/// Whether the check value of the header is the one that it says.
fn header_agrees(bytes: &[u8]) -> bool
    requires { 128 ≤ length bytes.now }
    ensures { MatchBool result (HeaderAgrees bytes.now) (¬ (HeaderAgrees bytes.now)) }
{
    let mut crc = Crc32::new();
    crc.update(&bytes[..76]);
    crc.update(&[0; 4]);
    crc.update(&bytes[80..128]);
    number_at(bytes, 76) == crc.finish()
}
