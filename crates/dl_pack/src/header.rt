//! The header of an index.

ghost use Rattle.std.specs.Prelude.{◌≡◌, ◌+◌, ◌*◌, ◌++◌, ◌<◌, ◌≤◌, ◌^◌, IfOk, OnErr, length, drop, vec_len};
ghost use Rattle.dl_memory.specs.Refusals.{IsRefused};
ghost use Rattle.dl_crc.specs.Crc32.{crc_32};
ghost use Rattle.dl_pack.specs.Columns.{column_bytes};
ghost use Rattle.dl_pack.specs.IndexOf.{header_front, header_back, header_with, header_of, whole_of};
ghost use Rattle.dl_pack.specs.Fits.{SumsFit};

use crate::columns::{put_number, put_slice, put_zeros};
use dl_crc::crc_32;
use dl_memory::{Memory, NoMemory};

/// What the header says before its own sum.
#[derive(Drop)]
struct Header {
    /// 1 where each sequence counts, else 0.
    flags: u32,
    /// The length of the whole, the base, and how many stretches, files, texts and bytes of texts there are.
    numbers: [u64; 6],
    /// The widths of the columns.
    widths: [u8; 5],
    /// The sum of all bytes after the header.
    sum: u32,
}

/// What the header says of a body, beside its length and its sum.
#[derive(Drop)]
pub struct Described {
    /// 1 where each sequence counts, else 0.
    pub flags: u32,
    /// The first address of all.
    pub base: u64,
    /// How many stretches there are, how many files, how many texts, and how many bytes of texts.
    pub count: u64,
    pub files: u64,
    pub texts: u64,
    pub text_bytes: u64,
    /// The widths of the columns.
    pub widths: [u8; 5],
}

/// Puts numbers of eight bytes.
fn put_numbers<M: Memory>(memory: &M, out: &mut Vec<u8>, numbers: &[u64]) -> Result<(), NoMemory>
    ensures put { IfOk result (λ _. out.new.items ≡ out.old.items ++ column_bytes 8 numbers.now) }
    ensures refused { OnErr result (IsRefused (M.refuses memory.now) (length out.old.items + 8 * length numbers.now)) }
{
    for number in numbers {
        put_number(memory, out, 8, *number)?;
    }
    Ok(())
}

/// Puts the header up to its own sum.
fn put_front<M: Memory>(memory: &M, out: &mut Vec<u8>, header: &Header) -> Result<(), NoMemory>
    ensures put { IfOk result (λ _. out.new.items ≡ out.old.items
        ++ header_front header.now.flags header.now.numbers header.now.widths header.now.sum) }
    ensures refused { OnErr result (IsRefused (M.refuses memory.now) (length out.old.items + 76)) }
{
    put_slice(memory, out, b"dlineidx")?;
    put_number(memory, out, 4, 1)?;
    put_number(memory, out, 4, u64::from(header.flags))?;
    put_numbers(memory, out, &header.numbers)?;
    put_slice(memory, out, &header.widths)?;
    put_slice(memory, out, &[0, 0, 0])?;
    put_number(memory, out, 4, u64::from(header.sum))?;
    Ok(())
}

/// Puts the header after its own sum: the build ID.
fn put_back<M: Memory>(memory: &M, out: &mut Vec<u8>, build_id: &[u8]) -> Result<(), NoMemory>
    requires { length build_id.now ≤ 32 }
    ensures put { IfOk result (λ _. out.new.items ≡ out.old.items ++ header_back build_id.now) }
    ensures refused { OnErr result (IsRefused (M.refuses memory.now) (length out.old.items + 48)) }
{
    put_number(memory, out, 1, build_id.len() as u64)?;
    put_slice(memory, out, &[0, 0, 0])?;
    put_slice(memory, out, build_id)?;
    put_zeros(memory, out, 44 - build_id.len())?;
    Ok(())
}

/// The header with this sum of its own.
fn header_with<M: Memory>(
    memory: &M,
    header: &Header,
    build_id: &[u8],
    sum: u32,
) -> Result<Vec<u8>, NoMemory>
    requires { length build_id.now ≤ 32 }
    ensures made { IfOk result (λ bytes. bytes.items
        ≡ header_with (header_front header.now.flags header.now.numbers header.now.widths header.now.sum) build_id.now sum) }
    ensures refused { OnErr result (IsRefused (M.refuses memory.now) (128)) }
{
    let mut bytes = Vec::new(memory.alloc());
    put_front(memory, &mut bytes, header)?;
    put_number(memory, &mut bytes, 4, u64::from(sum))?;
    put_back(memory, &mut bytes, build_id)?;
    Ok(bytes)
}

/// The header.
fn header_bytes<M: Memory>(
    memory: &M,
    header: &Header,
    build_id: &[u8],
) -> Result<Vec<u8>, NoMemory>
    requires { length build_id.now ≤ 32 }
    ensures bytes { IfOk result (λ bytes. bytes.items
        ≡ header_of (header_front header.now.flags header.now.numbers header.now.widths header.now.sum) build_id.now) }
    ensures sum { IfOk result (λ _.
        crc_32 (header_with (header_front header.now.flags header.now.numbers header.now.widths header.now.sum) build_id.now 0)
        < 2 ^ 32) }
    ensures refused { OnErr result (IsRefused (M.refuses memory.now) (128)) }
{
    let summed = header_with(memory, header, build_id, 0)?;
    let sum = crc_32(summed.as_slice());
    header_with(memory, header, build_id, sum)
}

/// Puts the header in place of the first 128 bytes, which a body follows.
pub fn fill_header<M: Memory>(
    memory: &M,
    bytes: &mut Vec<u8>,
    described: &Described,
    build_id: &[u8],
) -> Result<(), NoMemory>
    requires room { 128 ≤ vec_len bytes.old }
    requires short { length build_id.now ≤ 32 }
    ensures whole { IfOk result (λ _. let d = described.now in bytes.new.items
        ≡ whole_of d.flags d.base d.count d.files d.texts d.text_bytes d.widths build_id.now (drop 128 bytes.old.items)) }
    ensures sums { IfOk result (λ _. SumsFit bytes.new.items) }
    ensures refused { OnErr result (IsRefused (M.refuses memory.now) (128)) }
{
    let header = Header {
        flags: described.flags,
        numbers: [
            bytes.len() as u64,
            described.base,
            described.count,
            described.files,
            described.texts,
            described.text_bytes,
        ],
        widths: described.widths,
        sum: crc_32(&bytes[128..]),
    };
    let header = header_bytes(memory, &header, build_id)?;
    replace_front(bytes.as_mut_slice(), header.as_slice());
    Ok(())
}

/// Puts these bytes in place of the first ones.
fn replace_front(bytes: &mut [u8], front: &[u8])
    requires { length front.now ≤ length bytes.old }
    ensures { bytes.new ≡ front.now ++ drop (length front.now) bytes.old }
{
    bytes[..front.len()].copy_from_slice(front);
}
