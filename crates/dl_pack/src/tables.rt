//! The tables of files and of texts of an index.

ghost use Rattle.std.specs.Prelude.{◌≡◌, ◌+◌, ◌*◌, ◌<◌, ◌≤◌, ◌^◌, ◌++◌, IfOk, OnErr, map, min, get_or, length, []};
ghost use Rattle.dl_memory.specs.Refusals.{IsRefused};
ghost use Rattle.std.specs.List.{concat, flat_map};
ghost use Rattle.dl_pack.specs.Columns.{padded};
ghost use Rattle.dl_pack.specs.Tables.{text_number, file_bytes, no_file, text_entries};
ghost use Rattle.dl_pack.specs.Tables.{file_table, texts_at, total_len};
ghost use Rattle.dl_pack.specs.Shown.{texts_of, files_of};
ghost use Rattle.dl_pack.specs.Mentioned.{order_of};

use crate::columns::{pad, put_number};
use crate::mentions::Mentions;
use crate::names::{FileTexts, Names};
use dl_memory::{Memory, NoMemory};

/// The number of a text, counted from 1, in the order of first mention; 0 stays.
fn text_number(texts: &Mentions, text: u64) -> u32
    ensures { result ≡ text_number (order_of texts.now) text }
{
    if text == 0 { 0 } else { texts.number(text - 1) }
}

/// Puts a file: the offset of its unit, the numbers of its three texts, and 0.
fn put_file<M: Memory>(
    memory: &M,
    out: &mut Vec<u8>,
    texts: &Mentions,
    file: FileTexts,
) -> Result<(), NoMemory>
    ensures put { IfOk result (λ _. out.new.items ≡ out.old.items ++ file_bytes (order_of texts.now) file) }
    ensures refused { OnErr result (IsRefused (M.refuses memory.now) (length out.old.items + 24)) }
{
    put_number(memory, out, 8, file.unit)?;
    let first = text_number(texts, file.texts[0]);
    put_number(memory, out, 4, u64::from(first))?;
    let second = text_number(texts, file.texts[1]);
    put_number(memory, out, 4, u64::from(second))?;
    let third = text_number(texts, file.texts[2]);
    put_number(memory, out, 4, u64::from(third))?;
    put_number(memory, out, 4, 0)?;
    Ok(())
}

/// Puts the files that were mentioned.
fn put_file_table<M: Memory>(
    memory: &M,
    out: &mut Vec<u8>,
    names: &Names,
    files: &Mentions,
    texts: &Mentions,
) -> Result<(), NoMemory>
    ensures put { IfOk result (λ _. out.new.items ≡ out.old.items
        ++ file_table (files_of names.now) (order_of files.now) (order_of texts.now)) }
    ensures refused { OnErr result (IsRefused (M.refuses memory.now) (length out.old.items + 24 * length (order_of files.now))) }
{
    for file in files.order() {
        put_file(memory, out, texts, names.file_at(*file))?;
    }
    Ok(())
}

/// Puts the files that were mentioned, as a part.
pub fn put_files<M: Memory>(
    memory: &M,
    out: &mut Vec<u8>,
    names: &Names,
    files: &Mentions,
    texts: &Mentions,
) -> Result<(), NoMemory>
    ensures put { IfOk result (λ _. out.new.items ≡ out.old.items
        ++ padded (file_table (files_of names.now) (order_of files.now) (order_of texts.now))) }
    ensures refused { OnErr result (IsRefused (M.refuses memory.now) (length out.old.items + 24 * length (order_of files.now) + 7)) }
{
    let start = out.len();
    put_file_table(memory, out, names, files, texts)?;
    pad(memory, out, start)?;
    Ok(())
}

/// Puts for each text that was mentioned its place among their bytes, and its length; answers how many bytes they have,
/// 2^64 - 1 where they have more.
fn put_entries<M: Memory>(
    memory: &M,
    out: &mut Vec<u8>,
    names: &Names,
    texts: &Mentions,
) -> Result<u64, NoMemory>
    ensures total { IfOk result (λ total. total
        ≡ min (total_len (texts_at (texts_of names.now) (order_of texts.now))) 0xffffffffffffffff) }
    ensures put { IfOk result (λ _. total_len (texts_at (texts_of names.now) (order_of texts.now)) < 2 ^ 64
        → out.new.items ≡ out.old.items ++ text_entries 0 (texts_at (texts_of names.now) (order_of texts.now))) }
    ensures longer { IfOk result (λ _. length out.new.items ≡ length out.old.items + 16 * length (order_of texts.now)) }
    ensures refused { OnErr result (IsRefused (M.refuses memory.now) (length out.old.items + 16 * length (order_of texts.now))) }
{
    let mut place = 0u64;
    for text in texts.order() {
        let len = names.text_at(*text).len() as u64;
        put_number(memory, out, 8, place)?;
        put_number(memory, out, 8, len)?;
        place = place.saturating_add(len);
    }
    Ok(place)
}

/// Puts the places and lengths of the texts that were mentioned, as a part; answers how many bytes they have, 2^64 - 1
/// where they have more.
pub fn put_text_table<M: Memory>(
    memory: &M,
    out: &mut Vec<u8>,
    names: &Names,
    texts: &Mentions,
) -> Result<u64, NoMemory>
    ensures total { IfOk result (λ total. total
        ≡ min (total_len (texts_at (texts_of names.now) (order_of texts.now))) 0xffffffffffffffff) }
    ensures put { IfOk result (λ _. total_len (texts_at (texts_of names.now) (order_of texts.now)) < 2 ^ 64
        → out.new.items ≡ out.old.items
        ++ padded (text_entries 0 (texts_at (texts_of names.now) (order_of texts.now)))) }
    ensures longer { IfOk result (λ _. length out.new.items ≤ length out.old.items + 16 * length (order_of texts.now) + 7) }
    ensures refused { OnErr result (IsRefused (M.refuses memory.now) (length out.old.items + 16 * length (order_of texts.now) + 7)) }
{
    let start = out.len();
    let total = put_entries(memory, out, names, texts)?;
    pad(memory, out, start)?;
    Ok(total)
}

/// Puts the texts that were mentioned, one after the other.
fn put_bytes<M: Memory>(
    memory: &M,
    out: &mut Vec<u8>,
    names: &Names,
    texts: &Mentions,
) -> Result<(), NoMemory>
    ensures put { IfOk result (λ _. out.new.items ≡ out.old.items
        ++ concat (texts_at (texts_of names.now) (order_of texts.now))) }
    ensures refused { OnErr result (IsRefused (M.refuses memory.now) (length out.old.items
        + length (concat (texts_at (texts_of names.now) (order_of texts.now))))) }
{
    for text in texts.order() {
        memory.extend_from_slice(out, names.text_at(*text))?;
    }
    Ok(())
}

/// Puts the bytes of the texts that were mentioned, as a part. So many have room in memory.
pub fn put_texts<M: Memory>(
    memory: &M,
    out: &mut Vec<u8>,
    names: &Names,
    texts: &Mentions,
) -> Result<(), NoMemory>
    ensures put { IfOk result (λ _. out.new.items ≡ out.old.items
        ++ padded (concat (texts_at (texts_of names.now) (order_of texts.now)))) }
    ensures few { IfOk result (λ _. total_len (texts_at (texts_of names.now) (order_of texts.now)) < 2 ^ 63) }
    ensures refused { OnErr result (IsRefused (M.refuses memory.now) (length out.old.items
        + length (concat (texts_at (texts_of names.now) (order_of texts.now))) + 7)) }
{
    let start = out.len();
    put_bytes(memory, out, names, texts)?;
    pad(memory, out, start)?;
    Ok(())
}
