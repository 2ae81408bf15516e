//! The bytes of an index.

ghost use Rattle.std.specs.Prelude.{◌≡◌, ◌⊎◌, ℕ, ◌+◌, ◌*◌, ◌<◌, ◌≤◌, ◌++◌, List, [], None, Err, length, map, IfOk, IfErr, OnErr};
ghost use Rattle.dl_memory.specs.Refusals.{IsRefused, WasRefused};
ghost use Rattle.std.specs.List.{All, flat_map};
ghost use Rattle.dl_stretch.specs.declared.stretch.Stretch as each;
ghost use Rattle.dl_pack.specs.IndexOf.{files_told, file_order, text_place, file_places, text_order};
ghost use Rattle.dl_pack.specs.IndexOf.{tables_by, index_of};
ghost use Rattle.dl_pack.specs.Faults.{AreTooMany, PackFails, TextsFail, TotalsFail};
ghost use Rattle.dl_pack.specs.Columns.{padded};
ghost use Rattle.dl_pack.specs.Room.{index_room, tables_room};
ghost use Rattle.dl_pack.specs.Tables.{texts_at, total_len};
ghost use Rattle.dl_pack.specs.Numbering.{mentioned};
ghost use Rattle.dl_pack.specs.Mentioned.{order_of, count_of};
ghost use Rattle.dl_pack.specs.Shown.{files_of, texts_of, named_files};
ghost use Rattle.dl_pack.specs.Fits.{AreKnown, SumsFit, GivenFits};
ghost use Rattle.dl_pack.specs.Telling.{StretchesRise, named_stretch};
ghost use Rattle.dl_pack.specs.Totals.{Totalled};
ghost use Rattle.dl_index.specs.IsIndex.{IsIndex};
ghost use Rattle.dl_index.specs.Telling.{stretches_in};

use crate::fault::{PackFault, TooMany};
use crate::header::{Described, fill_header};
use crate::layout::with_columns;
use crate::mentions::Mentions;
use crate::names::{FileTexts, Names};
use crate::tables::{put_files, put_text_table, put_texts};
use crate::totals::Totals;
use dl_memory::{Memory, NoMemory};
use dl_stretch::Stretches;

/// What is known of stretches before their index is written.
fn totals_of<M: Memory, T: Stretches>(
    memory: &M,
    stretches: &T,
    names: &Names,
) -> Result<Totals, PackFault>
    ensures totals { IfOk result (λ totals. (list : List each.Stretch) → T.stands stretches.now list
        → Totalled (length (files_of names.now)) totals list) }
    ensures good { IfOk result (λ totals. totals.files.fault ≡ None) }
    ensures some { IfOk result (λ _. (list : List each.Stretch) × T.stands stretches.now list) }
    ensures fails { IfErr result (TotalsFail (M.refuses memory.now) (files_of names.now) (T.stands stretches.now)) }
    ensures refused { result ≡ Err PackFault.NoMemory → IsRefused (M.refuses memory.now) (length (files_of names.now)) }
{
    let Ok(files) = Mentions::new(memory, names.file_count()) else {
        return Err(PackFault::NoMemory);
    };
    let mut totals = Totals::new(files);
    stretches.tell(&mut totals);
    match totals.fault() {
        Some(fault) => Err(fault),
        None => Ok(totals),
    }
}

/// Mentions the text of a number, counted from 1; none for 0.
fn mention_text(texts: &mut Mentions, text: u64) -> Result<(), TooMany>
    requires { text ≤ count_of texts.old }
    ensures order { IfOk result (λ _. order_of texts.new ≡ mentioned (order_of texts.old) (text_place text)) }
    ensures many { OnErr result (AreTooMany (mentioned (order_of texts.old) (text_place text))) }
    ensures count { count_of texts.new ≡ count_of texts.old }
{
    if text == 0 {
        return Ok(());
    }
    texts.mention((text - 1) as usize)
}

/// Mentions the texts of a file.
fn mention_file(texts: &mut Mentions, file: FileTexts) -> Result<(), TooMany>
    requires { All (λ text. text ≤ count_of texts.old) file.texts }
    ensures order { IfOk result (λ _. order_of texts.new ≡ mentioned (order_of texts.old) (file_places file)) }
    ensures many { OnErr result (AreTooMany (mentioned (order_of texts.old) (file_places file))) }
    ensures count { count_of texts.new ≡ count_of texts.old }
{
    mention_text(texts, file.texts[0])?;
    mention_text(texts, file.texts[1])?;
    mention_text(texts, file.texts[2])?;
    Ok(())
}

/// Mentions the texts of the files that were mentioned, in the order in which these first name them.
fn mention_texts(texts: &mut Mentions, files: &Mentions, names: &Names) -> Result<(), TooMany>
    requires none { order_of texts.old ≡ [] }
    requires count { count_of texts.old ≡ length (texts_of names.now) }
    ensures order { IfOk result (λ _. order_of texts.new ≡ text_order (files_of names.now) (order_of files.now)) }
    ensures many { OnErr result (AreTooMany (text_order (files_of names.now) (order_of files.now))) }
    ensures known { IfOk result (λ _. AreKnown (files_of names.now) (length (texts_of names.now)) (order_of files.now)) }
{
    for file in files.order() {
        mention_file(texts, names.file_at(*file))?;
    }
    Ok(())
}

/// The texts of the files that were mentioned, in the order in which these first name them.
fn texts_named<M: Memory>(
    memory: &M,
    files: &Mentions,
    names: &Names,
) -> Result<Mentions, PackFault>
    ensures order { IfOk result (λ texts. order_of texts ≡ text_order (files_of names.now) (order_of files.now)) }
    ensures known { IfOk result (λ _. AreKnown (files_of names.now) (length (texts_of names.now)) (order_of files.now)) }
    ensures fails { IfErr result (TextsFail (M.refuses memory.now) (files_of names.now) (order_of files.now)) }
    ensures refused { result ≡ Err PackFault.NoMemory → IsRefused (M.refuses memory.now) (length (texts_of names.now)) }
{
    let Ok(mut texts) = Mentions::new(memory, names.text_count()) else {
        return Err(PackFault::NoMemory);
    };
    match mention_texts(&mut texts, files, names) {
        Ok(()) => Ok(texts),
        Err(TooMany) => Err(PackFault::TooMany),
    }
}

/// Puts the files and their texts, behind the columns and bits; answers how many bytes texts have.
fn put_tables<M: Memory>(
    memory: &M,
    bytes: &mut Vec<u8>,
    names: &Names,
    files: &Mentions,
    texts: &Mentions,
) -> Result<u64, NoMemory>
    ensures total { IfOk result (λ total. total ≡ total_len (texts_at (texts_of names.now) (order_of texts.now))) }
    ensures put { IfOk result (λ _. bytes.new.items ≡ bytes.old.items
        ++ flat_map padded (tables_by (order_of files.now) (order_of texts.now) (files_of names.now) (texts_of names.now))) }
    ensures refused { OnErr result (IsRefused (M.refuses memory.now) (length bytes.old.items
        + tables_room (order_of files.now) (order_of texts.now) (texts_of names.now))) }
{
    put_files(memory, bytes, names, files, texts)?;
    let total = put_text_table(memory, bytes, names, texts)?;
    put_texts(memory, bytes, names, texts)?;
    Ok(total)
}

/// The index of stretches of which the totals are known, and whose files have names with these texts.
fn made<M: Memory, T: Stretches>(
    memory: &M,
    stretches: &T,
    names: &Names,
    totals: &Totals,
    texts: &Mentions,
    all: bool,
    build_id: &[u8],
) -> Result<Vec<u8>, NoMemory>
    requires short { length build_id.now ≤ 32 }
    requires good { totals.now.files.fault ≡ None }
    requires totals { (list : List each.Stretch) → T.stands stretches.now list → (n : ℕ) × Totalled n totals.now list }
    requires order { order_of texts.now ≡ text_order (files_of names.now) (order_of totals.now.files.files) }
    requires known { AreKnown (files_of names.now) (length (texts_of names.now)) (order_of totals.now.files.files) }
    ensures made { IfOk result (λ bytes. (list : List each.Stretch) → T.stands stretches.now list
        → bytes.items ≡ index_of all build_id.now list (files_of names.now) (texts_of names.now)) }
    ensures fits { IfOk result (λ _. (list : List each.Stretch) → T.stands stretches.now list
        → GivenFits (file_order list) (text_order (files_of names.now) (file_order list)) list (files_of names.now)
        (texts_of names.now)) }
    ensures sums { IfOk result (λ bytes. SumsFit bytes.items) }
    ensures refused { OnErr result (IsRefused (M.refuses memory.now) (171 + 41 * totals.now.starts.count
        + tables_room (order_of totals.now.files.files) (order_of texts.now) (texts_of names.now))) }
{
    let files = &totals.files.files;
    let (mut bytes, widths) = with_columns(memory, totals, stretches)?;
    let text_bytes = put_tables(memory, &mut bytes, names, files, texts)?;
    let described = Described {
        flags: u32::from(all),
        base: totals.starts.base,
        count: totals.starts.count as u64,
        files: files.order().len() as u64,
        texts: texts.order().len() as u64,
        text_bytes,
        widths,
    };
    fill_header(memory, &mut bytes, &described, build_id)?;
    Ok(bytes)
}

/// The bytes of the index of stretches, whose files have these names; `all` where each sequence counts. The build ID has
/// at most 32 bytes. Where each stretch begins above the one before it, `dl_index::open` opens them.
///
/// The stretches are told twice, once for their number and the widths of columns, and once to be written; no list of them
/// is held.
///
/// The faults are `BuildId` where it is longer, `File` where a stretch tells a file that has no name, `TooMany` where
/// files or their texts would have 2^32 numbers, and else `NoMemory`, only where memory is refused.
pub fn index_bytes<M: Memory, T: Stretches>(
    memory: &M,
    stretches: &T,
    names: &Names,
    all: bool,
    build_id: &[u8],
) -> Result<Vec<u8>, PackFault>
    ensures some { IfOk result (λ _. (list : List each.Stretch) × T.stands stretches.now list) }
    ensures made { IfOk result (λ bytes. (list : List each.Stretch) → T.stands stretches.now list
        → bytes.items ≡ index_of all build_id.now list (files_of names.now) (texts_of names.now)) }
    ensures named { IfOk result (λ _. (list : List each.Stretch) → T.stands stretches.now list
        → All (λ file. file < length (files_of names.now)) (files_told list)) }
    ensures short { IfOk result (λ _. length build_id.now ≤ 32) }
    ensures opens { IfOk result (λ bytes. (list : List each.Stretch) → T.stands stretches.now list
        → StretchesRise list → IsIndex bytes.items) }
    ensures tells { IfOk result (λ bytes. (list : List each.Stretch) → T.stands stretches.now list → StretchesRise list
        → stretches_in bytes.items ≡ map (named_stretch (named_files names.now)) list) }
    ensures fails { IfErr result (PackFails (M.refuses memory.now) build_id.now (files_of names.now) (T.stands stretches.now)) }
    ensures refused { result ≡ Err PackFault.NoMemory → (list : List each.Stretch) → T.stands stretches.now list
        → IsRefused (M.refuses memory.now) (index_room list (files_of names.now) (texts_of names.now)) }
    ensures wants { result ≡ Err PackFault.NoMemory → IsRefused (M.refuses memory.now) (length (files_of names.now))
        ⊎ ((list : List each.Stretch) × T.stands stretches.now list
        × IsRefused (M.refuses memory.now) (index_room list (files_of names.now) (texts_of names.now))) }
{
    if build_id.len() > 32 {
        return Err(PackFault::BuildId);
    }
    let totals = totals_of(memory, stretches, names)?;
    let texts = texts_named(memory, &totals.files.files, names)?;
    match made(memory, stretches, names, &totals, &texts, all, build_id) {
        Ok(bytes) => Ok(bytes),
        Err(NoMemory) => Err(PackFault::NoMemory),
    }
}
