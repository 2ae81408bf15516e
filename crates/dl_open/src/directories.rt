//! The directories in which the units of a file were compiled, as its `.debug_info` says them. DWARF 5, section 3.1.1.
ghost use Rattle.std.specs.Prelude.{◌≡◌, ◌+◌, ℕ, List, Option, IfErr, IfOk, IsTrue, MatchResult, length};
ghost use Rattle.std.specs.Option.{option_map};
ghost use Rattle.dl_elf.specs.Source.{ForBytes};
ghost use Rattle.dl_dirs.specs.Directories.{directory_at};
ghost use Rattle.dl_dirs.specs.Holding.{AreOf};
ghost use Rattle.dl_dirs.specs.Texts.{texts_of};
ghost use Rattle.dl_num.specs.declared.fixed.Order.{Order};
ghost use Rattle.dl_file.specs.InfoTable.{GivesInfo, InfoTable};
ghost use Rattle.dl_file.specs.LineTable.{Content, Gives, GivesLine, GivesOption};
ghost use Rattle.dl_open.specs.Directories.{AreDirectories, RefusesDirectories, info_size, said_in, section_size, texts_size};
ghost use Rattle.dl_open.specs.Tables.{bytes_of};
ghost use Rattle.dl_open.specs.Pieces.{IsUnread};
ghost use Rattle.dl_open.specs.Walked.{AreFound, AreHad, ArePlaces, IsHadWhere, IsWalked};

use crate::section::{PIECE, Piece, Unread, next_piece, whole};
use dl_dirs::{Directories, Places, Texts, Walk};
use dl_elf::{ElfFault, ReadAt};
use dl_file::{ContentReader, InfoFile, LineReader, open_info};
use dl_memory::{Memory, NoMemory};
use dl_num::Order;
use dl_sections::SECTION_LIMIT;

/// All bytes of a section that the file may lack; None of one that isn't wanted, which isn't read.
fn whole_where<M: Memory, S: ReadAt>(
    memory: &M,
    wanted: bool,
    section: Option<ContentReader<'_, S>>,
) -> Result<Option<Vec<u8>>, Unread>
    ensures { (source : _) (content : Option Content)
        → GivesOption S.all_bytes S.fails_with (S.fails_with source) section.entry content → MatchResult result
        (λ held. IsHadWhere (IsTrue wanted) content (option_map (λ v. v.items) held))
        (IsUnread (M.refuses memory.now) (section_size content) (S.fails_with source)) }
{
    if !wanted {
        return Ok(None);
    }
    match section {
        Some(section) => whole(memory, &mut LineReader::File(section)),
        None => Ok(None),
    }
}

/// A walk over the units of `.debug_info`; None where its bytes can't be had.
fn walk_over<'a, M: Memory, S: ReadAt>(
    memory: &M,
    order: Order,
    abbreviations: &'a [u8],
    info: &mut LineReader<'_, S>,
) -> Result<Option<Walk<'a>>, Unread>
    ensures walked { (source : _) (content : Content) → GivesLine S.all_bytes S.fails_with (S.fails_with source) info.old content
        → IfOk result (IsWalked order abbreviations.entry.now content) }
    ensures fails { (source : _) (content : Content) → GivesLine S.all_bytes S.fails_with (S.fails_with source) info.old content
        → IfErr result (IsUnread (M.refuses memory.now) (length (bytes_of content)) (S.fails_with source)) }
{
    let mut left = SECTION_LIMIT;
    let mut buffer = [0; PIECE];
    let mut walk = Walk::new(memory.alloc(), order, abbreviations);
    loop {
        match next_piece(info, &mut left, &mut buffer)? {
            Piece::Bytes(piece) => {
                walk = match walk.feed(memory, piece) {
                    Ok(walk) => walk,
                    Err(NoMemory) => return Err(Unread::NoMemory),
                };
            }
            Piece::End => return Ok(Some(walk)),
            Piece::Lost => return Ok(None),
        }
    }
}

/// The places of the directories that the units of `.debug_info` say; None where its bytes can't be had.
fn walk_through<M: Memory, S: ReadAt>(
    memory: &M,
    order: Order,
    abbreviations: &[u8],
    info: &mut LineReader<'_, S>,
) -> Result<Option<Places>, Unread>
    ensures places { (source : _) (content : Content) → GivesLine S.all_bytes S.fails_with (S.fails_with source) info.old content
        → IfOk result (ArePlaces order abbreviations.now content) }
    ensures fails { (source : _) (content : Content) → GivesLine S.all_bytes S.fails_with (S.fails_with source) info.old content
        → IfErr result (IsUnread (M.refuses memory.now) (length (bytes_of content)) (S.fails_with source)) }
{
    let Some(walk) = walk_over(memory, order, abbreviations, info)? else {
        return Ok(None);
    };
    match walk.end(memory) {
        Ok(places) => Ok(Some(places)),
        Err(NoMemory) => Err(Unread::NoMemory),
    }
}

/// The same by `.debug_abbrev`; None where the bytes of one of both can't be had.
fn places_of<M: Memory, S: ReadAt>(
    memory: &M,
    order: Order,
    abbreviations: ContentReader<'_, S>,
    info: &mut LineReader<'_, S>,
) -> Result<Option<Places>, Unread>
    ensures { (source : _) (a i : Content) → Gives S.all_bytes S.fails_with (S.fails_with source) abbreviations.entry a
        → GivesLine S.all_bytes S.fails_with (S.fails_with source) info.old i
        → MatchResult result (AreFound order a i)
        (IsUnread (M.refuses memory.now) (length (bytes_of a) + length (bytes_of i)) (S.fails_with source)) }
{
    match whole(memory, &mut LineReader::File(abbreviations))? {
        Some(abbreviations) => walk_through(memory, order, &abbreviations, info),
        None => Ok(None),
    }
}

/// The bytes of the sections of a file in which the texts of directories with these places stand; None of one in which none
/// stands, that the file lacks, or that can't be had.
fn texts_for<M: Memory, S: ReadAt>(
    memory: &M,
    places: &Places,
    str_offsets: Option<ContentReader<'_, S>>,
    debug_str: Option<ContentReader<'_, S>>,
    debug_line_str: Option<ContentReader<'_, S>>,
) -> Result<Texts, Unread>
    ensures { (source : _) (t : InfoTable)
        → GivesOption S.all_bytes S.fails_with (S.fails_with source) str_offsets.entry t.str_offsets
        → GivesOption S.all_bytes S.fails_with (S.fails_with source) debug_str.entry t.str
        → GivesOption S.all_bytes S.fails_with (S.fails_with source) debug_line_str.entry t.line_str
        → MatchResult result (λ texts. (order : Order) (abbreviations b : List ℕ)
        → AreOf places.now order abbreviations b → AreHad order abbreviations b t (texts_of texts))
        (IsUnread (M.refuses memory.now) (texts_size t) (S.fails_with source)) }
{
    Ok(Texts {
        str_offsets: whole_where(memory, places.wants_str_offsets(), str_offsets)?,
        debug_str: whole_where(memory, places.wants_str(), debug_str)?,
        debug_line_str: whole_where(memory, places.wants_line_str(), debug_line_str)?,
    })
}

/// The directories that the units of a file say; none, where its `.debug_info` or `.debug_abbrev` can't be had.
fn read_directories<M: Memory, S: ReadAt>(
    memory: &M,
    file: InfoFile<'_, S>,
) -> Result<Directories, Unread>
    ensures { (source : _) (t : InfoTable) → GivesInfo S.all_bytes S.fails_with (S.fails_with source) file.entry t
        → MatchResult result (λ d. (n : ℕ) → directory_at d n ≡ said_in t n)
        (IsUnread (M.refuses memory.now) (info_size t) (S.fails_with source)) }
{
    let InfoFile {
        order,
        info,
        abbreviations,
        str_offsets,
        debug_str,
        debug_line_str,
    } = file;
    let mut info = info;
    let Some(places) = places_of(memory, order, abbreviations, &mut info)? else {
        return Ok(Directories::none(memory.alloc()));
    };
    let texts = texts_for(memory, &places, str_offsets, debug_str, debug_line_str)?;
    Ok(places.directories(texts))
}

/// The directories that `.debug_info` of an open file says, by the offsets of line tables: none where the file has no such
/// section, or it is damaged, which is no fault.
///
/// `Read` where a read failed, `NoMemory` where a growth was refused.
pub fn directories_of<M: Memory, S: ReadAt>(memory: &M, file: &S) -> Result<Directories, ElfFault>
    ensures { ForBytes (S.all_bytes file.now) (λ f. MatchResult result
        (λ d. AreDirectories f (directory_at d)) (RefusesDirectories (M.refuses memory.now) (S.fails_with file.now) f)) }
{
    let Some(info) = open_info(memory, file)? else {
        return Ok(Directories::none(memory.alloc()));
    };
    match read_directories(memory, info) {
        Ok(directories) => Ok(directories),
        Err(Unread::Read(error)) => Err(ElfFault::Read(error)),
        Err(Unread::NoMemory) => Err(ElfFault::NoMemory),
    }
}
