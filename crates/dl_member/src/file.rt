//! The file of a member.
ghost use Rattle.std.specs.Prelude.{◌≡◌, None, IfOk, IfErr};
ghost use Rattle.std.specs.declared.io.Error.{Error};
ghost use Rattle.dl_elf.specs.Source.{ForBytes};
ghost use Rattle.dl_archive.specs.Told.{seen};
ghost use Rattle.dl_member.specs.Paths.{beside_path};
ghost use Rattle.dl_member.specs.Files.{CannotOpen, IsOpened, OpensMember, bytes_of_file, fails_of_file, member_bytes, member_fails};

use crate::fault::MemberFault;
use crate::finding::find_member;
use crate::path::beside_path;
use dl_archive::{Member, MemberBytes};
use dl_elf::ReadAt;
use dl_open::FileSource;
use std::io::ErrorKind;
use std::{io, str};

/// The file of a member, open to be read.
#[derive(Drop)]
pub enum MemberFile<'a, S, F> {
    /// It lies in the archive.
    Within(MemberBytes<'a, S>),
    /// It stands beside the archive, which is a thin one.
    Beside(F),
}

impl<S: ReadAt, F: ReadAt> ReadAt for MemberFile<'_, S, F> {
    ghost use Rattle.dl_member.specs.Files.{bytes_of_file, fails_of_file};

    ghost all_bytes = { bytes_of_file S.all_bytes F.all_bytes };

    ghost fails_with = { fails_of_file S.fails_with F.fails_with };

    fn read_at(&self, offset: u64, buffer: &mut [u8]) -> io::Result<usize> {
        match self {
            MemberFile::Within(bytes) => bytes.read_at(offset, buffer),
            MemberFile::Beside(file) => file.read_at(offset, buffer),
        }
    }
}

/// The file of a member of this name, of a thin archive.
fn open_beside<F: FileSource>(files: &F, path: &str, name: &[u8]) -> io::Result<F::File>
    ensures bytes { IfOk result (λ file. F.File.all_bytes file ≡ F.held files.now (beside_path path.now name.now)) }
    ensures reads { IfOk result (λ file. (e : Error) → F.File.fails_with file e → F.fails_with files.now (beside_path path.now name.now) e) }
    ensures fails { IfErr result (CannotOpen (F.fails_with files.now) path.now name.now) }
{
    let Ok(text) = str::from_utf8(name) else {
        return Err(io::Error::from(ErrorKind::InvalidFilename));
    };
    let Ok(beside) = beside_path(path, text) else {
        return Err(io::Error::from(ErrorKind::InvalidFilename));
    };
    files.open(beside.as_str())
}

/// The file of a member of this name, of the archive at a path, open to be read.
pub fn file_of_member<'a, F: FileSource, S: ReadAt>(
    files: &F,
    path: &str,
    archive: &'a S,
    member: &Member,
    name: &[u8],
) -> io::Result<MemberFile<'a, S, F::File>>
    ensures opened { ForBytes (S.all_bytes archive.entry.now) (λ f. IfOk result (IsOpened S.all_bytes F.File.all_bytes (F.held files.now) f
        path.now name.now (seen member.now).place)) }
    ensures reads { IfOk result (λ file. (e : Error) → fails_of_file S.fails_with F.File.fails_with file e
        → member_fails (S.fails_with archive.entry.now) (F.fails_with files.now) path.now name.now (seen member.now).place e) }
    ensures beside { IfErr result (λ e. (seen member.now).place ≡ None) }
    ensures fails { IfErr result (CannotOpen (F.fails_with files.now) path.now name.now) }
{
    match member.bytes(archive) {
        Some(bytes) => Ok(MemberFile::Within(bytes)),
        None => match open_beside(files, path, name) {
            Ok(file) => Ok(MemberFile::Beside(file)),
            Err(error) => Err(error),
        },
    }
}

/// The file of the first member of this name of the archive at a path, open to be read. In a thin archive it is a file beside the
/// archive, whose path has at most 8,194 bytes.
///
/// The faults are those of `find_member`, and `Open` where that file can't be opened.
pub fn open_member<'a, F: FileSource, S: ReadAt>(
    files: &F,
    path: &str,
    archive: &'a S,
    name: &str,
) -> Result<MemberFile<'a, S, F::File>, MemberFault>
    ensures opened { ForBytes (S.all_bytes archive.entry.now) (λ f. OpensMember S.all_bytes S.fails_with F.File.all_bytes F.File.fails_with
        (S.fails_with archive.entry.now) (F.held files.now) (F.fails_with files.now) f path.now name.now result) }
{
    let member = find_member(archive, name)?;
    match file_of_member(files, path, archive, &member, name.as_bytes()) {
        Ok(file) => Ok(file),
        Err(error) => Err(MemberFault::Open(error)),
    }
}
