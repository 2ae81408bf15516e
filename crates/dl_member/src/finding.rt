//! The member of a name.
ghost use Rattle.std.specs.Prelude.{◌≡◌, IfOk, IfErr};
ghost use Rattle.std.specs.Prelude.{bytes_eq};
ghost use Rattle.dl_elf.specs.Source.{ForBytes};
ghost use Rattle.dl_archive.specs.Archive.{name_of};
ghost use Rattle.dl_archive.specs.Told.{seen};
ghost use Rattle.dl_member.specs.Finding.{FailsAsRead, IsFound};

use crate::fault::MemberFault;
use dl_archive::{Member, Members, NAME_LIMIT};
use dl_elf::ReadAt;
use std::io;

/// Whether a member has this name.
fn has_name<S: ReadAt>(archive: &S, member: &Member, name: &str) -> io::Result<bool>
    ensures same { ForBytes (S.all_bytes archive.now) (λ f. IfOk result (λ same. same ≡ bytes_eq (name_of f (seen member.now)) name.now)) }
    ensures fails { IfErr result (S.fails_with archive.now) }
{
    let mut buffer = [0; NAME_LIMIT];
    let len = member.read_name(archive, &mut buffer)?;
    Ok(&buffer[..len] == name.as_bytes())
}

/// The first member of this name of an archive.
///
/// `NotArchive` where the file is none, `NoMember` where no member has the name, and `Archive` where the archive is damaged before
/// one has it, or a read fails.
pub fn find_member<S: ReadAt>(archive: &S, name: &str) -> Result<Member, MemberFault>
    ensures found { ForBytes (S.all_bytes archive.now) (λ f. IsFound f name.now result) }
    ensures fails { IfErr result (FailsAsRead (S.fails_with archive.now)) }
{
    let Some(mut members) = Members::of(archive)? else {
        return Err(MemberFault::NotArchive);
    };
    loop {
        let Some(member) = members.next_member()? else {
            return Err(MemberFault::NoMember);
        };
        if has_name(archive, &member, name)? {
            return Ok(member);
        }
    }
}
