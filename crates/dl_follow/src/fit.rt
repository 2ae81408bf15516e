//! Whether a file is the one that is looked for.
ghost use Rattle.std.specs.Prelude.{◌≡◌, MatchBool, Some};
ghost use Rattle.dl_crc.specs.Crc32.{crc_32};
ghost use Rattle.dl_elf.specs.Source.{ForBytes};
ghost use Rattle.dl_open.specs.BuildIds.{IsBuildId};
ghost use Rattle.dl_follow.specs.Fits.{Fits, Misses, fit_seen, MissesBuild, MissesCrc};

use dl_elf::ReadAt;
use dl_link::crc_of;
use dl_open::build_id_of;

/// By what a file is known to be the one that is looked for.
#[derive(Clone, Copy)]
pub enum Fit<'a> {
    /// Its build ID.
    Build(&'a [u8]),
    /// CRC-32 of its bytes.
    Checked(u64),
}

/// Whether a file is the one that is looked for; one that can't be read isn't.
pub(crate) fn fits<S: ReadAt>(file: &S, fit: Fit<'_>) -> bool
    ensures { ForBytes (S.all_bytes file.now) (λ f. MatchBool result (Fits (fit_seen fit.entry) f)
        (Misses (S.fails_with file.now) (fit_seen fit.entry) f)) }
{
    match fit {
        Fit::Build(id) => is_build(file, id),
        Fit::Checked(crc) => has_crc(file, crc),
    }
}

/// Whether a file has this build ID.
fn is_build<S: ReadAt>(file: &S, id: &[u8]) -> bool
    ensures { ForBytes (S.all_bytes file.now) (λ f. MatchBool result (IsBuildId f (Some id.now))
        (MissesBuild (S.fails_with file.now) id.now f)) }
{
    match build_id_of(file) {
        Ok(Some(own)) => own.as_bytes() == id,
        Ok(None) => false,
        Err(_) => false,
    }
}

/// Whether CRC-32 of a file is this number.
fn has_crc<S: ReadAt>(file: &S, crc: u64) -> bool
    ensures { ForBytes (S.all_bytes file.now) (λ f. MatchBool result (crc_32 f ≡ crc)
        (MissesCrc (S.fails_with file.now) crc f)) }
{
    match crc_of(file) {
        Ok(own) => u64::from(own) == crc,
        Err(_) => false,
    }
}
