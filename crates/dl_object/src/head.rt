//! The header of the unit at the front of bytes. Section 6.2.4.

ghost use Rattle.std.specs.Prelude.{◌≡◌, ℕ, List, MatchOption, IfOk, IfErr, length};
ghost use Rattle.dl_object.specs.Section.{RefusesCell, NoneFollows};
ghost use Rattle.dl_object.specs.Fronts.{HeadIs, HeadWithin};

use dl_head::{Dialect, HeadReader, HeadStep, Header};
use dl_memory::NoMemory;
use std::alloc::Global;

/// The first bytes of a unit, up to the end of its header, or of its version where units of that aren't read, or to
/// where its header is damaged.
#[derive(Drop)]
pub struct UnitHead {
    /// None of a unit that isn't read.
    pub header: Option<Header>,
    /// How many bytes they are.
    pub len: usize,
    /// How many bytes the unit has, or those that are there.
    pub unit_len: usize,
}

/// The head of the unit that the bytes begin with; None where they begin with none whose length is known.
pub fn head_at_front(
    alloc: Global,
    dialect: Dialect,
    bytes: &[u8],
) -> Result<Option<UnitHead>, NoMemory>
    ensures within { IfOk result (λ found. HeadWithin (length bytes.now) found) }
    ensures head { IfOk result (λ found. MatchOption found (NoneFollows dialect bytes.now)
        (HeadIs dialect bytes.now)) }
    ensures memory { IfErr result (λ error. RefusesCell dialect bytes.now) }
{
    let mut reader = HeadReader::new(alloc, dialect);
    let (len, step) = reader.offer(bytes);
    match step {
        HeadStep::More => return Ok(None),
        HeadStep::NoMemory => return Err(NoMemory),
        HeadStep::Done | HeadStep::Foreign(_) | HeadStep::Fault(_) => {}
    }
    let Some(unit_len) = reader.unit_len() else {
        return Ok(None);
    };
    let unit_len = unit_len.min(bytes.len() as u64) as usize;
    let header = reader.into_header();
    Ok(Some(UnitHead {
        header,
        len,
        unit_len,
    }))
}
