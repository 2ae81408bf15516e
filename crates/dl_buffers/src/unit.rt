//! One unit at the front of bytes. Section 6.2.4.

ghost use Rattle.std.specs.Prelude.{◌≡◌, ◌<◌, ◌^◌, drop, length, option_map};
ghost use Rattle.dl_buffers.specs.UnitReading.{ReadsUnit};

use dl_head::Dialect;
use dl_rows::{Flow, Row};
use dl_sections::{SectionRead, SectionStop, UnitSink, WholeUnit, read_section};
use std::alloc::Global;

/// Keeps the first unit, and wants no other.
#[derive(Drop)]
struct FirstUnit {
    unit: Option<WholeUnit>,
}

impl UnitSink for FirstUnit {
    ghost use Rattle.dl_buffers.specs.UnitReading.{first_story};

    ghost story = { first_story };

    #[inline(always)]
    fn row(&mut self, _row: &Row) {}

    fn end(&mut self, unit: WholeUnit) -> Flow {
        self.unit = Some(unit);
        Flow::Stop
    }
}

/// A unit that bytes begin with.
#[derive(Drop)]
pub struct UnitAtFront {
    pub unit: WholeUnit,
    /// What was read of the bytes: this unit.
    pub read: SectionRead,
}

/// Reads the unit that the bytes begin with: none where there are no bytes.
pub fn unit_at_front(
    alloc: Global,
    dialect: Dialect,
    bytes: &[u8],
) -> Result<Option<UnitAtFront>, SectionStop>
    ensures { ReadsUnit dialect bytes.now result }
{
    let mut first = FirstUnit { unit: None };
    let read = read_section(alloc, dialect, bytes, &mut first)?;
    Ok(at_front(first.unit, read))
}

/// The unit, where there is one, with what was read.
fn at_front(unit: Option<WholeUnit>, read: SectionRead) -> Option<UnitAtFront>
    ensures { result ≡ option_map (λ u. record { unit = u; read = read }) unit }
{
    let unit = unit?;
    Some(UnitAtFront { unit, read })
}

/// The bytes of a section from an offset on; none where it has fewer.
pub fn rest_from(section: &[u8], offset: u64) -> &[u8]
    ensures bytes { result.now ≡ drop offset section.now }
    ensures small { length section.now < 2 ^ 64 }
{
    let at = section.len().min(offset as usize);
    &section[at..]
}
