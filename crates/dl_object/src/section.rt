//! The units of a section. Section 6.2.4.

ghost use Rattle.dl_memory.specs.Refusals.{IsRefused};
ghost use Rattle.std.specs.Prelude.{ℕ, List, ◌≡◌, ◌⊎◌, IfOk, IfErr, length, ◌<◌, ◌≤◌, ◌+◌, ◌^◌};
ghost use Rattle.dl_object.specs.Section.{Keeps, WantsCell};
ghost use Rattle.dl_object.specs.Kept.{Rises};
ghost use Rattle.dl_object.specs.Fronts.{unit_kept};

use crate::head::{UnitHead, head_at_front};
use crate::places::{are_rising, sorted};
use crate::program::{Wanted, keep_sequences};
use dl_head::Dialect;
use dl_memory::{Memory, NoMemory};
use dl_num::Order;
use dl_reloc::Placed;
use std::alloc::Global;

/// Makes of each whole sequence of a section of units that isn't of the wanted section of the object file an operation
/// that is passed over, of as many bytes.
///
/// `places` are those that the relocations of the section changed, in the order of the relocations: of several at one
/// place the first counts. A sequence that sets no address, or whose first one no relocation changed, is of no section.
/// Of a damaged unit the operations from the first damaged one on stay as they are.
/// Memory is taken for a header at a time, and for a copy of the places where these aren't in rising order. Where that
/// is refused, some of the sequences are replaced, and nothing else stops it.
pub fn keep_section<M: Memory>(
    memory: &M,
    dialect: Dialect,
    bytes: &mut [u8],
    places: &[Placed],
    section: u64,
) -> Result<(), NoMemory>
    ensures kept { IfOk result (λ done. Keeps dialect places.now section 0 bytes.old bytes.new) }
    ensures memory { IfErr result (λ error.
        ((Rises places.now → ⊥) × IsRefused (M.refuses memory.now) (length places.now)) ⊎ WantsCell dialect bytes.old) }
{
    if are_rising(places) {
        let wanted = Wanted { places, section };
        return keep_units(memory.alloc(), dialect, bytes, &wanted);
    }
    let sorted = sorted(memory, places)?;
    let wanted = Wanted {
        places: sorted.as_slice(),
        section,
    };
    keep_units(memory.alloc(), dialect, bytes, &wanted)
}

/// The same, of places in rising order.
fn keep_units(
    alloc: Global,
    dialect: Dialect,
    bytes: &mut [u8],
    wanted: &Wanted<'_>,
) -> Result<(), NoMemory>
    requires { Rises wanted.now.places.now }
    ensures kept { IfOk result
        (λ done. Keeps dialect wanted.now.places.now wanted.now.section 0 bytes.old bytes.new) }
    ensures memory { IfErr result (λ error. WantsCell dialect bytes.old) }
{
    let mut at = 0;
    loop {
        let Some(head) = head_at_front(alloc, dialect, &bytes[at..])? else {
            return Ok(());
        };
        let end = at + head.unit_len;
        keep_unit(dialect.order, head, &mut bytes[at..end], at, wanted);
        at = end;
    }
}

/// The same in a unit, which begins at this offset of the section.
fn keep_unit(order: Order, head: UnitHead, unit: &mut [u8], offset: usize, wanted: &Wanted<'_>)
    requires rises { Rises wanted.now.places.now }
    requires within { head.len ≤ length unit.old }
    requires fits { offset + length unit.old < 2 ^ 64 }
    ensures { unit.new ≡ unit_kept order wanted.now.places.now wanted.now.section offset head.header
        head.len unit.old }
{
    if let Some(header) = &head.header {
        let program = &mut unit[head.len..];
        keep_sequences(order, header.params(), program, offset + head.len, wanted);
    }
}
