//! The sequences of a program. Sections 6.2.5 and 6.2.5.3.

ghost use Rattle.std.specs.Prelude.{◌≡◌, ◌+◌, ◌<◌, ◌^◌, length, IfSome};
ghost use Rattle.dl_field.specs.Usable.{IsUsable};
ghost use Rattle.dl_object.specs.Kept.{Rises, program_kept, section_at_any, is_same};
ghost use Rattle.dl_object.specs.Fronts.{place_from};

use crate::pass_over::pass_over;
use crate::places::section_at_place;
use crate::sequence::{Front, sequence_at_front};
use dl_head::Params;
use dl_num::Order;
use dl_reloc::Placed;

/// What is wanted of a section of units.
#[derive(Clone, Copy)]
pub struct Wanted<'a> {
    /// The places that relocations change, in rising order.
    pub places: &'a [Placed],
    /// The section whose sequences are wanted.
    pub section: u64,
}

/// Makes operations that are passed over of the whole sequences of a program, which begins at this offset of its
/// section, that aren't of the wanted section. From the first damaged operation on all stays.
pub fn keep_sequences(
    order: Order,
    params: &Params,
    program: &mut [u8],
    offset: usize,
    wanted: &Wanted<'_>,
)
    requires usable { IsUsable params.now }
    requires rises { Rises wanted.now.places.now }
    requires fits { offset + length program.old < 2 ^ 64 }
    ensures { program.new
        ≡ program_kept order params.now wanted.now.places.now wanted.now.section offset program.old }
{
    let mut at = 0;
    loop {
        match sequence_at_front(order, params, &program[at..]) {
            Front::Sequence(sequence) => {
                let end = at + sequence.len;
                if !is_wanted(wanted, offset + at, sequence.address) {
                    pass_over(&mut program[at..end]);
                }
                at = end;
            }
            Front::Open | Front::Damaged => return,
        }
    }
}

/// Whether a sequence that begins at this offset is of the wanted section; `address` is where in it the operand of
/// its first DW_LNE_set_address stands.
fn is_wanted(wanted: &Wanted<'_>, offset: usize, address: Option<usize>) -> bool
    requires rises { Rises wanted.now.places.now }
    requires fits { IfSome address (λ place. offset + place < 2 ^ 64) }
    ensures { result ≡ is_same wanted.now.section
        (section_at_any wanted.now.places.now (place_from offset address)) }
{
    let Some(address) = address else {
        return false;
    };
    match section_at_place(wanted.places, (offset + address) as u64) {
        Some(section) => section == wanted.section,
        None => false,
    }
}
