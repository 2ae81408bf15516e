//! The call that tells the text of a fault.

ghost use Rattle.std.specs.Prelude.{◌≡◌, ◌++◌, ℕ, List, decimal};
ghost use Rattle.dl_buffers.specs.UnitCalls.{length_told, written_over};
ghost use Rattle.dl_index.specs.FaultText.{part_text};
ghost use Rattle.dl_index_buffers.specs.IndexFaultCalls.{index_fault_text, told_text};

use crate::record::IndexFaultRecord;
use dl_buffers::room::add;
use dl_index::{IndexFault, IndexPart};

/// Writes the text of a fault, as `IndexFault` has it, as far as there is room, and answers how many bytes it has.
///
/// What a text leaves of the room stays as it was. Numbers that stand for no fault have no text.
pub fn fault_text(fault: &IndexFaultRecord, text: &mut [u8]) -> usize
    ensures written { text.new ≡ written_over text.old (told_text fault.now) }
    ensures len { result ≡ length_told (told_text fault.now) }
{
    match fault.told() {
        Some(fault) => add_fault(text, fault),
        None => 0,
    }
}

/// Writes the text of a fault, as far as there is room.
fn add_fault(room: &mut [u8], fault: IndexFault) -> usize
    ensures written { room.new ≡ written_over room.old (index_fault_text fault) }
    ensures len { result ≡ length_told (index_fault_text fault) }
{
    match fault {
        IndexFault::NotAnIndex => add(room, 0, b"not an index"),
        IndexFault::Version(version) => {
            let at = add(room, 0, b"an index of version ");
            add_decimal(room, at, version)
        }
        IndexFault::Damaged(part) => {
            let at = add(room, 0, b"damaged index: ");
            add(room, at, part_words(part))
        }
    }
}

/// The words for a part that is damaged.
fn part_words(part: IndexPart) -> &'static [u8]
    ensures { result.now ≡ part_text part }
{
    match part {
        IndexPart::Length => b"length",
        IndexPart::Place => b"place of a part",
        IndexPart::Sum => b"sum",
        IndexPart::Order => b"order of starts",
        IndexPart::File => b"number of a file",
        IndexPart::Text => b"place in the texts",
    }
}

/// Writes a number in decimal after the bytes that were written, of which there are `at`, as far as there is room.
fn add_decimal(room: &mut [u8], at: usize, number: u32) -> usize
    ensures written { (first text : List ℕ) → room.old ≡ written_over first text → at ≡ length_told text
        → room.new ≡ written_over first (text ++ decimal number) }
    ensures len { (text : List ℕ) → at ≡ length_told text → result ≡ length_told (text ++ decimal number) }
{
    if number < 10 {
        return add(room, at, &[b'0' + number as u8]);
    }
    let at = add_decimal(room, at, number / 10);
    add(room, at, &[b'0' + (number % 10) as u8])
}
