//! The call that tells a fault's text.

ghost use Rattle.std.specs.Prelude.{◌≡◌, ◌≤◌, length};
ghost use Rattle.dl_buffers.specs.FaultCalls.{told_text};
ghost use Rattle.dl_buffers.specs.UnitCalls.{written_over};

use crate::record::FaultRecord;
use crate::room::fill;
use dl_print::write_damage;

/// Writes the text of a fault, as `RunFault` has it, as far as there is room, and answers how many bytes it has.
///
/// What a text leaves of the room stays as it was. Numbers that stand for no kind of fault have no text.
pub fn fault_text(fault: &FaultRecord, text: &mut [u8]) -> usize
    ensures written { text.new ≡ written_over text.old (told_text fault.now) }
    ensures len { result ≡ length (told_text fault.now) }
    ensures few { result ≤ 128 }
{
    let Some(kind) = fault.told() else {
        return 0;
    };
    let mut line = [0; 128];
    let len = write_damage(&mut line, 0, fault.offset, kind);
    fill(text, &line[..len]);
    len
}
