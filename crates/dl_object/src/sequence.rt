//! The sequence at the front of the bytes of a program. Sections 6.2.5 and 6.2.5.3.

ghost use Rattle.std.specs.Prelude.{◌≡◌, length};
ghost use Rattle.dl_field.specs.Usable.{IsUsable};
ghost use Rattle.dl_rows.specs.Matrix.{is_end, is_address};
ghost use Rattle.dl_object.specs.Fronts.{FrontIs, IsWithin, with_address};

use dl_head::Params;
use dl_num::Order;
use dl_rows::{Operation, operation_at_front};

/// What stands at the front of the bytes of a program.
#[derive(Clone, Copy)]
pub enum Front {
    /// A whole sequence.
    Sequence(Sequence),
    /// Operations that end no sequence, and no more.
    Open,
    /// Operations that end no sequence, and then one that is bad or isn't whole.
    Damaged,
}

/// A whole sequence.
#[derive(Clone, Copy)]
pub struct Sequence {
    /// How many bytes it has.
    pub len: usize,
    /// Where in it the operand of its first DW_LNE_set_address stands.
    pub address: Option<usize>,
}

/// What the bytes of a program begin with.
pub fn sequence_at_front(order: Order, params: &Params, bytes: &[u8]) -> Front
    requires { IsUsable params.now }
    ensures within { IsWithin (length bytes.now) result }
    ensures front { FrontIs order params.now bytes.now result }
{
    let mut rest = bytes;
    let mut address = None;
    while let Some((operation, tail)) = operation_at_front(order, params, rest) {
        if ends_sequence(operation) {
            let len = bytes.len() - tail.len();
            return Front::Sequence(Sequence { len, address });
        }
        let before_operand = (rest.len() - tail.len()).saturating_sub(usize::from(
            params.address_size,
        ));
        let place = bytes.len() - rest.len() + before_operand;
        address = address_with(address, operation, place);
        rest = tail;
    }
    if rest.is_empty() {
        Front::Open
    } else {
        Front::Damaged
    }
}

fn ends_sequence(operation: Operation) -> bool
    ensures { result ≡ is_end operation }
{
    matches!(operation, Operation::EndSequence)
}

fn sets_address(operation: Operation) -> bool
    ensures { result ≡ is_address operation }
{
    matches!(operation, Operation::SetAddress(_))
}

/// The place of the first address, where an operation follows whose operand would stand at `place`.
fn address_with(address: Option<usize>, operation: Operation, place: usize) -> Option<usize>
    ensures { result ≡ with_address address operation place }
{
    match address {
        Some(first) => Some(first),
        None if sets_address(operation) => Some(place),
        None => None,
    }
}
