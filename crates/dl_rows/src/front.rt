//! The operation at the front of bytes. Section 6.2.5.

ghost use Rattle.std.specs.Prelude.{◌≡◌, ◌<◌, ◌++◌, List, ℕ, length, IfSome, IfNone, Ok};
ghost use Rattle.dl_num.specs.Front.{SpellsFirst, SpellsNowhere};
ghost use Rattle.dl_field.specs.Usable.{IsUsable};
ghost use Rattle.dl_rows.specs.OperationSpelt.{operation_spelt, good_one};

use crate::operation::Operation;
use crate::operation_state::{OperationState, OperationStep, short_operation};
use dl_head::Params;
use dl_num::Order;

/// The operation that the bytes begin with and the bytes after it; None where they begin with none that is whole
/// and good.
pub fn operation_at_front<'a>(
    order: Order,
    params: &Params,
    bytes: &'a [u8],
) -> Option<(Operation, &'a [u8])>
    requires { IsUsable params.now }
    ensures left { IfSome result (λ found. length found.1.now < length bytes.entry.now) }
    ensures some { IfSome result (λ found. (front : List ℕ) × (bytes.entry.now ≡ front ++ found.1.now)
        × SpellsFirst (operation_spelt order params.now) front (Ok found.0)) }
    ensures none { IfNone result
        (SpellsNowhere (λ w. good_one (operation_spelt order params.now w)) bytes.entry.now) }
{
    if let Some(found) = short_operation(order, params, bytes) {
        return Some(found);
    }
    match OperationState::Start.push(order, params, bytes) {
        OperationStep::Ends(operation, tail) => Some((operation, tail)),
        OperationStep::Within(_) | OperationStep::Refuses(..) => None,
    }
}
