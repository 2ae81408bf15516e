//! What the rules say of an operation, by itself and by what is kept of those before it. Sections 6.2.5.1 to 6.2.5.3.

ghost use Rattle.std.specs.Prelude.{◌≡◌, nat_lt};
ghost use Rattle.dl_field.specs.Usable.{IsUsable};
ghost use Rattle.dl_operation_rules.specs.Judging.{is_advance, is_named, is_unknown, wraps};
ghost use Rattle.dl_operation_rules.specs.Keeping.{Knows};
ghost use Rattle.dl_operation_rules.specs.Operations.{UnitSeen};

use crate::advance::{Moved, address_end};
use crate::operations::Operations;
use dl_findings::Opcode;
use dl_head::Params;
use dl_rows::Operation;

/// The most bytes that assemblers pad a number in LEB128 to.
const USUAL_BYTES: u64 = 10;

/// `long-number`: whether a number has more bytes than assemblers pad it to.
pub fn is_long(bytes: u64) -> bool
    ensures { result ≡ nat_lt 10 bytes }
{
    USUAL_BYTES < bytes
}

/// `wrapped-address`: whether an operation, which leads the registers there, advances the address past its size.
#[inline(always)]
pub fn wraps(params: &Params, operation: Operation, moved: Moved) -> bool
    requires { IsUsable params.now }
    ensures { result ≡ wraps params.now moved operation }
{
    moved.address >= address_end(params) && is_advance(operation)
}

/// Whether an operation advances the address.
#[inline]
fn is_advance(operation: Operation) -> bool
    ensures { result ≡ is_advance operation }
{
    matches!(
        operation,
        Operation::Special(_)
            | Operation::AdvancePc(_)
            | Operation::ConstAddPc
            | Operation::FixedAdvancePc(_)
    )
}

/// `unknown-opcode`: whether the standard doesn't name an opcode, and it wasn't passed over before.
pub fn is_unknown(params: &Params, operations: &Operations, opcode: Opcode) -> bool
    ensures { (s : UnitSeen) → Knows operations.now s → result ≡ is_unknown params.now s.opcodes opcode }
{
    !is_named(params.version, opcode) && !operations.has_passed(opcode)
}

/// Whether an opcode that is passed over is DW_LNE_define_file, which the standard names before version 5.
fn is_named(version: u16, opcode: Opcode) -> bool
    ensures { result ≡ is_named version opcode }
{
    match opcode {
        Opcode::Standard(_) => false,
        Opcode::Extended(number) => number == 3 && version < 5,
    }
}
