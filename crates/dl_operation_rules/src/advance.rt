//! Where operations lead the registers address and op_index. Sections 6.2.2 and 6.2.5.1.

ghost use Rattle.std.specs.Prelude.{◌≡◌, ◌≤◌, ◌*◌, ◌^◌};
ghost use Rattle.dl_field.specs.Usable.{IsUsable};
ghost use Rattle.dl_rows.specs.Matrix.{advance};
ghost use Rattle.dl_rows.specs.declared.operation.Operation.TheVariants as op;
ghost use Rattle.dl_operation_rules.specs.Operations.{advanced, moved_by, place_after, reduced};

use dl_head::Params;
use dl_look::Place;
use dl_rows::Operation;

/// The registers address and op_index after an operation, the address not yet reduced to the size of one.
#[derive(Clone, Copy)]
pub struct Moved {
    pub(crate) address: u128,
    op_index: u8,
}

impl Moved {
    /// The place that they are, with the address reduced.
    fn place(self, params: &Params) -> Place
        requires { IsUsable params.now }
        ensures { result ≡ reduced params.now self }
    {
        let end = address_end(params);
        let address = if self.address < end {
            self.address
        } else {
            self.address % end
        };
        Place {
            address: address as u64,
            op_index: self.op_index,
        }
    }
}

/// The first address that an address of this size doesn't hold.
#[inline(always)]
pub fn address_end(params: &Params) -> u128
    requires { IsUsable params.now }
    ensures value { result ≡ 2 ^ (8 * params.now.address_size) }
    ensures most { result ≤ 2 ^ 64 }
    ensures some { 1 ≤ result }
{
    match params.address_size {
        1 => 0x100,
        2 => 0x1_0000,
        4 => 0x1_0000_0000,
        _ => 0x1_0000_0000_0000_0000,
    }
}

/// What an operation makes of the registers.
#[inline(always)]
pub fn moved_by(params: &Params, at: Place, operation: Operation) -> Moved
    requires { IsUsable params.now }
    ensures { result ≡ moved_by params.now at operation }
{
    match operation {
        Operation::Special(opcode) => advanced(params, at, special_advance(params, opcode)),
        Operation::AdvancePc(by) => advanced(params, at, by),
        Operation::ConstAddPc => advanced(params, at, special_advance(params, 255)),
        Operation::FixedAdvancePc(by) => Moved {
            address: u128::from(at.address) + u128::from(by),
            op_index: 0,
        },
        Operation::SetAddress(address) => Moved {
            address: u128::from(address),
            op_index: 0,
        },
        Operation::EndSequence => Moved {
            address: 0,
            op_index: 0,
        },
        _ => Moved {
            address: u128::from(at.address),
            op_index: at.op_index,
        },
    }
}

/// The registers address and op_index after an operation that leads them there from a place.
pub fn place_after(params: &Params, at: Place, operation: Operation, moved: Moved) -> Place
    requires { IsUsable params.now }
    ensures { moved ≡ moved_by params.now at operation → result ≡ place_after params.now at operation }
{
    match operation {
        Operation::Special(_)
        | Operation::AdvancePc(_)
        | Operation::ConstAddPc
        | Operation::FixedAdvancePc(_)
        | Operation::SetAddress(_)
        | Operation::EndSequence => moved.place(params),
        _ => at,
    }
}

/// The operation advance of a special opcode. Section 6.2.5.1.
#[inline(always)]
fn special_advance(params: &Params, opcode: u8) -> u64
    requires { IsUsable params.now }
    ensures { result ≡ advance params.now (op.Special opcode) }
{
    u64::from(opcode.saturating_sub(params.opcode_base) / params.line_range)
}

/// The registers after an operation advance. Section 6.2.5.1.
#[inline(always)]
fn advanced(params: &Params, at: Place, by: u64) -> Moved
    requires { IsUsable params.now }
    ensures { result ≡ advanced params.now at by }
{
    if params.maximum_operations_per_instruction == 1 {
        return advanced_by_one(params, at, by);
    }
    let maximum = u64::from(params.maximum_operations_per_instruction);
    let operations = u64::from(at.op_index) + by % maximum;
    let instructions = u128::from(by / maximum) + u128::from(operations / maximum);
    Moved {
        address: u128::from(at.address)
            + length_of(params.minimum_instruction_length, instructions),
        op_index: (operations % maximum) as u8,
    }
}

/// The registers after an operation advance where each instruction has one operation.
#[inline(always)]
fn advanced_by_one(params: &Params, at: Place, by: u64) -> Moved
    requires { params.now.maximum_operations_per_instruction ≡ 1 }
    ensures { result ≡ advanced params.now at by }
{
    let instructions = u128::from(by) + u128::from(at.op_index);
    Moved {
        address: u128::from(at.address)
            + length_of(params.minimum_instruction_length, instructions),
        op_index: 0,
    }
}

/// How long so many instructions of this length are.
#[inline(always)]
fn length_of(length: u8, instructions: u128) -> u128
    requires { instructions ≤ 2 ^ 65 }
    ensures value { result ≡ length * instructions }
    ensures most { result ≤ 2 ^ 73 }
{
    u128::from(length) * instructions
}
