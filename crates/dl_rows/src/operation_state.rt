//! One operation of a line number program, from bytes that may end inside it. Sections 6.2.5.1 to 6.2.5.3.

ghost use Rattle.std.specs.Prelude.{◌≡◌, ◌<◌, ◌≤◌, ◌+◌, ◌-◌, ◌∷◌, ◌++◌, [], ℕ, List, length, IfSome, IfNone, slice_index};
ghost use Rattle.std.specs.Prelude.{Ok};
ghost use Rattle.dl_num.specs.declared.fixed.Order.{Order};
ghost use Rattle.dl_num.specs.Front.{SpellsFirst};
ghost use Rattle.dl_num.specs.Leb.{IsUleb};
ghost use Rattle.dl_field.specs.declared.params.Params.{Params};
ghost use Rattle.dl_field.specs.Usable.{IsUsable};
ghost use Rattle.dl_rows.specs.declared.operation_state.OperationState.TheVariants as phase;
ghost use Rattle.dl_rows.specs.Left.{Leaves, LeavesFewer, rows_of};
ghost use Rattle.dl_rows.specs.OperationSpelt.{operation_spelt};
ghost use Rattle.dl_rows.specs.Phases.{PhaseStands, StepIs, opcode_of, operation_of, HasNoUnsigned, HasOperand};

use crate::operation::Operation;
use dl_head::{FaultKind, Params};
use dl_num::{
    LebRange, Order, PartialNumber, Skip, Sleb, Uleb, fixed_at_front, short_sleb_at_front,
    short_uleb_at_front,
};

/// A standard opcode with an unsigned operand.
#[derive(Clone, Copy)]
pub enum UnsignedOpcode {
    AdvancePc,
    SetFile,
    SetColumn,
    SetIsa,
}

impl UnsignedOpcode {
    /// The opcode of this number, if it is one of them.
    #[inline(always)]
    fn of(number: u8) -> Option<UnsignedOpcode>
        ensures some { IfSome result (λ opcode. opcode_of opcode ≡ number) }
        ensures none { IfNone result (HasNoUnsigned number) }
    {
        match number {
            2 => Some(UnsignedOpcode::AdvancePc),
            4 => Some(UnsignedOpcode::SetFile),
            5 => Some(UnsignedOpcode::SetColumn),
            12 => Some(UnsignedOpcode::SetIsa),
            _ => None,
        }
    }

    #[inline(always)]
    fn operation(self, operand: u64) -> Operation
        ensures value { result ≡ operation_of self operand }
        ensures rows { rows_of result ≡ 0 }
    {
        match self {
            UnsignedOpcode::AdvancePc => Operation::AdvancePc(operand),
            UnsignedOpcode::SetFile => Operation::SetFile(operand),
            UnsignedOpcode::SetColumn => Operation::SetColumn(operand),
            UnsignedOpcode::SetIsa => Operation::SetIsa(operand),
        }
    }
}

/// Where a reader is in an operation.
#[derive(Clone, Copy)]
pub enum OperationState {
    /// At its first byte.
    Start,
    Unsigned(UnsignedOpcode, Uleb),
    /// The operand of advance_line.
    Line(Sleb),
    /// The operand of fixed_advance_pc.
    FixedAdd(PartialNumber),
    /// How many LEB128 operands are left that nobody reads.
    Skipped(u8),
    /// The length of an extended opcode.
    Length(Uleb),
    /// How many bytes an extended opcode has with its operand; its number comes next.
    Extended(u64),
    /// The operand of set_address.
    Address(PartialNumber),
    /// How many bytes of the opcode are left, and the operand of set_discriminator.
    Discriminator(u64, Uleb),
    /// How many bytes of an extended opcode are left that nobody reads.
    Rest(u64),
}

/// What bytes make of an operation.
#[derive(Clone, Copy)]
pub enum OperationStep<'a> {
    /// All of them are used, and the operation goes on.
    Within(OperationState),
    /// It is complete, and these bytes follow it.
    Ends(Operation, &'a [u8]),
    /// The byte before these decides what is wrong with it.
    Refuses(FaultKind, &'a [u8]),
}

impl OperationState {
    /// Takes bytes up to the end of the operation.
    #[inline(always)]
    pub fn push<'a>(self, order: Order, params: &Params, bytes: &'a [u8]) -> OperationStep<'a>
        requires { IsUsable params.now }
        ensures within { Leaves (length bytes.entry.now) result }
        ensures progress { self ≡ phase.Start → LeavesFewer (length bytes.entry.now) result }
        ensures step { (v : List ℕ) → PhaseStands params.now self v → StepIs order params.now v bytes.entry.now result }
    {
        match self {
            OperationState::Start => start(order, params, bytes),
            OperationState::Unsigned(opcode, number) => unsigned(opcode, number, bytes),
            OperationState::Line(number) => line(number, bytes),
            OperationState::FixedAdd(number) => fixed_add(order, number, bytes),
            OperationState::Skipped(left) => skipped(left, bytes),
            OperationState::Length(number) => length(order, params, number, bytes),
            OperationState::Extended(len) => extended(order, params, len, bytes),
            OperationState::Address(number) => address(order, number, bytes),
            OperationState::Discriminator(left, number) => discriminator(left, number, bytes),
            OperationState::Rest(left) => rest(left, bytes),
        }
    }
}

/// The operation of an opcode that has no operand.
#[inline(always)]
fn without_operand(params: &Params, opcode: u8) -> Option<Operation>
    ensures some { (order : Order) → IfSome result
        (λ o. SpellsFirst (operation_spelt order params.now) (opcode ∷ []) (Ok o)) }
    ensures none { IfNone result (HasOperand params.now opcode) }
{
    if opcode >= params.opcode_base {
        return Some(Operation::Special(opcode));
    }
    match opcode {
        1 => Some(Operation::Copy),
        6 => Some(Operation::NegateStatement),
        7 => Some(Operation::SetBasicBlock),
        8 => Some(Operation::ConstAddPc),
        10 => Some(Operation::SetPrologueEnd),
        11 => Some(Operation::SetEpilogueBegin),
        _ => None,
    }
}

/// The operation that the bytes begin with and the bytes after it, where it is a short one: without an
/// operand, with an unsigned one of at most two bytes or a signed one of at most three, or an extended
/// opcode of `short_extended`.
#[inline(always)]
pub fn short_operation<'a>(
    order: Order,
    params: &Params,
    bytes: &'a [u8],
) -> Option<(Operation, &'a [u8])>
    requires { IsUsable params.now }
    ensures left { IfSome result (λ found. length found.1.now < length bytes.entry.now) }
    ensures few { IfSome result (λ found. length bytes.entry.now ≤ length found.1.now + 11) }
    ensures operation { IfSome result (λ found. (front : List ℕ) × (bytes.entry.now ≡ front ++ found.1.now)
        × SpellsFirst (operation_spelt order params.now) front (Ok found.0)) }
{
    let (opcode, bytes) = bytes.split_first()?;
    if let Some(operation) = without_operand(params, *opcode) {
        return Some((operation, bytes));
    }
    match *opcode {
        0 => short_extended(order, params, bytes),
        2 => short_unsigned(UnsignedOpcode::AdvancePc, bytes),
        3 => {
            let (lines, tail) = short_sleb_at_front(bytes)?;
            Some((Operation::AdvanceLine(lines), tail))
        }
        4 => short_unsigned(UnsignedOpcode::SetFile, bytes),
        5 => short_unsigned(UnsignedOpcode::SetColumn, bytes),
        12 => short_unsigned(UnsignedOpcode::SetIsa, bytes),
        _ => None,
    }
}

/// The operation of this opcode whose operand, of at most two bytes, the bytes begin with, and the bytes
/// after it.
#[inline(always)]
fn short_unsigned<'a>(opcode: UnsignedOpcode, bytes: &'a [u8]) -> Option<(Operation, &'a [u8])>
    ensures few { IfSome result (λ found. length bytes.entry.now ≤ length found.1.now + 2) }
    ensures operation { (order : Order) (h : Params) → opcode_of opcode < h.opcode_base → IfSome result (λ found.
        (front : List ℕ) × (bytes.entry.now ≡ front ++ found.1.now)
        × SpellsFirst (operation_spelt order h) (opcode_of opcode ∷ front) (Ok found.0)) }
{
    let (operand, tail) = short_uleb_at_front(bytes)?;
    Some((opcode.operation(operand), tail))
}

/// The operation of the extended opcode whose length these bytes begin with and the bytes after it,
/// where it is end_sequence, set_address, or set_discriminator with an operand of at most two bytes.
#[inline(always)]
fn short_extended<'a>(
    order: Order,
    params: &Params,
    bytes: &'a [u8],
) -> Option<(Operation, &'a [u8])>
    requires { IsUsable params.now }
    ensures left { IfSome result (λ found. length found.1.now < length bytes.entry.now) }
    ensures few { IfSome result (λ found. length bytes.entry.now ≤ length found.1.now + 10) }
    ensures operation { IfSome result (λ found. (front : List ℕ) × (bytes.entry.now ≡ front ++ found.1.now)
        × SpellsFirst (operation_spelt order params.now) (0 ∷ front) (Ok found.0)) }
{
    let (len, bytes) = bytes.split_first()?;
    let (opcode, bytes) = bytes.split_first()?;
    match *opcode {
        1 if *len == 1 => Some((Operation::EndSequence, bytes)),
        2 if *len < 128 && u64::from(*len) == 1 + u64::from(params.address_size) => {
            let size = usize::from(params.address_size);
            let (address, tail) = fixed_at_front(order, size, bytes)?;
            Some((Operation::SetAddress(address), tail))
        }
        4 if *len < 128 => {
            let (value, tail) = short_uleb_at_front(bytes)?;
            if usize::from(*len) + tail.len() != 1 + bytes.len() {
                return None;
            }
            Some((Operation::SetDiscriminator(value), tail))
        }
        _ => None,
    }
}

#[inline(always)]
fn start<'a>(order: Order, params: &Params, bytes: &'a [u8]) -> OperationStep<'a>
    requires { IsUsable params.now }
    ensures within { Leaves (length bytes.entry.now) result }
    ensures progress { LeavesFewer (length bytes.entry.now) result }
    ensures step { StepIs order params.now [] bytes.entry.now result }
{
    let Some((opcode, tail)) = bytes.split_first() else {
        return OperationStep::Within(OperationState::Start);
    };
    match without_operand(params, *opcode) {
        Some(operation) => OperationStep::Ends(operation, tail),
        None => operand(order, params, *opcode, tail),
    }
}

/// Takes bytes after an opcode that may have an operand.
#[inline(always)]
fn operand<'a>(order: Order, params: &Params, opcode: u8, bytes: &'a [u8]) -> OperationStep<'a>
    requires usable { IsUsable params.now }
    requires operand { HasOperand params.now opcode }
    ensures within { Leaves (length bytes.entry.now) result }
    ensures step { StepIs order params.now (opcode ∷ []) bytes.entry.now result }
{
    match opcode {
        0 => length(order, params, Uleb::new(), bytes),
        3 => line(Sleb::new(), bytes),
        9 => fixed_add(order, PartialNumber::new(2), bytes),
        _ => match UnsignedOpcode::of(opcode) {
            Some(opcode) => unsigned(opcode, Uleb::new(), bytes),
            None => operands(params, opcode, bytes),
        },
    }
}

/// Takes bytes after a standard opcode that isn't known.
#[inline(always)]
fn operands<'a>(params: &Params, opcode: u8, bytes: &'a [u8]) -> OperationStep<'a>
    requires usable { IsUsable params.now }
    requires unknown { 12 < opcode }
    requires below { opcode < params.now.opcode_base }
    ensures within { Leaves (length bytes.entry.now) result }
    ensures step { (order : Order) → StepIs order params.now (opcode ∷ []) bytes.entry.now result }
{
    let count = params.lengths[usize::from(opcode) - 1];
    if count == 0 {
        return OperationStep::Ends(Operation::Skipped, bytes);
    }
    skipped(count, bytes)
}

#[inline(always)]
fn unsigned<'a>(opcode: UnsignedOpcode, mut number: Uleb, bytes: &'a [u8]) -> OperationStep<'a>
    ensures within { Leaves (length bytes.entry.now) result }
    ensures step { (order : Order) (h : Params) (v : List ℕ) → PhaseStands h (phase.Unsigned opcode number) v
        → StepIs order h v bytes.entry.now result }
{
    let Some((answer, tail)) = number.take_from(bytes) else {
        return OperationStep::Within(OperationState::Unsigned(opcode, number));
    };
    match answer {
        Ok(operand) => OperationStep::Ends(opcode.operation(operand), tail),
        Err(LebRange) => OperationStep::Refuses(FaultKind::LebRange, tail),
    }
}

#[inline(always)]
fn line<'a>(mut number: Sleb, bytes: &'a [u8]) -> OperationStep<'a>
    ensures within { Leaves (length bytes.entry.now) result }
    ensures step { (order : Order) (h : Params) (v : List ℕ) → PhaseStands h (phase.Line number) v
        → StepIs order h v bytes.entry.now result }
{
    let Some((answer, tail)) = number.take_from(bytes) else {
        return OperationStep::Within(OperationState::Line(number));
    };
    match answer {
        Ok(lines) => OperationStep::Ends(Operation::AdvanceLine(lines), tail),
        Err(LebRange) => OperationStep::Refuses(FaultKind::LebRange, tail),
    }
}

#[inline(always)]
fn fixed_add<'a>(order: Order, number: PartialNumber, bytes: &'a [u8]) -> OperationStep<'a>
    ensures within { Leaves (length bytes.entry.now) result }
    ensures step { (h : Params) (v : List ℕ) → PhaseStands h (phase.FixedAdd number) v
        → StepIs order h v bytes.entry.now result }
{
    match number.take_from(order, bytes) {
        Ok((by, tail)) => OperationStep::Ends(Operation::FixedAdvancePc(by), tail),
        Err(number) => OperationStep::Within(OperationState::FixedAdd(number)),
    }
}

#[inline(always)]
fn skipped<'a>(mut left: u8, bytes: &'a [u8]) -> OperationStep<'a>
    ensures within { Leaves (length bytes.entry.now) result }
    ensures step { (order : Order) (h : Params) (v : List ℕ) → PhaseStands h (phase.Skipped left) v
        → StepIs order h v bytes.entry.now result }
{
    for (i, byte) in bytes.iter().enumerate() {
        if !Skip::new().push(*byte) {
            continue;
        }
        if left <= 1 {
            return OperationStep::Ends(Operation::Skipped, &bytes[i + 1..]);
        }
        left -= 1;
    }
    OperationStep::Within(OperationState::Skipped(left))
}

#[inline(always)]
fn length<'a>(order: Order, params: &Params, mut number: Uleb, bytes: &'a [u8]) -> OperationStep<'a>
    requires { IsUsable params.now }
    ensures within { Leaves (length bytes.entry.now) result }
    ensures step { (v : List ℕ) → PhaseStands params.now (phase.Length number) v
        → StepIs order params.now v bytes.entry.now result }
{
    let Some((answer, tail)) = number.take_from(bytes) else {
        return OperationStep::Within(OperationState::Length(number));
    };
    match answer {
        Ok(len) => body(order, params, len, tail),
        Err(LebRange) => OperationStep::Refuses(FaultKind::LebRange, tail),
    }
}

/// Takes bytes after the length of an extended opcode.
#[inline(always)]
fn body<'a>(order: Order, params: &Params, len: u64, bytes: &'a [u8]) -> OperationStep<'a>
    requires { IsUsable params.now }
    ensures within { Leaves (length bytes.entry.now) result }
    ensures step { (w : List ℕ) → IsUleb w len → StepIs order params.now (0 ∷ w) bytes.entry.now result }
{
    if len == 0 {
        return OperationStep::Refuses(FaultKind::ExtendedEmpty, bytes);
    }
    extended(order, params, len, bytes)
}

#[inline(always)]
fn extended<'a>(order: Order, params: &Params, len: u64, bytes: &'a [u8]) -> OperationStep<'a>
    requires { IsUsable params.now }
    ensures within { Leaves (length bytes.entry.now) result }
    ensures step { (v : List ℕ) → PhaseStands params.now (phase.Extended len) v
        → StepIs order params.now v bytes.entry.now result }
{
    let Some((opcode, bytes)) = bytes.split_first() else {
        return OperationStep::Within(OperationState::Extended(len));
    };
    match *opcode {
        1 if len == 1 => OperationStep::Ends(Operation::EndSequence, bytes),
        2 if len == 1 + u64::from(params.address_size) => {
            address(
                order,
                PartialNumber::new(usize::from(params.address_size)),
                bytes,
            )
        }
        4 if len > 1 => discriminator(len - 1, Uleb::new(), bytes),
        1 | 2 | 4 => OperationStep::Refuses(FaultKind::ExtendedLength, bytes),
        _ if len > 1 => rest(len - 1, bytes),
        _ => OperationStep::Ends(Operation::Skipped, bytes),
    }
}

#[inline(always)]
fn address<'a>(order: Order, number: PartialNumber, bytes: &'a [u8]) -> OperationStep<'a>
    ensures within { Leaves (length bytes.entry.now) result }
    ensures step { (h : Params) (v : List ℕ) → PhaseStands h (phase.Address number) v
        → StepIs order h v bytes.entry.now result }
{
    match number.take_from(order, bytes) {
        Ok((address, tail)) => OperationStep::Ends(Operation::SetAddress(address), tail),
        Err(number) => OperationStep::Within(OperationState::Address(number)),
    }
}

#[inline(always)]
fn discriminator<'a>(mut left: u64, mut number: Uleb, bytes: &'a [u8]) -> OperationStep<'a>
    ensures within { Leaves (length bytes.entry.now) result }
    ensures step { (order : Order) (h : Params) (v : List ℕ) → PhaseStands h (phase.Discriminator left number) v
        → StepIs order h v bytes.entry.now result }
{
    for (i, byte) in bytes.iter().enumerate() {
        let Some(answer) = number.push(*byte) else {
            if left <= 1 {
                return OperationStep::Refuses(FaultKind::ExtendedLength, &bytes[i + 1..]);
            }
            left -= 1;
            continue;
        };
        let tail = &bytes[i + 1..];
        return match answer {
            Ok(value) if left == 1 => OperationStep::Ends(Operation::SetDiscriminator(value), tail),
            Ok(_) => OperationStep::Refuses(FaultKind::ExtendedLength, tail),
            Err(LebRange) => OperationStep::Refuses(FaultKind::LebRange, tail),
        };
    }
    OperationStep::Within(OperationState::Discriminator(left, number))
}

#[inline(always)]
fn rest<'a>(left: u64, bytes: &'a [u8]) -> OperationStep<'a>
    ensures within { Leaves (length bytes.entry.now) result }
    ensures step { (order : Order) (h : Params) (v : List ℕ) → PhaseStands h (phase.Rest left) v
        → StepIs order h v bytes.entry.now result }
{
    let len = bytes.len() as u64;
    if left <= len {
        OperationStep::Ends(Operation::Skipped, &bytes[left as usize..])
    } else {
        OperationStep::Within(OperationState::Rest(left - len))
    }
}
