//! The operations of a line number program. Section 6.2.5.

/// An operation of a line number program, with its operand.
#[derive(Debug, Clone, Copy, PartialEq, Eq)]
pub enum Operation {
    /// A special opcode, by its number, which is opcode_base or more: it moves on the address and the
    /// line, appends a row, and clears the registers that a row clears. Section 6.2.5.1.
    Special(u8),
    /// DW_LNS_copy: appends a row, and clears the registers that a row clears. Section 6.2.5.2, as all up to `SetIsa`.
    Copy,
    /// DW_LNS_advance_pc: moves on the address by this operation advance.
    AdvancePc(u64),
    /// DW_LNS_advance_line: adds this to the line.
    AdvanceLine(i64),
    /// DW_LNS_set_file: the number of the file in the table of files.
    SetFile(u64),
    /// DW_LNS_set_column: the column, from 1 on; 0 is the line's left edge.
    SetColumn(u64),
    /// DW_LNS_negate_stmt: turns is_stmt over.
    NegateStatement,
    /// DW_LNS_set_basic_block: a basic block begins at the next row.
    SetBasicBlock,
    /// DW_LNS_const_add_pc: moves on the address as the special opcode 255 does, and appends no row.
    ConstAddPc,
    /// DW_LNS_fixed_advance_pc: adds these bytes, of two spelled ones, to the address, and sets op_index to
    /// 0.
    FixedAdvancePc(u64),
    /// DW_LNS_set_prologue_end: the next row is a place for a breakpoint at the entry of a function.
    SetPrologueEnd,
    /// DW_LNS_set_epilogue_begin: the next row is a place for a breakpoint at the exit of a function.
    SetEpilogueBegin,
    /// DW_LNS_set_isa: the instruction set architecture, by a number of the target's ABI.
    SetIsa(u64),
    /// DW_LNE_end_sequence: appends the end row, and sets the registers as at the start. Section
    /// 6.2.5.3, as the two that follow.
    EndSequence,
    /// DW_LNE_set_address: the address, below 2^(8 * address_size), with op_index 0.
    SetAddress(u64),
    /// DW_LNE_set_discriminator: the block of the next row, among those of its line.
    SetDiscriminator(u64),
    /// An opcode that isn't known, passed over by the operands that the header gives it, or by its length.
    /// Sections 6.2.5.2 and 6.2.5.3.
    Skipped,
}
