//! Rows of the matrix. Section 6.2.2.

/// A row of the line number matrix. Section 6.2.2.
#[derive(Debug, Clone, Copy, PartialEq, Eq)]
pub struct Row {
    /// The address of the instruction, below 2^(8 * address_size).
    pub address: u64,
    /// The number of the source file in the table of files.
    pub file: u64,
    /// The number of the source line, modulo 2^64.
    pub line: u64,
    /// The column in the source line from 1 on; 0 is the line's left edge.
    pub column: u64,
    /// The instruction set architecture.
    pub isa: u64,
    /// The block that the instruction belongs to; 0 where there is but one.
    pub discriminator: u64,
    /// The operation in its instruction, below maximum_operations_per_instruction.
    pub op_index: u8,
    /// Whether the instruction is a recommended place for a breakpoint.
    pub is_stmt: bool,
    /// Whether a basic block begins here.
    pub basic_block: bool,
    /// Whether this is the first address after a sequence of instructions.
    pub end_sequence: bool,
    /// Whether a breakpoint at the entry of a function belongs here.
    pub prologue_end: bool,
    /// Whether a breakpoint at the exit of a function belongs here.
    pub epilogue_begin: bool,
}
