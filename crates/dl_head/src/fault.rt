//! What is wrong with a header, and where a fault stands.

pub use dl_table::fault::{BuildFault, FaultKind};
use thiserror::Error;

/// A fault and its place, in bytes from the unit's first one.
#[derive(Clone, Copy, Debug, PartialEq, Eq)]
pub struct Fault {
    pub offset: u64,
    pub kind: FaultKind,
}

/// Why the parts of a header were refused, the first reason in this order.
#[derive(Clone, Copy, Debug, PartialEq, Eq, Error)]
pub enum ParamFault {
    /// version isn't 2, 3, 4 or 5.
    #[error("bad version")]
    Version,
    /// address_size isn't 1, 2, 4 or 8.
    #[error("bad address size")]
    AddressSize,
    /// maximum_operations_per_instruction is 0, or isn't 1 in version 2 or 3, which have no such field.
    #[error("bad maximum operations")]
    MaxOps,
    /// line_range is 0.
    #[error("line range is 0")]
    LineRange,
    /// opcode_base is 0, or there aren't `opcode_base - 1` lengths.
    #[error("bad opcode base")]
    OpcodeBase,
    /// The least standard opcode whose length isn't that of section 6.2.5.2.
    #[error("wrong length of standard opcode {0}")]
    StandardLength(u8),
    /// A table's format isn't that of the params.
    #[error("a table of the other format")]
    TableFormat,
}
