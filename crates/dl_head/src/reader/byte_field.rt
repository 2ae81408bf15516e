//! Header fields of one byte. Section 6.2.4.

ghost use Rattle.std.specs.Prelude.{◌≡◌};
ghost use Rattle.dl_field.specs.Layout.{objection};
ghost use Rattle.dl_head.specs.Bytes.{byte_kind};

use dl_table::FaultKind;

/// A header field of one byte.
#[derive(Clone, Copy)]
pub(crate) enum ByteField {
    AddressSize,
    SegmentSelectorSize,
    MinimumInstructionLength,
    MaximumOperations,
    DefaultIsStmt,
    LineBase,
    LineRange,
    OpcodeBase,
}

impl ByteField {
    /// What is wrong with the byte in this field.
    pub fn objection(self, byte: u8) -> Option<FaultKind>
        ensures { result ≡ objection (byte_kind self) byte }
    {
        match self {
            ByteField::AddressSize => match byte {
                1 | 2 | 4 | 8 => None,
                _ => Some(FaultKind::AddressSize),
            },
            ByteField::MaximumOperations if byte == 0 => Some(FaultKind::MaxOps),
            ByteField::LineRange if byte == 0 => Some(FaultKind::LineRange),
            ByteField::OpcodeBase if byte == 0 => Some(FaultKind::OpcodeBase),
            _ => None,
        }
    }
}
