//! Sixteen bytes of a value, as they come. Section 7.5.5, form data16.

ghost use Rattle.std.specs.Prelude.{◌≡◌, ◌↔◌, ◌++◌, ◌∷◌, [], length, IsTrue, IfOk, IfErr};
ghost use Rattle.dl_num.specs.OperandBytes.{operand_size, operand_bytes};

use dl_num::PartialBytes;

/// Sixteen bytes that lack at least one.
#[derive(Clone, Copy)]
pub(crate) struct Sixteen {
    operand: PartialBytes,
    ghost size: { operand_size operand ≡ 16 },
}

impl Sixteen {
    /// No byte yet.
    pub fn new() -> Sixteen
        ensures { operand_bytes result.operand ≡ [] }
    {
        Sixteen {
            operand: PartialBytes::new(16),
        }
    }

    /// Whether no byte has come.
    pub fn is_new(&self) -> bool
        ensures { IsTrue result ↔ (operand_bytes self.now.operand ≡ []) }
    {
        self.operand.is_new()
    }

    /// Takes the next byte: all sixteen where it is the last one, else what has come of them.
    pub fn push(self, byte: u8) -> Result<[u8; 16], Sixteen>
        ensures whole { IfOk result (λ bytes. bytes ≡ operand_bytes self.operand ++ byte ∷ []) }
        ensures size { IfOk result (λ bytes. length bytes ≡ 16) }
        ensures taken { IfErr result (λ sixteen. operand_bytes sixteen.operand
            ≡ operand_bytes self.operand ++ byte ∷ []) }
    {
        match self.operand.push(byte) {
            Ok(fixed) => Ok(fixed.bytes16()),
            Err(operand) => Err(Sixteen { operand }),
        }
    }
}
