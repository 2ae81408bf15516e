//! The fields of one byte of a header, and the lengths of its standard opcodes. Section 6.2.4.

ghost use Rattle.dl_memory.specs.Refusals.{SystemRefuses, WasRefused};
ghost use Rattle.std.specs.Prelude.{◌≡◌, ◌+◌, ◌≤◌, ◌++◌, ◌∷◌, [], ℕ, nat_lt, if◌then◌else◌, List, true, None, length};
ghost use Rattle.dl_field.specs.Layout.{Item, number_is, objection, opcode_length};
ghost use Rattle.dl_head.specs.HeaderLayout.{signed_byte};
ghost use Rattle.dl_head.specs.HeadStep.{lengths_fit, first_table, field_after_minimum};
ghost use Rattle.dl_head.specs.Bytes.{byte_kind};
ghost use Rattle.dl_head.specs.declared.reader.Phase.TheVariants as phase;

use crate::reader::byte_field::ByteField;
use crate::reader::{HeadReader, Phase};
use dl_field::FieldStep;
use dl_field::params::is_wrong_length;
use dl_num::PartialNumber;
use dl_table::FaultKind;

impl HeadReader {
    ghost use Rattle.dl_field.specs.declared.field_step.FieldStep.TheVariants as byte_makes;
    ghost use Rattle.dl_head.specs.Place.{At, Follows, Keeps, SameCounts, held_cells};

    pub(super) fn byte_field(&mut self, field: ByteField, byte: u8) -> FieldStep
        requires { self.old.phase ≡ phase.Byte field }
        ensures follows { Follows self.old byte result self.new }
        ensures kept { Keeps self.old result self.new }
        ensures cells { held_cells self.new ≡ held_cells self.old }
        ensures refused { result ≡ byte_makes.NoMemory → WasRefused SystemRefuses }
    {
        if let Some(kind) = field.objection(byte) {
            return FieldStep::Refuses(kind);
        }
        self.store(field, byte);
        FieldStep::Ends
    }

    /// Keeps the field's value, and goes on to the next field.
    fn store(&mut self, field: ByteField, byte: u8)
        requires at { self.old.phase ≡ phase.Byte field }
        requires good { objection (byte_kind field) byte ≡ None }
        ensures counts { SameCounts self.old self.new }
        ensures at { (items : List Item) (rest : List ℕ) → At self.old items rest
            → At self.new (items ++ number_is byte ∷ []) [] }
        ensures cells { held_cells self.new ≡ held_cells self.old }
    {
        match field {
            ByteField::AddressSize => {
                self.params.address_size = byte;
                self.phase = Phase::Byte(ByteField::SegmentSelectorSize);
            }
            ByteField::SegmentSelectorSize => {
                self.params.segment_selector_size = byte;
                self.phase = Phase::HeaderLength(PartialNumber::new(
                    self.params.format.offset_size(),
                ));
            }
            ByteField::MinimumInstructionLength => {
                self.params.minimum_instruction_length = byte;
                self.phase = Phase::Byte(after_minimum_length(self.params.version));
            }
            ByteField::MaximumOperations => {
                self.params.maximum_operations_per_instruction = byte;
                self.phase = Phase::Byte(ByteField::DefaultIsStmt);
            }
            ByteField::DefaultIsStmt => {
                self.params.default_is_stmt = byte;
                self.phase = Phase::Byte(ByteField::LineBase);
            }
            ByteField::LineBase => {
                self.params.line_base = signed(byte);
                self.phase = Phase::Byte(ByteField::LineRange);
            }
            ByteField::LineRange => {
                self.params.line_range = byte;
                self.phase = Phase::Byte(ByteField::OpcodeBase);
            }
            ByteField::OpcodeBase => {
                self.params.opcode_base = byte;
                self.phase = length_or_table(0, byte, self.params.version);
            }
        }
    }

    pub(super) fn opcode_length(&mut self, byte: u8) -> FieldStep
        requires { self.old.phase ≡ phase.OpcodeLength }
        ensures follows { Follows self.old byte result self.new }
        ensures kept { Keeps self.old result self.new }
        ensures cells { held_cells self.new ≡ held_cells self.old }
        ensures refused { result ≡ byte_makes.NoMemory → WasRefused SystemRefuses }
    {
        let opcode_base = self.params.opcode_base;
        let opcode = self.params.lengths.len() + 1;
        if is_wrong_length(opcode, byte) {
            return FieldStep::Refuses(FaultKind::StandardLength(opcode as u8));
        }
        self.params.lengths.push(byte);
        self.phase = length_or_table(opcode, opcode_base, self.params.version);
        FieldStep::Ends
    }
}

/// The field after minimum_instruction_length: versions 2 and 3 have no maximum operations.
fn after_minimum_length(version: u16) -> ByteField
    ensures { result ≡ field_after_minimum version }
{
    if version < 4 {
        ByteField::DefaultIsStmt
    } else {
        ByteField::MaximumOperations
    }
}

/// What follows the first `lengths` lengths of opcodes below this opcode_base: the next one, or the tables.
fn length_or_table(lengths: usize, opcode_base: u8, version: u16) -> Phase
    requires { lengths + 1 ≤ opcode_base }
    ensures fit { lengths_fit result lengths opcode_base ≡ true }
    ensures next { result ≡ (if nat_lt (lengths + 1) opcode_base then phase.OpcodeLength else first_table version) }
{
    if lengths + 1 < usize::from(opcode_base) {
        Phase::OpcodeLength
    } else if version == 5 {
        Phase::Directories
    } else {
        Phase::OlderDirectories
    }
}

fn signed(byte: u8) -> i8
    ensures { result ≡ signed_byte byte }
{
    if byte < 128 {
        byte as i8
    } else {
        (i16::from(byte) - 256) as i8
    }
}
