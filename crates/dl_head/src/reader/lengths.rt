//! The lengths and the version of a unit: its fields up to header_length. Sections 6.2.4 and 7.4.

ghost use Rattle.dl_memory.specs.Refusals.{SystemRefuses, WasRefused};
ghost use Rattle.std.specs.Prelude.{◌≡◌, ◌+◌, ◌≤◌, ◌∷◌, [], true};
ghost use Rattle.dl_head.specs.Built.{are_operations};
ghost use Rattle.dl_num.specs.Fixed.{fixed};
ghost use Rattle.dl_table.specs.TableCells.{table_cells};

use crate::reader::byte_field::ByteField;
use crate::reader::{HeadReader, Phase};
use crate::sizes::{UNIT_LENGTH_LIMIT, fixed_part, initial_size};
use dl_field::FieldStep;
use dl_num::{Order, PartialNumber};
use dl_table::{FaultKind, Format};

impl HeadReader {
    ghost use Rattle.dl_field.specs.declared.field_step.FieldStep.TheVariants as byte_makes;
    ghost use Rattle.dl_head.specs.declared.reader.Phase.TheVariants as phase;
    ghost use Rattle.dl_field.specs.TablePlace.{IsFresh};
    ghost use Rattle.dl_head.specs.TableSpelt.{TableReads};
    ghost use Rattle.dl_head.specs.Place.{Follows, Keeps, Starts, StartsHeader, held_cells};

    pub(super) fn unit_length(&mut self, number: PartialNumber, byte: u8) -> FieldStep
        requires { self.old.phase ≡ phase.UnitLength number }
        ensures follows { Follows self.old byte result self.new }
        ensures kept { Keeps self.old result self.new }
        ensures cells { held_cells self.new ≡ held_cells self.old }
        ensures refused { result ≡ byte_makes.NoMemory → WasRefused SystemRefuses }
    {
        match number.push(self.dialect.order, byte) {
            Err(number) => {
                self.phase = Phase::UnitLength(number);
                FieldStep::Within
            }
            Ok(0xffff_ffff) => {
                self.phase = Phase::LongUnitLength(PartialNumber::new(8));
                FieldStep::Within
            }
            Ok(length) if length >= 0xffff_fff0 => FieldStep::Refuses(FaultKind::ReservedLength),
            Ok(length) => self.start_unit(Format::Dwarf32, length),
        }
    }

    pub(super) fn long_unit_length(&mut self, number: PartialNumber, byte: u8) -> FieldStep
        requires { self.old.phase ≡ phase.LongUnitLength number }
        ensures follows { Follows self.old byte result self.new }
        ensures kept { Keeps self.old result self.new }
        ensures cells { held_cells self.new ≡ held_cells self.old }
        ensures refused { result ≡ byte_makes.NoMemory → WasRefused SystemRefuses }
    {
        match number.push(self.dialect.order, byte) {
            Err(number) => {
                self.phase = Phase::LongUnitLength(number);
                FieldStep::Within
            }
            Ok(length) => self.start_unit(Format::Dwarf64, length),
        }
    }

    fn start_unit(&mut self, format: Format, length: u64) -> FieldStep
        requires no_lengths { self.old.params.lengths.items ≡ [] }
        requires no_tables { table_cells self.old.directories + table_cells self.old.files ≡ 0 }
        requires operations { are_operations self.old.params.version self.old.params.maximum_operations_per_instruction
            ≡ true }
        requires fresh { ∥ IsFresh self.old.table ∥₁ }
        ensures follows { Starts self.old format length result self.new }
        ensures kept { Keeps self.old result self.new }
        ensures cells { held_cells self.new ≡ held_cells self.old }
        ensures refused { result ≡ byte_makes.NoMemory → WasRefused SystemRefuses }
    {
        if length > UNIT_LENGTH_LIMIT {
            return FieldStep::Refuses(FaultKind::UnitTooLong);
        }
        self.params.format = format;
        self.unit_length = length;
        self.end = Some(initial_size(format) + length);
        self.phase = Phase::Version;
        FieldStep::Ends
    }

    pub(super) fn version(&mut self, byte: u8) -> FieldStep
        requires { self.old.phase ≡ phase.Version }
        ensures follows { Follows self.old byte result self.new }
        ensures kept { Keeps self.old result self.new }
        ensures cells { held_cells self.new ≡ held_cells self.old }
        ensures refused { result ≡ byte_makes.NoMemory → WasRefused SystemRefuses }
    {
        self.phase = Phase::VersionEnd(byte);
        FieldStep::Within
    }

    pub(super) fn version_end(&mut self, first: u8, byte: u8) -> FieldStep
        requires { self.old.phase ≡ phase.VersionEnd first }
        ensures follows { Follows self.old byte result self.new }
        ensures kept { Keeps self.old result self.new }
        ensures cells { held_cells self.new ≡ held_cells self.old }
        ensures refused { result ≡ byte_makes.NoMemory → WasRefused SystemRefuses }
    {
        let version = version_of(self.dialect.order, first, byte);
        if version == 5 {
            self.phase = Phase::Byte(ByteField::AddressSize);
        } else if let Some(size) = self.dialect.older_size(version) {
            self.params.version = version;
            self.params.address_size = size;
            self.params.maximum_operations_per_instruction = 1;
            self.phase = Phase::HeaderLength(PartialNumber::new(self.params.format.offset_size()));
        } else {
            self.phase = Phase::Foreign(version);
        }
        FieldStep::Ends
    }

    pub(super) fn header_length(&mut self, number: PartialNumber, byte: u8) -> FieldStep
        requires { self.old.phase ≡ phase.HeaderLength number }
        ensures follows { Follows self.old byte result self.new }
        ensures kept { Keeps self.old result self.new }
        ensures cells { held_cells self.new ≡ held_cells self.old }
        ensures refused { result ≡ byte_makes.NoMemory → WasRefused SystemRefuses }
    {
        match number.push(self.dialect.order, byte) {
            Err(number) => {
                self.phase = Phase::HeaderLength(number);
                FieldStep::Within
            }
            Ok(length) => self.start_header(length),
        }
    }

    fn start_header(&mut self, length: u64) -> FieldStep
        requires no_lengths { self.old.params.lengths.items ≡ [] }
        requires no_tables { table_cells self.old.directories + table_cells self.old.files ≡ 0 }
        requires operations { are_operations self.old.params.version self.old.params.maximum_operations_per_instruction
            ≡ true }
        requires read { ∥ TableReads self.old.dialect.order self.old.params.format self.old.table ∥₁ }
        ensures follows { StartsHeader self.old length result self.new }
        ensures kept { Keeps self.old result self.new }
        ensures cells { held_cells self.new ≡ held_cells self.old }
        ensures refused { result ≡ byte_makes.NoMemory → WasRefused SystemRefuses }
    {
        let format = self.params.format;
        let fixed = fixed_part(format, self.params.version);
        if length > self.unit_length.saturating_sub(fixed) {
            return FieldStep::Refuses(FaultKind::HeaderBeyondUnit);
        }
        self.end = Some(initial_size(format) + fixed + length);
        self.overrun = FaultKind::HeaderOverrun;
        self.phase = Phase::Byte(ByteField::MinimumInstructionLength);
        FieldStep::Ends
    }
}

/// The number that two bytes spell.
fn version_of(order: Order, first: u8, second: u8) -> u16
    ensures { result ≡ fixed order (first ∷ second ∷ []) }
{
    match order {
        Order::Little => u16::from(first) + 256 * u16::from(second),
        Order::Big => 256 * u16::from(first) + u16::from(second),
    }
}
