//! What is kept of the operations of the current unit. Sections 6.2.2 and 6.2.5.1 to 6.2.5.3.

use crate::byte_set::ByteSet;
use crate::operation_read::{OperationRead, UNREAD};
use dl_findings::Opcode;
use dl_look::Place;
use dl_rows::Operation;

/// What is kept of the operations of the current unit.
#[derive(Clone, Copy)]
pub struct Operations {
    /// What the bytes since the last operation say.
    read: OperationRead,
    /// The registers address and op_index.
    pub place: Place,
    /// The standard opcodes that were passed over.
    standard: ByteSet,
    /// The extended opcodes that were passed over.
    extended: ByteSet,
}

impl Operations {
    ghost use Rattle.std.specs.Prelude.{◌≡◌, ◌++◌, [], IsFalse, IsTrue, true, if◌then◌else◌};
    ghost use Rattle.dl_field.specs.HeaderData.{HeaderData};
    ghost use Rattle.dl_rows.specs.Items.{an_operation};
    ghost use Rattle.dl_sections.specs.Section.{of_item};
    ghost use Rattle.dl_findings.specs.Counting.{at_most_64_bits};
    ghost use Rattle.dl_findings.specs.declared.finding.Opcode.{Opcode as Code};
    ghost use Rattle.dl_operation_rules.specs.Judging.{is_same};
    ghost use Rattle.dl_operation_rules.specs.Keeping.{Knows, has_passed};
    ghost use Rattle.dl_operation_rules.specs.Operations.{UnitSeen, at_address, longest_number, nothing_seen, passed_over, place_after, seen_with};

    /// At the first operation of a unit.
    pub fn at_start() -> Operations
        ensures { Knows result nothing_seen }
    {
        Operations {
            read: UNREAD,
            place: Place {
                address: 0,
                op_index: 0,
            },
            standard: ByteSet::none(),
            extended: ByteSet::none(),
        }
    }

    /// Bytes of the current operation further on.
    pub fn bytes(&mut self, bytes: &[u8])
        ensures { (s : UnitSeen) → Knows self.old s → Knows self.new (record s { bytes = s.bytes ++ bytes.now }) }
    {
        self.read = self.read.with_bytes(bytes);
    }

    /// Plain operations one after the other further on, which lead the register address from one address to another. It answers
    /// false, and stays as it is, where bytes of the current operation have come or the registers are at another place.
    #[inline(always)]
    pub fn lead(&mut self, from: u64, to: u64) -> bool
        ensures starts { (s : UnitSeen) → Knows self.old s → IsTrue result → (s.bytes ≡ []) × (s.place ≡ at_address from) }
        ensures takes { (s : UnitSeen) → Knows self.old s → IsTrue result → Knows self.new (record s { place = at_address to }) }
        ensures stays { IsFalse result → self.new ≡ self.old }
    {
        if self.read.has_begun() || self.place.op_index != 0 || self.place.address != from {
            return false;
        }
        self.place.address = to;
        true
    }

    /// An operation further on, which leads the registers to this place.
    pub fn operation(&mut self, operation: Operation, place: Place)
        ensures { (s : UnitSeen) (h : HeaderData) → Knows self.old s
            → place ≡ place_after h.params s.place operation
            → Knows self.new (seen_with s (of_item (an_operation h operation))) }
    {
        if let Some(opcode) = self.passed_over(operation) {
            self.pass_over(opcode);
        }
        self.read = UNREAD;
        self.place = place;
    }

    /// The opcode of the current operation, which is this one, where it is passed over.
    pub fn passed_over(&self, operation: Operation) -> Option<Opcode>
        ensures { (s : UnitSeen) → Knows self.now s → result ≡ passed_over operation s.bytes }
    {
        match operation {
            Operation::Skipped => self.read.opcode(),
            _ => None,
        }
    }

    /// How many bytes the longest number in LEB128 of the current operation has; 2^64 - 1 stands for all above it too.
    pub fn longest_number(&self) -> u64
        ensures { (s : UnitSeen) → Knows self.now s → result ≡ at_most_64_bits (longest_number s.bytes) }
    {
        self.read.longest()
    }

    /// Whether this opcode was passed over.
    pub(crate) fn has_passed(&self, opcode: Opcode) -> bool
        ensures { result ≡ has_passed self.now opcode }
    {
        match opcode {
            Opcode::Standard(number) => self.standard.contains(number),
            Opcode::Extended(number) => self.extended.contains(number),
        }
    }

    /// This opcode was passed over too.
    fn pass_over(&mut self, opcode: Opcode)
        ensures read { self.new.read ≡ self.old.read }
        ensures place { self.new.place ≡ self.old.place }
        ensures passed { (o : Code) → has_passed self.new o ≡ (if is_same o opcode then true else has_passed self.old o) }
    {
        match opcode {
            Opcode::Standard(number) => self.standard.add(number),
            Opcode::Extended(number) => self.extended.add(number),
        }
    }
}
