//! The opcode and the numbers of an operation whose bytes come one after the other. Sections 6.2.5.2, 6.2.5.3 and 7.6.

ghost use Rattle.std.specs.Prelude.{◌≡◌, fold};

use dl_findings::Opcode;

/// The number of DW_LNE_set_discriminator, whose operand is a number in LEB128. Section 6.2.5.3.
const SET_DISCRIMINATOR: u8 = 4;

/// What the bytes of the current operation say of its opcode.
#[derive(Clone, Copy)]
pub enum OpcodeRead {
    /// No byte of it has come.
    Unread,
    /// The length of an extended opcode goes on.
    Length,
    /// The next byte is the number of an extended opcode.
    Number,
    /// A standard opcode, or a special one.
    Single(u8),
    /// An extended opcode.
    Extended(u8),
}

impl OpcodeRead {
    ghost use Rattle.dl_operation_rules.specs.Keeping.{is_in_number, is_settled, known_opcode, opcode_with};

    /// What one byte more says.
    #[inline(always)]
    fn with(self, byte: u8) -> OpcodeRead
        ensures { result ≡ opcode_with self byte }
    {
        match self {
            OpcodeRead::Unread if byte == 0 => OpcodeRead::Length,
            OpcodeRead::Unread => OpcodeRead::Single(byte),
            OpcodeRead::Length if byte < 128 => OpcodeRead::Number,
            OpcodeRead::Number => OpcodeRead::Extended(byte),
            other => other,
        }
    }

    /// Whether the next byte is one of a number in LEB128: of the length of an extended opcode, or of an operand.
    #[inline(always)]
    fn is_in_number(self) -> bool
        ensures { result ≡ is_in_number self }
    {
        match self {
            OpcodeRead::Length => true,
            OpcodeRead::Single(_) => true,
            OpcodeRead::Extended(number) => number == SET_DISCRIMINATOR,
            _ => false,
        }
    }

    /// Whether bytes that follow say nothing more.
    fn is_settled(self) -> bool
        ensures { result ≡ is_settled self }
    {
        match self {
            OpcodeRead::Extended(number) => number != SET_DISCRIMINATOR,
            _ => false,
        }
    }

    /// The opcode, where all of it has come.
    fn known(self) -> Option<Opcode>
        ensures { result ≡ known_opcode self }
    {
        match self {
            OpcodeRead::Single(number) => Some(Opcode::Standard(number)),
            OpcodeRead::Extended(number) => Some(Opcode::Extended(number)),
            _ => None,
        }
    }
}

/// What the bytes of the current operation say.
#[derive(Clone, Copy)]
pub struct OperationRead {
    opcode: OpcodeRead,
    /// How many bytes of a number in LEB128 have come that goes on; 2^64 - 1 stands for all above it too.
    begun: u64,
    /// How many bytes the longest number in LEB128 has; 2^64 - 1 stands for all above it too.
    longest: u64,
}

/// Before the first byte of an operation.
pub const UNREAD: OperationRead = OperationRead {
    opcode: OpcodeRead::Unread,
    begun: 0,
    longest: 0,
};

impl OperationRead {
    ghost use Rattle.dl_operation_rules.specs.Keeping.{has_begun, known_opcode, read_with};

    /// What one byte more says.
    #[inline(always)]
    fn with(self, byte: u8) -> OperationRead
        ensures { result ≡ read_with self byte }
    {
        let opcode = self.opcode.with(byte);
        if !self.opcode.is_in_number() {
            return OperationRead { opcode, ..self };
        }
        let come = self.begun.saturating_add(1);
        OperationRead {
            opcode,
            begun: if byte < 128 { 0 } else { come },
            longest: self.longest.max(come),
        }
    }

    /// Whether a byte has come.
    #[inline(always)]
    pub fn has_begun(self) -> bool
        ensures { result ≡ has_begun self.opcode }
    {
        !matches!(self.opcode, OpcodeRead::Unread)
    }

    /// What more bytes say.
    pub fn with_bytes(self, bytes: &[u8]) -> OperationRead
        ensures { result ≡ fold read_with self bytes.now }
    {
        let mut read = self;
        for byte in bytes {
            if read.opcode.is_settled() {
                return read;
            }
            read = read.with(*byte);
        }
        read
    }

    /// The opcode, where all of it has come.
    pub fn opcode(self) -> Option<Opcode>
        ensures { result ≡ known_opcode self.opcode }
    {
        self.opcode.known()
    }

    /// How many bytes the longest number in LEB128 has; 2^64 - 1 stands for all above it too.
    pub fn longest(self) -> u64
        ensures { result ≡ self.longest }
    {
        self.longest
    }
}
