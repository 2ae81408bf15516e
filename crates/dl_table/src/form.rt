//! The formats of DWARF, and the forms in which the values of a table are spelled. Sections 7.4 and 7.5.6.

ghost use Rattle.std.specs.Prelude.{◌≡◌};
ghost use Rattle.dl_table.specs.Value.{form_code, form_of_code, offset_size as offset_size_of};

/// The 32-bit or the 64-bit format of DWARF. Section 7.4.
#[derive(Clone, Copy, Debug, PartialEq, Eq)]
pub enum Format {
    Dwarf32,
    Dwarf64,
}

impl Format {
    /// The size in bytes of an offset, and of header_length.
    pub fn offset_size(self) -> usize
        ensures { result ≡ offset_size_of self }
    {
        match self {
            Format::Dwarf32 => 4,
            Format::Dwarf64 => 8,
        }
    }
}

/// How a value of a table is spelled. Section 7.5.6.
#[derive(Clone, Copy, Debug, PartialEq, Eq)]
pub enum Form {
    Block2,
    Block4,
    Data2,
    Data4,
    Data8,
    String,
    Block,
    Block1,
    Data1,
    Strp,
    Udata,
    StrpSup,
    Data16,
    LineStrp,
}

impl Form {
    /// The code that stands for the form. Section 7.5.6, table 7.6.
    pub fn code(self) -> u16
        ensures { result ≡ form_code self }
    {
        match self {
            Form::Block2 => 0x03,
            Form::Block4 => 0x04,
            Form::Data2 => 0x05,
            Form::Data4 => 0x06,
            Form::Data8 => 0x07,
            Form::String => 0x08,
            Form::Block => 0x09,
            Form::Block1 => 0x0a,
            Form::Data1 => 0x0b,
            Form::Strp => 0x0e,
            Form::Udata => 0x0f,
            Form::StrpSup => 0x1d,
            Form::Data16 => 0x1e,
            Form::LineStrp => 0x1f,
        }
    }

    /// The form of a code, or None where no form of a line table has it. Section 7.5.6, table 7.6.
    pub fn from_code(code: u64) -> Option<Form>
        ensures { result ≡ form_of_code code }
    {
        match code {
            0x03 => Some(Form::Block2),
            0x04 => Some(Form::Block4),
            0x05 => Some(Form::Data2),
            0x06 => Some(Form::Data4),
            0x07 => Some(Form::Data8),
            0x08 => Some(Form::String),
            0x09 => Some(Form::Block),
            0x0a => Some(Form::Block1),
            0x0b => Some(Form::Data1),
            0x0e => Some(Form::Strp),
            0x0f => Some(Form::Udata),
            0x1d => Some(Form::StrpSup),
            0x1e => Some(Form::Data16),
            0x1f => Some(Form::LineStrp),
            _ => None,
        }
    }
}
