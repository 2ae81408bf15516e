//! Printing the fields of a header. Section 6.2.4.
ghost use Rattle.std.specs.Prelude.{◌≡◌, ◌++◌, codes, decimal, flat_map};
ghost use Rattle.dl_print.specs.HeaderFields.{field_line, signed_text, signed_line, number_text, numbers_line};
ghost use Rattle.dl_print.specs.HeaderFields.{form_name, pair_text, format_line};
ghost use Rattle.dl_print.specs.HeaderFields.{lengths_text, operations_text, instructions_text, lines_text, opcodes_text};
ghost use Rattle.dl_print.specs.HeaderFields.{params_text, formats_text, padding_text, fields_text};
ghost use Rattle.dl_print.specs.Output.{BlamesWriter, Prints};

use super::Printer;
use crate::fault::WriteFault;
use dl_head::{Form, Header, HeaderLengths, Pair, Params};
use dl_output::Destination;

impl Printer {
    /// Prints the line of a field that is a number.
    #[tactic(auto, unfolding(crate::specs::HeaderFields::field_line))]
    fn field<W: Destination>(
        &mut self,
        output: &mut W,
        name: &[u8],
        number: u64,
    ) -> Result<(), WriteFault>
        ensures printed { Prints (W.contents output.old) (W.contents output.new) self.old self.new
            (field_line name.now number) result }
        ensures blames { BlamesWriter W.fails result }
    {
        self.put(output, name)?;
        self.number(output, b" ", number)?;
        self.put(output, b"\n")
    }

    /// Prints the line of a field that is a number of one byte.
    fn byte_field<W: Destination>(
        &mut self,
        output: &mut W,
        name: &[u8],
        number: u8,
    ) -> Result<(), WriteFault>
        ensures printed { Prints (W.contents output.old) (W.contents output.new) self.old self.new
            (field_line name.now number) result }
        ensures blames { BlamesWriter W.fails result }
    {
        self.field(output, name, u64::from(number))
    }

    /// Prints a number that may be below zero, after a space.
    #[tactic(auto, unfolding(crate::specs::HeaderFields::signed_text))]
    pub fn signed<W: Destination>(&mut self, output: &mut W, number: i64) -> Result<(), WriteFault>
        ensures printed { Prints (W.contents output.old) (W.contents output.new) self.old self.new
            (signed_text number) result }
        ensures blames { BlamesWriter W.fails result }
    {
        let size = number.unsigned_abs();
        if number < 0 {
            self.number(output, b" -", size)
        } else {
            self.number(output, b" ", size)
        }
    }

    /// Prints the line of a field that is a number and may be below zero.
    #[tactic(auto, unfolding(crate::specs::HeaderFields::signed_line))]
    fn signed_field<W: Destination>(
        &mut self,
        output: &mut W,
        name: &[u8],
        number: i8,
    ) -> Result<(), WriteFault>
        ensures printed { Prints (W.contents output.old) (W.contents output.new) self.old self.new
            (signed_line name.now number) result }
        ensures blames { BlamesWriter W.fails result }
    {
        self.put(output, name)?;
        self.signed(output, i64::from(number))?;
        self.put(output, b"\n")
    }

    /// Prints numbers of one byte, each after a space.
    fn numbers<W: Destination>(&mut self, output: &mut W, numbers: &[u8]) -> Result<(), WriteFault>
        ensures printed { Prints (W.contents output.old) (W.contents output.new) self.old self.new
            (flat_map number_text numbers.now) result }
        ensures blames { BlamesWriter W.fails result }
    {
        for number in numbers {
            self.number(output, b" ", u64::from(*number))?;
        }
        Ok(())
    }

    /// Prints the line of a field that is a list of numbers of one byte.
    #[tactic(auto, unfolding(crate::specs::HeaderFields::numbers_line))]
    fn numbers_field<W: Destination>(
        &mut self,
        output: &mut W,
        name: &[u8],
        numbers: &[u8],
    ) -> Result<(), WriteFault>
        ensures printed { Prints (W.contents output.old) (W.contents output.new) self.old self.new
            (numbers_line name.now numbers.now) result }
        ensures blames { BlamesWriter W.fails result }
    {
        self.put(output, name)?;
        self.numbers(output, numbers)?;
        self.put(output, b"\n")
    }

    /// Prints a content code and the name of its form. Section 6.2.4.1.
    fn pair<W: Destination>(&mut self, output: &mut W, pair: Pair) -> Result<(), WriteFault>
        ensures printed { Prints (W.contents output.old) (W.contents output.new) self.old self.new
            (pair_text pair) result }
        ensures blames { BlamesWriter W.fails result }
    {
        self.value_start(output, pair.content)?;
        self.put(output, form_name(pair.form))
    }

    /// Prints the pairs of a format.
    fn pairs<W: Destination>(&mut self, output: &mut W, pairs: &[Pair]) -> Result<(), WriteFault>
        ensures printed { Prints (W.contents output.old) (W.contents output.new) self.old self.new
            (flat_map pair_text pairs.now) result }
        ensures blames { BlamesWriter W.fails result }
    {
        for pair in pairs {
            self.pair(output, *pair)?;
        }
        Ok(())
    }

    /// Prints the line of the format of a table.
    #[tactic(auto, unfolding(crate::specs::HeaderFields::format_line))]
    fn format<W: Destination>(
        &mut self,
        output: &mut W,
        name: &[u8],
        pairs: &[Pair],
    ) -> Result<(), WriteFault>
        ensures printed { Prints (W.contents output.old) (W.contents output.new) self.old self.new
            (format_line name.now pairs.now) result }
        ensures blames { BlamesWriter W.fails result }
    {
        self.put(output, name)?;
        self.pairs(output, pairs)?;
        self.put(output, b"\n")
    }

    /// Prints unit_length and header_length.
    #[tactic(auto, unfolding(crate::specs::HeaderFields::lengths_text))]
    fn lengths<W: Destination>(
        &mut self,
        output: &mut W,
        lengths: &HeaderLengths,
    ) -> Result<(), WriteFault>
        ensures printed { Prints (W.contents output.old) (W.contents output.new) self.old self.new
            (lengths_text lengths.now) result }
        ensures blames { BlamesWriter W.fails result }
    {
        self.field(output, b"unit_length", lengths.unit_length)?;
        self.field(output, b"header_length", lengths.header_length)
    }

    /// Prints maximum_operations_per_instruction, from version 4 on.
    #[tactic(auto, unfolding(crate::specs::HeaderFields::operations_text))]
    fn operations<W: Destination>(
        &mut self,
        output: &mut W,
        params: &Params,
    ) -> Result<(), WriteFault>
        ensures printed { Prints (W.contents output.old) (W.contents output.new) self.old self.new
            (operations_text params.now) result }
        ensures blames { BlamesWriter W.fails result }
    {
        if params.version < 4 {
            return Ok(());
        }
        let most = params.maximum_operations_per_instruction;
        self.byte_field(output, b"maximum_operations_per_instruction", most)
    }

    /// Prints the fields of instructions.
    #[tactic(auto, unfolding(crate::specs::HeaderFields::instructions_text))]
    fn instructions<W: Destination>(
        &mut self,
        output: &mut W,
        params: &Params,
    ) -> Result<(), WriteFault>
        ensures printed { Prints (W.contents output.old) (W.contents output.new) self.old self.new
            (instructions_text params.now) result }
        ensures blames { BlamesWriter W.fails result }
    {
        let least = params.minimum_instruction_length;
        self.byte_field(output, b"minimum_instruction_length", least)?;
        self.operations(output, params)
    }

    /// Prints default_is_stmt, line_base and line_range.
    #[tactic(auto, unfolding(crate::specs::HeaderFields::lines_text))]
    fn lines<W: Destination>(&mut self, output: &mut W, header: &Header) -> Result<(), WriteFault>
        ensures printed { Prints (W.contents output.old) (W.contents output.new) self.old self.new
            (lines_text header.now.params) result }
        ensures blames { BlamesWriter W.fails result }
    {
        let params = header.params();
        self.byte_field(output, b"default_is_stmt", params.default_is_stmt)?;
        self.signed_field(output, b"line_base", params.line_base)?;
        self.byte_field(output, b"line_range", params.line_range)
    }

    /// Prints opcode_base, and the lengths of the standard opcodes.
    #[tactic(auto, unfolding(crate::specs::HeaderFields::opcodes_text))]
    fn opcodes<W: Destination>(&mut self, output: &mut W, params: &Params) -> Result<(), WriteFault>
        ensures printed { Prints (W.contents output.old) (W.contents output.new) self.old self.new
            (opcodes_text params.now) result }
        ensures blames { BlamesWriter W.fails result }
    {
        self.byte_field(output, b"opcode_base", params.opcode_base)?;
        self.numbers_field(output, b"lengths", params.lengths.as_slice())
    }

    /// Prints the fields that are numbers, but for the lengths of unit and header.
    #[tactic(auto, unfolding(crate::specs::HeaderFields::params_text))]
    fn params<W: Destination>(&mut self, output: &mut W, header: &Header) -> Result<(), WriteFault>
        ensures printed { Prints (W.contents output.old) (W.contents output.new) self.old self.new
            (params_text header.now.params) result }
        ensures blames { BlamesWriter W.fails result }
    {
        self.instructions(output, header.params())?;
        self.lines(output, header)?;
        self.opcodes(output, header.params())
    }

    /// Prints the formats of both tables, in version 5.
    #[tactic(auto, unfolding(crate::specs::HeaderFields::formats_text))]
    fn formats<W: Destination>(&mut self, output: &mut W, header: &Header) -> Result<(), WriteFault>
        ensures printed { Prints (W.contents output.old) (W.contents output.new) self.old self.new
            (formats_text header.now) result }
        ensures blames { BlamesWriter W.fails result }
    {
        if header.params().version != 5 {
            return Ok(());
        }
        self.format(output, b"directory_format", header.directories().pairs())?;
        self.format(output, b"file_format", header.files().pairs())
    }

    /// Prints how many bytes stand between the tables and the program, where there are any.
    #[tactic(auto, unfolding(crate::specs::HeaderFields::padding_text))]
    fn padding<W: Destination>(&mut self, output: &mut W, padding: u64) -> Result<(), WriteFault>
        ensures printed { Prints (W.contents output.old) (W.contents output.new) self.old self.new
            (padding_text padding) result }
        ensures blames { BlamesWriter W.fails result }
    {
        if padding == 0 {
            return Ok(());
        }
        self.field(output, b"padding", padding)
    }

    /// Prints the lines of the fields of a header, and how many bytes stand after its tables, where there are any.
    pub(crate) fn fields<W: Destination>(
        &mut self,
        output: &mut W,
        lengths: &HeaderLengths,
        header: &Header,
    ) -> Result<(), WriteFault>
        ensures printed { Prints (W.contents output.old) (W.contents output.new) self.old self.new
            (fields_text lengths.now header.now) result }
        ensures blames { BlamesWriter W.fails result }
    {
        self.lengths(output, lengths)?;
        self.params(output, header)?;
        self.formats(output, header)?;
        self.padding(output, lengths.padding)
    }
}

/// The name of a form without `DW_FORM_`. Section 7.5.6, table 7.6.
#[tactic(auto, unfolding(crate::specs::HeaderFields::form_name))]
fn form_name(form: Form) -> &'static [u8]
    ensures { result.now ≡ form_name form }
{
    match form {
        Form::Block2 => b"block2",
        Form::Block4 => b"block4",
        Form::Data2 => b"data2",
        Form::Data4 => b"data4",
        Form::Data8 => b"data8",
        Form::String => b"string",
        Form::Block => b"block",
        Form::Block1 => b"block1",
        Form::Data1 => b"data1",
        Form::Strp => b"strp",
        Form::Udata => b"udata",
        Form::StrpSup => b"strp_sup",
        Form::Data16 => b"data16",
        Form::LineStrp => b"line_strp",
    }
}
