//! Printing values, of any length.
ghost use Rattle.std.specs.Prelude.{◌≡◌, ◌+◌, ◌*◌, ◌^◌, ◌<◌, ◌≤◌, ◌++◌, length, flat_map, OnOk, codes, decimal};
ghost use Rattle.std.specs.Option.{option_copied};
ghost use Rattle.dl_print.specs.Digits.{hexadecimal, hexadecimal_bytes, hexadecimal_of};
ghost use Rattle.dl_print.specs.Output.{BlamesWriter, Prints, printed_len};
ghost use Rattle.dl_table.specs.Held.{value_lent};
ghost use Rattle.dl_print.specs.Spellings.{spelled};
ghost use Rattle.dl_print.specs.ValueText.{quoted, quoted_bytes, offset_text, quoted_or_offset};
ghost use Rattle.dl_print.specs.ValueText.{text_in_section, value_text, named_value, content_name, strings_of};

use super::Printer;
use super::string_sections::{StringSection, StringSections, text_in_section};
use crate::fault::WriteFault;
use crate::text::{
    write_address, write_hexadecimal_bytes, write_hexadecimal_number, write_number, write_offset,
    write_quoted_bytes, write_value_start,
};
use dl_head::ValueRef;
use dl_output::Destination;

/// How many bytes of a value are printed in one go.
const PART: usize = 64;

/// How the bytes of a value are spelled.
#[derive(Clone, Copy)]
enum Spelling {
    /// Two hexadecimal digits for each.
    Digits,
    /// As they stand between quotes.
    Quoted,
}

impl Printer {
    /// Prints two digits for each of a few bytes.
    fn hexadecimal_part<W: Destination>(
        &mut self,
        output: &mut W,
        bytes: &[u8],
    ) -> Result<(), WriteFault>
        requires short { length bytes.now ≤ 64 }
        ensures printed { Prints (W.contents output.old) (W.contents output.new)
            self.old self.new (hexadecimal_bytes bytes.now) result }
        ensures blames { BlamesWriter W.fails result }
    {
        self.make_room(output)?;
        self.held = write_hexadecimal_bytes(&mut self.buffer, self.held, bytes);
        Ok(())
    }

    /// Prints the bytes of a block.
    fn block<W: Destination>(&mut self, output: &mut W, bytes: &[u8]) -> Result<(), WriteFault>
        ensures printed { Prints (W.contents output.old) (W.contents output.new)
            self.old self.new (codes "block:" ++ hexadecimal_bytes bytes.now) result }
        ensures blames { BlamesWriter W.fails result }
    {
        self.put(output, b"block:")?;
        self.spelled(output, Spelling::Digits, bytes)
    }

    /// Prints a name, of at most 16 bytes, and after it a number in decimal.
    pub fn number<W: Destination>(
        &mut self,
        output: &mut W,
        name: &[u8],
        number: u64,
    ) -> Result<(), WriteFault>
        requires short { length name.now ≤ 16 }
        ensures printed { Prints (W.contents output.old) (W.contents output.new)
            self.old self.new (name.now ++ decimal number) result }
        ensures blames { BlamesWriter W.fails result }
    {
        self.make_room(output)?;
        self.held = write_number(&mut self.buffer, self.held, name, number);
        Ok(())
    }

    /// Prints a name, of at most 16 bytes, and after it a number in hexadecimal without leading zeros.
    pub fn hexadecimal_number<W: Destination>(
        &mut self,
        output: &mut W,
        name: &[u8],
        number: u64,
    ) -> Result<(), WriteFault>
        requires short { length name.now ≤ 16 }
        ensures printed { Prints (W.contents output.old) (W.contents output.new)
            self.old self.new (name.now ++ hexadecimal number) result }
        ensures blames { BlamesWriter W.fails result }
    {
        self.make_room(output)?;
        self.held = write_hexadecimal_number(&mut self.buffer, self.held, name, number);
        Ok(())
    }

    /// Prints an address in sixteen hexadecimal digits after `0x`.
    pub fn address<W: Destination>(
        &mut self,
        output: &mut W,
        address: u64,
    ) -> Result<(), WriteFault>
        ensures printed { Prints (W.contents output.old) (W.contents output.new)
            self.old self.new (codes "0x" ++ hexadecimal_of 16 address) result }
        ensures blames { BlamesWriter W.fails result }
    {
        self.make_room(output)?;
        self.held = write_address(&mut self.buffer, self.held, address);
        Ok(())
    }

    /// Prints a few bytes as they stand between quotes.
    fn quoted_part<W: Destination>(
        &mut self,
        output: &mut W,
        bytes: &[u8],
    ) -> Result<(), WriteFault>
        requires short { length bytes.now ≤ 64 }
        ensures printed { Prints (W.contents output.old) (W.contents output.new)
            self.old self.new (quoted_bytes bytes.now) result }
        ensures blames { BlamesWriter W.fails result }
    {
        self.make_room(output)?;
        self.held = write_quoted_bytes(&mut self.buffer, self.held, bytes);
        Ok(())
    }

    /// Prints a few bytes, spelled so.
    fn spelled_part<W: Destination>(
        &mut self,
        output: &mut W,
        spelling: Spelling,
        bytes: &[u8],
    ) -> Result<(), WriteFault>
        requires short { length bytes.now ≤ 64 }
        ensures printed { Prints (W.contents output.old) (W.contents output.new)
            self.old self.new (flat_map (spelled spelling) bytes.now) result }
        ensures blames { BlamesWriter W.fails result }
    {
        match spelling {
            Spelling::Digits => self.hexadecimal_part(output, bytes),
            Spelling::Quoted => self.quoted_part(output, bytes),
        }
    }

    /// Prints bytes, spelled so.
    fn spelled<W: Destination>(
        &mut self,
        output: &mut W,
        spelling: Spelling,
        bytes: &[u8],
    ) -> Result<(), WriteFault>
        ensures printed { Prints (W.contents output.old) (W.contents output.new)
            self.old self.new (flat_map (spelled spelling) bytes.now) result }
        ensures blames { BlamesWriter W.fails result }
    {
        let mut done = 0;
        while done < bytes.len() {
            let end = bytes.len().min(done + PART);
            self.spelled_part(output, spelling, &bytes[done..end])?;
            done = end;
        }
        Ok(())
    }

    /// Prints two digits for each byte.
    pub fn hexadecimal_bytes<W: Destination>(
        &mut self,
        output: &mut W,
        bytes: &[u8],
    ) -> Result<(), WriteFault>
        ensures printed { Prints (W.contents output.old) (W.contents output.new)
            self.old self.new (hexadecimal_bytes bytes.now) result }
        ensures blames { BlamesWriter W.fails result }
    {
        self.spelled(output, Spelling::Digits, bytes)
    }

    /// Prints a text in quotes.
    fn quoted<W: Destination>(&mut self, output: &mut W, text: &[u8]) -> Result<(), WriteFault>
        ensures printed { Prints (W.contents output.old) (W.contents output.new)
            self.old self.new (quoted text.now) result }
        ensures blames { BlamesWriter W.fails result }
    {
        self.put(output, b"\"")?;
        self.spelled(output, Spelling::Quoted, text)?;
        self.put(output, b"\"")
    }

    /// Prints an offset into a section, after the name of its form.
    fn offset<W: Destination>(
        &mut self,
        output: &mut W,
        name: &[u8],
        offset: u64,
    ) -> Result<(), WriteFault>
        requires short { length name.now ≤ 16 }
        ensures printed { Prints (W.contents output.old) (W.contents output.new)
            self.old self.new (offset_text name.now offset) result }
        ensures blames { BlamesWriter W.fails result }
    {
        self.make_room(output)?;
        self.held = write_offset(&mut self.buffer, self.held, name, offset);
        Ok(())
    }

    /// Prints the text at an offset of a section, or the offset where there is none.
    fn string<W: Destination>(
        &mut self,
        output: &mut W,
        name: &[u8],
        section: Option<&StringSection<'_>>,
        offset: u64,
    ) -> Result<(), WriteFault>
        requires short { length name.now ≤ 16 }
        ensures printed { Prints (W.contents output.old) (W.contents output.new) self.old self.new
            (quoted_or_offset name.now offset
            (text_in_section (option_copied section.entry) offset)) result }
        ensures blames { BlamesWriter W.fails result }
    {
        match text_in_section(section, offset) {
            Some(text) => self.quoted(output, text),
            None => self.offset(output, name, offset),
        }
    }

    /// Prints a value. Texts are looked up in the string sections.
    fn value<W: Destination>(
        &mut self,
        output: &mut W,
        strings: &StringSections<'_>,
        value: ValueRef<'_>,
    ) -> Result<(), WriteFault>
        ensures printed { Prints (W.contents output.old) (W.contents output.new) self.old self.new
            (value_text (strings_of strings.now) (value_lent value.entry)) result }
        ensures blames { BlamesWriter W.fails result }
    {
        match value {
            ValueRef::Text(text) => self.quoted(output, text),
            ValueRef::LineStr(at) => {
                self.string(output, b"line_strp", strings.debug_line_str.as_ref(), at)
            }
            ValueRef::Str(at) => self.string(output, b"strp", strings.debug_str.as_ref(), at),
            ValueRef::StrSup(at) => self.offset(output, b"strp_sup", at),
            ValueRef::Number(number) => self.number(output, b"", number),
            ValueRef::Block(bytes) => self.block(output, bytes),
            ValueRef::Data16(bytes) => self.spelled(output, Spelling::Digits, &bytes),
        }
    }

    /// Prints a value after the name of its content code.
    pub fn named_value<W: Destination>(
        &mut self,
        output: &mut W,
        strings: &StringSections<'_>,
        content: u64,
        value: ValueRef<'_>,
    ) -> Result<(), WriteFault>
        ensures printed { Prints (W.contents output.old) (W.contents output.new) self.old self.new
            (named_value (strings_of strings.now) content (value_lent value.entry)) result }
        ensures blames { BlamesWriter W.fails result }
    {
        self.value_start(output, content)?;
        self.value(output, strings, value)
    }

    /// Prints what stands before a value of that content code.
    pub(crate) fn value_start<W: Destination>(
        &mut self,
        output: &mut W,
        content: u64,
    ) -> Result<(), WriteFault>
        ensures printed { Prints (W.contents output.old) (W.contents output.new) self.old self.new
            (codes " " ++ content_name content ++ codes "=") result }
        ensures blames { BlamesWriter W.fails result }
    {
        self.make_room(output)?;
        self.held = write_value_start(&mut self.buffer, self.held, content);
        Ok(())
    }
}
