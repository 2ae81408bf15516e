//! Printing headers, and the entries of their tables. Section 6.2.4.
ghost use Rattle.std.specs.Prelude.{◌≤◌, length};
ghost use Rattle.dl_table.specs.EntryHeld.{entry_items};
ghost use Rattle.dl_print.specs.HeaderFields.{full_header_text};
ghost use Rattle.dl_print.specs.HeaderText.{entry_line, file_text, header_text, table_text, tables_text};
ghost use Rattle.dl_print.specs.Output.{BlamesWriter, Prints};
ghost use Rattle.dl_print.specs.ValueText.{strings_of};

use super::{Printer, StringSections};
use crate::fault::WriteFault;
use dl_head::{Entry, Header, HeaderLengths, Table};
use dl_output::Destination;

impl Printer {
    /// Prints the line of an entry of a table: its name, its number and its values.
    fn entry<W: Destination>(
        &mut self,
        output: &mut W,
        strings: &StringSections<'_>,
        name: &[u8],
        number: u64,
        entry: Entry<'_>,
    ) -> Result<(), WriteFault>
        requires short { length name.now ≤ 16 }
        ensures printed { Prints (W.contents output.old) (W.contents output.new) self.old self.new
            (entry_line (strings_of strings.now) name.now number (entry_items entry.entry)) result }
        ensures blames { BlamesWriter W.fails result }
    {
        self.number(output, name, number)?;
        for (content, value) in entry.values() {
            self.named_value(output, strings, content, value)?;
        }
        self.put(output, b"\n")
    }

    /// Prints a line for each entry of a table, whose numbers begin with `first`.
    fn table<W: Destination>(
        &mut self,
        output: &mut W,
        strings: &StringSections<'_>,
        name: &[u8],
        first: u64,
        table: &Table,
    ) -> Result<(), WriteFault>
        requires short { length name.now ≤ 16 }
        requires least { first ≤ 1 }
        ensures printed { Prints (W.contents output.old) (W.contents output.new) self.old self.new
            (table_text (strings_of strings.now) name.now first table.now) result }
        ensures blames { BlamesWriter W.fails result }
    {
        for i in 0..table.len() {
            if let Some(entry) = table.entry(i) {
                self.entry(output, strings, name, first + i as u64, entry)?;
            }
        }
        Ok(())
    }

    /// Prints the entries of both tables of a header.
    fn tables<W: Destination>(
        &mut self,
        output: &mut W,
        strings: &StringSections<'_>,
        header: &Header,
    ) -> Result<(), WriteFault>
        ensures printed { Prints (W.contents output.old) (W.contents output.new) self.old self.new
            (tables_text (strings_of strings.now) header.now) result }
        ensures blames { BlamesWriter W.fails result }
    {
        let first = header.first_number();
        self.table(output, strings, b"dir ", first, header.directories())?;
        self.table(output, strings, b"file ", first, header.files())
    }

    /// Prints the lines of a header whose unit begins at `offset` of its section.
    pub fn header<W: Destination>(
        &mut self,
        output: &mut W,
        strings: &StringSections<'_>,
        offset: u64,
        header: &Header,
    ) -> Result<(), WriteFault>
        ensures printed { Prints (W.contents output.old) (W.contents output.new) self.old self.new
            (header_text (strings_of strings.now) offset header.now) result }
        ensures blames { BlamesWriter W.fails result }
    {
        self.unit(output, offset, header.params())?;
        self.tables(output, strings, header)
    }

    /// Prints the lines of a header whose unit begins at `offset` of its section, with those of its fields before
    /// its tables.
    pub fn full_header<W: Destination>(
        &mut self,
        output: &mut W,
        strings: &StringSections<'_>,
        offset: u64,
        lengths: &HeaderLengths,
        header: &Header,
    ) -> Result<(), WriteFault>
        ensures printed { Prints (W.contents output.old) (W.contents output.new) self.old self.new
            (full_header_text (strings_of strings.now) offset lengths.now header.now) result }
        ensures blames { BlamesWriter W.fails result }
    {
        self.unit(output, offset, header.params())?;
        self.fields(output, lengths, header)?;
        self.tables(output, strings, header)
    }

    /// Prints the line of the file of this number, or that there is none.
    pub fn file<W: Destination>(
        &mut self,
        output: &mut W,
        strings: &StringSections<'_>,
        header: &Header,
        file: u64,
    ) -> Result<(), WriteFault>
        ensures printed { Prints (W.contents output.old) (W.contents output.new) self.old self.new
            (file_text (strings_of strings.now) header.now file) result }
        ensures blames { BlamesWriter W.fails result }
    {
        match header.file(file) {
            Some(entry) => self.entry(output, strings, b"file ", file, entry),
            None => self.missing_file(output, file),
        }
    }
}
