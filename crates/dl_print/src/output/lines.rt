//! Printing lines of fixed parts.
ghost use Rattle.std.specs.Prelude.{◌+◌, ◌^◌, ◌<◌, ◌≤◌, OnOk};
ghost use Rattle.dl_print.specs.Output.{BlamesWriter, Prints, printed_len};
ghost use Rattle.dl_print.specs.Text.{row_line, unit_line, foreign_line, open_line, missing_line, summary_line};
ghost use Rattle.dl_print.specs.Text.{row_text, survey_line};

use super::Printer;
use crate::fault::WriteFault;
use crate::summary::Summary;
use crate::text::{
    write_foreign_line, write_missing_line, write_row, write_row_text, write_summary_line,
    write_survey_line, write_unit_line,
};
use dl_head::Params;
use dl_output::Destination;
use dl_rows::Row;

impl Printer {
    /// Prints the line of a row.
    #[inline]
    pub fn row<W: Destination>(&mut self, output: &mut W, row: &Row) -> Result<(), WriteFault>
        ensures printed { Prints (W.contents output.old) (W.contents output.new)
            self.old self.new (row_line row.now) result }
        ensures blames { BlamesWriter W.fails result }
    {
        self.make_room(output)?;
        self.held = write_row(&mut self.buffer, self.held, row);
        Ok(())
    }

    /// Prints what the line of a row says, without the newline at its end.
    pub fn row_text<W: Destination>(&mut self, output: &mut W, row: &Row) -> Result<(), WriteFault>
        ensures printed { Prints (W.contents output.old) (W.contents output.new)
            self.old self.new (row_text row.now) result }
        ensures blames { BlamesWriter W.fails result }
    {
        self.make_room(output)?;
        self.held = write_row_text(&mut self.buffer, self.held, row);
        Ok(())
    }

    /// Prints the line of a unit that is read, which begins at `offset` of its section.
    pub fn unit<W: Destination>(
        &mut self,
        output: &mut W,
        offset: u64,
        params: &Params,
    ) -> Result<(), WriteFault>
        ensures printed { Prints (W.contents output.old) (W.contents output.new)
            self.old self.new (unit_line offset params.now) result }
        ensures blames { BlamesWriter W.fails result }
    {
        self.make_room(output)?;
        self.held = write_unit_line(&mut self.buffer, self.held, offset, params);
        Ok(())
    }

    /// Prints the line of a unit that is passed over for its version, and begins at `offset` of its section.
    pub fn foreign_unit<W: Destination>(
        &mut self,
        output: &mut W,
        offset: u64,
        version: u16,
    ) -> Result<(), WriteFault>
        ensures printed { Prints (W.contents output.old) (W.contents output.new)
            self.old self.new (foreign_line offset version) result }
        ensures blames { BlamesWriter W.fails result }
    {
        self.make_room(output)?;
        self.held = write_foreign_line(&mut self.buffer, self.held, offset, version);
        Ok(())
    }

    /// Prints that a unit's last sequence has no end row.
    pub fn open_sequence<W: Destination>(&mut self, output: &mut W) -> Result<(), WriteFault>
        ensures printed { Prints (W.contents output.old) (W.contents output.new)
            self.old self.new open_line result }
        ensures blames { BlamesWriter W.fails result }
    {
        self.put(output, b"open\n")
    }

    /// Prints that the table of files has no entry of this number.
    pub fn missing_file<W: Destination>(
        &mut self,
        output: &mut W,
        file: u64,
    ) -> Result<(), WriteFault>
        ensures printed { Prints (W.contents output.old) (W.contents output.new)
            self.old self.new (missing_line file) result }
        ensures blames { BlamesWriter W.fails result }
    {
        self.make_room(output)?;
        self.held = write_missing_line(&mut self.buffer, self.held, file);
        Ok(())
    }

    /// Prints the counts.
    pub fn summary<W: Destination>(
        &mut self,
        output: &mut W,
        summary: &Summary,
    ) -> Result<(), WriteFault>
        ensures printed { Prints (W.contents output.old) (W.contents output.new)
            self.old self.new (summary_line summary.now) result }
        ensures blames { BlamesWriter W.fails result }
    {
        self.make_room(output)?;
        self.held = write_summary_line(&mut self.buffer, self.held, summary);
        Ok(())
    }

    /// Prints the counts, with how many units are damaged.
    pub fn survey<W: Destination>(
        &mut self,
        output: &mut W,
        summary: &Summary,
        damaged: u64,
    ) -> Result<(), WriteFault>
        ensures printed { Prints (W.contents output.old) (W.contents output.new)
            self.old self.new (survey_line summary.now damaged) result }
        ensures blames { BlamesWriter W.fails result }
    {
        self.make_room(output)?;
        self.held = write_survey_line(&mut self.buffer, self.held, summary, damaged);
        Ok(())
    }
}
