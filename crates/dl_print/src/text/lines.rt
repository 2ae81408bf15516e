//! The lines of units, and those of `find` and `check`.
ghost use Rattle.std.specs.Prelude.{◌≡◌, ◌+◌, ◌≤◌, [], ◌∷◌, ◌++◌, length, take, codes, decimal};
ghost use Rattle.dl_print.specs.Digits.{hexadecimal};
ghost use Rattle.dl_print.specs.Text.{format_name, unit_line, foreign_line, missing_line};
ghost use Rattle.dl_print.specs.Text.{counts_text, summary_line, survey_line};

use crate::summary::Summary;
use crate::text::digits::{write_byte, write_bytes, write_hexadecimal, write_number};
use dl_head::{Format, Params};

/// Writes `unit` and the offset of its first byte, and answers where they end.
#[tactic(auto, using(crate::proofs::HexadecimalLemmas::hexadecimal_room))]
fn write_unit(buffer: &mut [u8], at: usize, offset: u64) -> usize
    requires { at + 23 ≤ length buffer.old }
    ensures written { take result buffer.new
        ≡ take at buffer.old ++ codes "unit 0x" ++ hexadecimal offset }
    ensures room { result ≤ at + 23 }
{
    let at = write_bytes(buffer, at, b"unit 0x");
    write_hexadecimal(buffer, at, offset)
}

/// Writes the name of a format, and answers where it ends.
fn write_format(buffer: &mut [u8], at: usize, format: Format) -> usize
    requires { at + 7 ≤ length buffer.old }
    ensures written { take result buffer.new ≡ take at buffer.old ++ format_name format }
    ensures room { result ≤ at + 7 }
{
    match format {
        Format::Dwarf32 => write_bytes(buffer, at, b"dwarf32"),
        Format::Dwarf64 => write_bytes(buffer, at, b"dwarf64"),
    }
}

/// Writes the line of a unit that is read, and answers where it ends.
pub fn write_unit_line(buffer: &mut [u8], at: usize, offset: u64, params: &Params) -> usize
    requires { at + 128 ≤ length buffer.old }
    ensures written { take result buffer.new
        ≡ take at buffer.old ++ unit_line offset params.now }
    ensures room { result ≤ at + 128 }
{
    let at = write_unit(buffer, at, offset);
    let at = write_byte(buffer, at, b' ');
    let at = write_format(buffer, at, params.format);
    let at = write_number(buffer, at, b" version ", params.version as u64);
    let at = write_number(buffer, at, b" address_size ", params.address_size as u64);
    write_byte(buffer, at, b'\n')
}

/// Writes the line of a unit that is passed over for its version, and answers where it ends.
pub fn write_foreign_line(buffer: &mut [u8], at: usize, offset: u64, version: u16) -> usize
    requires { at + 128 ≤ length buffer.old }
    ensures written { take result buffer.new ≡ take at buffer.old ++ foreign_line offset version }
    ensures room { result ≤ at + 128 }
{
    let at = write_unit(buffer, at, offset);
    let at = write_number(buffer, at, b" version ", version as u64);
    write_bytes(buffer, at, b" skipped\n")
}

/// Writes that a file isn't in the table, and answers where the line ends.
pub fn write_missing_line(buffer: &mut [u8], at: usize, file: u64) -> usize
    requires { at + 128 ≤ length buffer.old }
    ensures written { take result buffer.new ≡ take at buffer.old ++ missing_line file }
    ensures room { result ≤ at + 128 }
{
    let at = write_number(buffer, at, b"file ", file);
    write_bytes(buffer, at, b" missing\n")
}

/// Writes the counts, and answers where they end.
fn write_counts(buffer: &mut [u8], at: usize, summary: &Summary) -> usize
    requires { at + 112 ≤ length buffer.old }
    ensures written { take result buffer.new ≡ take at buffer.old ++ counts_text summary.now }
    ensures room { result ≤ at + 112 }
{
    let at = write_number(buffer, at, b"units ", summary.units);
    let at = write_number(buffer, at, b" skipped ", summary.skipped);
    let at = write_number(buffer, at, b" sequences ", summary.sequences);
    write_number(buffer, at, b" rows ", summary.rows)
}

/// Writes the line of the counts, and answers where it ends.
pub fn write_summary_line(buffer: &mut [u8], at: usize, summary: &Summary) -> usize
    requires { at + 128 ≤ length buffer.old }
    ensures written { take result buffer.new ≡ take at buffer.old ++ summary_line summary.now }
    ensures room { result ≤ at + 128 }
{
    let at = write_counts(buffer, at, summary);
    write_byte(buffer, at, b'\n')
}

/// Writes the line of the counts with how many units are damaged, and answers where it ends.
pub fn write_survey_line(buffer: &mut [u8], at: usize, summary: &Summary, damaged: u64) -> usize
    requires { at + 144 ≤ length buffer.old }
    ensures written { take result buffer.new ≡ take at buffer.old ++ survey_line summary.now damaged }
    ensures room { result ≤ at + 144 }
{
    let at = write_counts(buffer, at, summary);
    let at = write_number(buffer, at, b" damaged ", damaged);
    write_byte(buffer, at, b'\n')
}
