//! Texts as they are printed in JSON strings. RFC 8259, section 7.

ghost use Rattle.std.specs.Prelude.{◌≡◌, ◌<◌, ◌≤◌, ◌==◌, ◌++◌, true, [], drop, if◌then◌else◌, length, take};
ghost use Rattle.std.specs.List.{list_all};
ghost use Rattle.std.specs.Char.{digit_char};
ghost use Rattle.std.specs.Str.Lossy.{replacement_bytes, utf8_lossy};
ghost use Rattle.json.specs.Print.{escape, escape_byte, escape_letter};
ghost use Rattle.dl_print.specs.Output.{BlamesWriter, Prints};
ghost use Rattle.dl_path.specs.Fronts.{front_text};
ghost use Rattle.dl_path.specs.Shown.{stands};

use crate::shown::is_all_plain;
use dl_output::Destination;
use dl_print::{Printer, WriteFault};

/// Prints a text as it stands between the quotes of a JSON string; U+FFFD stands for what isn't UTF-8.
pub fn print_json_text<W: Destination>(
    printer: &mut Printer,
    output: &mut W,
    text: &[u8],
) -> Result<(), WriteFault>
    ensures printed { Prints (W.contents output.old) (W.contents output.new) printer.old printer.new
        (escape (utf8_lossy text.now)) result }
    ensures blames { BlamesWriter W.fails result }
{
    if is_all_plain(text) {
        return printer.put(output, text);
    }
    for chunk in text.utf8_chunks() {
        print_escaped(printer, output, chunk.valid().as_bytes())?;
        print_replacement(printer, output, chunk.invalid())?;
    }
    Ok(())
}

/// Prints what stands for bytes that aren't UTF-8, where there are some.
fn print_replacement<W: Destination>(
    printer: &mut Printer,
    output: &mut W,
    invalid: &[u8],
) -> Result<(), WriteFault>
    ensures printed { Prints (W.contents output.old) (W.contents output.new) printer.old printer.new
        (if length invalid.now == 0 then [] else replacement_bytes) result }
    ensures blames { BlamesWriter W.fails result }
{
    if invalid.is_empty() {
        printer.put(output, b"")
    } else {
        printer.put(output, b"\xef\xbf\xbd")
    }
}

/// Prints a text with its escapes.
fn print_escaped<W: Destination>(
    printer: &mut Printer,
    output: &mut W,
    text: &[u8],
) -> Result<(), WriteFault>
    ensures printed { Prints (W.contents output.old) (W.contents output.new) printer.old printer.new
        (escape text.now) result }
    ensures blames { BlamesWriter W.fails result }
{
    let mut at = 0;
    while at < text.len() {
        let rest = &text[at..];
        let len = front_len(rest);
        print_front(printer, output, &rest[..len])?;
        at += len;
    }
    Ok(())
}

/// How many bytes at the front of a text are printed in one go: all that stand for themselves, or else one.
fn front_len(text: &[u8]) -> usize
    requires { 0 < length text.now }
    ensures some { 0 < result }
    ensures within { result ≤ length text.now }
    ensures cut { escape text.now ≡ front_text escape_byte (take result text.now) ++ escape (drop result text.now) }
{
    standing_len(text).max(1)
}

/// How many bytes at the front of a text stand for themselves.
fn standing_len(text: &[u8]) -> usize
    ensures within { result ≤ length text.now }
    ensures stand { list_all stands (take result text.now) ≡ true }
{
    let mut len = 0;
    while len < text.len() && stands(text[len]) {
        len += 1;
    }
    len
}

/// Whether a byte stands for itself.
fn stands(byte: u8) -> bool
    ensures { result ≡ stands byte }
{
    0x20 <= byte && byte != b'"' && byte != b'\\'
}

/// Prints bytes that are printed in one go.
fn print_front<W: Destination>(
    printer: &mut Printer,
    output: &mut W,
    front: &[u8],
) -> Result<(), WriteFault>
    ensures printed { Prints (W.contents output.old) (W.contents output.new) printer.old printer.new
        (front_text escape_byte front.now) result }
    ensures blames { BlamesWriter W.fails result }
{
    if front.len() == 1 {
        print_byte(printer, output, front[0])
    } else {
        printer.put(output, front)
    }
}

/// Prints a byte, or its escape.
fn print_byte<W: Destination>(
    printer: &mut Printer,
    output: &mut W,
    byte: u8,
) -> Result<(), WriteFault>
    ensures printed { Prints (W.contents output.old) (W.contents output.new) printer.old printer.new
        (escape_byte byte) result }
    ensures blames { BlamesWriter W.fails result }
{
    let letter = escape_letter(byte);
    if letter > 0 {
        printer.put(output, &[b'\\', letter])
    } else if byte < 0x20 {
        printer.put(
            output,
            &[b'\\', b'u', b'0', b'0', digit(byte / 16), digit(byte % 16)],
        )
    } else {
        printer.put(output, &[byte])
    }
}

/// The letter of a byte's short escape; 0 where it has none.
fn escape_letter(byte: u8) -> u8
    ensures { result ≡ escape_letter byte }
{
    if byte == b'"' || byte == b'\\' {
        byte
    } else if byte == 8 {
        b'b'
    } else if byte == 12 {
        b'f'
    } else if byte == b'\n' {
        b'n'
    } else if byte == b'\r' {
        b'r'
    } else if byte == b'\t' {
        b't'
    } else {
        0
    }
}

/// A hexadecimal digit.
fn digit(number: u8) -> u8
    requires { number < 16 }
    ensures { result ≡ digit_char number }
{
    if number < 10 {
        b'0' + number
    } else {
        b'a' + (number - 10)
    }
}
